//! The hub: connections, their streams, and one event at a time.
#![tactic(auto)]

mod agreement;
mod arrivals;
mod calls;
mod connection;
mod connections;
mod ends;
mod events;
mod exchange_arrivals;
mod exchange_polls;
mod exchanges;
mod hub;
mod laws;
mod limits;
mod moments;
mod outs;
mod polls;
mod sessions;
mod slot;
mod step;
mod streams;
mod texts;

pub use agreement::{
    a_new_hub_agrees, nothing_lives_without_streams, taken_entries_leave_agreement,
};
pub use events::Event;
pub use hub::Hub;
pub use laws::{
    dead_batons_change_nothing, exchanges_are_answered_in_order, exchanges_are_answered_once,
    limits_hold, no_baton_is_accepted_twice, refusals_for_words_have_failed_draws,
    replies_follow_requests, runs_have_versions, the_dead_add_nothing,
    waiting_requests_are_counted,
};
pub use limits::{
    EXPIRY_MS, MAX_CONNECTIONS, MAX_EVENTS, MAX_OUTSTANDING, MAX_SESSIONS, MAX_STREAMS, limits_are,
};
