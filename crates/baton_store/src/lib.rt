//! The batons that tie the exchanges of a stream together. A baton is accepted once, and lives for ten seconds.
#![tactic(auto)]

mod laws;
mod limits;
mod store;
mod text;

pub use laws::{a_text_is_accepted_once, live_exactly_by_the_calls, no_two_issues_give_one_text};
pub use limits::{BATON_LIFE_MS, limits_are};
pub use store::{BatonStore, Redeem};
pub use text::Baton;
