//! The stream of a client, which is one session of the database: it is asked things, and polled. Each poll runs at most
//! one statement and adds at most one entry, of this stream.
#![tactic(auto)]

mod act;
mod advance;
mod checks;
mod cutting;
mod laws;
mod leads;
mod limits;
mod outcomes;
mod queued;
mod replies;
mod session;
mod statement;
mod steps;
mod table;
mod task;
mod texts;
mod todo;
mod together;
mod turns;
mod work;

pub use laws::{
    batches_are_meant, begun_units_are_next, each_poll_leaves_the_meaning, each_reply_is_meant,
    polls_reply_to_pipelines, replies_stand_in_order, shut_streams_add_nothing,
    streams_are_closed_by_closes,
};
pub use leads::{
    a_joined_stream_stands, ends_lead_on, journal_says_what_stands, polls_lead_on,
    streams_stand_at_first, version_alone_stands,
};
pub use limits::{MAX_STORED_BYTES, MAX_STORED_TEXTS, limits_are};
pub use queued::Queued;
pub use session::{Cause, TxnState};
pub use task::{Poll, Stepped, StreamTask, Task};
pub use texts::{StoredText, StoredTexts, stored_text};
pub use together::{
    a_stream_joins, ends_keep_agreement, polls_keep_agreement, streams_agree, streams_begin,
};
