//! The top call: a script is played over the hub, and what its events add is noted by a journal.
#![tactic(auto)]

mod asks;
mod lines;
mod notes;
mod prints;
mod replay;
mod script;
mod top;
mod words;

pub use engine_core::Status;
pub use script::no_line_is_two_events;
pub use top::{Ended, World, hrana};
pub use words::{MAX_TOKEN_BYTES, limits_are};
