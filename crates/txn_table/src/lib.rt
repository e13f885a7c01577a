//! Who may write. At most one stream holds the turn; others wait for it in the order of their arrival.
#![tactic(auto)]

mod laws;
mod table;
mod tickets;

pub use laws::{
    at_most_one_stream_holds_the_turn, each_grant_is_by_the_rules, each_version_is_of_one_commit,
    each_waiter_waits_once,
};
pub use table::{Grant, Need, TxnTable};
