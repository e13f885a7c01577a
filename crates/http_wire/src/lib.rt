//! The HTTP side of a connection: requests and upgrades to WebSocket from its bytes, in whatever pieces they come, and
//! the bytes of answers.
//!
//! HTTP/1.0 and HTTP/1.1 are those of RFC 9110 and RFC 9112, the upgrade is that of RFC 6455, section 4.
#![tactic(auto)]

mod answers;
mod asks;
mod feeding;
mod fields;
mod laws;
mod limits;
mod look;
mod outs;
mod verdict;

pub use answers::{answer_bytes, refusal, upgrade_bytes};
pub use asks::{Chosen, Fed, HttpAsk, Key, Method, WireFail};
pub use feeding::Wire;
pub use laws::{
    any_cut_is_taken_in_order, bytes_have_one_answer_list, fronts_stay_answered,
    no_bytes_are_without_answers, nothing_is_held_back,
};
pub use limits::{MAX_BODY_BYTES, MAX_FIELDS, MAX_HEAD_BYTES, limits_are};
pub use outs::{Allow, HttpAnswer, Out, Outs};
