//! What a stream is asked and what it replies, over both transports, and the entries of a cursor, as types, read from
//! JSON trees and sent as JSON text (HRANA_3_SPEC, "Requests", "Cursor entries").
#![tactic(auto)]

mod ask_json;
mod ask_kinds;
mod asks;
mod entries;
mod entry_json;
mod json_texts;
mod pipeline_kinds;
mod replies;
mod reply_json;
mod result_json;
mod result_text;
mod sending;

pub use ask_json::{ask_of_json, fitting_asks_are_read, no_members_are_two_asks, stored_of_json};
pub use ask_kinds::{ASK_KINDS, ask_kind_name, ask_kind_of_name, ask_kinds_differ};
pub use asks::{Ask, AskKind};
pub use entries::{CursorEntry, EntryKind, EntryList};
pub use entry_json::{
    ENTRY_KINDS, entries_are_read, entries_of_json, entry_kinds_differ, entry_of_json,
    no_tree_is_two_entries,
};
pub use json_texts::json_of_bytes;
pub use pipeline_kinds::{
    is_pipeline_kind, is_pipeline_reply, pipeline_kind_of_json, pipeline_kind_of_name,
};
pub use replies::Reply;
pub use reply_json::{no_members_are_two_replies, replies_are_read, reply_of_json};
pub use result_json::{no_tree_is_two_pipeline_results, pipeline_results_are_read};
pub use result_text::send_response;
pub use sending::{ask_member_count, reply_member_count, send_ask, send_error_as, send_reply};
