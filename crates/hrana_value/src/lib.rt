//! Values of Hrana 3, texts and bytes that contracts see as lists of bytes, and how they stand in JSON.
//!
//! A value's JSON form is that of HRANA_3_SPEC, "Value", without floats: a `float` is declined.
#![tactic(auto)]

mod bytes;
mod failures;
mod forms;
mod integers;
mod list;
mod members;
mod names;
mod numbers;
mod readings;
mod sending;
mod text;
mod texts;
mod tree;
mod value;
mod written;

pub use bytes::Bytes;
pub use failures::{Decline, NoMemory, ReadFail};
pub use forms::{JsonForm, list_of_json, option_of_json, optional_list_of_json};
pub use integers::{int64_of_text, int64_text_of_json, optional_int64_text_of_json};
pub use list::{Duplicate, List};
pub use members::{int32_member, is_absent, member_or_null, text_member};
pub use names::{index_of, name};
pub use numbers::{int32, int32_of_json, uint32, uint32_of_json, uint64, uint64_of_json};
pub use readings::{both_readings, with_item};
pub use sending::{
    JsonText, end_with_text, json_of, send_int32, send_list, send_text_member, send_uint64, text_of,
};
pub use text::Txt;
pub use texts::text_of_json;
pub use tree::{
    VALUE_KINDS, no_tree_is_two_values, no_value_is_declined, value_kinds_differ, value_of_json,
};
pub use value::{Value, Values};
pub use written::value_to_json;

/// The number of a stream, from 1 in the order of opening.
#[derive(Clone, Copy, Debug, PartialEq, Eq)]
pub struct StreamNo(pub u64);
