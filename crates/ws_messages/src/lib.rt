//! Messages over a WebSocket: from the bytes of a text and back (HRANA_3_SPEC, "Messages").
#![tactic(auto)]

mod client;
mod forms;
mod kinds;
mod messages;
mod request_json;
mod request_text;
mod response_json;
mod sending;
mod server;

pub use client::{
    decode_client, encode_client, fitting_client_messages_are_read, no_text_has_two_client_answers,
    no_tree_is_two_client_messages,
};
pub use forms::reply_has_form;
pub use kinds::{Kind, kind_name, kind_of, kind_of_name, request_kinds_differ};
pub use messages::{ClientMsg, MsgFail, ServerMsg, Why, WsRequest};
pub use server::{
    decode_server, encode_server, no_text_has_two_server_answers, no_tree_is_two_server_messages,
    server_messages_are_read,
};
