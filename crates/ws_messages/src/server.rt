// Messages of the server, from texts and back.
ghost use Rattle.std.specs.Prelude.{◌≡◌, ℤ, IfOk, IfErr, codes};
ghost use Rattle.serde_json.specs.View.{view};
ghost use Rattle.serde_json.specs.Written.{compact_text};
ghost use Rattle.hrana_value.specs.Members.{HasText};
ghost use Rattle.hrana_value.specs.declared.failures.Decline.{Decline};
ghost use Rattle.ws_messages.specs.declared.messages.Why.{Why};
ghost use Rattle.ws_messages.specs.Failures.{rest_failure};
ghost use Rattle.ws_messages.specs.Server.{ServerTree, ServerDeclines, ServerViolates, HasServerForm, IsServerText, IsDeclinedReply, BreaksAsServer, NoTreeIsTwoServerMessages, ServerMessagesAreRead, NoTextHasTwoServerAnswers};
ghost use Rattle.ws_messages.specs.WrittenServer.{server_data};

use crate::response_json::response_of_json;
use crate::{MsgFail, ServerMsg, Why};
use hrana_stmt::error_of_json;
use hrana_value::{
    Decline, NoMemory, ReadFail, Txt, int32_member, member_or_null, text_member, text_of,
};
use serde_json::Value as Json;
use std::alloc::Global;
use stream_requests::{json_of_bytes, no_members_are_two_replies, replies_are_read};

fn rest_failure(request_id: i32, fail: ReadFail) -> MsgFail
    ensures { result ≡ rest_failure request_id fail }
{
    match fail {
        ReadFail::Declined(Decline::Float) => MsgFail::Declined {
            request_id,
            decline: Decline::Float,
        },
        ReadFail::Declined(_) => MsgFail::Violation(Why::BadReply),
        ReadFail::NoMemory => MsgFail::NoMemory,
    }
}

fn hello_error_of_json(alloc: Global, json: &Json) -> Result<ServerMsg, MsgFail>
    requires { HasText (view json.now) (codes "type") (codes "hello_error") }
    ensures ok { IfOk result (λ m. ServerTree m (view json.now)) }
    ensures violation { IfErr result (λ e. (why : Why) → e ≡ MsgFail.Violation why → ServerViolates (view json.now) why) }
    ensures declined { IfErr result (λ e. (id : ℤ) (d : Decline) → e ≡ MsgFail.Declined id d → ServerDeclines (view json.now) id d) }
{
    match error_of_json(alloc, member_or_null(json, "error", &Json::Null)) {
        Ok(error) => Ok(ServerMsg::HelloError(error)),
        Err(ReadFail::Declined(_)) => Err(MsgFail::Violation(Why::BadReply)),
        Err(ReadFail::NoMemory) => Err(MsgFail::NoMemory),
    }
}

fn ok_of_json(alloc: Global, json: &Json) -> Result<ServerMsg, MsgFail>
    requires { HasText (view json.now) (codes "type") (codes "response_ok") }
    ensures ok { IfOk result (λ m. ServerTree m (view json.now)) }
    ensures violation { IfErr result (λ e. (why : Why) → e ≡ MsgFail.Violation why → ServerViolates (view json.now) why) }
    ensures declined { IfErr result (λ e. (id : ℤ) (d : Decline) → e ≡ MsgFail.Declined id d → ServerDeclines (view json.now) id d) }
{
    let Some(request_id) = int32_member(json, "request_id") else {
        return Err(MsgFail::Violation(Why::BadRequestId));
    };
    match response_of_json(alloc, member_or_null(json, "response", &Json::Null)) {
        Ok((kind, reply)) => Ok(ServerMsg::Ok {
            request_id,
            kind,
            reply,
        }),
        Err(fail) => Err(rest_failure(request_id, fail)),
    }
}

fn error_msg_of_json(alloc: Global, json: &Json) -> Result<ServerMsg, MsgFail>
    requires { HasText (view json.now) (codes "type") (codes "response_error") }
    ensures ok { IfOk result (λ m. ServerTree m (view json.now)) }
    ensures violation { IfErr result (λ e. (why : Why) → e ≡ MsgFail.Violation why → ServerViolates (view json.now) why) }
    ensures declined { IfErr result (λ e. (id : ℤ) (d : Decline) → e ≡ MsgFail.Declined id d → ServerDeclines (view json.now) id d) }
{
    let Some(request_id) = int32_member(json, "request_id") else {
        return Err(MsgFail::Violation(Why::BadRequestId));
    };
    match error_of_json(alloc, member_or_null(json, "error", &Json::Null)) {
        Ok(error) => Ok(ServerMsg::Error { request_id, error }),
        Err(fail) => Err(rest_failure(request_id, fail)),
    }
}

fn server_of_json(alloc: Global, json: &Json) -> Result<ServerMsg, MsgFail>
    ensures ok { IfOk result (λ m. ServerTree m (view json.now)) }
    ensures violation { IfErr result (λ e. (why : Why) → e ≡ MsgFail.Violation why → ServerViolates (view json.now) why) }
    ensures declined { IfErr result (λ e. (id : ℤ) (d : Decline) → e ≡ MsgFail.Declined id d → ServerDeclines (view json.now) id d) }
{
    if !json.is_object() {
        return Err(MsgFail::Violation(Why::NotObject));
    }
    let Some(kind) = text_member(json, "type") else {
        return Err(MsgFail::Violation(Why::NoKind));
    };
    if kind == "hello_ok" {
        return Ok(ServerMsg::HelloOk);
    }
    if kind == "hello_error" {
        return hello_error_of_json(alloc, json);
    }
    if kind == "response_ok" {
        return ok_of_json(alloc, json);
    }
    if kind == "response_error" {
        return error_msg_of_json(alloc, json);
    }
    Err(MsgFail::Violation(Why::UnknownKind))
}

/// The message of the server that the bytes of a text are.
pub fn decode_server(alloc: Global, bytes: &[u8]) -> Result<ServerMsg, MsgFail>
    ensures ok { IfOk result (IsServerText bytes.now) }
    ensures violation { IfErr result (λ e. (why : Why) → e ≡ MsgFail.Violation why → BreaksAsServer bytes.now why) }
    ensures declined { IfErr result (λ e. (id : ℤ) (d : Decline) → e ≡ MsgFail.Declined id d → IsDeclinedReply bytes.now id d) }
{
    match json_of_bytes(alloc, bytes) {
        Ok(Some(json)) => server_of_json(alloc, &json),
        Ok(None) => Err(MsgFail::Violation(Why::NotJson)),
        Err(_) => Err(MsgFail::NoMemory),
    }
}

/// Writes a message of the server, compact and with its members in byte order. What is absent is null. A reply is to
/// have the form of its kind.
pub fn encode_server(alloc: Global, msg: &ServerMsg) -> Result<Txt, NoMemory>
    requires { HasServerForm msg.now }
    ensures written { IfOk result (λ text. text ≡ compact_text (server_data msg.now)) }
    ensures reads_back { IfOk result (λ text. IsServerText text msg.now) }
{
    text_of(alloc, msg)
}

/// A tree is the form of at most one message of the server.
pub fn no_tree_is_two_server_messages()
    ensures { NoTreeIsTwoServerMessages }
{
    no_members_are_two_replies();
}

/// Nothing is declined in the form of a message of the server.
pub fn server_messages_are_read()
    ensures { ServerMessagesAreRead }
{
    replies_are_read();
}

/// Of any bytes `decode_server` has one answer besides want of memory.
pub fn no_text_has_two_server_answers()
    ensures { NoTextHasTwoServerAnswers }
{
    no_tree_is_two_server_messages();
    server_messages_are_read();
}
