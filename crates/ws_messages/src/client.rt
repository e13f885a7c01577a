// Messages of a client, from texts and back.
ghost use Rattle.std.specs.Prelude.{◌≡◌, ℤ, IfOk, IfErr, codes};
ghost use Rattle.serde_json.specs.Written.{compact_text};
ghost use Rattle.serde_json.specs.View.{view};
ghost use Rattle.hrana_value.specs.Declines.{NoneStands};
ghost use Rattle.hrana_value.specs.Members.{HasText};
ghost use Rattle.hrana_value.specs.declared.failures.Decline.{Decline};
ghost use Rattle.ws_messages.specs.declared.messages.Why.{Why};
ghost use Rattle.ws_messages.specs.Client.{ClientTree, ClientStands, ClientDeclines, ClientViolates, HasClientForm, ClientFits, IsClientText, IsDeclinedRequest, BreaksAsClient, NoTreeIsTwoClientMessages, FittingClientMessagesAreRead, NoTextHasTwoClientAnswers};
ghost use Rattle.ws_messages.specs.WrittenClient.{client_data};

use crate::request_json::request_of_json;
use crate::{ClientMsg, MsgFail, Why};
use hrana_batch::{fitting_batches_are_read, no_tree_is_two_batches};
use hrana_value::{
    NoMemory, ReadFail, Txt, int32_member, member_or_null, option_of_json, text_member, text_of,
};
use serde_json::Value as Json;
use std::alloc::Global;
use stream_requests::{fitting_asks_are_read, json_of_bytes, no_members_are_two_asks};

fn hello_of_json(alloc: Global, json: &Json) -> Result<ClientMsg, MsgFail>
    requires { HasText (view json.now) (codes "type") (codes "hello") }
    ensures ok { IfOk result (λ m. ClientTree m (view json.now)) }
    ensures undeclined { IfOk result (λ m. NoneStands (ClientStands (view json.now))) }
    ensures violation { IfErr result (λ e. (why : Why) → e ≡ MsgFail.Violation why → ClientViolates (view json.now) why) }
    ensures declined { IfErr result (λ e. (id : ℤ) (d : Decline) → e ≡ MsgFail.Declined id d → ClientDeclines (view json.now) id d) }
{
    match option_of_json(alloc, member_or_null(json, "jwt", &Json::Null)) {
        Ok(jwt) => Ok(ClientMsg::Hello { jwt }),
        Err(ReadFail::Declined(_)) => Err(MsgFail::Violation(Why::BadHello)),
        Err(ReadFail::NoMemory) => Err(MsgFail::NoMemory),
    }
}

fn numbered_of_json(alloc: Global, json: &Json) -> Result<ClientMsg, MsgFail>
    requires { HasText (view json.now) (codes "type") (codes "request") }
    ensures ok { IfOk result (λ m. ClientTree m (view json.now)) }
    ensures undeclined { IfOk result (λ m. NoneStands (ClientStands (view json.now))) }
    ensures violation { IfErr result (λ e. (why : Why) → e ≡ MsgFail.Violation why → ClientViolates (view json.now) why) }
    ensures declined { IfErr result (λ e. (id : ℤ) (d : Decline) → e ≡ MsgFail.Declined id d → ClientDeclines (view json.now) id d) }
{
    let Some(request_id) = int32_member(json, "request_id") else {
        return Err(MsgFail::Violation(Why::BadRequestId));
    };
    match request_of_json(alloc, member_or_null(json, "request", &Json::Null)) {
        Ok(request) => Ok(ClientMsg::Request {
            request_id,
            request,
        }),
        Err(ReadFail::Declined(decline)) => Err(MsgFail::Declined {
            request_id,
            decline,
        }),
        Err(ReadFail::NoMemory) => Err(MsgFail::NoMemory),
    }
}

fn client_of_json(alloc: Global, json: &Json) -> Result<ClientMsg, MsgFail>
    ensures ok { IfOk result (λ m. ClientTree m (view json.now)) }
    ensures undeclined { IfOk result (λ m. NoneStands (ClientStands (view json.now))) }
    ensures violation { IfErr result (λ e. (why : Why) → e ≡ MsgFail.Violation why → ClientViolates (view json.now) why) }
    ensures declined { IfErr result (λ e. (id : ℤ) (d : Decline) → e ≡ MsgFail.Declined id d → ClientDeclines (view json.now) id d) }
{
    if !json.is_object() {
        return Err(MsgFail::Violation(Why::NotObject));
    }
    let Some(kind) = text_member(json, "type") else {
        return Err(MsgFail::Violation(Why::NoKind));
    };
    if kind == "hello" {
        return hello_of_json(alloc, json);
    }
    if kind == "request" {
        return numbered_of_json(alloc, json);
    }
    Err(MsgFail::Violation(Why::UnknownKind))
}

/// The message of a client that the bytes of a text are.
pub fn decode_client(alloc: Global, bytes: &[u8]) -> Result<ClientMsg, MsgFail>
    ensures ok { IfOk result (IsClientText bytes.now) }
    ensures violation { IfErr result (λ e. (why : Why) → e ≡ MsgFail.Violation why → BreaksAsClient bytes.now why) }
    ensures declined { IfErr result (λ e. (id : ℤ) (d : Decline) → e ≡ MsgFail.Declined id d → IsDeclinedRequest bytes.now id d) }
{
    match json_of_bytes(alloc, bytes) {
        Ok(Some(json)) => client_of_json(alloc, &json),
        Ok(None) => Err(MsgFail::Violation(Why::NotJson)),
        Err(_) => Err(MsgFail::NoMemory),
    }
}

/// Writes a message of a client, compact and with its members in byte order. What is absent is left out, but a token
/// that is absent is null. What is asked of a stream is to be what a request may ask it.
pub fn encode_client(alloc: Global, msg: &ClientMsg) -> Result<Txt, NoMemory>
    requires { HasClientForm msg.now }
    ensures written { IfOk result (λ text. text ≡ compact_text (client_data msg.now)) }
    ensures reads_back { IfOk result (λ text. ClientFits msg.now → IsClientText text msg.now) }
{
    text_of(alloc, msg)
}

/// A tree is the form of at most one message of a client.
pub fn no_tree_is_two_client_messages()
    ensures { NoTreeIsTwoClientMessages }
{
    no_tree_is_two_batches();
    no_members_are_two_asks();
}

/// Nothing is declined in the form of a message exactly where the message fits.
pub fn fitting_client_messages_are_read()
    ensures { FittingClientMessagesAreRead }
{
    fitting_batches_are_read();
    fitting_asks_are_read();
}

/// Of any bytes `decode_client` has one answer besides want of memory.
pub fn no_text_has_two_client_answers()
    ensures { NoTextHasTwoClientAnswers }
{
    no_tree_is_two_client_messages();
}
