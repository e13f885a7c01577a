// Responses from JSON trees.
ghost use Rattle.std.specs.Prelude.{◌≡◌};
ghost use Rattle.serde_json.specs.View.{view};
ghost use Rattle.hrana_value.specs.Declines.{Reads};
ghost use Rattle.stream_requests.specs.Replies.{ReplyMembersStand};
ghost use Rattle.ws_messages.specs.Kinds.{kind_of};
ghost use Rattle.ws_messages.specs.Server.{IsReplyOf, ResponseTree, ResponseStands, ResponseMembersStand};

use crate::{Kind, kind_of_name};
use hrana_value::{Decline, ReadFail, text_member};
use serde_json::Value as Json;
use std::alloc::Global;
use stream_requests::{AskKind, Reply, reply_of_json};

fn reply_to_ask(alloc: Global, kind: AskKind, json: &Json) -> Result<Reply, ReadFail>
    ensures { Reads (λ r. IsReplyOf (kind_of kind) r (view json.now)) (ReplyMembersStand kind (view json.now)) result }
{
    reply_of_json(alloc, kind, json)
}

fn reply_of_members(alloc: Global, kind: Kind, json: &Json) -> Result<Reply, ReadFail>
    ensures { Reads (λ r. IsReplyOf kind r (view json.now)) (ResponseMembersStand kind (view json.now)) result }
{
    match kind {
        Kind::OpenStream => Ok(Reply::StreamOpened),
        Kind::CloseStream => reply_to_ask(alloc, AskKind::Close, json),
        Kind::Execute => reply_to_ask(alloc, AskKind::Execute, json),
        Kind::Batch => reply_to_ask(alloc, AskKind::Batch, json),
        Kind::OpenCursor => reply_to_ask(alloc, AskKind::Cursor, json),
        Kind::CloseCursor => reply_to_ask(alloc, AskKind::CloseCursor, json),
        Kind::FetchCursor => reply_to_ask(alloc, AskKind::Fetch, json),
        Kind::Sequence => reply_to_ask(alloc, AskKind::Sequence, json),
        Kind::StoreSql => reply_to_ask(alloc, AskKind::StoreSql, json),
        Kind::CloseSql => reply_to_ask(alloc, AskKind::CloseSql, json),
        Kind::GetAutocommit => reply_to_ask(alloc, AskKind::GetAutocommit, json),
    }
}

fn response_of_kind(alloc: Global, kind: Kind, json: &Json) -> Result<(Kind, Reply), ReadFail>
    ensures { Reads (λ read. (read.0 ≡ kind) × IsReplyOf kind read.1 (view json.now)) (ResponseMembersStand kind (view json.now)) result }
{
    Ok((kind, reply_of_members(alloc, kind, json)?))
}

/// Reads a response by its `type`: the kind of request that it answers, and the reply.
pub fn response_of_json(alloc: Global, json: &Json) -> Result<(Kind, Reply), ReadFail>
    ensures { Reads (λ read. ResponseTree read.0 read.1 (view json.now)) (ResponseStands (view json.now)) result }
{
    let Some(text) = text_member(json, "type") else {
        return Err(ReadFail::Declined(Decline::Shape));
    };
    match kind_of_name(text) {
        Some(kind) => response_of_kind(alloc, kind, json),
        None => Err(ReadFail::Declined(Decline::Shape)),
    }
}
