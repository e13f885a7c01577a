// Requests from JSON trees.
ghost use Rattle.std.specs.Prelude.{codes};
ghost use Rattle.serde_json.specs.View.{view};
ghost use Rattle.hrana_value.specs.Declines.{Reads, EitherStands};
ghost use Rattle.hrana_value.specs.Members.{HasInt32, Uint32Tree, Uint32Stands, Int32Tree, Int32Stands};
ghost use Rattle.stream_requests.specs.Asks.{IsAskOf, AskMembersStand};
ghost use Rattle.ws_messages.specs.Kinds.{kind_of, IsStreamAsk};
ghost use Rattle.ws_messages.specs.Requests.{IsRequestOf, RequestTree, RequestStands, RequestMembersStand, OnStreamStands, StreamStands, CursorStands};

use crate::{Kind, WsRequest, kind_of_name};
use hrana_batch::batch_of_json;
use hrana_value::{
    Decline, ReadFail, both_readings, int32_of_json, member_or_null, text_member, uint32_of_json,
};
use serde_json::Value as Json;
use std::alloc::Global;
use stream_requests::{Ask, AskKind, ask_of_json, stored_of_json};

fn asked_of_parts(
    alloc: Global,
    kind: AskKind,
    stream: &Json,
    json: &Json,
) -> Result<(i32, Ask), ReadFail>
    ensures { Reads (λ read. Int32Tree read.0 (view stream.now) × IsAskOf kind read.1 (view json.now)) (EitherStands (Int32Stands (view stream.now)) (AskMembersStand kind (view json.now))) result }
{
    let stream_id = int32_of_json(stream);
    both_readings(stream_id, ask_of_json(alloc, kind, json))
}

fn on_stream_of_json(alloc: Global, kind: AskKind, json: &Json) -> Result<WsRequest, ReadFail>
    requires { IsStreamAsk kind }
    ensures { Reads (λ r. IsRequestOf (kind_of kind) r (view json.now)) (OnStreamStands kind (view json.now)) result }
{
    let (stream_id, ask) = asked_of_parts(
        alloc,
        kind,
        member_or_null(json, "stream_id", &Json::Null),
        json,
    )?;
    Ok(WsRequest::OnStream { stream_id, ask })
}

fn open_stream_of_json(json: &Json) -> Result<WsRequest, ReadFail>
    ensures { Reads (λ r. IsRequestOf Kind.OpenStream r (view json.now)) (RequestMembersStand Kind.OpenStream (view json.now)) result }
{
    let stream_id = int32_of_json(member_or_null(json, "stream_id", &Json::Null))?;
    Ok(WsRequest::OpenStream(stream_id))
}

fn ids_of_parts(stream: &Json, cursor: &Json) -> Result<(i32, i32), ReadFail>
    ensures { Reads (λ ids. Int32Tree ids.0 (view stream.now) × Int32Tree ids.1 (view cursor.now)) (EitherStands (Int32Stands (view stream.now)) (Int32Stands (view cursor.now))) result }
{
    let stream_id = int32_of_json(stream);
    both_readings(stream_id, int32_of_json(cursor))
}

fn ids_of_json(json: &Json) -> Result<(i32, i32), ReadFail>
    ensures { Reads (λ ids. HasInt32 (view json.now) (codes "stream_id") ids.0 × HasInt32 (view json.now) (codes "cursor_id") ids.1) (EitherStands (StreamStands (view json.now)) (CursorStands (view json.now))) result }
{
    let null = Json::Null;
    let stream = member_or_null(json, "stream_id", &null);
    ids_of_parts(stream, member_or_null(json, "cursor_id", &null))
}

fn open_cursor_of_json(alloc: Global, json: &Json) -> Result<WsRequest, ReadFail>
    ensures { Reads (λ r. IsRequestOf Kind.OpenCursor r (view json.now)) (RequestMembersStand Kind.OpenCursor (view json.now)) result }
{
    let batch = batch_of_json(alloc, member_or_null(json, "batch", &Json::Null));
    match both_readings(ids_of_json(json), batch) {
        Ok((ids, batch)) => Ok(WsRequest::OpenCursor {
            stream_id: ids.0,
            cursor_id: ids.1,
            batch,
        }),
        Err(fail) => Err(fail),
    }
}

fn close_cursor_of_json(json: &Json) -> Result<WsRequest, ReadFail>
    ensures { Reads (λ r. IsRequestOf Kind.CloseCursor r (view json.now)) (RequestMembersStand Kind.CloseCursor (view json.now)) result }
{
    let cursor_id = int32_of_json(member_or_null(json, "cursor_id", &Json::Null))?;
    Ok(WsRequest::CloseCursor(cursor_id))
}

fn fetch_of_parts(cursor: &Json, count: &Json) -> Result<(i32, u32), ReadFail>
    ensures { Reads (λ read. Int32Tree read.0 (view cursor.now) × Uint32Tree read.1 (view count.now)) (EitherStands (Int32Stands (view cursor.now)) (Uint32Stands (view count.now))) result }
{
    let cursor_id = int32_of_json(cursor);
    both_readings(cursor_id, uint32_of_json(count))
}

fn fetch_cursor_of_json(json: &Json) -> Result<WsRequest, ReadFail>
    ensures { Reads (λ r. IsRequestOf Kind.FetchCursor r (view json.now)) (RequestMembersStand Kind.FetchCursor (view json.now)) result }
{
    let null = Json::Null;
    let cursor = member_or_null(json, "cursor_id", &null);
    let (cursor_id, max_count) = fetch_of_parts(cursor, member_or_null(json, "max_count", &null))?;
    Ok(WsRequest::FetchCursor {
        cursor_id,
        max_count,
    })
}

fn store_sql_of_json(alloc: Global, json: &Json) -> Result<WsRequest, ReadFail>
    ensures { Reads (λ r. IsRequestOf Kind.StoreSql r (view json.now)) (RequestMembersStand Kind.StoreSql (view json.now)) result }
{
    let (id, sql) = stored_of_json(alloc, json)?;
    Ok(WsRequest::StoreSql { id, sql })
}

fn close_sql_of_json(json: &Json) -> Result<WsRequest, ReadFail>
    ensures { Reads (λ r. IsRequestOf Kind.CloseSql r (view json.now)) (RequestMembersStand Kind.CloseSql (view json.now)) result }
{
    let id = int32_of_json(member_or_null(json, "sql_id", &Json::Null))?;
    Ok(WsRequest::CloseSql(id))
}

fn request_of_members(alloc: Global, kind: Kind, json: &Json) -> Result<WsRequest, ReadFail>
    ensures { Reads (λ r. IsRequestOf kind r (view json.now)) (RequestMembersStand kind (view json.now)) result }
{
    match kind {
        Kind::OpenStream => open_stream_of_json(json),
        Kind::CloseStream => on_stream_of_json(alloc, AskKind::Close, json),
        Kind::Execute => on_stream_of_json(alloc, AskKind::Execute, json),
        Kind::Batch => on_stream_of_json(alloc, AskKind::Batch, json),
        Kind::OpenCursor => open_cursor_of_json(alloc, json),
        Kind::CloseCursor => close_cursor_of_json(json),
        Kind::FetchCursor => fetch_cursor_of_json(json),
        Kind::Sequence => on_stream_of_json(alloc, AskKind::Sequence, json),
        Kind::StoreSql => store_sql_of_json(alloc, json),
        Kind::CloseSql => close_sql_of_json(json),
        Kind::GetAutocommit => on_stream_of_json(alloc, AskKind::GetAutocommit, json),
    }
}

/// Reads a request by its `type`. Of a `describe` nothing else is read.
pub fn request_of_json(alloc: Global, json: &Json) -> Result<WsRequest, ReadFail>
    ensures { Reads (λ r. RequestTree r (view json.now)) (RequestStands (view json.now)) result }
{
    let Some(text) = text_member(json, "type") else {
        return Err(ReadFail::Declined(Decline::Shape));
    };
    if text == "describe" {
        return Err(ReadFail::Declined(Decline::Describe));
    }
    match kind_of_name(text) {
        Some(kind) => request_of_members(alloc, kind, json),
        None => Err(ReadFail::Declined(Decline::Unknown)),
    }
}
