// Requests as JSON text, with the members of each object in byte order.
ghost use Rattle.std.specs.Prelude.{OnOk, FitsSigned};
ghost use Rattle.std.specs.Int.{w32};
ghost use Rattle.serde_json.specs.Data.{member};
ghost use Rattle.serde_json.specs.Events.{SendsValue, SendsMembers};
ghost use Rattle.hrana_value.specs.Sent.{SendsFront};
ghost use Rattle.hrana_value.specs.Whole.{IsWhole, PartsWhole};
ghost use Rattle.ws_messages.specs.WrittenClient.{integer, kind_member, on_stream, request_data, RequestReadsBack};

use crate::{Kind, WsRequest, kind_name, kind_of};
use hrana_batch::Batch;
use hrana_value::{JsonText, Txt, end_with_text, send_int32, send_uint64};
use serde::Serializer;
use std::alloc::Global;
use stream_requests::{Ask, ask_member_count, send_ask};

/// Sends a member that is a number.
pub fn send_id<S: Serializer>(name: &str, id: i32, out: &mut S) -> Result<(), S::Error>
    ensures sends { OnOk result (SendsFront (member name.now (integer id)) (S.written out.old) (S.written out.new)) }
    ensures whole { OnOk result (IsWhole (integer id)) }
    ensures fits { OnOk result (FitsSigned w32 id) }
{
    out.key(name)?;
    send_int32(id, out)
}

// Sends the `type` of a kind of request, and the object's end.
fn end_with_kind<S: Serializer>(kind: Kind, out: &mut S) -> Result<(), S::Error>
    ensures { OnOk result (SendsMembers (kind_member kind) (S.written out.old) (S.written out.new)) }
{
    end_with_text("type", kind_name(kind), out)
}

fn end_on_stream<S: Serializer>(stream_id: i32, kind: Kind, out: &mut S) -> Result<(), S::Error>
    ensures sends { OnOk result (SendsMembers (on_stream stream_id kind) (S.written out.old) (S.written out.new)) }
    ensures whole { OnOk result (PartsWhole (on_stream stream_id kind)) }
    ensures fits { OnOk result (FitsSigned w32 stream_id) }
{
    send_id("stream_id", stream_id, out)?;
    end_with_kind(kind, out)
}

fn send_open_stream<S: Serializer>(stream_id: i32, out: &mut S) -> Result<(), S::Error>
    ensures sends { OnOk result (SendsValue (request_data (WsRequest.OpenStream stream_id)) (S.written out.old) (S.written out.new)) }
    ensures whole { OnOk result (IsWhole (request_data (WsRequest.OpenStream stream_id))) }
    ensures back { OnOk result (RequestReadsBack (WsRequest.OpenStream stream_id)) }
{
    out.begin_map(Some(2))?;
    end_on_stream(stream_id, Kind::OpenStream, out)
}

fn send_on_stream<S: Serializer>(
    alloc: Global,
    stream_id: i32,
    ask: &Ask,
    out: &mut S,
) -> Result<(), S::Error>
    ensures sends { OnOk result (SendsValue (request_data (WsRequest.OnStream stream_id ask.now)) (S.written out.old) (S.written out.new)) }
    ensures whole { OnOk result (IsWhole (request_data (WsRequest.OnStream stream_id ask.now))) }
    ensures back { OnOk result (RequestReadsBack (WsRequest.OnStream stream_id ask.now)) }
{
    out.begin_map(Some(ask_member_count(ask) + 2))?;
    send_ask(alloc, ask, out)?;
    end_on_stream(stream_id, kind_of(ask.kind()), out)
}

fn send_open_cursor<S: Serializer>(
    alloc: Global,
    stream_id: i32,
    cursor_id: i32,
    batch: &Batch,
    out: &mut S,
) -> Result<(), S::Error>
    ensures sends { OnOk result (SendsValue (request_data (WsRequest.OpenCursor stream_id cursor_id batch.now)) (S.written out.old) (S.written out.new)) }
    ensures whole { OnOk result (IsWhole (request_data (WsRequest.OpenCursor stream_id cursor_id batch.now))) }
    ensures back { OnOk result (RequestReadsBack (WsRequest.OpenCursor stream_id cursor_id batch.now)) }
{
    out.begin_map(Some(4))?;
    out.key("batch")?;
    batch.send(alloc, out)?;
    send_id("cursor_id", cursor_id, out)?;
    end_on_stream(stream_id, Kind::OpenCursor, out)
}

fn send_close_cursor<S: Serializer>(cursor_id: i32, out: &mut S) -> Result<(), S::Error>
    ensures sends { OnOk result (SendsValue (request_data (WsRequest.CloseCursor cursor_id)) (S.written out.old) (S.written out.new)) }
    ensures whole { OnOk result (IsWhole (request_data (WsRequest.CloseCursor cursor_id))) }
    ensures back { OnOk result (RequestReadsBack (WsRequest.CloseCursor cursor_id)) }
{
    out.begin_map(Some(2))?;
    send_id("cursor_id", cursor_id, out)?;
    end_with_kind(Kind::CloseCursor, out)
}

fn send_fetch_cursor<S: Serializer>(
    cursor_id: i32,
    max_count: u32,
    out: &mut S,
) -> Result<(), S::Error>
    ensures sends { OnOk result (SendsValue (request_data (WsRequest.FetchCursor cursor_id max_count)) (S.written out.old) (S.written out.new)) }
    ensures whole { OnOk result (IsWhole (request_data (WsRequest.FetchCursor cursor_id max_count))) }
    ensures back { OnOk result (RequestReadsBack (WsRequest.FetchCursor cursor_id max_count)) }
{
    out.begin_map(Some(3))?;
    send_id("cursor_id", cursor_id, out)?;
    out.key("max_count")?;
    send_uint64(u64::from(max_count), out)?;
    end_with_kind(Kind::FetchCursor, out)
}

fn send_store_sql<S: Serializer>(id: i32, sql: &Txt, out: &mut S) -> Result<(), S::Error>
    ensures sends { OnOk result (SendsValue (request_data (WsRequest.StoreSql id sql.now)) (S.written out.old) (S.written out.new)) }
    ensures whole { OnOk result (IsWhole (request_data (WsRequest.StoreSql id sql.now))) }
    ensures back { OnOk result (RequestReadsBack (WsRequest.StoreSql id sql.now)) }
{
    out.begin_map(Some(3))?;
    out.key("sql")?;
    out.str(sql.as_str())?;
    send_id("sql_id", id, out)?;
    end_with_kind(Kind::StoreSql, out)
}

fn send_close_sql<S: Serializer>(id: i32, out: &mut S) -> Result<(), S::Error>
    ensures sends { OnOk result (SendsValue (request_data (WsRequest.CloseSql id)) (S.written out.old) (S.written out.new)) }
    ensures whole { OnOk result (IsWhole (request_data (WsRequest.CloseSql id))) }
    ensures back { OnOk result (RequestReadsBack (WsRequest.CloseSql id)) }
{
    out.begin_map(Some(2))?;
    send_id("sql_id", id, out)?;
    end_with_kind(Kind::CloseSql, out)
}

/// Sends a request.
pub fn send_request<S: Serializer>(
    alloc: Global,
    request: &WsRequest,
    out: &mut S,
) -> Result<(), S::Error>
    ensures sends { OnOk result (SendsValue (request_data request.now) (S.written out.old) (S.written out.new)) }
    ensures whole { OnOk result (IsWhole (request_data request.now)) }
    ensures back { OnOk result (RequestReadsBack request.now) }
{
    match request {
        WsRequest::OpenStream(stream_id) => send_open_stream(*stream_id, out),
        WsRequest::OnStream { stream_id, ask } => send_on_stream(alloc, *stream_id, ask, out),
        WsRequest::OpenCursor {
            stream_id,
            cursor_id,
            batch,
        } => send_open_cursor(alloc, *stream_id, *cursor_id, batch, out),
        WsRequest::CloseCursor(cursor_id) => send_close_cursor(*cursor_id, out),
        WsRequest::FetchCursor {
            cursor_id,
            max_count,
        } => send_fetch_cursor(*cursor_id, *max_count, out),
        WsRequest::StoreSql { id, sql } => send_store_sql(*id, sql, out),
        WsRequest::CloseSql(id) => send_close_sql(*id, out),
    }
}
