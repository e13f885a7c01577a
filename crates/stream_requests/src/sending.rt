// Asks, replies and cursor entries as JSON text. Of asks and replies the members that both transports share, which stand
// before the others of their object.
ghost use Rattle.std.specs.Prelude.{◌≡◌, ◌≤◌, OnOk};
ghost use Rattle.serde_json.specs.Data.{no_members};
ghost use Rattle.serde_json.specs.Events.{SendsValue, members_len};
ghost use Rattle.hrana_value.specs.Sent.{SendsFront};
ghost use Rattle.hrana_value.specs.Whole.{IsWhole, PartsWhole};
ghost use Rattle.hrana_stmt.specs.Tree.{WireErrorTree};
ghost use Rattle.hrana_stmt.specs.Written.{error_data};
ghost use Rattle.stream_requests.specs.Asks.{ask_front, AskReadsBack};
ghost use Rattle.stream_requests.specs.Entries.{EntryTree};
ghost use Rattle.stream_requests.specs.Replies.{reply_front, ReplyReadsBack};
ghost use Rattle.stream_requests.specs.WrittenEntries.{entry_data, error_object};

use crate::{Ask, CursorEntry, EntryList, Reply};
use hrana_batch::begin_with;
use hrana_stmt::{Cols, WireError, send_optional_int64, send_sql};
use hrana_value::{JsonText, Values, end_with_text, send_int32, send_uint64};
use serde::Serializer;
use std::alloc::Global;

// ---- entries

fn send_begin<S: Serializer>(
    alloc: Global,
    step: u32,
    cols: &Cols,
    out: &mut S,
) -> Result<(), S::Error>
    ensures sends { OnOk result (SendsValue (entry_data (CursorEntry.StepBegin step cols.now)) (S.written out.old) (S.written out.new)) }
    ensures whole { OnOk result (IsWhole (entry_data (CursorEntry.StepBegin step cols.now))) }
    ensures back { OnOk result (EntryTree (CursorEntry.StepBegin step cols.now) (entry_data (CursorEntry.StepBegin step cols.now))) }
{
    begin_with(3, "cols", out)?;
    cols.send(alloc, out)?;
    out.key("step")?;
    send_uint64(u64::from(step), out)?;
    end_with_text("type", "step_begin", out)
}

fn send_end<S: Serializer>(
    affected: u64,
    last_rowid: Option<i64>,
    out: &mut S,
) -> Result<(), S::Error>
    ensures sends { OnOk result (SendsValue (entry_data (CursorEntry.StepEnd affected last_rowid)) (S.written out.old) (S.written out.new)) }
    ensures whole { OnOk result (IsWhole (entry_data (CursorEntry.StepEnd affected last_rowid))) }
    ensures back { OnOk result (EntryTree (CursorEntry.StepEnd affected last_rowid) (entry_data (CursorEntry.StepEnd affected last_rowid))) }
{
    begin_with(3, "affected_row_count", out)?;
    send_uint64(affected, out)?;
    out.key("last_insert_rowid")?;
    send_optional_int64(last_rowid, out)?;
    end_with_text("type", "step_end", out)
}

fn send_step_error<S: Serializer>(
    alloc: Global,
    step: u32,
    error: &WireError,
    out: &mut S,
) -> Result<(), S::Error>
    ensures sends { OnOk result (SendsValue (entry_data (CursorEntry.StepError step error.now)) (S.written out.old) (S.written out.new)) }
    ensures whole { OnOk result (IsWhole (entry_data (CursorEntry.StepError step error.now))) }
    ensures back { OnOk result (EntryTree (CursorEntry.StepError step error.now) (entry_data (CursorEntry.StepError step error.now))) }
{
    begin_with(3, "error", out)?;
    error.send(alloc, out)?;
    out.key("step")?;
    send_uint64(u64::from(step), out)?;
    end_with_text("type", "step_error", out)
}

fn send_row<S: Serializer>(alloc: Global, row: &Values, out: &mut S) -> Result<(), S::Error>
    ensures sends { OnOk result (SendsValue (entry_data (CursorEntry.Row row.now)) (S.written out.old) (S.written out.new)) }
    ensures whole { OnOk result (IsWhole (entry_data (CursorEntry.Row row.now))) }
    ensures back { OnOk result (EntryTree (CursorEntry.Row row.now) (entry_data (CursorEntry.Row row.now))) }
{
    begin_with(2, "row", out)?;
    row.send(alloc, out)?;
    end_with_text("type", "row", out)
}

/// Sends an error in an object with this `type`.
pub fn send_error_as<S: Serializer>(
    alloc: Global,
    kind: &str,
    error: &WireError,
    out: &mut S,
) -> Result<(), S::Error>
    ensures sends { OnOk result (SendsValue (error_object kind.now (error_data error.now)) (S.written out.old) (S.written out.new)) }
    ensures whole { OnOk result (IsWhole (error_object kind.now (error_data error.now))) }
    ensures back { OnOk result (WireErrorTree error.now (error_data error.now)) }
{
    begin_with(2, "error", out)?;
    error.send(alloc, out)?;
    end_with_text("type", kind, out)
}

impl JsonText for CursorEntry {
    ghost form = { entry_data };

    ghost tree = { EntryTree };

    fn send<S: Serializer>(&self, alloc: Global, out: &mut S) -> Result<(), S::Error> {
        match self {
            CursorEntry::StepBegin { step, cols } => send_begin(alloc, *step, cols, out),
            CursorEntry::StepEnd {
                affected,
                last_rowid,
            } => send_end(*affected, *last_rowid, out),
            CursorEntry::StepError { step, error } => send_step_error(alloc, *step, error, out),
            CursorEntry::Row(row) => send_row(alloc, row, out),
            CursorEntry::Error(error) => send_error_as(alloc, "error", error, out),
        }
    }
}

// ---- asks

/// Sends the members of an ask: all but `type` and the ids of its stream and its cursor.
pub fn send_ask<S: Serializer>(alloc: Global, ask: &Ask, out: &mut S) -> Result<(), S::Error>
    ensures sends { OnOk result (SendsFront (ask_front ask.now) (S.written out.old) (S.written out.new)) }
    ensures whole { OnOk result (PartsWhole (ask_front ask.now no_members)) }
    ensures back { OnOk result (AskReadsBack ask.now) }
{
    match ask {
        Ask::Execute(stmt) => {
            out.key("stmt")?;
            stmt.send(alloc, out)
        }
        Ask::Batch(batch) => {
            out.key("batch")?;
            batch.send(alloc, out)
        }
        Ask::Sequence(sql) => send_sql(sql, out),
        Ask::Cursor(batch) => {
            out.key("batch")?;
            batch.send(alloc, out)
        }
        Ask::Fetch(count) => {
            out.key("max_count")?;
            send_uint64(u64::from(*count), out)
        }
        Ask::StoreSql { id, sql } => {
            out.key("sql")?;
            out.str(sql.as_str())?;
            out.key("sql_id")?;
            send_int32(*id, out)
        }
        Ask::CloseSql(id) => {
            out.key("sql_id")?;
            send_int32(*id, out)
        }
        Ask::CloseCursor => Ok(()),
        Ask::GetAutocommit => Ok(()),
        Ask::Close => Ok(()),
    }
}

/// How many members `send_ask` sends.
pub fn ask_member_count(ask: &Ask) -> usize
    ensures count { result ≡ members_len (ask_front ask.now no_members) }
    ensures few { result ≤ 2 }
{
    match ask {
        Ask::StoreSql { .. } => 2,
        Ask::CloseCursor => 0,
        Ask::GetAutocommit => 0,
        Ask::Close => 0,
        _ => 1,
    }
}

// ---- replies

fn send_fetched<S: Serializer>(
    alloc: Global,
    entries: &EntryList,
    done: bool,
    out: &mut S,
) -> Result<(), S::Error>
    ensures sends { OnOk result (SendsFront (reply_front (Reply.Fetched entries.now done)) (S.written out.old) (S.written out.new)) }
    ensures whole { OnOk result (PartsWhole (reply_front (Reply.Fetched entries.now done) no_members)) }
    ensures back { OnOk result (ReplyReadsBack (Reply.Fetched entries.now done)) }
{
    out.key("done")?;
    out.bool(done)?;
    out.key("entries")?;
    entries.send(alloc, out)
}

/// Sends the members of a reply: all but `type`.
pub fn send_reply<S: Serializer>(alloc: Global, reply: &Reply, out: &mut S) -> Result<(), S::Error>
    ensures sends { OnOk result (SendsFront (reply_front reply.now) (S.written out.old) (S.written out.new)) }
    ensures whole { OnOk result (PartsWhole (reply_front reply.now no_members)) }
    ensures back { OnOk result (ReplyReadsBack reply.now) }
{
    match reply {
        Reply::Execute(given) => {
            out.key("result")?;
            given.send(alloc, out)
        }
        Reply::Batch(given) => {
            out.key("result")?;
            given.send(alloc, out)
        }
        Reply::Fetched { entries, done } => send_fetched(alloc, entries, *done, out),
        Reply::Autocommit(auto) => {
            out.key("is_autocommit")?;
            out.bool(*auto)
        }
        _ => Ok(()),
    }
}

/// How many members `send_reply` sends.
pub fn reply_member_count(reply: &Reply) -> usize
    ensures count { result ≡ members_len (reply_front reply.now no_members) }
    ensures few { result ≤ 2 }
{
    match reply {
        Reply::Execute(_) => 1,
        Reply::Batch(_) => 1,
        Reply::Fetched { .. } => 2,
        Reply::Autocommit(_) => 1,
        _ => 0,
    }
}
