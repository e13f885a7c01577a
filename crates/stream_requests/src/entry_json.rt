// Cursor entries from JSON trees (HRANA_3_SPEC, "Cursor entries").
ghost use Rattle.std.specs.Prelude.{◌≡◌, MatchOption, map};
ghost use Rattle.serde_json.specs.View.{view, items_view};
ghost use Rattle.hrana_value.specs.Declines.{Reads, EitherStands};
ghost use Rattle.hrana_value.specs.Members.{HasText, Uint64Tree, Uint64Stands};
ghost use Rattle.hrana_value.specs.Tree.{Int64TextTree, Int64TextStands};
ghost use Rattle.hrana_value.specs.Names.{RowsDiffer};
ghost use Rattle.hrana_value.specs.Trees.{ItemsTree, ItemsStand, ArrayTree, ArrayStands, OptionalTree, OptionalStands};
ghost use Rattle.stream_requests.specs.Entries.{entry_name, EntryTree, EntryStands, EntryMembersStand, NoTreeIsTwoEntries, EntriesAreRead};
ghost use Rattle.stream_requests.specs.EntryParts.{IsEntryOf};
ghost use Rattle.stream_requests.specs.declared.entries.EntryKind.{EntryKind};

use crate::{CursorEntry, EntryKind, EntryList};
use hrana_stmt::error_of_json;
use hrana_value::{
    Decline, JsonForm, ReadFail, both_readings, index_of, list_of_json, member_or_null, members,
    optional_int64_text_of_json, text_member, uint32_of_json, uint64_of_json,
};
use serde_json::Value as Json;
use std::alloc::Global;

/// The `type` of each kind of cursor entry.
pub const ENTRY_KINDS: [&str; 5] = ["step_begin", "step_end", "step_error", "row", "error"];

const STEP_BEGIN: usize = 0;

const STEP_END: usize = 1;

const STEP_ERROR: usize = 2;

const ROW: usize = 3;

const ERROR: usize = 4;

fn entry_kind_of(text: &str) -> Option<EntryKind>
    ensures { MatchOption result ((k : EntryKind) → entry_name k ≡ text.now → ⊥) (λ k. entry_name k ≡ text.now) }
{
    match index_of(&ENTRY_KINDS, text) {
        Some(STEP_BEGIN) => Some(EntryKind::StepBegin),
        Some(STEP_END) => Some(EntryKind::StepEnd),
        Some(STEP_ERROR) => Some(EntryKind::StepError),
        Some(ROW) => Some(EntryKind::Row),
        Some(ERROR) => Some(EntryKind::Error),
        _ => None,
    }
}

fn begin_of_json(alloc: Global, json: &Json) -> Result<CursorEntry, ReadFail>
    ensures { Reads (λ e. IsEntryOf EntryKind.StepBegin e (view json.now)) (EntryMembersStand EntryKind.StepBegin (view json.now)) result }
{
    members!(json; step = "step": uint32_of_json(), cols = "cols": list_of_json(alloc));
    let (step, cols) = both_readings(step, cols)?;
    Ok(CursorEntry::StepBegin { step, cols })
}

fn end_of_parts(affected: &Json, rowid: &Json) -> Result<(u64, Option<i64>), ReadFail>
    ensures { Reads (λ read. Uint64Tree read.0 (view affected.now) × OptionalTree Int64TextTree read.1 (view rowid.now)) (EitherStands (Uint64Stands (view affected.now)) (OptionalStands Int64TextStands (view rowid.now))) result }
{
    let affected = uint64_of_json(affected);
    both_readings(affected, optional_int64_text_of_json(rowid))
}

fn end_of_json(json: &Json) -> Result<CursorEntry, ReadFail>
    ensures { Reads (λ e. IsEntryOf EntryKind.StepEnd e (view json.now)) (EntryMembersStand EntryKind.StepEnd (view json.now)) result }
{
    let null = Json::Null;
    let affected = member_or_null(json, "affected_row_count", &null);
    let rowid = member_or_null(json, "last_insert_rowid", &null);
    let (affected, last_rowid) = end_of_parts(affected, rowid)?;
    Ok(CursorEntry::StepEnd {
        affected,
        last_rowid,
    })
}

fn step_error_of_json(alloc: Global, json: &Json) -> Result<CursorEntry, ReadFail>
    ensures { Reads (λ e. IsEntryOf EntryKind.StepError e (view json.now)) (EntryMembersStand EntryKind.StepError (view json.now)) result }
{
    members!(json; step = "step": uint32_of_json(), error = "error": error_of_json(alloc));
    let (step, error) = both_readings(step, error)?;
    Ok(CursorEntry::StepError { step, error })
}

fn row_entry_of_json(alloc: Global, json: &Json) -> Result<CursorEntry, ReadFail>
    ensures { Reads (λ e. IsEntryOf EntryKind.Row e (view json.now)) (EntryMembersStand EntryKind.Row (view json.now)) result }
{
    let row = list_of_json(alloc, member_or_null(json, "row", &Json::Null))?;
    Ok(CursorEntry::Row(row))
}

fn error_entry_of_json(alloc: Global, json: &Json) -> Result<CursorEntry, ReadFail>
    ensures { Reads (λ e. IsEntryOf EntryKind.Error e (view json.now)) (EntryMembersStand EntryKind.Error (view json.now)) result }
{
    let error = error_of_json(alloc, member_or_null(json, "error", &Json::Null))?;
    Ok(CursorEntry::Error(error))
}

fn entry_of_members(alloc: Global, kind: EntryKind, json: &Json) -> Result<CursorEntry, ReadFail>
    ensures { Reads (λ e. IsEntryOf kind e (view json.now)) (EntryMembersStand kind (view json.now)) result }
{
    match kind {
        EntryKind::StepBegin => begin_of_json(alloc, json),
        EntryKind::StepEnd => end_of_json(json),
        EntryKind::StepError => step_error_of_json(alloc, json),
        EntryKind::Row => row_entry_of_json(alloc, json),
        EntryKind::Error => error_entry_of_json(alloc, json),
    }
}

/// Reads a cursor entry, whose `type` is one of the five kinds.
pub fn entry_of_json(alloc: Global, json: &Json) -> Result<CursorEntry, ReadFail>
    ensures { Reads (λ e. EntryTree e (view json.now)) (EntryStands (view json.now)) result }
{
    let Some(text) = text_member(json, "type") else {
        return Err(ReadFail::Declined(Decline::Shape));
    };
    match entry_kind_of(text) {
        Some(kind) => entry_of_members(alloc, kind, json),
        None => Err(ReadFail::Declined(Decline::Shape)),
    }
}

impl JsonForm for CursorEntry {
    ghost tree = { EntryTree };

    ghost stands = { EntryStands };

    fn of_json(alloc: Global, json: &Json) -> Result<CursorEntry, ReadFail> {
        entry_of_json(alloc, json)
    }
}

/// Reads an array of cursor entries.
pub fn entries_of_json(alloc: Global, json: &Json) -> Result<EntryList, ReadFail>
    ensures { Reads (λ entries. ArrayTree EntryTree entries (view json.now)) (ArrayStands EntryStands (view json.now)) result }
{
    list_of_json(alloc, json)
}

/// No two kinds of entry have one `type`.
pub fn entry_kinds_differ()
    ensures { RowsDiffer (map (λ row. row.now) ENTRY_KINDS) }
{}

/// A JSON tree is the form of at most one entry.
pub fn no_tree_is_two_entries()
    ensures { NoTreeIsTwoEntries }
{}

/// Nothing is declined in the form of an entry.
pub fn entries_are_read()
    ensures { EntriesAreRead }
{}
