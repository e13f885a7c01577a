// The members of asks from JSON trees, which both transports share: all but `type` and the ids of stream and
// cursor (HRANA_3_SPEC, "Requests").
ghost use Rattle.std.specs.Prelude.{◌<◌, length, codes, IsSomeAnd};
ghost use Rattle.serde_json.specs.Find.{as_str};
ghost use Rattle.serde_json.specs.View.{view};
ghost use Rattle.hrana_value.specs.Declines.{Reads, Only, EitherStands};
ghost use Rattle.hrana_value.specs.Members.{HasText, HasInt32, TextTree, Int32Tree, Int32Stands};
ghost use Rattle.hrana_value.specs.declared.failures.Decline.TheVariants.{Range};
ghost use Rattle.stream_requests.specs.Asks.{IsAskOf, AskMembersStand, StoredTextStands, NoMembersAreTwoAsks, FittingAsksAreRead};

use crate::{Ask, AskKind};
use hrana_batch::{batch_of_json, fitting_batches_are_read, no_tree_is_two_batches};
use hrana_stmt::{MAX_SQL_BYTES, sql_of_json, stmt_of_json};
use hrana_value::{
    Decline, ReadFail, Txt, both_readings, int32_of_json, member_or_null, members, text_of_json,
    uint32_of_json,
};
use serde_json::Value as Json;
use std::alloc::Global;

fn execute_of_json(alloc: Global, json: &Json) -> Result<Ask, ReadFail>
    ensures { Reads (λ a. IsAskOf AskKind.Execute a (view json.now)) (AskMembersStand AskKind.Execute (view json.now)) result }
{
    match stmt_of_json(alloc, member_or_null(json, "stmt", &Json::Null)) {
        Ok(stmt) => Ok(Ask::Execute(stmt)),
        Err(fail) => Err(fail),
    }
}

fn batch_ask_of_json(alloc: Global, json: &Json) -> Result<Ask, ReadFail>
    ensures { Reads (λ a. IsAskOf AskKind.Batch a (view json.now)) (AskMembersStand AskKind.Batch (view json.now)) result }
{
    match batch_of_json(alloc, member_or_null(json, "batch", &Json::Null)) {
        Ok(batch) => Ok(Ask::Batch(batch)),
        Err(fail) => Err(fail),
    }
}

fn sequence_of_json(alloc: Global, json: &Json) -> Result<Ask, ReadFail>
    ensures { Reads (λ a. IsAskOf AskKind.Sequence a (view json.now)) (AskMembersStand AskKind.Sequence (view json.now)) result }
{
    let sql = sql_of_json(alloc, json)?;
    Ok(Ask::Sequence(sql))
}

fn cursor_of_json(alloc: Global, json: &Json) -> Result<Ask, ReadFail>
    ensures { Reads (λ a. IsAskOf AskKind.Cursor a (view json.now)) (AskMembersStand AskKind.Cursor (view json.now)) result }
{
    match batch_of_json(alloc, member_or_null(json, "batch", &Json::Null)) {
        Ok(batch) => Ok(Ask::Cursor(batch)),
        Err(fail) => Err(fail),
    }
}

fn fetch_of_json(json: &Json) -> Result<Ask, ReadFail>
    ensures { Reads (λ a. IsAskOf AskKind.Fetch a (view json.now)) (AskMembersStand AskKind.Fetch (view json.now)) result }
{
    let count = uint32_of_json(member_or_null(json, "max_count", &Json::Null))?;
    Ok(Ask::Fetch(count))
}

fn text_limit(json: &Json) -> Result<(), ReadFail>
    ensures { Reads (λ _. Unit {0}) (Only Range (IsSomeAnd (as_str (view json.now)) (λ s. MAX_SQL_BYTES < length s))) result }
{
    match json.as_str() {
        Some(text) => {
            if text.len() > MAX_SQL_BYTES {
                Err(ReadFail::Declined(Decline::Range))
            } else {
                Ok(())
            }
        }
        None => Ok(()),
    }
}

fn stored_text_of_json(alloc: Global, json: &Json) -> Result<Txt, ReadFail>
    ensures { Reads (λ s. TextTree s (view json.now)) (StoredTextStands (view json.now)) result }
{
    let (text, ()) = both_readings(text_of_json(alloc, json), text_limit(json))?;
    Ok(text)
}

fn stored_of_parts(alloc: Global, id: &Json, sql: &Json) -> Result<(i32, Txt), ReadFail>
    ensures { Reads (λ read. Int32Tree read.0 (view id.now) × TextTree read.1 (view sql.now)) (EitherStands (Int32Stands (view id.now)) (StoredTextStands (view sql.now))) result }
{
    let id = int32_of_json(id);
    both_readings(id, stored_text_of_json(alloc, sql))
}

/// Reads the number and the text of an SQL text to be stored, which has at most `MAX_SQL_BYTES` bytes.
pub fn stored_of_json(alloc: Global, json: &Json) -> Result<(i32, Txt), ReadFail>
    ensures { Reads (λ read. HasInt32 (view json.now) (codes "sql_id") read.0 × HasText (view json.now) (codes "sql") read.1) (AskMembersStand AskKind.StoreSql (view json.now)) result }
{
    let null = Json::Null;
    let id = member_or_null(json, "sql_id", &null);
    stored_of_parts(alloc, id, member_or_null(json, "sql", &null))
}

fn store_sql_of_json(alloc: Global, json: &Json) -> Result<Ask, ReadFail>
    ensures { Reads (λ a. IsAskOf AskKind.StoreSql a (view json.now)) (AskMembersStand AskKind.StoreSql (view json.now)) result }
{
    let (id, sql) = stored_of_json(alloc, json)?;
    Ok(Ask::StoreSql { id, sql })
}

fn close_sql_of_json(json: &Json) -> Result<Ask, ReadFail>
    ensures { Reads (λ a. IsAskOf AskKind.CloseSql a (view json.now)) (AskMembersStand AskKind.CloseSql (view json.now)) result }
{
    let id = int32_of_json(member_or_null(json, "sql_id", &Json::Null))?;
    Ok(Ask::CloseSql(id))
}

/// Reads the members of an ask of this kind. A text to be stored has at most `MAX_SQL_BYTES` bytes.
pub fn ask_of_json(alloc: Global, kind: AskKind, json: &Json) -> Result<Ask, ReadFail>
    ensures { Reads (λ a. IsAskOf kind a (view json.now)) (AskMembersStand kind (view json.now)) result }
{
    match kind {
        AskKind::Execute => execute_of_json(alloc, json),
        AskKind::Batch => batch_ask_of_json(alloc, json),
        AskKind::Sequence => sequence_of_json(alloc, json),
        AskKind::Cursor => cursor_of_json(alloc, json),
        AskKind::Fetch => fetch_of_json(json),
        AskKind::CloseCursor => Ok(Ask::CloseCursor),
        AskKind::GetAutocommit => Ok(Ask::GetAutocommit),
        AskKind::StoreSql => store_sql_of_json(alloc, json),
        AskKind::CloseSql => close_sql_of_json(json),
        AskKind::Close => Ok(Ask::Close),
    }
}

/// Members are those of at most one ask of a kind.
pub fn no_members_are_two_asks()
    ensures { NoMembersAreTwoAsks }
{
    no_tree_is_two_batches();
}

/// Nothing is declined in the members of an ask exactly where the ask breaks no limit.
pub fn fitting_asks_are_read()
    ensures { FittingAsksAreRead }
{
    fitting_batches_are_read();
}
