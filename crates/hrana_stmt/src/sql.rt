// What a statement or a sequence runs, from its JSON tree.
ghost use Rattle.std.specs.Prelude.{◌≡◌};
ghost use Rattle.serde_json.specs.Data.{null};
ghost use Rattle.serde_json.specs.View.{view};
ghost use Rattle.hrana_value.specs.Declines.{Reads};
ghost use Rattle.hrana_stmt.specs.Tree.{SqlTree, SqlStands, SqlPartsStand, IsGiven};
ghost use Rattle.hrana_stmt.specs.Parts.{SqlPartsTree};

use crate::{MAX_SQL_BYTES, SqlRef};
use hrana_value::{Decline, ReadFail, Txt, int32, member_or_null};
use serde_json::Value as Json;
use std::alloc::Global;

fn sql_text_of_json(alloc: Global, sql: &Json, id: &Json) -> Result<SqlRef, ReadFail>
    requires given { IsGiven (view sql.now) }
    requires absent { view id.now ≡ null }
    ensures { Reads (λ s. SqlPartsTree s (view sql.now) (view id.now)) (SqlPartsStand (view sql.now) (view id.now)) result }
{
    let Some(text) = sql.as_str() else {
        return Err(ReadFail::Declined(Decline::Shape));
    };
    if text.len() > MAX_SQL_BYTES {
        return Err(ReadFail::Declined(Decline::Range));
    }
    Ok(SqlRef::Text(Txt::new(alloc, text)?))
}

fn sql_id_of_json(sql: &Json, id: &Json) -> Result<SqlRef, ReadFail>
    requires absent { view sql.now ≡ null }
    requires given { IsGiven (view id.now) }
    ensures { Reads (λ s. SqlPartsTree s (view sql.now) (view id.now)) (SqlPartsStand (view sql.now) (view id.now)) result }
{
    Ok(SqlRef::Id(int32(id)?))
}

// Both parts are given, which is a refusal: the first kind that stands.
fn both_sql(sql: &Json, id: &Json) -> Result<SqlRef, ReadFail>
    requires sql_given { IsGiven (view sql.now) }
    requires id_given { IsGiven (view id.now) }
    ensures { Reads (λ s. SqlPartsTree s (view sql.now) (view id.now)) (SqlPartsStand (view sql.now) (view id.now)) result }
{
    if sql.as_str().is_none() {
        return Err(ReadFail::Declined(Decline::Shape));
    }
    match int32(id) {
        Err(Decline::Shape) => Err(ReadFail::Declined(Decline::Shape)),
        _ => Err(ReadFail::Declined(Decline::BothSql)),
    }
}

fn sql_of_parts(alloc: Global, sql: &Json, id: &Json) -> Result<SqlRef, ReadFail>
    ensures { Reads (λ s. SqlPartsTree s (view sql.now) (view id.now)) (SqlPartsStand (view sql.now) (view id.now)) result }
{
    if sql.is_null() {
        if id.is_null() {
            Err(ReadFail::Declined(Decline::BothSql))
        } else {
            sql_id_of_json(sql, id)
        }
    } else if id.is_null() {
        sql_text_of_json(alloc, sql, id)
    } else {
        both_sql(sql, id)
    }
}

/// Reads `sql` or `sql_id` of an object, of which it is to have exactly one. A text has at most 65,536 bytes.
pub fn sql_of_json(alloc: Global, json: &Json) -> Result<SqlRef, ReadFail>
    ensures { Reads (λ s. SqlTree s (view json.now)) (SqlStands (view json.now)) result }
{
    let null = Json::Null;
    sql_of_parts(
        alloc,
        member_or_null(json, "sql", &null),
        member_or_null(json, "sql_id", &null),
    )
}
