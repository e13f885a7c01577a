// Statements from JSON trees and back.
ghost use Rattle.std.specs.Prelude.{◌≡◌, IfOk};
ghost use Rattle.serde_json.specs.View.{view};
ghost use Rattle.hrana_value.specs.Declines.{Reads, EitherStands, TakesNoMemory};
ghost use Rattle.hrana_stmt.specs.Parts.{HeadTree, HeadStands, StmtPartsTree, StmtPartsStand};
ghost use Rattle.hrana_stmt.specs.Tree.{IsObject, ObjectStands, SqlTree, SqlStands, WantsRowsTree, WantsRowsStands, StmtTree, StmtStands, NoTreeIsTwoStatements, FittingStatementsAreRead};
ghost use Rattle.hrana_stmt.specs.Written.{stmt_data};

use crate::arguments::arguments_of_json;
use crate::{SqlRef, Stmt, sql_of_json};
use hrana_value::{Decline, NoMemory, ReadFail, both_readings, json_of, member_or_null};
use serde_json::Value as Json;
use std::alloc::Global;

fn want_rows_of_json(json: &Json) -> Result<bool, ReadFail>
    ensures { Reads (λ wanted. WantsRowsTree wanted (view json.now)) (WantsRowsStands (view json.now)) result }
{
    if json.is_null() {
        return Ok(true);
    }
    match json.as_bool() {
        Some(wanted) => Ok(wanted),
        None => Err(ReadFail::Declined(Decline::Shape)),
    }
}

/// Whether the tree is an object.
pub fn object_of_json(json: &Json) -> Result<(), ReadFail>
    ensures reads { Reads (λ _. IsObject (view json.now)) (ObjectStands (view json.now)) result }
    ensures memory { TakesNoMemory result }
{
    match json {
        Json::Object(_) => Ok(()),
        _ => Err(ReadFail::Declined(Decline::Shape)),
    }
}

fn sql_of_object(alloc: Global, json: &Json) -> Result<SqlRef, ReadFail>
    ensures { Reads (λ s. SqlTree s (view json.now)) (EitherStands (ObjectStands (view json.now)) (SqlStands (view json.now))) result }
{
    let ((), sql) = both_readings(object_of_json(json), sql_of_json(alloc, json))?;
    Ok(sql)
}

fn head_of_json(alloc: Global, json: &Json, want_rows: &Json) -> Result<(SqlRef, bool), ReadFail>
    ensures { Reads (λ head. HeadTree head.0 head.1 (view json.now) (view want_rows.now)) (HeadStands (view json.now) (view want_rows.now)) result }
{
    both_readings(sql_of_object(alloc, json), want_rows_of_json(want_rows))
}

fn stmt_of_parts(
    alloc: Global,
    json: &Json,
    args: &Json,
    named: &Json,
    want_rows: &Json,
) -> Result<Stmt, ReadFail>
    ensures { Reads (λ s. StmtPartsTree s (view json.now) (view args.now) (view named.now) (view want_rows.now)) (StmtPartsStand (view json.now) (view args.now) (view named.now) (view want_rows.now)) result }
{
    let head = head_of_json(alloc, json, want_rows);
    match both_readings(head, arguments_of_json(alloc, args, named)) {
        Ok((head, arguments)) => Ok(Stmt {
            sql: head.0,
            args: arguments.0,
            named: arguments.1,
            want_rows: head.1,
        }),
        Err(fail) => Err(fail),
    }
}

/// Reads a statement: `sql` or `sql_id`, and optional `args`, `named_args` and `want_rows`. Its SQL text has at
/// most 65,536 bytes, and it has at most 256 arguments, both kinds together.
pub fn stmt_of_json(alloc: Global, json: &Json) -> Result<Stmt, ReadFail>
    ensures { Reads (λ s. StmtTree s (view json.now)) (StmtStands (view json.now)) result }
{
    let null = Json::Null;
    stmt_of_parts(
        alloc,
        json,
        member_or_null(json, "args", &null),
        member_or_null(json, "named_args", &null),
        member_or_null(json, "want_rows", &null),
    )
}

/// Writes a statement with its members in byte order. What is empty is left out, and so is a `want_rows` that is
/// true.
pub fn stmt_to_json(alloc: Global, stmt: &Stmt) -> Result<Json, NoMemory>
    ensures written { IfOk result (λ json. view json ≡ stmt_data stmt.now) }
    ensures reads_back { IfOk result (λ json. StmtTree stmt.now (view json)) }
{
    json_of(alloc, stmt)
}

/// A JSON tree is the form of at most one statement.
pub fn no_tree_is_two_statements()
    ensures { NoTreeIsTwoStatements }
{}

/// Nothing is declined in the form of a statement exactly where the statement breaks no limit.
pub fn fitting_statements_are_read()
    ensures { FittingStatementsAreRead }
{}
