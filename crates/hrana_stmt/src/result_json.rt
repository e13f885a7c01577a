// Results from JSON trees and back.
ghost use Rattle.std.specs.Prelude.{◌≡◌, IfOk};
ghost use Rattle.serde_json.specs.View.{view};
ghost use Rattle.hrana_value.specs.Declines.{Reads};
ghost use Rattle.hrana_stmt.specs.Tree.{ColTree, ColStands, StmtResultTree, StmtResultStands, NoTreeIsTwoResults, ResultsAreRead};
ghost use Rattle.hrana_stmt.specs.Written.{result_data};

use crate::{Col, StmtResult, object_of_json};
use hrana_value::{
    JsonForm, NoMemory, ReadFail, both_readings, json_of, list_of_json, members, option_of_json,
    optional_int64_text_of_json, uint64_of_json,
};
use serde_json::Value as Json;
use std::alloc::Global;

fn col_of_json(alloc: Global, json: &Json) -> Result<Col, ReadFail>
    ensures { Reads (λ c. ColTree c (view json.now)) (ColStands (view json.now)) result }
{
    members!(json; name = "name": option_of_json(alloc));
    let ((), name) = both_readings(object_of_json(json), name)?;
    Ok(Col { name })
}

impl JsonForm for Col {
    ghost tree = { ColTree };

    ghost stands = { ColStands };

    fn of_json(alloc: Global, json: &Json) -> Result<Col, ReadFail> {
        col_of_json(alloc, json)
    }
}

/// Reads a result: `cols`, `rows`, `affected_row_count`, and an optional `last_insert_rowid`.
pub fn result_of_json(alloc: Global, json: &Json) -> Result<StmtResult, ReadFail>
    ensures { Reads (λ r. StmtResultTree r (view json.now)) (StmtResultStands (view json.now)) result }
{
    members!(json;
        cols = "cols": list_of_json(alloc),
        rows = "rows": list_of_json(alloc),
        affected = "affected_row_count": uint64_of_json(),
        last_rowid = "last_insert_rowid": optional_int64_text_of_json());
    let lists = both_readings(cols, rows);
    let numbers = both_readings(affected, last_rowid);
    match both_readings(lists, numbers) {
        Ok((lists, numbers)) => Ok(StmtResult {
            cols: lists.0,
            rows: lists.1,
            affected: numbers.0,
            last_rowid: numbers.1,
        }),
        Err(fail) => Err(fail),
    }
}

/// Writes a result with all its members, in byte order. What is missing is null.
pub fn result_to_json(alloc: Global, given: &StmtResult) -> Result<Json, NoMemory>
    ensures written { IfOk result (λ json. view json ≡ result_data given.now) }
    ensures reads_back { IfOk result (λ json. StmtResultTree given.now (view json)) }
{
    json_of(alloc, given)
}

/// A JSON tree is the form of at most one result.
pub fn no_tree_is_two_results()
    ensures { NoTreeIsTwoResults }
{}

/// Nothing is declined in the form of a result.
pub fn results_are_read()
    ensures { ResultsAreRead }
{}
