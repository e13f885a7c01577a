// Errors from JSON trees and back.
ghost use Rattle.serde_json.specs.View.{view};
ghost use Rattle.hrana_value.specs.Declines.{Reads};
ghost use Rattle.hrana_stmt.specs.Tree.{WireErrorTree, WireErrorStands, NoTreeIsTwoErrors, ErrorsAreRead};
ghost use Rattle.std.specs.Prelude.{◌≡◌, IfOk};
ghost use Rattle.hrana_stmt.specs.Written.{error_data};

use crate::WireError;
use hrana_value::{
    NoMemory, ReadFail, both_readings, json_of, members, option_of_json, text_of_json,
};
use serde_json::Value as Json;
use std::alloc::Global;

/// Reads an error: `message`, and an optional `code`.
pub fn error_of_json(alloc: Global, json: &Json) -> Result<WireError, ReadFail>
    ensures { Reads (λ e. WireErrorTree e (view json.now)) (WireErrorStands (view json.now)) result }
{
    members!(json; message = "message": text_of_json(alloc), code = "code": option_of_json(alloc));
    let (message, code) = both_readings(message, code)?;
    Ok(WireError { message, code })
}

/// Writes an error with all its members, in byte order. A code that is missing is null.
pub fn error_to_json(alloc: Global, error: &WireError) -> Result<Json, NoMemory>
    ensures written { IfOk result (λ json. view json ≡ error_data error.now) }
    ensures reads_back { IfOk result (λ json. WireErrorTree error.now (view json)) }
{
    json_of(alloc, error)
}

/// A JSON tree is the form of at most one error.
pub fn no_tree_is_two_errors()
    ensures { NoTreeIsTwoErrors }
{}

/// Nothing is declined in the form of an error.
pub fn errors_are_read()
    ensures { ErrorsAreRead }
{}
