//! Statements, their results, and errors, as types and as JSON trees (HRANA_3_SPEC, "Execute a statement").
#![tactic(auto)]

mod arguments;
mod codes;
mod error_json;
mod errors;
mod limits;
mod result_json;
mod results;
mod sending;
mod sql;
mod statement_json;
mod statement_text;
mod statements;

pub use codes::{
    CODE_MESSAGES, CODE_NAMES, Code, code_message, code_messages_differ, code_name,
    code_names_differ, codes_differ,
};
pub use error_json::{error_of_json, error_to_json, errors_are_read, no_tree_is_two_errors};
pub use errors::{WireError, wire_error};
pub use limits::{MAX_ARGUMENTS, MAX_SQL_BYTES, limits_are};
pub use result_json::{no_tree_is_two_results, result_of_json, result_to_json, results_are_read};
pub use results::{Col, Cols, Rows, StmtResult};
pub use sending::{send_optional_int64, send_optional_text};
pub use sql::sql_of_json;
pub use statement_json::{
    fitting_statements_are_read, no_tree_is_two_statements, object_of_json, stmt_of_json,
    stmt_to_json,
};
pub use statement_text::send_sql;
pub use statements::{NamedArg, NamedArgs, SqlRef, Stmt};
