// A statement on the tables of a database.
ghost use Rattle.std.specs.Prelude.{◌≡◌, Ok, IfOk};
ghost use Rattle.engine_core.specs.Engine.{is_read};
ghost use Rattle.engine_core.specs.Results.{IsSmall};
ghost use Rattle.keeper_dialect.specs.Query.{query_of};
ghost use Rattle.keeper_dialect.specs.Reads.{is_select};
ghost use Rattle.keeper_formulas.specs.Each.{Gives, Changes};
ghost use Rattle.memory_keeper.specs.Names.{FindsTables};
ghost use Rattle.memory_keeper.specs.Exec.{query_or_syntax, run_parsed, outcome, exec, RunsAs};

use crate::names::TableNames;
use crate::queries::run_query;
use crate::tables::Table;
use engine_core::{BoundStmt, Class, EngineFail};
use hrana_stmt::StmtResult;
use keeper_dialect::{DialectFail, Query, parse};
use keeper_formulas::{Fail, Refusal, code_of};
use std::alloc::Global;

fn reads(class: Class) -> bool
    ensures { result ≡ is_read class }
{
    match class {
        Class::Read => true,
        _ => false,
    }
}

fn is_select(query: &Query) -> bool
    ensures { result ≡ is_select query.now }
{
    match query {
        Query::Select { .. } => true,
        _ => false,
    }
}

/// The query of a text, whose end or first piece that can't follow is of no more interest.
fn query_of(alloc: Global, sql: &str) -> Result<Query, Fail>
    ensures { Gives (query_or_syntax (query_of sql.now)) result }
{
    match parse(alloc, sql) {
        Ok(query) => Ok(query),
        Err(DialectFail::Syntax { .. }) => Err(Fail::Refused(Refusal::Syntax)),
        Err(DialectFail::NoMemory) => Err(Fail::NoMemory),
    }
}

fn run_parsed(
    alloc: Global,
    names: &Option<TableNames>,
    tables: &mut Vec<Table>,
    stmt: &BoundStmt,
    query: &Query,
) -> Result<StmtResult, Fail>
    requires { FindsTables names.now tables.old.items }
    ensures changes { Changes (run_parsed tables.old.items stmt.now.class stmt.now.values (Ok query.now)) tables.old.items result tables.new.items }
    ensures small { IfOk result IsSmall }
{
    if reads(stmt.class) && !is_select(query) {
        return Err(Fail::Refused(Refusal::Syntax));
    }
    run_query(alloc, names, tables, stmt.values.as_slice(), query)
}

fn run_statement(
    alloc: Global,
    names: &Option<TableNames>,
    tables: &mut Vec<Table>,
    stmt: &BoundStmt,
) -> Result<StmtResult, Fail>
    requires { FindsTables names.now tables.old.items }
    ensures changes { Changes (outcome tables.old.items stmt.now) tables.old.items result tables.new.items }
    ensures small { IfOk result IsSmall }
{
    let query = query_of(alloc, stmt.sql.as_str())?;
    run_parsed(alloc, names, tables, stmt, &query)
}

/// Runs a statement on tables. A refusal and want of memory leave them as they were.
pub fn execute(
    alloc: Global,
    names: &Option<TableNames>,
    tables: &mut Vec<Table>,
    stmt: &BoundStmt,
) -> Result<StmtResult, EngineFail>
    requires { FindsTables names.now tables.old.items }
    ensures runs { RunsAs (exec tables.old.items stmt.now) tables.old.items result tables.new.items }
    ensures small { IfOk result IsSmall }
{
    match run_statement(alloc, names, tables, stmt) {
        Ok(given) => Ok(given),
        Err(Fail::Refused(refusal)) => Err(EngineFail::Refused(code_of(refusal))),
        Err(Fail::NoMemory) => Err(EngineFail::NoMemory),
    }
}
