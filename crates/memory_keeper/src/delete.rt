// `DELETE`.
ghost use Rattle.std.specs.Prelude.{◌≡◌, filter, IfOk, OnOk, OnErr};
ghost use Rattle.engine_core.specs.Results.{IsSmall};
ghost use Rattle.keeper_formulas.specs.Each.{Changes};
ghost use Rattle.keeper_rows.specs.Chosen.{stays, chosen_count};
ghost use Rattle.memory_keeper.specs.Tables.{delete};

use crate::rows::done;
use crate::tables::Table;
use hrana_stmt::StmtResult;
use hrana_value::Value;
use keeper_dialect::ColExpr;
use keeper_formulas::{Equation, Fail, Refusal, condition_of};
use keeper_rows::{TableRows, chosen_count};
use std::alloc::Global;

/// Removes the rows that a condition chooses, and says how many.
fn delete_rows(rows: &mut TableRows, condition: &Option<Equation>) -> Result<usize, Refusal>
    ensures count { result ≡ chosen_count condition.now rows.old }
    ensures rows { OnOk result (rows.new ≡ filter (stays condition.now) rows.old) }
    ensures err { OnErr result (rows.new ≡ rows.old) }
{
    let count = chosen_count(condition, rows.candidates(condition))?;
    if count > 0 {
        rows.remove_chosen(condition);
    }
    Ok(count)
}

/// Runs a `DELETE` on its table. The next rowid stays.
pub fn delete(
    alloc: Global,
    table: &mut Table,
    wanted: &Option<ColExpr>,
    bound: &[Value],
) -> Result<StmtResult, Fail>
    ensures changes { Changes (delete table.old wanted.now bound.now) table.old result table.new }
    ensures small { IfOk result IsSmall }
{
    let condition = condition_of(alloc, table.columns.as_slice(), bound, wanted)?;
    let count = delete_rows(&mut table.rows, &condition)?;
    Ok(done(alloc, count, None))
}
