// `UPDATE`: all new rows are made from the old ones before the first is put in.
ghost use Rattle.std.specs.Prelude.{◌≡◌, ◌≤◌, ◌∷◌, [], length, Ok, IfOk, IfErr};
ghost use Rattle.engine_core.specs.Results.{IsSmall};
ghost use Rattle.keeper_formulas.specs.Each.{somes, Gives, Refuses, Changes};
ghost use Rattle.memory_keeper.specs.Tables.{renewal, renewed_row, all_renewed, all_updated, update};

use crate::rows::{assigned, done};
use crate::tables::Table;
use hrana_stmt::StmtResult;
use hrana_value::{NoMemory, Value, Values};
use keeper_dialect::ColExpr;
use keeper_formulas::{Equation, Equations, Fail, Refusal, condition_of, resolve_each};
use keeper_rows::{Row, TableRows, is_chosen, rows_at};
use std::alloc::Global;

/// New rows, and how many of them are changed.
#[derive(Drop)]
struct Renewed {
    rows: Vec<Row>,
    count: usize,
}

/// The new values of a row, if it is chosen.
fn renewal(
    alloc: Global,
    condition: &Option<Equation>,
    sets: &[Equation],
    row: &Row,
) -> Result<Option<Values>, Fail>
    ensures { Gives (renewal condition.now sets.now row.now) result }
{
    if !is_chosen(condition, row)? {
        return Ok(None);
    }
    let new = row.values.copy(alloc)?.into_vec();
    Ok(Some(assigned(alloc, row.values.as_slice(), new, sets)?))
}

fn renewed_row(alloc: Global, row: &Row, new: Option<Values>) -> Result<Row, NoMemory>
    ensures { IfOk result (λ renewed. renewed ≡ renewed_row row.now new) }
{
    match new {
        None => row.copy(alloc),
        Some(values) => Ok(Row {
            rowid: row.rowid,
            values,
        }),
    }
}

fn change_count(new: &Option<Values>) -> usize
    ensures count { result ≡ length (somes (new.now ∷ [])) }
    ensures small { result ≤ 1 }
{
    match new {
        Some(_) => 1,
        None => 0,
    }
}

fn all_renewed(
    alloc: Global,
    condition: &Option<Equation>,
    sets: &[Equation],
    rows: &[Row],
) -> Result<Renewed, Fail>
    ensures ok { IfOk result (λ new. all_renewed condition.now sets.now rows.now ≡ Ok (new.rows.items, new.count)) }
    ensures err { IfErr result (Refuses (all_renewed condition.now sets.now rows.now)) }
    ensures many { IfOk result (λ new. length new.rows.items ≡ length rows.now) }
{
    let mut new_rows = Vec::new(alloc);
    let mut count = 0;
    for row in rows {
        let new = renewal(alloc, condition, sets, row)?;
        count += change_count(&new);
        new_rows.push(renewed_row(alloc, row, new)?)?;
    }
    Ok(Renewed {
        rows: new_rows,
        count,
    })
}

/// Gives the rows that a condition chooses their new values, and says how many.
fn update_rows(
    alloc: Global,
    key: Option<usize>,
    rows: &mut TableRows,
    condition: &Option<Equation>,
    sets: &[Equation],
) -> Result<usize, Fail>
    ensures { Changes (all_updated key condition.now sets.now rows.old) rows.old result rows.new }
{
    let span = rows.span_of(condition);
    let new = all_renewed(alloc, condition, sets, rows_at(rows.as_slice(), span))?;
    let count = new.count;
    if rows.replace(alloc, key, span, new.rows)? {
        Ok(count)
    } else {
        Err(Fail::Refused(Refusal::Constraint))
    }
}

/// Runs an `UPDATE` on its table.
pub fn update(
    alloc: Global,
    table: &mut Table,
    sets: &[ColExpr],
    wanted: &Option<ColExpr>,
    bound: &[Value],
) -> Result<StmtResult, Fail>
    ensures changes { Changes (update table.old sets.now wanted.now bound.now) table.old result table.new }
    ensures small { IfOk result IsSmall }
{
    let equations: Equations = resolve_each(alloc, table.columns.as_slice(), bound, sets)?;
    let condition = condition_of(alloc, table.columns.as_slice(), bound, wanted)?;
    let count = update_rows(
        alloc,
        table.key,
        &mut table.rows,
        &condition,
        equations.as_slice(),
    )?;
    Ok(done(alloc, count, None))
}
