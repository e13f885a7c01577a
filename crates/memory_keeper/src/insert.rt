// `INSERT`: all new rows are made before the first is put in.
ghost use Rattle.std.specs.Prelude.{◌≡◌, ◌≤◌, Some, pos, ◌+◌, ◌-◌, ◌<◌, ◌^◌, ◌++◌, ◌∷◌, [], Ok, length, replicate, IfOk, IfErr, OnOk, OnErr};
ghost use Rattle.hrana_value.specs.declared.value.Value.TheVariants as sql_value;
ghost use Rattle.engine_core.specs.Results.{IsSmall};
ghost use Rattle.keeper_formulas.specs.Each.{Gives, Refuses, Changes, each};
ghost use Rattle.std.specs.List.{range_with_len};
ghost use Rattle.keeper_formulas.specs.Formulas.{place_of, known};
ghost use Rattle.memory_keeper.specs.Tables.{places_of, tuple_equation, tuple_of, with_rows, tuple_added, tuples_added, last_rowid, insert};

use crate::rows::{assigned, done};
use crate::tables::Table;
use hrana_stmt::StmtResult;
use hrana_value::{NoMemory, Txt, Value};
use keeper_dialect::{Expr, Exprs, NameList};
use keeper_formulas::{Equation, Equations, Fail, Formula, Refusal, Resolve, place_of};
use keeper_rows::{Row, TableRows, breaks_key};
use std::alloc::Global;

/// The last rowid that is given.
const MAX_ROWID: u64 = 9223372036854775806;

fn places_of_names(alloc: Global, columns: &[Txt], names: &[Txt]) -> Result<Vec<usize>, Fail>
    ensures ok { IfOk result (λ places. each (λ name. known (place_of columns.now name)) names.now ≡ Ok places.items) }
    ensures err { IfErr result (Refuses (each (λ name. known (place_of columns.now name)) names.now)) }
{
    let mut places = Vec::new(alloc);
    for name in names {
        let place = place_of(columns, name.as_str())?;
        places.push(place)?;
    }
    Ok(places)
}

fn all_places(alloc: Global, count: usize) -> Result<Vec<usize>, NoMemory>
    ensures { IfOk result (λ places. places.items ≡ range_with_len 0 count) }
{
    let mut places = Vec::new(alloc);
    for place in 0..count {
        places.push(place)?;
    }
    Ok(places)
}

fn places_of(alloc: Global, columns: &[Txt], names: &Option<NameList>) -> Result<Vec<usize>, Fail>
    ensures ok { IfOk result (λ places. places_of columns.now names.now ≡ Ok places.items) }
    ensures err { IfErr result (Refuses (places_of columns.now names.now)) }
{
    match names {
        None => Ok(all_places(alloc, columns.len())?),
        Some(names) => places_of_names(alloc, columns, names.as_slice()),
    }
}

fn tuple_equation(
    alloc: Global,
    bound: &[Value],
    place: usize,
    expr: &Expr,
) -> Result<Equation, Fail>
    ensures { Gives (tuple_equation bound.now (place, expr.now)) result }
{
    let formula = Formula::resolve(alloc, &[], bound, expr)?;
    Ok(Equation { place, formula })
}

/// A tuple's expressions at the places that their values go to. No name stands in them.
fn tuple_of(
    alloc: Global,
    bound: &[Value],
    places: &[usize],
    exprs: &[Expr],
) -> Result<Equations, Fail>
    ensures { Gives (tuple_of bound.now places.now exprs.now) result }
{
    if places.len() != exprs.len() {
        return Err(Fail::Refused(Refusal::NoColumn));
    }
    let mut equations = Equations::new(alloc);
    for (index, expr) in exprs.iter().enumerate() {
        equations.push(tuple_equation(alloc, bound, places[index], expr)?)?;
    }
    Ok(equations)
}

fn tuples_of(
    alloc: Global,
    bound: &[Value],
    places: &[usize],
    tuples: &[Exprs],
) -> Result<Vec<Equations>, Fail>
    ensures ok { IfOk result (λ resolved. each (tuple_of bound.now places.now) tuples.now ≡ Ok resolved.items) }
    ensures err { IfErr result (Refuses (each (tuple_of bound.now places.now) tuples.now)) }
{
    let mut resolved = Vec::new(alloc);
    for tuple in tuples {
        let equations = tuple_of(alloc, bound, places, tuple.as_slice())?;
        resolved.push(equations)?;
    }
    Ok(resolved)
}

fn nulls(alloc: Global, count: usize) -> Result<Vec<Value>, NoMemory>
    ensures { IfOk result (λ row. row.items ≡ replicate count sql_value.Null) }
{
    let mut row = Vec::new(alloc);
    for _ in 0..count {
        row.push(Value::Null)?;
    }
    Ok(row)
}

/// The row of a tuple, behind those of the tuples before it.
fn new_row(alloc: Global, table: &Table, fresh: &TableRows, tuple: &[Equation]) -> Result<Row, Fail>
    ensures ok { IfOk result (λ row. tuple_added (with_rows table.now fresh.now) tuple.now ≡ Ok (with_rows table.now (fresh.now ++ row ∷ []))) }
    ensures err { IfErr result (Refuses (tuple_added (with_rows table.now fresh.now) tuple.now)) }
    ensures room { OnOk result (table.now.next_rowid + length fresh.now < 2 ^ 63 - 1) }
{
    let row = nulls(alloc, table.columns.as_slice().len())?;
    let values = assigned(alloc, &[], row, tuple)?;
    if breaks_key(table.key, &table.rows, fresh, values.as_slice()) {
        return Err(Fail::Refused(Refusal::Constraint));
    }
    let before = fresh.as_slice().len() as u64;
    let rowid = table.next_rowid.saturating_add(before);
    if rowid > MAX_ROWID {
        return Err(Fail::Refused(Refusal::Overflow));
    }
    Ok(Row { rowid, values })
}

fn new_rows(alloc: Global, table: &Table, tuples: &[Equations]) -> Result<TableRows, Fail>
    ensures ok { IfOk result (λ fresh. tuples_added table.now tuples.now ≡ Ok (with_rows table.now fresh)) }
    ensures err { IfErr result (Refuses (tuples_added table.now tuples.now)) }
    ensures room { IfOk result (λ fresh. table.now.next_rowid + length fresh < 2 ^ 64) }
    ensures last { IfOk result (λ fresh. 0 < length tuples.now → table.now.next_rowid + length fresh < 2 ^ 63) }
{
    let mut fresh = TableRows::new(alloc, table.key);
    for tuple in tuples {
        let row = new_row(alloc, table, &fresh, tuple.as_slice())?;
        fresh.push(alloc, row)?;
    }
    Ok(fresh)
}

/// The rowid of the last of so many new rows, if there are any.
fn last_rowid(count: usize, next: u64) -> Option<i64>
    requires { 0 < count → next < 2 ^ 63 }
    ensures { result ≡ last_rowid count next }
{
    if count == 0 {
        None
    } else {
        Some(next.saturating_sub(1) as i64)
    }
}

/// Puts rows that were made for the table at its end: all of them, or none.
fn put_rows(alloc: Global, table: &mut Table, fresh: TableRows) -> Result<(), NoMemory>
    requires room { table.old.next_rowid + length fresh < 2 ^ 64 }
    ensures ok { OnOk result (table.new ≡ with_rows table.old fresh) }
    ensures err { OnErr result (table.new ≡ table.old) }
{
    let rows = fresh.into_vec();
    let count = rows.len();
    table.rows.append(alloc, rows)?;
    table.next_rowid += count as u64;
    Ok(())
}

/// Runs an `INSERT` on its table.
pub fn insert(
    alloc: Global,
    table: &mut Table,
    names: &Option<NameList>,
    tuples: &[Exprs],
    bound: &[Value],
) -> Result<StmtResult, Fail>
    ensures changes { Changes (insert table.old names.now tuples.now bound.now) table.old result table.new }
    ensures small { IfOk result IsSmall }
{
    table.rows.index_by(alloc, table.key);
    let places = places_of(alloc, table.columns.as_slice(), names)?;
    let resolved = tuples_of(alloc, bound, places.as_slice(), tuples)?;
    let fresh = new_rows(alloc, table, resolved.as_slice())?;
    put_rows(alloc, table, fresh)?;
    Ok(done(
        alloc,
        tuples.len(),
        last_rowid(tuples.len(), table.next_rowid),
    ))
}
