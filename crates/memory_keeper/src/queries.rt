// Queries on the tables of a database.
ghost use Rattle.std.specs.Prelude.{◌≡◌, ◌<◌, ◌∷◌, ◌++◌, [], Some, Ok, Err, IfOk, IfErr, length, slice_get};
ghost use Rattle.engine_core.specs.Results.{IsSmall};
ghost use Rattle.keeper_formulas.specs.Each.{Gives, Refuses, Changes};
ghost use Rattle.memory_keeper.specs.Tables.{insert, update, delete};
ghost use Rattle.memory_keeper.specs.Names.{table_place, FindsTables};
ghost use Rattle.memory_keeper.specs.Exec.{no_columns, table_of, on_table, created, selected_from, run_query};

use crate::create::new_table;
use crate::delete::delete;
use crate::insert::insert;
use crate::names::TableNames;
use crate::rows::done;
use crate::select::select;
use crate::tables::Table;
use crate::update::update;
use hrana_stmt::StmtResult;
use hrana_value::{Txt, Value, Values};
use keeper_dialect::{ColDef, ColExpr, ColExprs, NameList, Query, Shown, Tuples, is_same_name};
use keeper_formulas::{Fail, Refusal};
use keeper_rows::{Row, TableRows};
use std::alloc::Global;

fn scanned_place(tables: &[Table], name: &str) -> Option<usize>
    ensures { result ≡ table_place tables.now name.now }
{
    tables
        .iter()
        .position(|table| is_same_name(table.name.as_str(), name))
}

/// The place of the table of a name, from the map, or by a scan where memory is wanting for it.
fn place_of_table(
    alloc: Global,
    names: &Option<TableNames>,
    tables: &[Table],
    name: &str,
) -> Option<usize>
    requires { FindsTables names.now tables.now }
    ensures { result ≡ table_place tables.now name.now }
{
    let Some(names) = names else {
        return scanned_place(tables, name);
    };
    match names.get(alloc, name) {
        Ok(place) => place,
        Err(_) => scanned_place(tables, name),
    }
}

/// The place of the table of a name.
fn table_of(
    alloc: Global,
    names: &Option<TableNames>,
    tables: &[Table],
    name: &str,
) -> Result<usize, Refusal>
    requires { FindsTables names.now tables.now }
    ensures ok { IfOk result (λ place. (table : Table) → slice_get tables.now place ≡ Some table → table_of tables.now name.now ≡ Ok (place, table)) }
    ensures within { IfOk result (λ place. place < length tables.now) }
    ensures err { IfErr result (λ code. table_of tables.now name.now ≡ Err code) }
{
    match place_of_table(alloc, names, tables, name) {
        Some(place) => Ok(place),
        None => Err(Refusal::NoTable),
    }
}

fn create(
    alloc: Global,
    names: &Option<TableNames>,
    tables: &mut Vec<Table>,
    name: &Txt,
    cols: &[ColDef],
) -> Result<StmtResult, Fail>
    requires { FindsTables names.now tables.old.items }
    ensures changes { Changes (created tables.old.items (table_place tables.old.items name.now) name.now cols.now) tables.old.items result tables.new.items }
    ensures small { IfOk result IsSmall }
{
    if place_of_table(alloc, names, tables.as_slice(), name.as_str()).is_some() {
        return Err(Fail::Refused(Refusal::TableExists));
    }
    let table = new_table(alloc, name, cols)?;
    tables.push(table)?;
    Ok(done(alloc, 0, None))
}

/// The one row of a `SELECT` without `FROM`.
fn no_columns(alloc: Global) -> Row
    ensures { result ≡ no_columns }
{
    Row {
        rowid: 0,
        values: Values::new(alloc),
    }
}

fn selected_from(
    alloc: Global,
    names: &Option<TableNames>,
    tables: &[Table],
    name: &Option<Txt>,
    shown: &Shown,
    wanted: &Option<ColExpr>,
    bound: &[Value],
) -> Result<StmtResult, Fail>
    requires { FindsTables names.now tables.now }
    ensures gives { Gives (selected_from tables.now name.now shown.now wanted.now bound.now) result }
    ensures small { IfOk result IsSmall }
{
    match name {
        None => {
            let mut rows = TableRows::new(alloc, None);
            rows.push(alloc, no_columns(alloc))?;
            select(alloc, &[], &rows, shown, wanted, bound)
        }
        Some(name) => {
            let place = table_of(alloc, names, tables, name.as_str())?;
            let table = &tables[place];
            select(
                alloc,
                table.columns.as_slice(),
                &table.rows,
                shown,
                wanted,
                bound,
            )
        }
    }
}

fn insert_into(
    alloc: Global,
    names: &Option<TableNames>,
    tables: &mut Vec<Table>,
    name: &Txt,
    columns: &Option<NameList>,
    tuples: &Tuples,
    bound: &[Value],
) -> Result<StmtResult, Fail>
    requires { FindsTables names.now tables.old.items }
    ensures changes { Changes (on_table tables.old.items name.now (λ t. insert t columns.now tuples.now bound.now)) tables.old.items result tables.new.items }
    ensures small { IfOk result IsSmall }
{
    let place = table_of(alloc, names, tables.as_slice(), name.as_str())?;
    insert(alloc, &mut tables[place], columns, tuples.as_slice(), bound)
}

fn update_in(
    alloc: Global,
    names: &Option<TableNames>,
    tables: &mut Vec<Table>,
    name: &Txt,
    sets: &ColExprs,
    wanted: &Option<ColExpr>,
    bound: &[Value],
) -> Result<StmtResult, Fail>
    requires { FindsTables names.now tables.old.items }
    ensures changes { Changes (on_table tables.old.items name.now (λ t. update t sets.now wanted.now bound.now)) tables.old.items result tables.new.items }
    ensures small { IfOk result IsSmall }
{
    let place = table_of(alloc, names, tables.as_slice(), name.as_str())?;
    update(alloc, &mut tables[place], sets.as_slice(), wanted, bound)
}

fn delete_from(
    alloc: Global,
    names: &Option<TableNames>,
    tables: &mut Vec<Table>,
    name: &Txt,
    wanted: &Option<ColExpr>,
    bound: &[Value],
) -> Result<StmtResult, Fail>
    requires { FindsTables names.now tables.old.items }
    ensures changes { Changes (on_table tables.old.items name.now (λ t. delete t wanted.now bound.now)) tables.old.items result tables.new.items }
    ensures small { IfOk result IsSmall }
{
    let place = table_of(alloc, names, tables.as_slice(), name.as_str())?;
    delete(alloc, &mut tables[place], wanted, bound)
}

/// Runs a query on the tables.
pub fn run_query(
    alloc: Global,
    names: &Option<TableNames>,
    tables: &mut Vec<Table>,
    bound: &[Value],
    query: &Query,
) -> Result<StmtResult, Fail>
    requires { FindsTables names.now tables.old.items }
    ensures changes { Changes (run_query tables.old.items bound.now query.now) tables.old.items result tables.new.items }
    ensures small { IfOk result IsSmall }
{
    match query {
        Query::Create { table, cols } => create(alloc, names, tables, table, cols.as_slice()),
        Query::Insert {
            table,
            names: columns,
            tuples,
        } => insert_into(alloc, names, tables, table, columns, tuples, bound),
        Query::Select {
            shown,
            table,
            filter,
        } => selected_from(alloc, names, tables.as_slice(), table, shown, filter, bound),
        Query::Update {
            table,
            sets,
            filter,
        } => update_in(alloc, names, tables, table, sets, filter, bound),
        Query::Delete { table, filter } => delete_from(alloc, names, tables, table, filter, bound),
    }
}
