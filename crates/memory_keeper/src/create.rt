// `CREATE TABLE`.
ghost use Rattle.std.specs.Prelude.{◌≡◌, map, IfOk};
ghost use Rattle.std.specs.List.{position};
ghost use Rattle.memory_keeper.specs.Tables.{new_table};

use crate::tables::Table;
use hrana_value::{NoMemory, Txt};
use keeper_dialect::{ColDef, NameList};
use keeper_rows::TableRows;
use std::alloc::Global;

fn names_of(alloc: Global, cols: &[ColDef]) -> Result<NameList, NoMemory>
    ensures { IfOk result (λ names. names ≡ map (λ col. col.name) cols.now) }
{
    let mut names = NameList::new(alloc);
    for col in cols {
        names.push(col.name.copy(alloc)?)?;
    }
    Ok(names)
}

fn key_of(cols: &[ColDef]) -> Option<usize>
    ensures { result ≡ position (λ col. col.key) cols.now }
{
    cols.iter().position(|col| col.key)
}

/// A new table, which is empty.
pub fn new_table(alloc: Global, name: &Txt, cols: &[ColDef]) -> Result<Table, NoMemory>
    ensures { IfOk result (λ table. table ≡ new_table name.now cols.now) }
{
    let key = key_of(cols);
    Ok(Table {
        name: name.copy(alloc)?,
        columns: names_of(alloc, cols)?,
        key,
        rows: TableRows::new(alloc, key),
        next_rowid: 1,
    })
}
