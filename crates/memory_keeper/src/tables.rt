// Tables and databases.
ghost use Rattle.std.specs.Prelude.{◌≡◌, [], IfOk};
ghost use Rattle.engine_core.specs.Results.{IsSmall};
ghost use Rattle.memory_keeper.specs.Exec.{exec, RunsAs};

use crate::execute::execute;
use crate::names::{TableNames, grown_names};
use engine_core::{BoundStmt, EngineFail};
use hrana_stmt::StmtResult;
use hrana_value::{NoMemory, Txt};
use keeper_dialect::NameList;
use keeper_rows::TableRows;
use std::alloc::Global;
use std::marker::Model;

/// A table. Names of columns stand as they were declared, and each row has a value for each column.
#[derive(Debug, Drop)]
pub struct Table {
    pub name: Txt,
    pub columns: NameList,
    /// The place of the primary key among the columns.
    pub key: Option<usize>,
    pub rows: TableRows,
    /// The rowid of the next row, from 1 on. It never falls.
    pub next_rowid: u64,
}

/// A copy of names.
pub fn copy_names(alloc: Global, names: &[Txt]) -> Result<NameList, NoMemory>
    ensures { IfOk result (λ copy. copy ≡ names.now) }
{
    let mut copies = NameList::new(alloc);
    for name in names {
        copies.push(name.copy(alloc)?)?;
    }
    Ok(copies)
}

impl Table {
    pub fn copy(&self, alloc: Global) -> Result<Table, NoMemory>
        ensures { IfOk result (λ copy. copy ≡ self.now) }
    {
        Ok(Table {
            name: self.name.copy(alloc)?,
            columns: copy_names(alloc, self.columns.as_slice())?,
            key: self.key,
            rows: self.rows.copy(alloc)?,
            next_rowid: self.next_rowid,
        })
    }
}

/// The tables of a database, in the order of their creation, with a map of their names. Where memory was wanting the map is
/// left out, and a name is searched for table by table.
#[derive(Debug, Drop)]
pub struct Database {
    tables: Vec<Table>,
    names: Option<TableNames>,
}

impl Model for Database {
    ghost use Rattle.std.specs.Prelude.{List};
    ghost use Rattle.memory_keeper.specs.declared.tables.Table.{Table};
    ghost use Rattle.memory_keeper.specs.Names.{FindsTables};

    ghost Value = { List Table };

    ghost view = { λ db. db.tables.items };

    ghost invariant = { λ db. FindsTables db.names db.tables.items };
}

impl Database {
    /// A database with no table.
    pub fn new(alloc: Global) -> Database
        ensures { result ≡ [] }
    {
        Database {
            tables: Vec::new(alloc),
            names: Some(TableNames::new(alloc)),
        }
    }

    /// Runs a statement. A refusal and want of memory leave the tables as they were.
    pub fn execute(&mut self, alloc: Global, stmt: &BoundStmt) -> Result<StmtResult, EngineFail>
        ensures runs { RunsAs (exec self.old stmt.now) self.old result self.new }
        ensures small { IfOk result IsSmall }
    {
        let count = self.tables.len();
        let answer = execute(alloc, &self.names, &mut self.tables, stmt);
        self.names = grown_names(alloc, self.names.take(), count, self.tables.as_slice());
        answer
    }

    /// A copy, with a map of its own.
    pub fn copy(&self, alloc: Global) -> Result<Database, NoMemory>
        ensures { IfOk result (λ copy. copy ≡ self.now) }
    {
        let mut tables = Vec::new(alloc);
        for table in &self.tables {
            tables.push(table.copy(alloc)?)?;
        }
        let names = grown_names(alloc, Some(TableNames::new(alloc)), 0, tables.as_slice());
        Ok(Database { tables, names })
    }
}
