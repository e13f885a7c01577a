ghost use Rattle.std.specs.Prelude.{◌≡◌, IfOk};

use hrana_value::{Duplicate, List, NoMemory, Txt, Values};
use std::alloc::Global;

/// A column of a result.
#[derive(Debug, Drop)]
pub struct Col {
    pub name: Option<Txt>,
}

impl Col {
    pub fn copy(&self, alloc: Global) -> Result<Col, NoMemory>
        ensures { IfOk result (λ copy. copy ≡ self.now) }
    {
        let name = match &self.name {
            Some(name) => Some(name.copy(alloc)?),
            None => None,
        };
        Ok(Col { name })
    }
}

impl Duplicate for Col {
    fn copy(&self, alloc: Global) -> Result<Col, NoMemory> {
        Col::copy(self, alloc)
    }
}

/// A list of columns.
pub type Cols = List<Col>;

/// A list of rows.
pub type Rows = List<Values>;

/// The result of a statement.
#[derive(Debug, Drop)]
pub struct StmtResult {
    pub cols: Cols,
    pub rows: Rows,
    /// The number of rows that an `INSERT`, `UPDATE` or `DELETE` changed.
    pub affected: u64,
    /// The row id of the last row that was inserted.
    pub last_rowid: Option<i64>,
}

impl Duplicate for StmtResult {
    fn copy(&self, alloc: Global) -> Result<StmtResult, NoMemory> {
        Ok(StmtResult {
            cols: self.cols.copy(alloc)?,
            rows: self.rows.copy(alloc)?,
            affected: self.affected,
            last_rowid: self.last_rowid,
        })
    }
}
