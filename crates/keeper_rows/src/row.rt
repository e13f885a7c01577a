// A row of a table.
ghost use Rattle.std.specs.Prelude.{◌≡◌, IfOk};

use hrana_value::{NoMemory, Values};
use std::alloc::Global;

/// A row of a table. Rowids start at 1 and rise.
#[derive(Debug, Drop)]
pub struct Row {
    pub rowid: u64,
    pub values: Values,
}

impl Row {
    pub fn copy(&self, alloc: Global) -> Result<Row, NoMemory>
        ensures { IfOk result (λ copy. copy ≡ self.now) }
    {
        Ok(Row {
            rowid: self.rowid,
            values: self.values.copy(alloc)?,
        })
    }
}
