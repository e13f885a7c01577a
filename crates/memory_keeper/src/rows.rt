// What is made of a row, and what a statement without rows is answered.
ghost use Rattle.std.specs.Prelude.{◌≡◌};
ghost use Rattle.engine_core.specs.Results.{IsSmall};
ghost use Rattle.keeper_formulas.specs.Each.{Gives};
ghost use Rattle.keeper_formulas.specs.Formulas.{assigned};
ghost use Rattle.memory_keeper.specs.Tables.{done};

use hrana_stmt::{Cols, Rows, StmtResult};
use hrana_value::{Value, Values};
use keeper_formulas::{Equation, Fail, formula_value};
use std::alloc::Global;

/// The row with the value of each expression at its place. The expressions have their values on the old row.
pub fn assigned(
    alloc: Global,
    old: &[Value],
    mut row: Vec<Value>,
    sets: &[Equation],
) -> Result<Values, Fail>
    ensures { Gives (assigned old.now row.items sets.now) result }
{
    for set in sets {
        let value = formula_value(alloc, old, &set.formula)?;
        if set.place < row.len() {
            row[set.place] = value;
        }
    }
    Ok(Values::from_vec(row))
}

/// What a statement without rows is answered.
pub fn done(alloc: Global, count: usize, last_rowid: Option<i64>) -> StmtResult
    ensures given { result ≡ done count last_rowid }
    ensures small { IsSmall result }
{
    StmtResult {
        cols: Cols::new(alloc),
        rows: Rows::new(alloc),
        affected: count as u64,
        last_rowid,
    }
}
