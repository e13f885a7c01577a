// The engine: a database, and at most one transaction beside it.
ghost use Rattle.std.specs.Prelude.{◌≡◌, true, false, refl, [], IfOk};
ghost use Rattle.engine_core.specs.Engine.{is_write};
ghost use Rattle.engine_core.specs.Transactions.{NoneLive, lives_of};
ghost use Rattle.memory_keeper.specs.Exec.{single_of};
ghost use Rattle.memory_keeper.specs.Meaning.{meaning};

use crate::tables::Database;
use engine_core::{BoundStmt, Class, Engine, EngineFail};
use hrana_stmt::StmtResult;
use hrana_value::NoMemory;
use std::alloc::Global;

/// An engine whose tables stand in memory, with no table at first. It has at most one live transaction, which works on
/// a copy of its own.
#[derive(Drop)]
pub struct MemoryKeeper {
    alloc: Global,
    database: Database,
    running: Option<Running>,
}

// The one transaction that may live.
#[derive(Drop)]
struct Running {
    txn: u64,
    database: Database,
    writes: bool,
}

impl MemoryKeeper {
    pub fn new(alloc: Global) -> Result<MemoryKeeper, NoMemory>
        ensures database { IfOk result (λ k. ⟦<MemoryKeeper as Engine>⟧.db k ≡ []) }
        ensures none_lives { IfOk result (λ k. NoneLive (⟦<MemoryKeeper as Engine>⟧.live k)) }
    {
        Ok(MemoryKeeper {
            alloc,
            database: Database::new(alloc),
            running: None,
        })
    }
}

fn writes(class: Class) -> bool
    ensures { result ≡ is_write class }
{
    match class {
        Class::Write => true,
        _ => false,
    }
}

impl Engine for MemoryKeeper {
    const SHARED: bool = false;

    ghost SHARED = { false };

    type Db = Database;

    ghost told = { true };

    ghost meaning = { meaning };

    ghost db = { λ k. k.database };

    ghost live = { λ k. lives_of k.database (single_of k.running) };

    ghost faults = { λ _. 0 };

    ghost reads = { λ _. refl };

    ghost writes = { λ _. refl };

    ghost refusals = { λ _. refl };

    fn begin(&mut self, txn: u64, write: bool) -> Result<(), EngineFail> {
        let database = self.database.copy(self.alloc)?;
        self.running = Some(Running {
            txn,
            database,
            writes: write,
        });
        Ok(())
    }

    fn run(&mut self, _txn: u64, stmt: &BoundStmt) -> Result<StmtResult, EngineFail> {
        let Some(mut running) = self.running.take() else {
            unreachable!();
        };
        let result = running.database.execute(self.alloc, stmt);
        if let Err(EngineFail::NoMemory) = result {
            return result;
        }
        running.writes = running.writes || writes(stmt.class);
        self.running = Some(running);
        result
    }

    fn commit(&mut self, _txn: u64) -> Result<(), EngineFail> {
        if let Some(running) = self.running.take() {
            self.database = running.database;
        }
        Ok(())
    }

    fn drop_txn(&mut self, _txn: u64) {
        self.running = None;
    }

    fn alone(&mut self, stmt: &BoundStmt) -> Result<StmtResult, EngineFail> {
        self.database.execute(self.alloc, stmt)
    }
}
