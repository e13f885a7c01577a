// An engine some of whose calls fail.
ghost use Rattle.std.specs.Prelude.{◌≡◌, IfOk};

use crate::{BoundStmt, Engine, EngineFail, ListedCalls};
use hrana_stmt::StmtResult;
use hrana_value::NoMemory;
use std::alloc::Global;

/// An engine some of whose calls fail: those whose numbers, counted from 1 over all calls but `drop_txn`, are listed. A
/// call that fails doesn't reach the engine inside, but that its transaction is dropped there.
#[derive(Drop)]
pub struct Failing<E: Engine + Drop> {
    engine: E,
    listed: ListedCalls,
}

impl<E: Engine + Drop> Failing<E> {
    ghost use Rattle.engine_core.specs.Listed.{engine_calls};
    ghost use Rattle.engine_core.specs.Transactions.{SameLive};

    pub fn new(alloc: Global, engine: E, fail_at: &[u64]) -> Result<Failing<E>, NoMemory>
        ensures db { IfOk result (λ f. ⟦<Failing<E> as Engine>⟧.db f ≡ E.db engine) }
        ensures live { IfOk result (λ f. SameLive (E.live engine) (⟦<Failing<E> as Engine>⟧.live f)) }
        ensures calls { IfOk result (λ f. engine_calls f ≡ record { fail_at = fail_at.now; calls = 0 }) }
    {
        Ok(Failing {
            engine,
            listed: ListedCalls::new(alloc, fail_at)?,
        })
    }
}

impl<E: Engine + Drop> Engine for Failing<E> {
    ghost use Rattle.std.specs.Prelude.{◌+◌};
    ghost use Rattle.engine_core.specs.Listed.{faults_of};

    const SHARED: bool = E::SHARED;

    ghost SHARED = { E.SHARED };

    type Db = E::Db;

    ghost told = { E.told };

    ghost meaning = { E.meaning };

    ghost db = { λ f. E.db f.engine };

    ghost live = { λ f. E.live f.engine };

    ghost faults = { λ f. E.faults f.engine + faults_of f.listed };

    ghost reads = { E.reads };

    ghost writes = { E.writes };

    ghost refusals = { E.refusals };

    fn begin(&mut self, txn: u64, write: bool) -> Result<(), EngineFail> {
        if self.listed.fails() {
            return Err(EngineFail::Fault);
        }
        self.engine.begin(txn, write)
    }

    fn run(&mut self, txn: u64, stmt: &BoundStmt) -> Result<StmtResult, EngineFail> {
        if self.listed.fails() {
            self.engine.drop_txn(txn);
            return Err(EngineFail::Fault);
        }
        self.engine.run(txn, stmt)
    }

    fn commit(&mut self, txn: u64) -> Result<(), EngineFail> {
        if self.listed.fails() {
            self.engine.drop_txn(txn);
            return Err(EngineFail::Fault);
        }
        self.engine.commit(txn)
    }

    fn drop_txn(&mut self, txn: u64) {
        self.engine.drop_txn(txn);
    }

    fn alone(&mut self, stmt: &BoundStmt) -> Result<StmtResult, EngineFail> {
        if self.listed.fails() {
            return Err(EngineFail::Fault);
        }
        self.engine.alone(stmt)
    }
}
