// An engine runs statements over its tables.
ghost use Rattle.std.specs.Prelude.{◌≡◌, ◌≤◌, ℕ, Bool, true, false, Some, None, IsSome, IfOk, OnOk, OnErr, MatchResult, IsTrue};
ghost use Rattle.serial_order.specs.Serial.{Meaning};
ghost use Rattle.engine_core.specs.Engine.{is_read, is_write, is_refusal, IsReadOrWrite, answer_of, RunsAlone, RunsIn, RefusesByCode, HasEngineCause, IsNoRefusal};
ghost use Rattle.engine_core.specs.Results.{IsSmall};
ghost use Rattle.engine_core.specs.Transactions.{Lives, NoneLive, NoWriter, NoOtherWriter, SameLive, Became, StartsAt, MayCommit, Committed};
ghost use Rattle.sql_text.specs.declared.class.Class.TheVariants.{Write};
ghost use Rattle.engine_core.specs.declared.statement.BoundStmt.{BoundStmt};
ghost use Rattle.engine_core.specs.declared.entries.Answer.{Answer};

use crate::{Answer, BoundStmt, NoMemory};
use hrana_stmt::{Code, StmtResult};
use hrana_value::StreamNo;

/// Why an engine didn't run a statement.
#[derive(Clone, Copy, Debug, PartialEq, Eq)]
pub enum EngineFail {
    /// The statement's meaning refuses it. The tables are as they were.
    Refused(Code),
    /// The engine broke.
    Fault,
    NoMemory,
}

impl From<NoMemory> for EngineFail {
    ghost use Rattle.engine_core.specs.declared.engine.EngineFail.TheVariants as fail;

    ghost from_gives = { λ _ e. e ≡ fail.NoMemory };

    fn from(_: NoMemory) -> Self {
        EngineFail::NoMemory
    }
}

/// An engine runs statements over its tables, alone or in transactions, which their callers number. One that doesn't
/// tell its tables takes a type of one value for `Db`.
pub trait Engine {
    /// Whether readers run beside a writer.
    const SHARED: bool;

    ghost SHARED: { Bool };

    /// What its tables are, to the theorems.
    type Db;

    /// Whether the engine tells its tables.
    ghost told: { Bool };

    /// What statements mean, with the two laws: a refusal leaves the database, and so does a read.
    ghost meaning: { Meaning Self.Db BoundStmt Answer };

    /// The committed database.
    ghost db: { Self → Self.Db };

    /// The live transactions, each with its view, by number.
    ghost live: { Self → Lives Self.Db };

    /// How often it has failed.
    ghost faults: { Self → ℕ };

    /// Begins a transaction, whose view starts as the committed database. `write` says that it is to write.
    fn begin(&mut self, txn: u64, write: bool) -> Result<(), EngineFail>
        requires fresh { live self.old txn ≡ None }
        requires turn { write ≡ true → NoWriter (live self.old) }
        requires quiet { SHARED ≡ false → NoneLive (live self.old) }
        ensures database { db self.new ≡ db self.old }
        ensures begun { OnOk result (Became (live self.old) (live self.new) txn (Some (record { start = db self.old; view = db self.old; is_writer = write }))) }
        ensures left { OnErr result (SameLive (live self.old) (live self.new)) }
        ensures never { IsNoRefusal result }
        ensures cause { HasEngineCause told (faults self.old) (faults self.new) result }
        ensures later { faults self.old ≤ faults self.new };

    /// Runs one statement in a transaction, on its view. Where the engine breaks, the transaction is gone.
    fn run(&mut self, txn: u64, stmt: &BoundStmt) -> Result<StmtResult, EngineFail>
        requires class { IsReadOrWrite stmt.now.class }
        requires lives { IsSome (live self.old txn) }
        requires turn { stmt.now.class ≡ Write → NoOtherWriter (live self.old) txn }
        requires current { stmt.now.class ≡ Write → IsTrue told → StartsAt (db self.old) (live self.old) txn }
        ensures database { db self.new ≡ db self.old }
        ensures runs { RunsIn told meaning (live self.old) (live self.new) txn stmt.now (answer_of result) }
        ensures small { IfOk result IsSmall }
        ensures codes { RefusesByCode result }
        ensures cause { HasEngineCause told (faults self.old) (faults self.new) result }
        ensures later { faults self.old ≤ faults self.new };

    /// Makes a transaction's view the committed database, and ends it. Where the engine breaks, the transaction is gone
    /// and the committed database is as before.
    fn commit(&mut self, txn: u64) -> Result<(), EngineFail>
        requires own { MayCommit told (db self.old) (live self.old) txn }
        ensures committed { OnOk result (Committed (live self.old) (db self.new) (live self.new) txn) }
        ensures kept { OnErr result (db self.new ≡ db self.old) }
        ensures gone { Became (live self.old) (live self.new) txn None }
        ensures never { IsNoRefusal result }
        ensures cause { HasEngineCause told (faults self.old) (faults self.new) result }
        ensures later { faults self.old ≤ faults self.new };

    /// Ends a transaction, which leaves nothing. Takes no memory.
    fn drop_txn(&mut self, txn: u64)
        requires lives { IsSome (live self.old txn) }
        ensures database { db self.new ≡ db self.old }
        ensures gone { Became (live self.old) (live self.new) txn None }
        ensures later { faults self.old ≤ faults self.new };

    /// Runs one statement outside a transaction, on the committed database.
    fn alone(&mut self, stmt: &BoundStmt) -> Result<StmtResult, EngineFail>
        requires class { IsReadOrWrite stmt.now.class }
        requires turn { stmt.now.class ≡ Write → NoWriter (live self.old) }
        requires quiet { SHARED ≡ false → NoneLive (live self.old) }
        ensures runs { RunsAlone told meaning (db self.old) (db self.new) stmt.now (answer_of result) }
        ensures live { SameLive (live self.old) (live self.new) }
        ensures small { IfOk result IsSmall }
        ensures codes { RefusesByCode result }
        ensures cause { HasEngineCause told (faults self.old) (faults self.new) result }
        ensures later { faults self.old ≤ faults self.new };

    /// The meaning takes a statement's class from its field.
    ghost reads: { (stmt : BoundStmt) → meaning.is_read stmt ≡ is_read stmt.class };

    ghost writes: { (stmt : BoundStmt) → meaning.is_write stmt ≡ is_write stmt.class };

    /// An answer is a refusal where it says so.
    ghost refusals: { (answer : Answer) → meaning.is_refused answer ≡ is_refusal answer };
}
