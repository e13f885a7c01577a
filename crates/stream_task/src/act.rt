// The rows of the table, each with one call of the engine, and the entry that says what came of it.
ghost use Rattle.std.specs.Prelude.{◌≡◌, ◌≤◌, ℕ, Bool, true, false, None, Option, Some, IsSome, IsTrue};
ghost use Rattle.hrana_value.specs.declared.StreamNo.{StreamNo};
ghost use Rattle.sql_text.specs.declared.class.Class.TheVariants.{Write};
ghost use Rattle.engine_core.specs.Causes.{RoseBy};
ghost use Rattle.engine_core.specs.Engine.{IsReadOrWrite};
ghost use Rattle.engine_core.specs.Journal.{fault_of};
ghost use Rattle.engine_core.specs.Transactions.{NoneLive, NoWriter, NoOtherWriter, StartsAt, MayCommit as MayCommitIn};
ghost use Rattle.stream_task.specs.Effect.{Effect, RefusesByCause};
ghost use Rattle.stream_task.specs.Table.{wrote, begins_writer, MayBeAlone, MayBegin, MayRun, MayCommit, MayAdd};
ghost use Rattle.stream_task.specs.Act.{IsGranted, MayAct};

use crate::table::{Row, begins_writer};
use engine_core::{Answer, BoundStmt, Broken, Class, Engine, EngineFail, Entry, How, Undo};
use hrana_value::StreamNo;

/// Whether a statement has written: its class is `Write`, and it wasn't refused.
fn has_written(stmt: &BoundStmt, answer: &Answer) -> bool
    ensures { result ≡ wrote stmt.now answer.now }
{
    match answer {
        Answer::Gave(_) => matches!(stmt.class, Class::Write),
        Answer::Refused(_) => false,
    }
}

/// The entry of a statement that ran alone.
fn ran_alone(stream: StreamNo, stmt: BoundStmt, answer: Answer) -> Entry
    ensures { result ≡ Entry.Alone stream stmt answer (wrote stmt answer) }
{
    let wrote = has_written(&stmt, &answer);
    Entry::Alone {
        stream,
        stmt,
        answer,
        wrote,
    }
}

/// The entry of a call in which the engine broke.
fn broken(stream: StreamNo, unit: Option<u64>, cause: Broken) -> Entry
    ensures { result ≡ Entry.Failed stream unit cause }
{
    Entry::Failed {
        stream,
        unit,
        cause,
    }
}

/// Runs a statement alone.
fn run_alone<E: Engine>(engine: &mut E, stream: StreamNo, stmt: BoundStmt) -> Entry
    requires class { IsReadOrWrite stmt.class }
    requires turn { stmt.class ≡ Write → NoWriter (E.live engine.old) }
    requires quiet { E.SHARED ≡ false → NoneLive (E.live engine.old) }
    ensures entry { MayBeAlone stream stmt result }
    ensures effect { (writes : Bool) → Effect E.told E.meaning writes (E.db engine.old) (E.live engine.old) (E.db engine.new) (E.live engine.new) result }
    ensures cause { RoseBy (fault_of result) (E.faults engine.old) (E.faults engine.new) }
    ensures refused { RefusesByCause E.told (E.faults engine.old) (E.faults engine.new) (Some result) }
    ensures later { E.faults engine.old ≤ E.faults engine.new }
{
    match engine.alone(&stmt) {
        Ok(given) => ran_alone(stream, stmt, Answer::Gave(given)),
        Err(EngineFail::Refused(code)) => ran_alone(stream, stmt, Answer::Refused(code)),
        Err(EngineFail::Fault) => broken(stream, None, Broken::Fault),
        Err(EngineFail::NoMemory) => broken(stream, None, Broken::NoMemory),
    }
}

/// Begins a unit. `write` says that it is to write.
fn begin<E: Engine>(engine: &mut E, stream: StreamNo, unit: u64, write: bool) -> Entry
    requires fresh { E.live engine.old unit ≡ None }
    requires turn { write ≡ true → NoWriter (E.live engine.old) }
    requires quiet { E.SHARED ≡ false → NoneLive (E.live engine.old) }
    ensures entry { MayBegin stream unit result }
    ensures effect { Effect E.told E.meaning write (E.db engine.old) (E.live engine.old) (E.db engine.new) (E.live engine.new) result }
    ensures cause { RoseBy (fault_of result) (E.faults engine.old) (E.faults engine.new) }
    ensures refused { RefusesByCause E.told (E.faults engine.old) (E.faults engine.new) (Some result) }
    ensures later { E.faults engine.old ≤ E.faults engine.new }
{
    match engine.begin(unit, write) {
        Ok(()) => Entry::Began { unit, stream },
        Err(EngineFail::Refused(_)) => unreachable!(),
        Err(EngineFail::Fault) => broken(stream, None, Broken::Fault),
        Err(EngineFail::NoMemory) => broken(stream, None, Broken::NoMemory),
    }
}

/// Runs a statement in a unit.
fn run<E: Engine>(engine: &mut E, stream: StreamNo, unit: u64, stmt: BoundStmt) -> Entry
    requires class { IsReadOrWrite stmt.class }
    requires lives { IsSome (E.live engine.old unit) }
    requires turn { stmt.class ≡ Write → NoOtherWriter (E.live engine.old) unit }
    requires current { stmt.class ≡ Write → IsTrue E.told → StartsAt (E.db engine.old) (E.live engine.old) unit }
    ensures entry { MayRun stream stmt unit result }
    ensures effect { (writes : Bool) → Effect E.told E.meaning writes (E.db engine.old) (E.live engine.old) (E.db engine.new) (E.live engine.new) result }
    ensures cause { RoseBy (fault_of result) (E.faults engine.old) (E.faults engine.new) }
    ensures refused { RefusesByCause E.told (E.faults engine.old) (E.faults engine.new) (Some result) }
    ensures later { E.faults engine.old ≤ E.faults engine.new }
{
    match engine.run(unit, &stmt) {
        Ok(given) => Entry::Ran {
            unit,
            stmt,
            answer: Answer::Gave(given),
        },
        Err(EngineFail::Refused(code)) => Entry::Ran {
            unit,
            stmt,
            answer: Answer::Refused(code),
        },
        Err(EngineFail::Fault) => broken(stream, Some(unit), Broken::Fault),
        Err(EngineFail::NoMemory) => broken(stream, Some(unit), Broken::NoMemory),
    }
}

/// Commits a unit.
fn commit<E: Engine>(engine: &mut E, stream: StreamNo, unit: u64) -> Entry
    requires own { MayCommitIn E.told (E.db engine.old) (E.live engine.old) unit }
    ensures entry { MayCommit stream unit result }
    ensures effect { (writes : Bool) → Effect E.told E.meaning writes (E.db engine.old) (E.live engine.old) (E.db engine.new) (E.live engine.new) result }
    ensures cause { RoseBy (fault_of result) (E.faults engine.old) (E.faults engine.new) }
    ensures refused { RefusesByCause E.told (E.faults engine.old) (E.faults engine.new) (Some result) }
    ensures later { E.faults engine.old ≤ E.faults engine.new }
{
    match engine.commit(unit) {
        Ok(()) => Entry::Ended {
            unit,
            how: How::Committed,
        },
        Err(EngineFail::Refused(_)) => unreachable!(),
        Err(EngineFail::Fault) => broken(stream, Some(unit), Broken::Fault),
        Err(EngineFail::NoMemory) => broken(stream, Some(unit), Broken::NoMemory),
    }
}

/// Ends a unit without a commit. Takes no memory.
fn end<E: Engine>(engine: &mut E, unit: u64, how: How) -> Entry
    requires lives { IsSome (E.live engine.old unit) }
    requires no_commit { how ≡ How.Committed → ⊥ }
    ensures entry { result ≡ Entry.Ended unit how }
    ensures effect { (writes : Bool) → Effect E.told E.meaning writes (E.db engine.old) (E.live engine.old) (E.db engine.new) (E.live engine.new) result }
    ensures later { E.faults engine.old ≤ E.faults engine.new }
{
    engine.drop_txn(unit);
    Entry::Ended { unit, how }
}

/// Takes a unit back. Takes no memory.
pub(crate) fn undo<E: Engine>(engine: &mut E, unit: u64, why: Undo) -> Entry
    requires lives { IsSome (E.live engine.old unit) }
    ensures entry { result ≡ Entry.Ended unit (How.Undone why) }
    ensures effect { (writes : Bool) → Effect E.told E.meaning writes (E.db engine.old) (E.live engine.old) (E.db engine.new) (E.live engine.new) result }
    ensures later { E.faults engine.old ≤ E.faults engine.new }
{
    end(engine, unit, How::Undone(why))
}

/// Calls the engine for a row. The turn is the stream's, where the row wants it. A unit that begins has the number `next`.
pub(crate) fn act<E: Engine>(
    engine: &mut E,
    stream: StreamNo,
    next: u64,
    stmt: BoundStmt,
    row: Row,
) -> Entry
    requires may { MayAct E.SHARED E.told (E.db engine.old) (E.live engine.old) next stmt row }
    ensures entry { (by : Option StreamNo) (version : ℕ) → IsGranted row by version → MayAdd (record { by = by; version = version; next = next }) stream stmt row result }
    ensures effect { Effect E.told E.meaning (begins_writer row) (E.db engine.old) (E.live engine.old) (E.db engine.new) (E.live engine.new) result }
    ensures cause { RoseBy (fault_of result) (E.faults engine.old) (E.faults engine.new) }
    ensures refused { RefusesByCause E.told (E.faults engine.old) (E.faults engine.new) (Some result) }
    ensures later { E.faults engine.old ≤ E.faults engine.new }
{
    match row {
        Row::Alone | Row::ReadAlone => run_alone(engine, stream, stmt),
        Row::Begin | Row::BeginFirst | Row::ReadFirst => {
            begin(engine, stream, next, begins_writer(row))
        }
        Row::Run(unit) | Row::Upgrade { unit, .. } => run(engine, stream, unit, stmt),
        Row::Commit(unit) => commit(engine, stream, unit),
        Row::EndRead(unit) => end(engine, unit, How::Read),
        Row::Undo(unit) => undo(engine, unit, Undo::Rollback),
    }
}
