// What an entry means to the statement whose poll added it.
ghost use Rattle.std.specs.Prelude.{◌≡◌, ℕ, false, IfOk, IsSome, Some};
ghost use Rattle.hrana_stmt.specs.Codes.{error_of};
ghost use Rattle.hrana_batch.specs.declared.outcomes.Outcome.{Outcome};
ghost use Rattle.stream_task.specs.declared.session.TxnState.{TxnState};
ghost use Rattle.stream_task.specs.declared.table.Went.{Went};
ghost use Rattle.stream_task.specs.Table.{shown, empty_result, outcome_of, code_of, cause_of, takes, takes_alone, begun_by, takes_begun, takes_ran, takes_upgrade, takes_ended, IsTaken, is_waiting};

use crate::session::{Cause, TxnState};
use crate::table::{Row, Went};
use engine_core::{Answer, Broken, Entry};
use hrana_batch::Outcome;
use hrana_stmt::{Code, Cols, Rows, StmtResult, wire_error};
use hrana_value::{NoMemory, Values};
use std::alloc::Global;

/// What a begin, commit or rollback gives.
pub(crate) fn empty_result(alloc: Global) -> StmtResult
    ensures { result ≡ empty_result }
{
    StmtResult {
        cols: Cols::new(alloc),
        rows: Rows::new(alloc),
        affected: 0,
        last_rowid: None,
    }
}

fn copy_rows(alloc: Global, rows: &[Values]) -> Result<Rows, NoMemory>
    ensures { IfOk result (λ copy. copy ≡ rows.now) }
{
    let mut copies = Vec::with_capacity(alloc, rows.len())?;
    for row in rows {
        copies.push(row.copy(alloc)?)?;
    }
    Ok(Rows::from_vec(copies))
}

/// The result that is replied. Its rows are copied only where they are wanted.
fn shown(alloc: Global, want_rows: bool, given: &StmtResult) -> Result<StmtResult, NoMemory>
    ensures { IfOk result (λ copy. copy ≡ shown want_rows given.now) }
{
    let rows = if want_rows {
        copy_rows(alloc, given.rows.as_slice())?
    } else {
        Rows::new(alloc)
    };
    Ok(StmtResult {
        cols: given.cols.copy(alloc)?,
        rows,
        affected: given.affected,
        last_rowid: given.last_rowid,
    })
}

fn outcome_of(alloc: Global, want_rows: bool, answer: &Answer) -> Result<Outcome, NoMemory>
    ensures { IfOk result (λ outcome. outcome ≡ outcome_of want_rows answer.now) }
{
    match answer {
        Answer::Gave(given) => Ok(Outcome::Done(shown(alloc, want_rows, given)?)),
        Answer::Refused(code) => Ok(Outcome::Failed(wire_error(alloc, *code)?)),
    }
}

fn code_of(cause: Broken) -> Code
    ensures { result ≡ code_of cause }
{
    match cause {
        Broken::Fault => Code::EngineFault,
        Broken::NoMemory => Code::NoMemory,
    }
}

fn cause_of(cause: Broken) -> Cause
    ensures { result ≡ cause_of cause }
{
    match cause {
        Broken::Fault => Cause::Fault,
        Broken::NoMemory => Cause::NoMemory,
    }
}

/// The statement's outcome is the answer of the engine.
fn answered(alloc: Global, want_rows: bool, state: TxnState, answer: &Answer) -> Went
    ensures taken { IsTaken (Some (Went.Out (outcome_of want_rows answer.now) state)) result }
    ensures goes { is_waiting result ≡ false }
{
    match outcome_of(alloc, want_rows, answer) {
        Ok(outcome) => Went::Out(outcome, state),
        Err(NoMemory) => Went::Short(state),
    }
}

/// The statement fails with this code.
pub(crate) fn refused(alloc: Global, code: Code, state: TxnState) -> Went
    ensures taken { IsTaken (Some (Went.Out (Outcome.Failed (error_of code)) state)) result }
    ensures goes { is_waiting result ≡ false }
{
    match wire_error(alloc, code) {
        Ok(error) => Went::Out(Outcome::Failed(error), state),
        Err(NoMemory) => Went::Short(state),
    }
}

/// The statement gives the empty result.
pub(crate) fn emptied(alloc: Global, state: TxnState) -> Went
    ensures taken { result ≡ Went.Out (Outcome.Done empty_result) state }
    ensures goes { is_waiting result ≡ false }
{
    Went::Out(Outcome::Done(empty_result(alloc)), state)
}

/// What the entry of a statement that ran alone means.
fn took_alone(alloc: Global, want_rows: bool, state: TxnState, entry: &Entry) -> Went
    requires { IsSome (takes_alone want_rows state entry.now) }
    ensures taken { IsTaken (takes_alone want_rows state entry.now) result }
    ensures goes { is_waiting result ≡ false }
{
    match entry {
        Entry::Alone { answer, .. } => answered(alloc, want_rows, state, answer),
        Entry::Failed {
            unit: None,
            cause,
            ..
        } => Went::Stopped(code_of(*cause), state),
        _ => unreachable!(),
    }
}

/// The unit that began, or the code with which the request is answered.
fn begun_of(entry: &Entry) -> Result<u64, Code>
    requires { IsSome (begun_by entry.now) }
    ensures { begun_by entry.now ≡ Some result }
{
    match entry {
        Entry::Began { unit, .. } => Ok(*unit),
        Entry::Failed {
            unit: None,
            cause,
            ..
        } => Err(code_of(*cause)),
        _ => unreachable!(),
    }
}

/// What the entry of a unit that began with a statement of its own means.
fn took_begin(alloc: Global, state: TxnState, entry: &Entry) -> Went
    requires { IsSome (begun_by entry.now) }
    ensures taken { takes_begun state (λ unit. Went.Out (Outcome.Done empty_result) (TxnState.Writing unit)) (begun_by entry.now) ≡ Some result }
    ensures goes { is_waiting result ≡ false }
{
    match begun_of(entry) {
        Ok(unit) => emptied(alloc, TxnState::Writing { unit }),
        Err(code) => Went::Stopped(code, state),
    }
}

/// What the entry of a unit that began for a statement means, where the statement writes.
fn took_writer(state: TxnState, entry: &Entry) -> Went
    requires { IsSome (begun_by entry.now) }
    ensures taken { takes_begun state (λ unit. Went.Still (TxnState.Writing unit)) (begun_by entry.now) ≡ Some result }
    ensures goes { is_waiting result ≡ false }
{
    match begun_of(entry) {
        Ok(unit) => Went::Still(TxnState::Writing { unit }),
        Err(code) => Went::Stopped(code, state),
    }
}

/// What the entry of a unit that began for a read means, at this version.
fn took_reader(version: u64, state: TxnState, entry: &Entry) -> Went
    requires { IsSome (begun_by entry.now) }
    ensures taken { takes_begun state (λ unit. Went.Still (TxnState.Reading unit version)) (begun_by entry.now) ≡ Some result }
    ensures goes { is_waiting result ≡ false }
{
    match begun_of(entry) {
        Ok(unit) => Went::Still(TxnState::Reading { unit, had: version }),
        Err(code) => Went::Stopped(code, state),
    }
}

/// What the entry of a statement that ran in a unit means.
fn took_ran(alloc: Global, want_rows: bool, state: TxnState, entry: &Entry) -> Went
    requires { IsSome (takes_ran want_rows state entry.now) }
    ensures taken { IsTaken (takes_ran want_rows state entry.now) result }
    ensures goes { is_waiting result ≡ false }
{
    match entry {
        Entry::Ran { answer, .. } => answered(alloc, want_rows, state, answer),
        Entry::Failed {
            unit: Some(_),
            cause,
            ..
        } => Went::Stopped(code_of(*cause), TxnState::Dead(cause_of(*cause))),
        _ => unreachable!(),
    }
}

/// What the entry of a unit that ended means.
fn took_ended(alloc: Global, entry: &Entry) -> Went
    requires { IsSome (takes_ended entry.now) }
    ensures taken { takes_ended entry.now ≡ Some result }
    ensures goes { is_waiting result ≡ false }
{
    match entry {
        Entry::Ended { .. } => emptied(alloc, TxnState::Auto),
        Entry::Failed {
            unit: Some(_),
            cause,
            ..
        } => Went::Stopped(code_of(*cause), TxnState::Dead(cause_of(*cause))),
        _ => unreachable!(),
    }
}

/// What the entry of a reader that is to write means.
fn took_upgrade(alloc: Global, want_rows: bool, state: TxnState, unit: u64, entry: &Entry) -> Went
    requires { IsSome (takes_upgrade want_rows state unit entry.now) }
    ensures taken { IsTaken (takes_upgrade want_rows state unit entry.now) result }
    ensures goes { is_waiting result ≡ false }
{
    match entry {
        Entry::Denied { .. } => refused(alloc, Code::Busy, state),
        _ => took_ran(alloc, want_rows, TxnState::Writing { unit }, entry),
    }
}

/// What the entry of a row means. A unit that begins to read does so at this version.
pub(crate) fn took(
    alloc: Global,
    version: u64,
    want_rows: bool,
    state: TxnState,
    row: Row,
    entry: &Entry,
) -> Went
    requires { IsSome (takes (λ unit. version) want_rows state row entry.now) }
    ensures taken { IsTaken (takes (λ unit. version) want_rows state row entry.now) result }
    ensures goes { is_waiting result ≡ false }
{
    match row {
        Row::Alone | Row::ReadAlone => took_alone(alloc, want_rows, state, entry),
        Row::Begin => took_begin(alloc, state, entry),
        Row::BeginFirst => took_writer(state, entry),
        Row::ReadFirst => took_reader(version, state, entry),
        Row::Run(_) => took_ran(alloc, want_rows, state, entry),
        Row::Upgrade { unit, .. } => took_upgrade(alloc, want_rows, state, unit, entry),
        Row::Commit(_) | Row::EndRead(_) | Row::Undo(_) => took_ended(alloc, entry),
    }
}
