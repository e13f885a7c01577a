// One poll of a statement.
ghost use Rattle.std.specs.Prelude.{◌≡◌, ◌≢◌, ◌<◌, ◌≤◌, ◌+◌, ◌-◌, ◌^◌, false, IsTrue, Some};
ghost use Rattle.txn_table.specs.Turns.{has};
ghost use Rattle.engine_core.specs.Transactions.{Lives};
ghost use Rattle.stream_task.specs.Act.{MayAct};
ghost use Rattle.stream_task.specs.Adds.{AddsOne, PollsStatement, seen_in, undone_of};
ghost use Rattle.stream_task.specs.Moved.{AgreesAs, AreBelow, WritesByTurn, LivesByTurn, StaysOne};
ghost use Rattle.stream_task.specs.Session.{is_shut, open_of};
ghost use Rattle.stream_task.specs.Statement.{IsUpgrade, Denies, HasTurn, RunsRow, RowGoes};
ghost use Rattle.stream_task.specs.Table.{plan, is_waiting, state_after};
ghost use Rattle.stream_task.specs.declared.table.Plan.{Plan};

use crate::act::{act, undo};
use crate::checks::{CheckFail, check};
use crate::outcomes::{emptied, refused, took};
use crate::session::TxnState;
use crate::table::{Plan, Row, Went, plan_of};
use crate::texts::StoredTexts;
use crate::turns::{Turn, settle_turn, take_turn};
use engine_core::{BoundStmt, Deny, Engine, Entries, Entry, Undo};
use hrana_stmt::{Code, Stmt};
use hrana_value::StreamNo;
use std::alloc::Global;
use txn_table::TxnTable;

/// A reader is to write, and may not: the statement fails, and the unit stays.
fn deny(alloc: Global, entries: &mut Entries, state: TxnState, row: Row, why: Deny) -> Went
    requires upgrade { IsUpgrade row }
    requires room { 0 < entries.old.spare }
    ensures denies { Denies state row why entries.old entries.new result }
    ensures spare { entries.old.spare ≤ entries.new.spare + 1 }
{
    let Row::Upgrade { unit, .. } = row else {
        unreachable!();
    };
    let went = refused(alloc, Code::Busy, state);
    if let Went::Out(_, _) = &went {
        entries.push(Entry::Denied { unit, deny: why });
    }
    went
}

/// Runs a row of the table, where the stream has the turn that the row wants.
fn run_row<E: Engine>(
    alloc: Global,
    engine: &mut E,
    turns: &mut TxnTable,
    entries: &mut Entries,
    stream: StreamNo,
    state: TxnState,
    want_rows: bool,
    stmt: BoundStmt,
    row: Row,
) -> Went
    requires may { MayAct E.SHARED E.told (E.db engine.old) (E.live engine.old) entries.old.next stmt row }
    requires turn { HasTurn stream stmt turns.old row }
    requires room { 0 < entries.old.spare }
    requires few { (turns.old.version < 2 ^ 64 - 1) × (entries.old.next < 2 ^ 64 - 1) }
    ensures runs { RunsRow E.told E.meaning E.db E.live E.faults stream engine.old engine.new turns.old turns.new entries.old entries.new state want_rows stmt row result }
    ensures later { E.faults engine.old ≤ E.faults engine.new }
{
    let next = entries.next_unit();
    let version = turns.version();
    let entry = act(engine, stream, next, stmt, row);
    settle_turn(turns, stream, &entry);
    let went = took(alloc, version, want_rows, state, row, &entry);
    entries.push(entry);
    went
}

/// Polls a statement by a row of the table.
fn poll_row<E: Engine>(
    alloc: Global,
    engine: &mut E,
    turns: &mut TxnTable,
    entries: &mut Entries,
    stream: StreamNo,
    state: TxnState,
    want_rows: bool,
    stmt: BoundStmt,
    row: Row,
) -> Went
    requires row { plan E.SHARED state stmt.class ≡ Plan.Adds row }
    requires agrees { AgreesAs E.told (E.db engine.old) (E.live engine.old) turns.old stream state }
    requires reserved { IsTrue (has stream turns.old.reserved) }
    requires below { AreBelow (E.live engine.old) entries.old.next }
    requires writers { WritesByTurn (E.live engine.old) turns.old }
    requires quiet { LivesByTurn E.SHARED (E.live engine.old) turns.old }
    requires room { 0 < entries.old.spare }
    requires few { (turns.old.version < 2 ^ 64 - 1) × (entries.old.next < 2 ^ 64 - 1) }
    ensures adds { AddsOne E.told E.meaning E.db E.live E.faults stream engine.old engine.new turns.old turns.new entries.old entries.new (is_waiting result)
        (RowGoes stream (seen_in turns.old entries.old.next) state want_rows stmt row result) }
    ensures agrees { AgreesAs E.told (E.db engine.new) (E.live engine.new) turns.new stream (state_after state result) }
    ensures below { AreBelow (E.live engine.new) entries.new.next }
    ensures writers { WritesByTurn (E.live engine.new) turns.new }
    ensures one { StaysOne E.SHARED (E.live engine.old) (E.live engine.new) turns.new }
    ensures spare { entries.old.spare ≤ entries.new.spare + 1 }
    ensures later { E.faults engine.old ≤ E.faults engine.new }
{
    match take_turn(turns, stream, row) {
        Turn::Taken => run_row(
            alloc, engine, turns, entries, stream, state, want_rows, stmt, row,
        ),
        Turn::Held => Went::Waits,
        Turn::Denied(why) => deny(alloc, entries, state, row, why),
    }
}

/// One poll of a statement. It adds at most one entry, and calls the engine at most once.
///
/// The state is one in which statements run: the stream is neither dead nor closed.
pub(crate) fn poll_statement<E: Engine>(
    alloc: Global,
    engine: &mut E,
    turns: &mut TxnTable,
    entries: &mut Entries,
    stream: StreamNo,
    state: TxnState,
    texts: &StoredTexts,
    stmt: &Stmt,
) -> Went
    requires open { is_shut state ≡ false }
    requires agrees { AgreesAs E.told (E.db engine.old) (E.live engine.old) turns.old stream state }
    requires reserved { IsTrue (has stream turns.old.reserved) }
    requires below { AreBelow (E.live engine.old) entries.old.next }
    requires writers { WritesByTurn (E.live engine.old) turns.old }
    requires quiet { LivesByTurn E.SHARED (E.live engine.old) turns.old }
    requires room { 0 < entries.old.spare }
    requires few { (turns.old.version < 2 ^ 64 - 1) × (entries.old.next < 2 ^ 64 - 1) }
    ensures adds { AddsOne E.told E.meaning E.db E.live E.faults stream engine.old engine.new turns.old turns.new entries.old entries.new (is_waiting result)
        (λ added. PollsStatement E.SHARED stream (seen_in turns.old entries.old.next) state texts.now stmt.now added result) }
    ensures agrees { AgreesAs E.told (E.db engine.new) (E.live engine.new) turns.new stream (state_after state result) }
    ensures below { AreBelow (E.live engine.new) entries.new.next }
    ensures writers { WritesByTurn (E.live engine.new) turns.new }
    ensures one { StaysOne E.SHARED (E.live engine.old) (E.live engine.new) turns.new }
    ensures spare { entries.old.spare ≤ entries.new.spare + 1 }
    ensures later { E.faults engine.old ≤ E.faults engine.new }
{
    let ready = match check(alloc, texts, stmt) {
        Ok(ready) => ready,
        Err(CheckFail::Refused(code)) => return refused(alloc, code, state),
        Err(CheckFail::NoMemory) => return Went::Short(state),
    };
    match plan_of(E::SHARED, state, ready.class) {
        Plan::Refuses(code) => refused(alloc, code, state),
        Plan::Becomes(next) => emptied(alloc, next),
        Plan::Adds(row) => poll_row(
            alloc,
            engine,
            turns,
            entries,
            stream,
            state,
            stmt.want_rows,
            ready,
            row,
        ),
    }
}

/// Ends the stream's unit, where one is open. Takes no memory.
pub(crate) fn end_unit<E: Engine>(
    engine: &mut E,
    turns: &mut TxnTable,
    entries: &mut Entries,
    stream: StreamNo,
    state: TxnState,
    why: Undo,
)
    requires agrees { AgreesAs E.told (E.db engine.old) (E.live engine.old) turns.old stream state }
    requires below { AreBelow (E.live engine.old) entries.old.next }
    requires writers { WritesByTurn (E.live engine.old) turns.old }
    requires quiet { LivesByTurn E.SHARED (E.live engine.old) turns.old }
    requires room { open_of state ≤ entries.old.spare }
    ensures adds { AddsOne E.told E.meaning E.db E.live E.faults stream engine.old engine.new turns.old turns.new entries.old entries.new false
        (λ added. added ≡ undone_of why state) }
    ensures turn { turns.new.turn ≢ Some stream }
    ensures below { AreBelow (E.live engine.new) entries.new.next }
    ensures writers { WritesByTurn (E.live engine.new) turns.new }
    ensures one { StaysOne E.SHARED (E.live engine.old) (E.live engine.new) turns.new }
    ensures spare { entries.new.spare + open_of state ≡ entries.old.spare }
    ensures later { E.faults engine.old ≤ E.faults engine.new }
{
    match state {
        TxnState::Reading { unit, .. } | TxnState::Writing { unit } => {
            let entry = undo(engine, unit, why);
            turns.ended(stream);
            entries.push(entry);
        }
        TxnState::Auto | TxnState::Deferred | TxnState::Dead(_) | TxnState::Closed => {}
    }
}
