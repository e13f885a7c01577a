// One poll of a request.
ghost use Rattle.std.specs.Prelude.{◌≡◌, ◌≢◌, ◌⊎◌, ◌<◌, ◌≤◌, ◌+◌, ◌-◌, ◌^◌, false, length, Some, IsSome, IsTrue};
ghost use Rattle.txn_table.specs.Turns.{has};
ghost use Rattle.stream_task.specs.Session.{is_auto, is_shut, open_of};
ghost use Rattle.stream_task.specs.Moved.{AgreesAs, AreBelow, WritesByTurn, LivesByTurn, StaysOne};
ghost use Rattle.stream_task.specs.Adds.{AddsOne, seen_in};
ghost use Rattle.stream_task.specs.Advance.{Leaves, outcome_leaves, steps_go_on, statement_of, StartsIn, waits_on, state_left, texts_left, Does, PollsRunning, Closes, PollsWork};

use crate::replies::{executed, failed, reply_of};
use crate::session::{TxnState, is_auto};
use crate::statement::{end_unit, poll_statement};
use crate::steps::StepRun;
use crate::table::Went;
use crate::texts::{StoredText, StoredTexts};
use crate::todo::{Todo, todo_of};
use crate::work::{Kind, Running, Work};
use engine_core::{Engine, Entries, Undo};
use hrana_batch::{Next, Outcome};
use hrana_stmt::Stmt;
use hrana_value::{NoMemory, StreamNo};
use std::alloc::Global;
use stream_requests::Reply;
use txn_table::TxnTable;

/// What a poll leaves of a request, and the state after it.
#[derive(Drop)]
pub(crate) enum Advanced {
    /// Another stream holds the turn. The state is as it was.
    Waits(Work),
    /// The request runs on.
    Ran(Work, TxnState),
    Replied(Reply, TxnState),
    /// There was no memory. The request is dropped.
    Broke(TxnState),
}

/// The steps run on where one is left, and are answered where none is.
fn steps_go_on(kind: Kind, mut steps: StepRun, state: TxnState) -> Advanced
    ensures { result ≡ steps_go_on kind steps state }
{
    steps.pass_over(is_auto(state));
    if steps.is_finished() {
        Advanced::Replied(reply_of(kind, steps), state)
    } else {
        Advanced::Ran(Work::Running(Running::Steps(kind, steps)), state)
    }
}

/// What the outcome of their first statement leaves of steps.
fn steps_leave(kind: Kind, mut steps: StepRun, outcome: Outcome, state: TxnState) -> Advanced
    requires { 0 < length steps.left }
    ensures { result ≡ outcome_leaves (Running.Steps kind steps) outcome state }
{
    match (kind, outcome) {
        (Kind::Sequence, Outcome::Failed(error)) => {
            Advanced::Replied(Reply::Failed(error), state)
        }
        (kind, outcome) => {
            steps.note(outcome);
            steps_go_on(kind, steps, state)
        }
    }
}

/// What the outcome of its statement leaves of a request.
fn outcome_leaves(alloc: Global, running: Running, outcome: Outcome, state: TxnState) -> Advanced
    requires { IsSome (statement_of running) }
    ensures { result ≡ outcome_leaves running outcome state }
{
    match running {
        Running::Statement(_) => Advanced::Replied(executed(alloc, outcome), state),
        Running::Steps(kind, steps) => steps_leave(kind, steps, outcome, state),
    }
}

/// What a poll of its statement leaves of a request.
pub(crate) fn went_leaves(alloc: Global, running: Running, went: Went) -> Advanced
    requires { IsSome (statement_of running) }
    ensures { Leaves running went result }
{
    match went {
        Went::Waits => Advanced::Waits(Work::Running(running)),
        Went::Still(state) => Advanced::Ran(Work::Running(running), state),
        Went::Out(outcome, state) => outcome_leaves(alloc, running, outcome, state),
        Went::Stopped(code, state) => failed(alloc, code, state),
        Went::Short(state) => Advanced::Broke(state),
    }
}

/// The first statement of a request.
fn statement_of(running: &Running, auto: bool) -> &Stmt
    requires { StartsIn auto running.now }
    ensures { statement_of running.now ≡ Some result.now }
{
    match running {
        Running::Statement(stmt) => stmt,
        Running::Steps(_, steps) => steps.first(auto),
    }
}

/// Polls the first statement of a request.
fn poll_running<E: Engine>(
    alloc: Global,
    engine: &mut E,
    turns: &mut TxnTable,
    entries: &mut Entries,
    stream: StreamNo,
    state: TxnState,
    texts: &StoredTexts,
    running: Running,
) -> Advanced
    requires starts { StartsIn (is_auto state) running }
    requires agrees { AgreesAs E.told (E.db engine.old) (E.live engine.old) turns.old stream state }
    requires below { AreBelow (E.live engine.old) entries.old.next }
    requires writers { WritesByTurn (E.live engine.old) turns.old }
    requires quiet { LivesByTurn E.SHARED (E.live engine.old) turns.old }
    requires reserved { IsTrue (has stream turns.old.reserved) }
    requires open { is_shut state ≡ false }
    requires room { 0 < entries.old.spare }
    requires few { (turns.old.version < 2 ^ 64 - 1) × (entries.old.next < 2 ^ 64 - 1) }
    ensures adds { AddsOne E.told E.meaning E.db E.live E.faults stream engine.old engine.new turns.old turns.new entries.old entries.new (waits_on result) (λ added. PollsRunning E.SHARED stream (seen_in turns.old entries.old.next) (record { state = state; texts = texts.now }) running added result) }
    ensures agrees { AgreesAs E.told (E.db engine.new) (E.live engine.new) turns.new stream (state_left state result) }
    ensures below { AreBelow (E.live engine.new) entries.new.next }
    ensures writers { WritesByTurn (E.live engine.new) turns.new }
    ensures one { StaysOne E.SHARED (E.live engine.old) (E.live engine.new) turns.new }
    ensures spare { entries.old.spare ≤ entries.new.spare + 1 }
    ensures later { E.faults engine.old ≤ E.faults engine.new }
{
    let stmt = statement_of(&running, is_auto(state));
    let went = poll_statement(alloc, engine, turns, entries, stream, state, texts, stmt);
    went_leaves(alloc, running, went)
}

/// Closes the stream, and takes back its open unit.
fn close<E: Engine>(
    engine: &mut E,
    turns: &mut TxnTable,
    entries: &mut Entries,
    stream: StreamNo,
    state: TxnState,
) -> Advanced
    requires agrees { AgreesAs E.told (E.db engine.old) (E.live engine.old) turns.old stream state }
    requires below { AreBelow (E.live engine.old) entries.old.next }
    requires writers { WritesByTurn (E.live engine.old) turns.old }
    requires quiet { LivesByTurn E.SHARED (E.live engine.old) turns.old }
    requires room { 0 < entries.old.spare }
    ensures adds { AddsOne E.told E.meaning E.db E.live E.faults stream engine.old engine.new turns.old turns.new entries.old entries.new (waits_on result) (λ added. Closes state added result) }
    ensures agrees { AgreesAs E.told (E.db engine.new) (E.live engine.new) turns.new stream (state_left state result) }
    ensures below { AreBelow (E.live engine.new) entries.new.next }
    ensures writers { WritesByTurn (E.live engine.new) turns.new }
    ensures one { StaysOne E.SHARED (E.live engine.old) (E.live engine.new) turns.new }
    ensures spare { entries.old.spare ≤ entries.new.spare + 1 }
    ensures later { E.faults engine.old ≤ E.faults engine.new }
{
    end_unit(engine, turns, entries, stream, state, Undo::Close);
    Advanced::Replied(Reply::Closed, TxnState::Closed)
}

/// Stores a text. Where there is no memory nothing changes.
fn store_sql(texts: &mut StoredTexts, text: StoredText, state: TxnState) -> Advanced
    ensures answer { (result ≡ Advanced.Replied Reply.SqlStored state) ⊎ (result ≡ Advanced.Broke state) }
    ensures texts { texts.new ≡ texts_left texts.old (Work.StoreSql text) result }
{
    match texts.store(text) {
        Ok(()) => Advanced::Replied(Reply::SqlStored, state),
        Err(NoMemory) => Advanced::Broke(state),
    }
}

/// Lets go of the stored text of this number, if there is one.
fn close_sql(texts: &mut StoredTexts, id: i32, state: TxnState) -> Advanced
    ensures answer { result ≡ Advanced.Replied Reply.SqlClosed state }
    ensures texts { texts.new ≡ texts_left texts.old (Work.CloseSql id) result }
{
    texts.forget(id);
    Advanced::Replied(Reply::SqlClosed, state)
}

/// One poll of a request.
pub(crate) fn advance<E: Engine>(
    alloc: Global,
    engine: &mut E,
    turns: &mut TxnTable,
    entries: &mut Entries,
    stream: StreamNo,
    state: TxnState,
    texts: &mut StoredTexts,
    work: Work,
) -> Advanced
    requires agrees { AgreesAs E.told (E.db engine.old) (E.live engine.old) turns.old stream state }
    requires below { AreBelow (E.live engine.old) entries.old.next }
    requires writers { WritesByTurn (E.live engine.old) turns.old }
    requires quiet { LivesByTurn E.SHARED (E.live engine.old) turns.old }
    requires reserved { is_shut state ≡ false → IsTrue (has stream turns.old.reserved) }
    requires room { 0 < entries.old.spare }
    requires few { (turns.old.version < 2 ^ 64 - 1) × (entries.old.next < 2 ^ 64 - 1) }
    ensures adds { AddsOne E.told E.meaning E.db E.live E.faults stream engine.old engine.new turns.old turns.new entries.old entries.new (waits_on result) (λ added. PollsWork E.SHARED stream (seen_in turns.old entries.old.next) (record { state = state; texts = texts.old }) work added result) }
    ensures agrees { AgreesAs E.told (E.db engine.new) (E.live engine.new) turns.new stream (state_left state result) }
    ensures texts { texts.new ≡ texts_left texts.old work result }
    ensures below { AreBelow (E.live engine.new) entries.new.next }
    ensures writers { WritesByTurn (E.live engine.new) turns.new }
    ensures one { StaysOne E.SHARED (E.live engine.old) (E.live engine.new) turns.new }
    ensures spare { entries.old.spare ≤ entries.new.spare + 1 }
    ensures later { E.faults engine.old ≤ E.faults engine.new }
{
    match todo_of(alloc, state, texts, work) {
        Todo::Answer(answer) => answer,
        Todo::Poll(running) => {
            poll_running(alloc, engine, turns, entries, stream, state, texts, running)
        }
        Todo::StoreSql(text) => store_sql(texts, text, state),
        Todo::CloseSql(id) => close_sql(texts, id, state),
        Todo::Close => close(engine, turns, entries, stream, state),
    }
}
