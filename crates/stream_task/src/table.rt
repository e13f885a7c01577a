// What a statement does in a session: the table of polls.
ghost use Rattle.std.specs.Prelude.{◌≡◌};
ghost use Rattle.stream_task.specs.Table.{plan, plan_unmet, plan_auto, plan_deferred, plan_reading, plan_writing, need_of, begins_writer};

use crate::session::TxnState;
use hrana_batch::Outcome;
use hrana_stmt::Code;
use sql_text::{Class, Mode};
use txn_table::Need;

/// The rows of the table that add an entry.
#[derive(Clone, Copy)]
pub(crate) enum Row {
    /// Runs the statement alone, with the turn.
    Alone,
    /// Begins a unit that writes.
    Begin,
    /// Begins a unit that writes. The statement is still to run.
    BeginFirst,
    /// Runs a read alone, beside a writer.
    ReadAlone,
    /// Begins a unit that reads, beside a writer. The statement is still to run.
    ReadFirst,
    /// Runs the statement in the unit.
    Run(u64),
    /// Runs the statement in the unit, which only read so far and is to write.
    Upgrade { unit: u64, had: u64 },
    Commit(u64),
    /// Ends a unit that only read.
    EndRead(u64),
    /// Takes the unit back.
    Undo(u64),
}

/// What a statement does in a session.
#[derive(Clone, Copy)]
pub(crate) enum Plan {
    /// It fails with this code, and adds no entry.
    Refuses(Code),
    /// The state becomes this one, with no entry.
    Becomes(TxnState),
    /// It adds an entry.
    Adds(Row),
}

/// What came of a poll of a statement, with the state after it.
#[derive(Drop)]
pub(crate) enum Went {
    /// Another stream holds the turn. Nothing changed but that the stream waits.
    Waits,
    /// A unit has begun. The statement is still to run.
    Still(TxnState),
    /// The statement's outcome. A begin, commit or rollback gives the empty result.
    Out(Outcome, TxnState),
    /// The engine broke: the whole request is answered with this code.
    Stopped(Code, TxnState),
    /// There was no memory: before the engine was called, and nothing changed, or after it, and its entry stands.
    Short(TxnState),
}

/// Statements that no check lets through.
fn plan_unmet(class: Class) -> Plan
    ensures { result ≡ plan_unmet class }
{
    match class {
        Class::Savepoint => Plan::Refuses(Code::SavepointUnsupported),
        Class::Barred => Plan::Refuses(Code::SqlUnsupported),
        _ => Plan::Refuses(Code::NoStatement),
    }
}

fn plan_auto(shared: bool, class: Class) -> Plan
    ensures { result ≡ plan_auto shared class }
{
    match class {
        Class::Begin(Mode::Deferred) => Plan::Becomes(TxnState::Deferred),
        Class::Begin(Mode::Immediate) => Plan::Adds(Row::Begin),
        Class::Commit | Class::Rollback => Plan::Refuses(Code::NoTxn),
        Class::Read => Plan::Adds(if shared { Row::ReadAlone } else { Row::Alone }),
        Class::Write => Plan::Adds(Row::Alone),
        Class::Savepoint | Class::Barred | Class::Empty => plan_unmet(class),
    }
}

fn plan_deferred(shared: bool, class: Class) -> Plan
    ensures { result ≡ plan_deferred shared class }
{
    match class {
        Class::Begin(_) => Plan::Refuses(Code::TxnOpen),
        Class::Commit | Class::Rollback => Plan::Becomes(TxnState::Auto),
        Class::Read => Plan::Adds(if shared {
            Row::ReadFirst
        } else {
            Row::BeginFirst
        }),
        Class::Write => Plan::Adds(Row::BeginFirst),
        Class::Savepoint | Class::Barred | Class::Empty => plan_unmet(class),
    }
}

fn plan_reading(unit: u64, had: u64, class: Class) -> Plan
    ensures { result ≡ plan_reading unit had class }
{
    match class {
        Class::Begin(_) => Plan::Refuses(Code::TxnOpen),
        Class::Commit => Plan::Adds(Row::EndRead(unit)),
        Class::Rollback => Plan::Adds(Row::Undo(unit)),
        Class::Read => Plan::Adds(Row::Run(unit)),
        Class::Write => Plan::Adds(Row::Upgrade { unit, had }),
        Class::Savepoint | Class::Barred | Class::Empty => plan_unmet(class),
    }
}

fn plan_writing(unit: u64, class: Class) -> Plan
    ensures { result ≡ plan_writing unit class }
{
    match class {
        Class::Begin(_) => Plan::Refuses(Code::TxnOpen),
        Class::Commit => Plan::Adds(Row::Commit(unit)),
        Class::Rollback => Plan::Adds(Row::Undo(unit)),
        Class::Read | Class::Write => Plan::Adds(Row::Run(unit)),
        Class::Savepoint | Class::Barred | Class::Empty => plan_unmet(class),
    }
}

/// What a statement of this class does in a session, over an engine that shares or doesn't.
pub(crate) fn plan_of(shared: bool, state: TxnState, class: Class) -> Plan
    ensures { result ≡ plan shared state class }
{
    match state {
        TxnState::Auto => plan_auto(shared, class),
        TxnState::Deferred => plan_deferred(shared, class),
        TxnState::Reading { unit, had } => plan_reading(unit, had, class),
        TxnState::Writing { unit } => plan_writing(unit, class),
        TxnState::Dead(_) => Plan::Refuses(Code::StreamLost),
        TxnState::Closed => Plan::Refuses(Code::StreamNotOpen),
    }
}

/// What a row wants the turn for.
pub(crate) fn need_of(row: Row) -> Option<Need>
    ensures { result ≡ need_of row }
{
    match row {
        Row::Alone => Some(Need::Alone),
        Row::Begin | Row::BeginFirst => Some(Need::Begin),
        Row::Upgrade { had, .. } => Some(Need::Upgrade { had }),
        _ => None,
    }
}

/// Whether a unit that the row begins is to write.
pub(crate) fn begins_writer(row: Row) -> bool
    ensures { result ≡ begins_writer row }
{
    matches!(row, Row::Begin | Row::BeginFirst)
}
