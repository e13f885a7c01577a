// What tests do to streams, and what came of it as a text.
ghost use Rattle.std.specs.Prelude.{◌≡◌, IfOk, IfSome};
ghost use Rattle.stream_task.specs.Doing.{MayBeAsked};

use crate::desk::Desk;
use engine_core::{Answer, Engine, Entry, Failing, How, NoMemory, Undo};
use hrana_batch::batch_of_json;
use hrana_stmt::{NamedArgs, SqlRef, Stmt, WireError};
use hrana_value::{StreamNo, Txt, Value, Values};
use memory_keeper::MemoryKeeper;
use serde_json::Value as Json;
use std::alloc::Global;
use stream_requests::{Ask, Reply};
use stream_task::{Cause, Poll, Stepped, TxnState};
use ws_messages::{Kind, ServerMsg, encode_server};

/// What is done to a stream, which is then polled once. All but the last two ask it something.
#[derive(Clone, Copy)]
pub(crate) enum Call {
    Execute(&'static str),
    /// A statement with one argument.
    Given(&'static str, i64),
    /// A statement whose text is stored.
    Stored(i32),
    Batch(&'static str),
    Sequence(&'static str),
    /// A sequence whose text is stored.
    StoredSequence(i32),
    Autocommit,
    /// A text is to be stored.
    StoreSql(i32, &'static str),
    /// A text of so many blanks is to be stored.
    StoreBlanks(i32, usize),
    CloseSql(i32),
    Close,
    Poll,
    End(Undo),
}

pub(crate) const TABLE: Call = Call::Execute("CREATE TABLE t (a PRIMARY KEY, b)");

pub(crate) const BEGIN: Call = Call::Execute("BEGIN");

pub(crate) const IMMEDIATE: Call = Call::Execute("BEGIN IMMEDIATE");

pub(crate) const COMMIT: Call = Call::Execute("COMMIT");

pub(crate) const ROLLBACK: Call = Call::Execute("ROLLBACK");

pub(crate) const ADD_ONE: Call = Call::Execute("INSERT INTO t VALUES (1, 'a')");

pub(crate) const ADD_TWO: Call = Call::Execute("INSERT INTO t VALUES (2, 'b')");

pub(crate) const COUNT: Call = Call::Execute("SELECT COUNT(*) FROM t");

/// No call of an engine has this number: they are counted from 1.
pub(crate) const NO_CALL: u64 = 0;

/// How what came of a poll is told.
#[derive(Clone, Copy)]
pub(crate) enum Telling {
    /// The code of an error that was replied, or a word.
    Brief,
    /// The same, then who holds the turn, and who waits longest where nobody does.
    Turns,
    /// A reply as the server writes it with the number 1, or a word.
    Written,
}

/// The place of a stream, what is done to it, and what its poll is to come to.
pub(crate) type Line = (usize, Call, &'static str);

fn statement(sql: SqlRef, args: Values, named: NamedArgs) -> Ask
    ensures { MayBeAsked result }
{
    Ask::Execute(Stmt {
        sql,
        args,
        named,
        want_rows: true,
    })
}

/// A statement without arguments.
fn plain(alloc: Global, sql: SqlRef) -> Ask
    ensures { MayBeAsked result }
{
    statement(sql, Values::new(alloc), NamedArgs::new(alloc))
}

/// A statement with one argument.
fn given(alloc: Global, text: &str, number: i64) -> Result<Ask, NoMemory>
    ensures { IfOk result MayBeAsked }
{
    let mut args = Values::new(alloc);
    args.push(Value::Integer(number))?;
    let sql = SqlRef::Text(Txt::new(alloc, text)?);
    Ok(statement(sql, args, NamedArgs::new(alloc)))
}

fn batch(alloc: Global, text: &str) -> Result<Ask, NoMemory>
    ensures { IfOk result MayBeAsked }
{
    let Ok(json) = Json::from_str(alloc, text) else {
        return Err(NoMemory);
    };
    match batch_of_json(alloc, &json) {
        Ok(batch) => Ok(Ask::Batch(batch)),
        Err(_) => Err(NoMemory),
    }
}

/// A text of so many blanks.
fn blanks(alloc: Global, count: usize) -> Result<Txt, NoMemory> {
    let mut text = String::new(alloc);
    for _ in 0..count {
        text.push_str(" ")?;
    }
    Ok(Txt::from_string(text))
}

/// What a call asks.
fn ask_of(alloc: Global, call: Call) -> Result<Option<Ask>, NoMemory>
    ensures { IfOk result (λ ask. IfSome ask MayBeAsked) }
{
    match call {
        Call::Execute(text) => Ok(Some(plain(alloc, SqlRef::Text(Txt::new(alloc, text)?)))),
        Call::Given(text, number) => Ok(Some(given(alloc, text, number)?)),
        Call::Stored(id) => Ok(Some(plain(alloc, SqlRef::Id(id)))),
        Call::Batch(text) => Ok(Some(batch(alloc, text)?)),
        Call::Sequence(text) => Ok(Some(Ask::Sequence(SqlRef::Text(Txt::new(alloc, text)?)))),
        Call::StoredSequence(id) => Ok(Some(Ask::Sequence(SqlRef::Id(id)))),
        Call::Autocommit => Ok(Some(Ask::GetAutocommit)),
        Call::StoreSql(id, text) => {
            let sql = Txt::new(alloc, text)?;
            Ok(Some(Ask::StoreSql { id, sql }))
        }
        Call::StoreBlanks(id, count) => {
            let sql = blanks(alloc, count)?;
            Ok(Some(Ask::StoreSql { id, sql }))
        }
        Call::CloseSql(id) => Ok(Some(Ask::CloseSql(id))),
        Call::Close => Ok(Some(Ask::Close)),
        Call::Poll => Ok(None),
        Call::End(_) => Ok(None),
    }
}

/// Does what a call says, and polls the stream.
fn act<E: Engine + Drop>(
    alloc: Global,
    desk: &mut Desk<E>,
    place: usize,
    call: Call,
) -> Result<Poll<Stepped>, NoMemory> {
    if let Some(ask) = ask_of(alloc, call)? {
        desk.ask(place, ask)?;
    }
    if let Call::End(how) = call {
        desk.end(place, how)?;
    }
    Ok(desk.poll(place))
}

fn failure(alloc: Global, error: WireError) -> Result<Txt, NoMemory> {
    let msg = ServerMsg::Error {
        request_id: 1,
        error,
    };
    if !msg.has_form() {
        return Err(NoMemory);
    }
    encode_server(alloc, &msg)
}

fn success(alloc: Global, kind: Kind, reply: Reply) -> Result<Txt, NoMemory> {
    let msg = ServerMsg::Ok {
        request_id: 1,
        kind,
        reply,
    };
    if !msg.has_form() {
        return Err(NoMemory);
    }
    encode_server(alloc, &msg)
}

/// A reply as the server writes it, with the number 1.
fn written(alloc: Global, reply: Reply) -> Result<Txt, NoMemory> {
    match reply {
        Reply::Failed(error) => failure(alloc, error),
        Reply::Execute(given) => success(alloc, Kind::Execute, Reply::Execute(given)),
        Reply::Batch(given) => success(alloc, Kind::Batch, Reply::Batch(given)),
        Reply::Sequence => success(alloc, Kind::Sequence, Reply::Sequence),
        Reply::SqlStored => success(alloc, Kind::StoreSql, Reply::SqlStored),
        Reply::SqlClosed => success(alloc, Kind::CloseSql, Reply::SqlClosed),
        Reply::Autocommit(auto) => success(alloc, Kind::GetAutocommit, Reply::Autocommit(auto)),
        _other => success(alloc, Kind::CloseStream, Reply::Closed),
    }
}

/// The code of an error.
fn code_of(error: WireError) -> Txt {
    let WireError { message, code } = error;
    match code {
        Some(code) => code,
        None => message,
    }
}

/// The code of an error, or a word.
fn brief(alloc: Global, reply: Reply) -> Result<Txt, NoMemory> {
    match reply {
        Reply::Failed(error) => Ok(code_of(error)),
        _other => Txt::new(alloc, "done"),
    }
}

fn reply_told(alloc: Global, telling: Telling, reply: Reply) -> Result<Txt, NoMemory> {
    match telling {
        Telling::Written => written(alloc, reply),
        Telling::Brief => brief(alloc, reply),
        Telling::Turns => brief(alloc, reply),
    }
}

fn answer_told(alloc: Global, telling: Telling, answer: Poll<Stepped>) -> Result<Txt, NoMemory> {
    match answer {
        Poll::Ready(Stepped::Replied(reply)) => reply_told(alloc, telling, reply),
        Poll::Ready(Stepped::Ran) => Txt::new(alloc, "ran"),
        Poll::Ready(Stepped::Idle) => Txt::new(alloc, "idle"),
        Poll::Ready(Stepped::Broke) => Txt::new(alloc, "broke"),
        Poll::Pending => Txt::new(alloc, "pending"),
    }
}

/// The stream's number, or 9.
fn number_of(stream: Option<StreamNo>) -> u64 {
    match stream {
        Some(stream) => stream.0,
        None => 9,
    }
}

/// Does what a call says, and tells what came of the poll.
fn told<E: Engine + Drop>(
    alloc: Global,
    desk: &mut Desk<E>,
    telling: Telling,
    place: usize,
    call: Call,
) -> Result<Txt, NoMemory> {
    let answer = act(alloc, desk, place, call)?;
    let told = answer_told(alloc, telling, answer)?;
    match telling {
        Telling::Brief => Ok(told),
        Telling::Written => Ok(told),
        Telling::Turns => {
            let text = told.as_str();
            let holder = number_of(desk.turn());
            let waiter = number_of(desk.next_waiter());
            let turns = format!(in alloc; "{text} {holder} {waiter}")?;
            Ok(Txt::from_string(turns))
        }
    }
}

/// The first text that isn't as its line wants it.
fn other_than_wanted<E: Engine + Drop>(
    alloc: Global,
    desk: &mut Desk<E>,
    telling: Telling,
    lines: &[Line],
) -> Result<Option<Txt>, NoMemory> {
    for line in lines {
        let told = told(alloc, desk, telling, line.0, line.1)?;
        if told.as_str() != line.2 {
            return Ok(Some(told));
        }
    }
    Ok(None)
}

fn undo_word(undo: Undo) -> &'static str {
    match undo {
        Undo::Close => "closed",
        Undo::Lost => "lost",
        Undo::Expired => "expired",
        Undo::Rollback => "rolled-back",
        Undo::Stop => "stopped",
    }
}

fn entry_word(entry: &Entry) -> &'static str {
    match entry {
        Entry::Alone { wrote: true, .. } => "wrote",
        Entry::Alone { .. } => "alone",
        Entry::Began { .. } => "began",
        Entry::Ran {
            answer: Answer::Gave(_),
            ..
        } => "ran",
        Entry::Ran { .. } => "refused",
        Entry::Denied { .. } => "denied",
        Entry::Ended {
            how: How::Undone(undo),
            ..
        } => undo_word(*undo),
        Entry::Ended { .. } => "committed",
        Entry::Failed { unit: Some(_), .. } => "lost-unit",
        Entry::Failed { .. } => "failed",
    }
}

/// A word for each entry, after the text.
fn with_words(mut text: String, entries: &[Entry]) -> Result<Txt, NoMemory> {
    for entry in entries {
        text.push_str(" ")?;
        text.push_str(entry_word(entry))?;
    }
    Ok(Txt::from_string(text))
}

fn open_three<E: Engine + Drop>(desk: &mut Desk<E>) -> Result<(), NoMemory> {
    desk.open()?;
    desk.open()?;
    desk.open()
}

/// Three streams over an engine whose call of this number fails.
fn three(alloc: Global, fail_at: u64) -> Result<Desk<Failing<MemoryKeeper>>, NoMemory> {
    let engine = Failing::new(alloc, MemoryKeeper::new(alloc)?, &[fail_at])?;
    let mut desk = Desk::new(alloc, engine)?;
    open_three(&mut desk)?;
    Ok(desk)
}

/// A word for each entry, after the lines were played over an engine whose call of this number fails. Where something else came
/// than a line wants, that.
pub(crate) fn entries_of(
    alloc: Global,
    telling: Telling,
    fail_at: u64,
    lines: &[Line],
) -> Result<Txt, NoMemory> {
    let mut desk = three(alloc, fail_at)?;
    let other = other_than_wanted(alloc, &mut desk, telling, lines);
    let entries = desk.into_entries();
    match other? {
        Some(told) => Ok(told),
        None => with_words(String::new(alloc), entries.as_slice()),
    }
}

fn state_word(state: Option<TxnState>) -> &'static str {
    match state {
        Some(TxnState::Auto) => "auto",
        Some(TxnState::Deferred) => "deferred",
        Some(TxnState::Reading { .. }) => "reading",
        Some(TxnState::Writing { .. }) => "writing",
        Some(TxnState::Dead(Cause::Lost)) => "lost",
        Some(TxnState::Dead(Cause::Expired)) => "expired",
        Some(TxnState::Dead(Cause::Fault)) => "broken",
        Some(TxnState::Dead(Cause::NoMemory)) => "short",
        Some(TxnState::Closed) => "closed",
        None => "none",
    }
}

/// What came of calls of the first stream, in brief, and its state.
fn told_of<E: Engine + Drop>(
    alloc: Global,
    desk: &mut Desk<E>,
    calls: &[Call],
) -> Result<String, NoMemory> {
    let mut text = String::new(alloc);
    for call in calls {
        let told = told(alloc, desk, Telling::Brief, 0, *call)?;
        text.push_str(told.as_str())?;
        text.push_str(" ")?;
    }
    text.push_str(state_word(desk.state(0)))?;
    text.push_str(":")?;
    Ok(text)
}

/// What came of calls of one stream in brief, the state that they left it in, and a word for each entry, over an engine whose
/// call of this number fails.
pub(crate) fn played(alloc: Global, fail_at: u64, calls: &[Call]) -> Result<Txt, NoMemory> {
    let mut desk = three(alloc, fail_at)?;
    let told = told_of(alloc, &mut desk, calls);
    let entries = desk.into_entries();
    with_words(told?, entries.as_slice())
}

/// What came of storing one more text of so many bytes in a stream that has some.
pub(crate) fn told_after_texts(
    alloc: Global,
    count: i32,
    bytes: usize,
    last: usize,
) -> Result<Txt, NoMemory> {
    let mut desk = three(alloc, NO_CALL)?;
    for id in 0..count {
        act(alloc, &mut desk, 0, Call::StoreBlanks(id, bytes))?;
    }
    told(
        alloc,
        &mut desk,
        Telling::Brief,
        0,
        Call::StoreBlanks(count, last),
    )
}
