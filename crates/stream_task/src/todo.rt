// What a poll of a request is to do.
ghost use Rattle.std.specs.Prelude.{◌≡◌};
ghost use Rattle.stream_task.specs.Checks.{text_of};
ghost use Rattle.stream_task.specs.Texts.{store_refusal};
ghost use Rattle.stream_task.specs.Advance.{IsTodo, shut_todo, open_todo, running_todo, sequence_todo, store_todo, todo_of};
ghost use Rattle.stream_task.specs.Means.{failed};

use crate::advance::Advanced;
use crate::cutting::sequence_of_text;
use crate::replies::{failed, reply_of};
use crate::session::{TxnState, is_auto, is_shut};
use crate::steps::StepRun;
use crate::texts::{StoredText, StoredTexts, store_refusal, text_of};
use crate::work::{Kind, Running, Work};
use hrana_stmt::{Code, SqlRef};
use sql_text::SplitFail;
use std::alloc::Global;
use stream_requests::Reply;

/// What a poll of a request is to do.
#[derive(Drop)]
pub(crate) enum Todo {
    /// It answers, or there was no memory, and no statement is polled.
    Answer(Advanced),
    /// Its first statement is polled, which isn't skipped.
    Poll(Running),
    /// A text is stored.
    StoreSql(StoredText),
    /// The stored text of this number is let go of, if it is there.
    CloseSql(i32),
    /// The stream is closed.
    Close,
}

fn refuse(alloc: Global, code: Code, state: TxnState) -> Todo
    ensures { IsTodo state (Todo.Answer (Advanced.Replied (failed code) state)) result }
{
    Todo::Answer(failed(alloc, code, state))
}

/// In a session that is closed or dead.
fn shut_todo(alloc: Global, state: TxnState, work: &Work) -> Todo
    ensures { IsTodo state (shut_todo state work.now) result }
{
    match (state, work) {
        (TxnState::Closed, _) => refuse(alloc, Code::StreamNotOpen, state),
        (_, Work::Close) => Todo::Answer(Advanced::Replied(Reply::Closed, TxnState::Closed)),
        _ => refuse(alloc, Code::StreamLost, state),
    }
}

/// The first steps whose condition is false are passed over.
fn steps_todo(state: TxnState, kind: Kind, mut steps: StepRun) -> Todo
    ensures { result ≡ running_todo state (Running.Steps kind steps) }
{
    steps.pass_over(is_auto(state));
    if steps.is_finished() {
        Todo::Answer(Advanced::Replied(reply_of(kind, steps), state))
    } else {
        Todo::Poll(Running::Steps(kind, steps))
    }
}

fn running_todo(state: TxnState, running: Running) -> Todo
    ensures { result ≡ running_todo state running }
{
    match running {
        Running::Statement(stmt) => Todo::Poll(Running::Statement(stmt)),
        Running::Steps(kind, steps) => steps_todo(state, kind, steps),
    }
}

/// A sequence is cut, unless a quote or comment is open.
fn sequence_todo(alloc: Global, state: TxnState, texts: &StoredTexts, sql: &SqlRef) -> Todo
    ensures { IsTodo state (sequence_todo state (text_of texts.now sql.now)) result }
{
    let Some(text) = text_of(texts, sql) else {
        return refuse(alloc, Code::NoSqlId, state);
    };
    match sequence_of_text(alloc, text) {
        Ok(steps) => steps_todo(state, Kind::Sequence, steps),
        Err(SplitFail::Unclosed { .. }) => refuse(alloc, Code::SqlOpen, state),
        Err(SplitFail::NoMemory) => Todo::Answer(Advanced::Broke(state)),
    }
}

/// A text is stored, unless its number is in use or there are too many.
fn store_todo(alloc: Global, state: TxnState, texts: &StoredTexts, text: StoredText) -> Todo
    ensures { IsTodo state (store_todo state text (store_refusal texts.now text)) result }
{
    match store_refusal(texts, &text) {
        Some(code) => refuse(alloc, code, state),
        None => Todo::StoreSql(text),
    }
}

/// In a session that is neither.
fn open_todo(alloc: Global, state: TxnState, texts: &StoredTexts, work: Work) -> Todo
    ensures { IsTodo state (open_todo (record { state = state; texts = texts.now }) work) result }
{
    match work {
        Work::Running(running) => running_todo(state, running),
        Work::Sequence(sql) => sequence_todo(alloc, state, texts, &sql),
        Work::GetAutocommit => {
            Todo::Answer(Advanced::Replied(Reply::Autocommit(is_auto(state)), state))
        }
        Work::StoreSql(text) => store_todo(alloc, state, texts, text),
        Work::CloseSql(id) => Todo::CloseSql(id),
        Work::Close => Todo::Close,
    }
}

/// What a poll of this request is to do.
pub(crate) fn todo_of(alloc: Global, state: TxnState, texts: &StoredTexts, work: Work) -> Todo
    ensures { IsTodo state (todo_of (record { state = state; texts = texts.now }) work) result }
{
    if is_shut(state) {
        shut_todo(alloc, state, &work)
    } else {
        open_todo(alloc, state, texts, work)
    }
}
