// Stored texts, put into what is asked of a stream.
ghost use Rattle.std.specs.Prelude.{◌≡◌, IfOk};
ghost use Rattle.hrana_hub.specs.Texts.{put_text, put_stmt, put_step, put_steps, put_ask};

use hrana_batch::{Batch, Step, Steps};
use hrana_stmt::{SqlRef, Stmt};
use hrana_value::{NoMemory, Txt};
use std::alloc::Global;
use stream_requests::Ask;
use stream_task::{StoredText, stored_text};

/// The text itself where its number stands, or `None` where no text has this number.
fn put_text(alloc: Global, texts: &[StoredText], sql: SqlRef) -> Result<Option<SqlRef>, NoMemory>
    ensures { IfOk result (λ put. put ≡ put_text texts.now sql) }
{
    match sql {
        SqlRef::Text(text) => Ok(Some(SqlRef::Text(text))),
        SqlRef::Id(id) => match stored_text(texts, id) {
            Some(text) => Ok(Some(SqlRef::Text(Txt::new(alloc, text)?))),
            None => Ok(None),
        },
    }
}

fn put_stmt(alloc: Global, texts: &[StoredText], stmt: Stmt) -> Result<Option<Stmt>, NoMemory>
    ensures { IfOk result (λ put. put ≡ put_stmt texts.now stmt) }
{
    let Stmt {
        sql,
        args,
        named,
        want_rows,
    } = stmt;
    match put_text(alloc, texts, sql)? {
        Some(sql) => Ok(Some(Stmt {
            sql,
            args,
            named,
            want_rows,
        })),
        None => Ok(None),
    }
}

fn put_step(alloc: Global, texts: &[StoredText], step: Step) -> Result<Option<Step>, NoMemory>
    ensures { IfOk result (λ put. put ≡ put_step texts.now step) }
{
    let Step { condition, stmt } = step;
    match put_stmt(alloc, texts, stmt)? {
        Some(stmt) => Ok(Some(Step { condition, stmt })),
        None => Ok(None),
    }
}

fn put_steps(alloc: Global, texts: &[StoredText], steps: Steps) -> Result<Option<Steps>, NoMemory>
    ensures { IfOk result (λ put. put ≡ put_steps texts.now steps) }
{
    let mut put = Steps::new(alloc);
    for step in steps.into_vec() {
        match put_step(alloc, texts, step)? {
            Some(step) => put.push(step)?,
            None => return Ok(None),
        }
    }
    Ok(Some(put))
}

/// The request with the texts that it names, or `None` where one of them isn't stored.
pub(crate) fn put_ask(
    alloc: Global,
    texts: &[StoredText],
    ask: Ask,
) -> Result<Option<Ask>, NoMemory>
    ensures { IfOk result (λ put. put ≡ put_ask texts.now ask) }
{
    match ask {
        Ask::Execute(stmt) => match put_stmt(alloc, texts, stmt)? {
            Some(stmt) => Ok(Some(Ask::Execute(stmt))),
            None => Ok(None),
        },
        Ask::Batch(batch) => match put_steps(alloc, texts, batch.steps)? {
            Some(steps) => Ok(Some(Ask::Batch(Batch { steps }))),
            None => Ok(None),
        },
        Ask::Sequence(sql) => match put_text(alloc, texts, sql)? {
            Some(sql) => Ok(Some(Ask::Sequence(sql))),
            None => Ok(None),
        },
        Ask::Cursor(batch) => Ok(Some(Ask::Cursor(batch))),
        Ask::Fetch(count) => Ok(Some(Ask::Fetch(count))),
        Ask::CloseCursor => Ok(Some(Ask::CloseCursor)),
        Ask::GetAutocommit => Ok(Some(Ask::GetAutocommit)),
        Ask::StoreSql { id, sql } => Ok(Some(Ask::StoreSql { id, sql })),
        Ask::CloseSql(id) => Ok(Some(Ask::CloseSql(id))),
        Ask::Close => Ok(Some(Ask::Close)),
    }
}
