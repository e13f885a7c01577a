// The checks of a statement, before an engine is asked.
ghost use Rattle.std.specs.Prelude.{◌≡◌, None, IfOk};
ghost use Rattle.sql_text.specs.Prepared.{class_refused};
ghost use Rattle.stream_task.specs.Checks.{check_fail_of, ready_of, ChecksAs};

use crate::texts::{StoredTexts, text_of};
use engine_core::BoundStmt;
use hrana_stmt::{Code, Stmt};
use sql_text::{PrepareFail, Prepared, prepare};
use std::alloc::Global;

/// Why a statement isn't run.
#[derive(Clone, Copy)]
pub(crate) enum CheckFail {
    /// A check refuses it.
    Refused(Code),
    NoMemory,
}

fn fail_of(fail: PrepareFail) -> CheckFail
    ensures { result ≡ check_fail_of fail }
{
    match fail {
        PrepareFail::Unclosed { .. } => CheckFail::Refused(Code::SqlOpen),
        PrepareFail::Empty => CheckFail::Refused(Code::NoStatement),
        PrepareFail::Many => CheckFail::Refused(Code::ManyStatements),
        PrepareFail::Savepoint => CheckFail::Refused(Code::SavepointUnsupported),
        PrepareFail::Barred => CheckFail::Refused(Code::SqlUnsupported),
        PrepareFail::Args => CheckFail::Refused(Code::Args),
        PrepareFail::NoMemory => CheckFail::NoMemory,
    }
}

/// The statement with its values, or the code of the first check that refuses it.
pub(crate) fn check(alloc: Global, texts: &StoredTexts, stmt: &Stmt) -> Result<BoundStmt, CheckFail>
    ensures exact { ChecksAs (ready_of texts.now stmt.now) result }
    ensures passed { IfOk result (λ ready. class_refused ready.class ≡ None) }
{
    let Some(text) = text_of(texts, &stmt.sql) else {
        return Err(CheckFail::Refused(Code::NoSqlId));
    };
    match prepare(alloc, text, stmt.args.as_slice(), stmt.named.as_slice()) {
        Ok(Prepared { sql, class, values }) => Ok(BoundStmt { sql, class, values }),
        Err(fail) => Err(fail_of(fail)),
    }
}
