// A request that is queued or running.
ghost use Rattle.std.specs.Prelude.{◌≡◌, Some, IfOk};
ghost use Rattle.stream_task.specs.Doing.{work_of, MayBeAsked};

use crate::steps::StepRun;
use crate::texts::StoredText;
use hrana_stmt::{SqlRef, Stmt};
use hrana_value::NoMemory;
use std::alloc::Global;
use stream_requests::Ask;

/// What steps are of.
#[derive(Clone, Copy, Debug, PartialEq, Eq)]
pub(crate) enum Kind {
    Batch,
    Sequence,
}

/// Statements that are run one after another.
#[derive(Drop)]
pub(crate) enum Running {
    Statement(Stmt),
    Steps(Kind, StepRun),
}

/// A request that is queued or running.
#[derive(Drop)]
pub(crate) enum Work {
    Running(Running),
    /// A sequence whose text isn't cut yet. It is cut when its turn comes, since stored texts may change until then.
    Sequence(SqlRef),
    GetAutocommit,
    /// A text is to be stored.
    StoreSql(StoredText),
    /// The stored text of this number is to be let go of.
    CloseSql(i32),
    Close,
}

/// The request as it is queued.
pub(crate) fn work_of(alloc: Global, ask: Ask) -> Result<Work, NoMemory>
    requires { MayBeAsked ask }
    ensures { IfOk result (λ work. work_of ask ≡ Some work) }
{
    match ask {
        Ask::Execute(stmt) => Ok(Work::Running(Running::Statement(stmt))),
        Ask::Batch(batch) => {
            let steps = StepRun::new(alloc, batch)?;
            Ok(Work::Running(Running::Steps(Kind::Batch, steps)))
        }
        Ask::Sequence(sql) => Ok(Work::Sequence(sql)),
        Ask::GetAutocommit => Ok(Work::GetAutocommit),
        Ask::StoreSql { id, sql } => Ok(Work::StoreSql(StoredText { id, sql })),
        Ask::CloseSql(id) => Ok(Work::CloseSql(id)),
        Ask::Close => Ok(Work::Close),
        Ask::Cursor(_) => unreachable!(),
        Ask::Fetch(_) => unreachable!(),
        Ask::CloseCursor => unreachable!(),
    }
}
