// Replies.
ghost use Rattle.std.specs.Prelude.{◌≡◌, []};
ghost use Rattle.stream_task.specs.Means.{executed, reply_of};
ghost use Rattle.stream_task.specs.Advance.{FailsWith};

use crate::advance::Advanced;
use crate::outcomes::empty_result;
use crate::session::TxnState;
use crate::steps::StepRun;
use crate::work::Kind;
use hrana_batch::Outcome;
use hrana_stmt::{Code, wire_error};
use hrana_value::NoMemory;
use std::alloc::Global;
use stream_requests::Reply;

/// The reply to a statement with this outcome. A statement that has no condition isn't skipped.
pub(crate) fn executed(alloc: Global, outcome: Outcome) -> Reply
    ensures { result ≡ executed outcome }
{
    match outcome {
        Outcome::Done(given) => Reply::Execute(given),
        Outcome::Failed(error) => Reply::Failed(error),
        Outcome::Skipped => Reply::Execute(empty_result(alloc)),
    }
}

/// The reply where no step is left.
pub(crate) fn reply_of(kind: Kind, steps: StepRun) -> Reply
    requires { steps.left ≡ [] }
    ensures { result ≡ reply_of kind steps.done }
{
    match kind {
        Kind::Batch => Reply::Batch(steps.into_result()),
        Kind::Sequence => Reply::Sequence,
    }
}

/// The request is answered with the error of a code.
pub(crate) fn failed(alloc: Global, code: Code, state: TxnState) -> Advanced
    ensures { FailsWith code state result }
{
    match wire_error(alloc, code) {
        Ok(error) => Advanced::Replied(Reply::Failed(error), state),
        Err(NoMemory) => Advanced::Broke(state),
    }
}
