// The statements of a sequence.
ghost use Rattle.std.specs.Prelude.{◌≡◌, ℕ, [], None, Some, length, map, All, IfOk, IfErr};
ghost use Rattle.sql_text.specs.Spans.{unclosed_at, StandsBetween};
ghost use Rattle.stream_task.specs.Doing.{IsWithin, step_of_text, step_at, steps_of_text};

use crate::steps::StepRun;
use hrana_batch::{Batch, Step, Steps};
use hrana_stmt::{NamedArgs, SqlRef, Stmt};
use hrana_value::{NoMemory, Txt, Values};
use sql_text::{Span, SplitFail, split};
use std::alloc::Global;

/// A statement of this text, without condition and arguments.
fn step_of_text(alloc: Global, text: &str) -> Result<Step, NoMemory>
    ensures { IfOk result (λ step. step ≡ step_of_text text.now) }
{
    let sql = SqlRef::Text(Txt::new(alloc, text)?);
    Ok(Step {
        condition: None,
        stmt: Stmt {
            sql,
            args: Values::new(alloc),
            named: NamedArgs::new(alloc),
            want_rows: false,
        },
    })
}

/// The statements of a text that stand at these spans.
fn steps_at(alloc: Global, text: &str, spans: &[Span]) -> Result<Vec<Step>, NoMemory>
    requires within { All (IsWithin (length text.now)) spans.now }
    requires between { All (StandsBetween text.now) spans.now }
    ensures { IfOk result (λ steps. steps.items ≡ map (step_at text.now) spans.now) }
{
    let mut steps = Vec::with_capacity(alloc, spans.len())?;
    for span in spans {
        steps.push(step_of_text(alloc, &text[span.start..span.end])?)?;
    }
    Ok(steps)
}

/// A sequence that is to run the statements of a text.
pub(crate) fn sequence_of_text(alloc: Global, text: &str) -> Result<StepRun, SplitFail>
    ensures steps { IfOk result (λ run. run ≡ record { left = steps_of_text text.now; done = [] }) }
    ensures closed { IfOk result (λ _. unclosed_at text.now ≡ None) }
    ensures unclosed { IfErr result (λ fail. (at : ℕ) → fail ≡ SplitFail.Unclosed at → unclosed_at text.now ≡ Some at) }
{
    let spans = split(alloc, text)?;
    let steps = steps_at(alloc, text, &spans)?;
    let batch = Batch {
        steps: Steps::from_vec(steps),
    };
    let run = StepRun::new(alloc, batch)?;
    Ok(run)
}
