use hrana_stmt::{StmtResult, WireError};
use hrana_value::List;

/// What became of a step.
#[derive(Debug, Drop)]
pub enum Outcome {
    /// Its condition didn't hold.
    Skipped,
    Done(StmtResult),
    Failed(WireError),
}

/// A list of outcomes.
pub type Outcomes = List<Outcome>;

/// The outcomes of a batch's steps, in the order of the steps.
#[derive(Debug, Drop)]
pub struct BatchResult {
    pub outcomes: Outcomes,
}
