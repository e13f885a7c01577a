use crate::Cond;
use hrana_stmt::Stmt;
use hrana_value::List;

/// A statement of a batch, and the condition under which it is run.
#[derive(Debug, Drop)]
pub struct Step {
    pub condition: Option<Cond>,
    pub stmt: Stmt,
}

/// A list of steps.
pub type Steps = List<Step>;

/// Statements that are run one after another. A condition may name the steps before its own, which have the numbers
/// from 0.
#[derive(Debug, Drop)]
pub struct Batch {
    pub steps: Steps,
}
