use sqlite_items::{Boxed, Items};

/// The parts of an `and` or an `or`.
pub type Conds = Items<Cond>;

/// A condition of a batch's step.
#[derive(Debug, Drop)]
pub enum Cond {
    /// The step of this number was done.
    StepOk(u32),
    /// The step of this number failed.
    StepError(u32),
    Not(Boxed<Cond>),
    /// All parts hold; true of none.
    All(Conds),
    /// Some part holds; false of none.
    Any(Conds),
    /// The session is in autocommit, so no transaction is open.
    Autocommit,
}
