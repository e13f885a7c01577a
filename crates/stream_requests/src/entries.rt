use hrana_stmt::{Cols, WireError};
use hrana_value::{List, Values};

/// An entry of a cursor: what happened next in the batch that it runs.
#[derive(Debug, Drop)]
pub enum CursorEntry {
    /// A step was begun whose result has these columns.
    StepBegin {
        step: u32,
        cols: Cols,
    },
    /// The step that was begun is done.
    StepEnd {
        affected: u64,
        last_rowid: Option<i64>,
    },
    /// A step failed.
    StepError {
        step: u32,
        error: WireError,
    },
    /// A row of the step that was begun.
    Row(Values),
    /// The whole batch failed.
    Error(WireError),
}

/// The kinds of cursor entries, in the order of the table of their names.
#[derive(Clone, Copy, Debug, PartialEq, Eq)]
pub enum EntryKind {
    StepBegin,
    StepEnd,
    StepError,
    Row,
    Error,
}

/// A list of cursor entries.
pub type EntryList = List<CursorEntry>;
