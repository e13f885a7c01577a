// What a journal notes.
use crate::BoundStmt;
use hrana_stmt::{Code, StmtResult};
use hrana_value::StreamNo;

/// What a statement that the engine ran was answered.
#[derive(Debug, Drop)]
pub enum Answer {
    Gave(StmtResult),
    Refused(Code),
}

/// Why a transaction was taken back.
#[derive(Clone, Copy, Debug, PartialEq, Eq)]
pub enum Undo {
    Close,
    Lost,
    Expired,
    Rollback,
    Stop,
}

/// How a transaction ended.
#[derive(Clone, Copy, Debug, PartialEq, Eq)]
pub enum How {
    Committed,
    Read,
    Undone(Undo),
}

/// Why a reader may not write.
#[derive(Clone, Copy, Debug, PartialEq, Eq)]
pub enum Deny {
    Stale { had: u64, now: u64 },
    Held { by: StreamNo },
}

/// Why the engine gave no answer.
#[derive(Clone, Copy, Debug, PartialEq, Eq)]
pub enum Broken {
    Fault,
    NoMemory,
}

/// What a journal notes.
#[derive(Debug, Drop)]
pub enum Entry {
    /// A statement outside a transaction.
    Alone {
        stream: StreamNo,
        stmt: BoundStmt,
        answer: Answer,
        wrote: bool,
    },
    /// A transaction began. Units are numbered from 1.
    Began {
        unit: u64,
        stream: StreamNo,
    },
    /// A statement in a transaction.
    Ran {
        unit: u64,
        stmt: BoundStmt,
        answer: Answer,
    },
    Denied {
        unit: u64,
        deny: Deny,
    },
    Ended {
        unit: u64,
        how: How,
    },
    /// The engine broke. Where it names a unit, that unit ended and left nothing.
    Failed {
        stream: StreamNo,
        unit: Option<u64>,
        cause: Broken,
    },
}
