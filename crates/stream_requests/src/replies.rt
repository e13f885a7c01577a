use crate::EntryList;
use hrana_batch::BatchResult;
use hrana_stmt::{StmtResult, WireError};

/// What a stream replies.
#[derive(Debug, Drop)]
pub enum Reply {
    StreamOpened,
    Execute(StmtResult),
    Batch(BatchResult),
    Sequence,
    /// The cursor is open.
    Cursor,
    Fetched {
        entries: EntryList,
        /// Whether these are the cursor's last entries.
        done: bool,
    },
    CursorClosed,
    Autocommit(bool),
    SqlStored,
    SqlClosed,
    /// The stream is closed.
    Closed,
    /// The ask was refused.
    Failed(WireError),
}
