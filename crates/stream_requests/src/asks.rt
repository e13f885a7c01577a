use hrana_batch::Batch;
use hrana_stmt::{SqlRef, Stmt};
use hrana_value::Txt;

/// What a stream is asked.
#[derive(Debug, Drop)]
pub enum Ask {
    Execute(Stmt),
    Batch(Batch),
    Sequence(SqlRef),
    /// To open a cursor over a batch.
    Cursor(Batch),
    /// To hand out at most so many entries of the open cursor.
    Fetch(u32),
    CloseCursor,
    GetAutocommit,
    StoreSql { id: i32, sql: Txt },
    CloseSql(i32),
    /// To close the stream.
    Close,
}

/// The kinds of asks.
#[derive(Clone, Copy, Debug, PartialEq, Eq)]
pub enum AskKind {
    Execute,
    Batch,
    Sequence,
    Cursor,
    Fetch,
    CloseCursor,
    GetAutocommit,
    StoreSql,
    CloseSql,
    Close,
}
