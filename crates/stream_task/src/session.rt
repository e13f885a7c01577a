// The state of a stream's transaction.
ghost use Rattle.std.specs.Prelude.{◌≡◌};
ghost use Rattle.stream_task.specs.Session.{is_auto, is_shut};

/// Why a stream died.
#[derive(Clone, Copy, Debug, PartialEq, Eq)]
pub enum Cause {
    /// Its connection is gone, or the server stopped.
    Lost,
    /// Nothing was asked for too long.
    Expired,
    /// The engine broke in its transaction.
    Fault,
    /// The engine had no memory in its transaction.
    NoMemory,
}

/// How far the transaction of a stream is.
#[derive(Clone, Copy, Debug, PartialEq, Eq)]
pub enum TxnState {
    /// There is none: each statement is one of its own.
    Auto,
    /// One was begun that has no unit yet. Its first statement begins it.
    Deferred,
    /// A unit that only reads, and began at the version `had`.
    Reading { unit: u64, had: u64 },
    /// A unit that holds the turn to write.
    Writing { unit: u64 },
    /// The stream died. It does no more than answer.
    Dead(Cause),
    /// The stream was closed.
    Closed,
}

/// Whether each statement is a transaction of its own.
pub(crate) fn is_auto(state: TxnState) -> bool
    ensures { result ≡ is_auto state }
{
    matches!(state, TxnState::Auto)
}

/// Whether the stream does no more than answer.
pub(crate) fn is_shut(state: TxnState) -> bool
    ensures { result ≡ is_shut state }
{
    matches!(state, TxnState::Dead(_) | TxnState::Closed)
}
