// The kinds of asks: their names, and that of an ask or a reply.
ghost use Rattle.std.specs.Prelude.{◌≡◌, MatchOption, map};
ghost use Rattle.hrana_value.specs.Names.{RowsDiffer};
ghost use Rattle.stream_requests.specs.AskNames.{ask_name};
ghost use Rattle.stream_requests.specs.Asks.{ask_kind};
ghost use Rattle.stream_requests.specs.Replies.{answered_kind};
ghost use Rattle.stream_requests.specs.declared.asks.AskKind.{AskKind};

use crate::{Ask, AskKind, Reply};
use hrana_value::{index_of, name};

/// The `type` of each kind of ask, in the order of `AskKind`.
pub const ASK_KINDS: [&str; 10] = [
    "execute",
    "batch",
    "sequence",
    "open_cursor",
    "fetch_cursor",
    "close_cursor",
    "get_autocommit",
    "store_sql",
    "close_sql",
    "close",
];

/// The kind of ask with this `type`.
pub fn ask_kind_of_name(text: &str) -> Option<AskKind>
    ensures { MatchOption result ((k : AskKind) → ask_name k ≡ text.now → ⊥) (λ k. ask_name k ≡ text.now) }
{
    match index_of(&ASK_KINDS, text) {
        Some(0) => Some(AskKind::Execute),
        Some(1) => Some(AskKind::Batch),
        Some(2) => Some(AskKind::Sequence),
        Some(3) => Some(AskKind::Cursor),
        Some(4) => Some(AskKind::Fetch),
        Some(5) => Some(AskKind::CloseCursor),
        Some(6) => Some(AskKind::GetAutocommit),
        Some(7) => Some(AskKind::StoreSql),
        Some(8) => Some(AskKind::CloseSql),
        Some(9) => Some(AskKind::Close),
        Some(_) => None,
        None => None,
    }
}

/// The `type` of a kind of ask: of a request that asks so, and of the response to it. Over a WebSocket a request to close
/// its stream is a `close_stream`.
pub fn ask_kind_name(kind: AskKind) -> &'static str
    ensures { result.now ≡ ask_name kind }
{
    match kind {
        AskKind::Execute => name(&ASK_KINDS, 0),
        AskKind::Batch => name(&ASK_KINDS, 1),
        AskKind::Sequence => name(&ASK_KINDS, 2),
        AskKind::Cursor => name(&ASK_KINDS, 3),
        AskKind::Fetch => name(&ASK_KINDS, 4),
        AskKind::CloseCursor => name(&ASK_KINDS, 5),
        AskKind::GetAutocommit => name(&ASK_KINDS, 6),
        AskKind::StoreSql => name(&ASK_KINDS, 7),
        AskKind::CloseSql => name(&ASK_KINDS, 8),
        AskKind::Close => name(&ASK_KINDS, 9),
    }
}

/// No two kinds of asks have one `type`.
pub fn ask_kinds_differ()
    ensures { RowsDiffer (map (λ row. row.now) ASK_KINDS) }
{}

impl Ask {
    pub fn kind(&self) -> AskKind
        ensures { result ≡ ask_kind self.now }
    {
        match self {
            Ask::Execute(_) => AskKind::Execute,
            Ask::Batch(_) => AskKind::Batch,
            Ask::Sequence(_) => AskKind::Sequence,
            Ask::Cursor(_) => AskKind::Cursor,
            Ask::Fetch(_) => AskKind::Fetch,
            Ask::CloseCursor => AskKind::CloseCursor,
            Ask::GetAutocommit => AskKind::GetAutocommit,
            Ask::StoreSql { .. } => AskKind::StoreSql,
            Ask::CloseSql(_) => AskKind::CloseSql,
            Ask::Close => AskKind::Close,
        }
    }
}

impl Reply {
    /// The kind of ask that this replies to. The opening of a stream replies to none, and a failure to any.
    pub fn answered_kind(&self) -> Option<AskKind>
        ensures { result ≡ answered_kind self.now }
    {
        match self {
            Reply::StreamOpened => None,
            Reply::Execute(_) => Some(AskKind::Execute),
            Reply::Batch(_) => Some(AskKind::Batch),
            Reply::Sequence => Some(AskKind::Sequence),
            Reply::Cursor => Some(AskKind::Cursor),
            Reply::Fetched { .. } => Some(AskKind::Fetch),
            Reply::CursorClosed => Some(AskKind::CloseCursor),
            Reply::Autocommit(_) => Some(AskKind::GetAutocommit),
            Reply::SqlStored => Some(AskKind::StoreSql),
            Reply::SqlClosed => Some(AskKind::CloseSql),
            Reply::Closed => Some(AskKind::Close),
            Reply::Failed(_) => None,
        }
    }
}
