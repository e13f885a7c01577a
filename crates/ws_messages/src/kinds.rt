// The kinds of requests and their names.
ghost use Rattle.std.specs.Prelude.{◌≡◌, MatchOption};
ghost use Rattle.ws_messages.specs.Kinds.{name_of, kind_of, KindsDiffer};
ghost use Rattle.ws_messages.specs.declared.kinds.Kind.{Kind};

use stream_requests::{AskKind, ask_kind_name, ask_kind_of_name};

/// The kinds of requests.
#[derive(Clone, Copy, Debug, PartialEq, Eq)]
pub enum Kind {
    OpenStream,
    CloseStream,
    Execute,
    Batch,
    OpenCursor,
    CloseCursor,
    FetchCursor,
    Sequence,
    StoreSql,
    CloseSql,
    GetAutocommit,
}

/// The kind of request that asks so.
pub fn kind_of(kind: AskKind) -> Kind
    ensures { result ≡ kind_of kind }
{
    match kind {
        AskKind::Execute => Kind::Execute,
        AskKind::Batch => Kind::Batch,
        AskKind::Sequence => Kind::Sequence,
        AskKind::Cursor => Kind::OpenCursor,
        AskKind::Fetch => Kind::FetchCursor,
        AskKind::CloseCursor => Kind::CloseCursor,
        AskKind::GetAutocommit => Kind::GetAutocommit,
        AskKind::StoreSql => Kind::StoreSql,
        AskKind::CloseSql => Kind::CloseSql,
        AskKind::Close => Kind::CloseStream,
    }
}

/// The kind of request with this `type`.
pub fn kind_of_name(text: &str) -> Option<Kind>
    ensures { MatchOption result ((k : Kind) → name_of k ≡ text.now → ⊥) (λ k. name_of k ≡ text.now) }
{
    if text == "open_stream" {
        return Some(Kind::OpenStream);
    }
    if text == "close_stream" {
        return Some(Kind::CloseStream);
    }
    match ask_kind_of_name(text) {
        Some(AskKind::Close) => None,
        Some(kind) => Some(kind_of(kind)),
        None => None,
    }
}

/// The `type` of a kind of request, and of the response to it.
pub fn kind_name(kind: Kind) -> &'static str
    ensures { result.now ≡ name_of kind }
{
    match kind {
        Kind::OpenStream => "open_stream",
        Kind::CloseStream => "close_stream",
        Kind::Execute => ask_kind_name(AskKind::Execute),
        Kind::Batch => ask_kind_name(AskKind::Batch),
        Kind::OpenCursor => ask_kind_name(AskKind::Cursor),
        Kind::CloseCursor => ask_kind_name(AskKind::CloseCursor),
        Kind::FetchCursor => ask_kind_name(AskKind::Fetch),
        Kind::Sequence => ask_kind_name(AskKind::Sequence),
        Kind::StoreSql => ask_kind_name(AskKind::StoreSql),
        Kind::CloseSql => ask_kind_name(AskKind::CloseSql),
        Kind::GetAutocommit => ask_kind_name(AskKind::GetAutocommit),
    }
}

/// No two kinds of request have one `type`.
pub fn request_kinds_differ()
    ensures { KindsDiffer }
{}
