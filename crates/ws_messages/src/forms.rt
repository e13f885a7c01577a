// The form of what is asked of a stream, and of what is replied to a request of a kind.
ghost use Rattle.std.specs.Prelude.{◌≡◌, ◌↔◌, IsTrue, Some};
ghost use Rattle.stream_requests.specs.Asks.{ask_kind};
ghost use Rattle.ws_messages.specs.Kinds.{IsStreamAsk};
ghost use Rattle.ws_messages.specs.Requests.{IsFormed};
ghost use Rattle.ws_messages.specs.Client.{HasClientForm};
ghost use Rattle.ws_messages.specs.Server.{reply_kind, HasServerForm, answering};

use crate::{ClientMsg, Kind, ServerMsg, WsRequest};
use stream_requests::{Ask, Reply};

fn kind_of_reply(reply: &Reply) -> Option<Kind>
    ensures { result ≡ reply_kind reply.now }
{
    match reply {
        Reply::StreamOpened => Some(Kind::OpenStream),
        Reply::Execute(_) => Some(Kind::Execute),
        Reply::Batch(_) => Some(Kind::Batch),
        Reply::Sequence => Some(Kind::Sequence),
        Reply::Cursor => Some(Kind::OpenCursor),
        Reply::Fetched { .. } => Some(Kind::FetchCursor),
        Reply::CursorClosed => Some(Kind::CloseCursor),
        Reply::Autocommit(_) => Some(Kind::GetAutocommit),
        Reply::SqlStored => Some(Kind::StoreSql),
        Reply::SqlClosed => Some(Kind::CloseSql),
        Reply::Closed => Some(Kind::CloseStream),
        Reply::Failed(_) => None,
    }
}

/// Whether a reply has the form of this kind. A failure has that of none.
pub fn reply_has_form(kind: Kind, reply: &Reply) -> bool
    ensures { IsTrue result ↔ (reply_kind reply.now ≡ Some kind) }
{
    match kind_of_reply(reply) {
        Some(form) => form == kind,
        None => false,
    }
}

// Whether a request may ask a stream so.
fn is_stream_ask(ask: &Ask) -> bool
    ensures { IsTrue result ↔ IsStreamAsk (ask_kind ask.now) }
{
    match ask {
        Ask::Execute(_) => true,
        Ask::Batch(_) => true,
        Ask::Sequence(_) => true,
        Ask::GetAutocommit => true,
        Ask::Close => true,
        _ => false,
    }
}

fn ok(request_id: i32, kind: Kind, reply: Reply) -> ServerMsg
    ensures { result ≡ ServerMsg.Ok request_id kind reply }
{
    ServerMsg::Ok {
        request_id,
        kind,
        reply,
    }
}

impl WsRequest {
    /// Whether what a stream is asked is what a request may ask it: a statement, a batch, a sequence, whether it is in
    /// autocommit, or to close.
    pub fn has_form(&self) -> bool
        ensures { IsTrue result ↔ IsFormed self.now }
    {
        match self {
            WsRequest::OnStream { ask, .. } => is_stream_ask(ask),
            _ => true,
        }
    }
}

impl ClientMsg {
    /// Whether the message can be written: its request has its form.
    pub fn has_form(&self) -> bool
        ensures { IsTrue result ↔ HasClientForm self.now }
    {
        match self {
            ClientMsg::Hello { .. } => true,
            ClientMsg::Request { request, .. } => request.has_form(),
        }
    }
}

impl ServerMsg {
    /// The message that answers a request with this reply.
    pub fn answering(request_id: i32, reply: Reply) -> ServerMsg
        ensures message { result ≡ answering request_id reply }
        ensures form { HasServerForm result }
    {
        match reply {
            Reply::StreamOpened => ok(request_id, Kind::OpenStream, Reply::StreamOpened),
            Reply::Execute(result) => ok(request_id, Kind::Execute, Reply::Execute(result)),
            Reply::Batch(result) => ok(request_id, Kind::Batch, Reply::Batch(result)),
            Reply::Sequence => ok(request_id, Kind::Sequence, Reply::Sequence),
            Reply::Cursor => ok(request_id, Kind::OpenCursor, Reply::Cursor),
            Reply::Fetched { entries, done } => ok(
                request_id,
                Kind::FetchCursor,
                Reply::Fetched { entries, done },
            ),
            Reply::CursorClosed => ok(request_id, Kind::CloseCursor, Reply::CursorClosed),
            Reply::Autocommit(auto) => ok(request_id, Kind::GetAutocommit, Reply::Autocommit(auto)),
            Reply::SqlStored => ok(request_id, Kind::StoreSql, Reply::SqlStored),
            Reply::SqlClosed => ok(request_id, Kind::CloseSql, Reply::SqlClosed),
            Reply::Closed => ok(request_id, Kind::CloseStream, Reply::Closed),
            Reply::Failed(error) => ServerMsg::Error { request_id, error },
        }
    }

    /// Whether the message can be written: its reply has the form of its kind.
    pub fn has_form(&self) -> bool
        ensures { IsTrue result ↔ HasServerForm self.now }
    {
        match self {
            ServerMsg::Ok { kind, reply, .. } => reply_has_form(*kind, reply),
            _ => true,
        }
    }
}
