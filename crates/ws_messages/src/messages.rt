use crate::Kind;
use hrana_batch::Batch;
use hrana_stmt::WireError;
use hrana_value::{Decline, Txt};
use stream_requests::{Ask, Reply};

/// A request of a client.
#[derive(Debug, Drop)]
pub enum WsRequest {
    OpenStream(i32),
    /// What a stream is asked: a statement, a batch, a sequence, whether it is in autocommit, or to close.
    OnStream {
        stream_id: i32,
        ask: Ask,
    },
    OpenCursor {
        stream_id: i32,
        cursor_id: i32,
        batch: Batch,
    },
    CloseCursor(i32),
    FetchCursor {
        cursor_id: i32,
        max_count: u32,
    },
    StoreSql {
        id: i32,
        sql: Txt,
    },
    CloseSql(i32),
}

/// A message of a client.
#[derive(Debug, Drop)]
pub enum ClientMsg {
    Hello { jwt: Option<Txt> },
    Request { request_id: i32, request: WsRequest },
}

/// A message of the server. The reply of `Ok` is one to requests of its kind.
#[derive(Debug, Drop)]
pub enum ServerMsg {
    HelloOk,
    HelloError(WireError),
    Ok {
        request_id: i32,
        kind: Kind,
        reply: Reply,
    },
    Error {
        request_id: i32,
        error: WireError,
    },
}

/// How a text breaks the protocol.
#[derive(Clone, Copy, Debug, PartialEq, Eq)]
pub enum Why {
    /// It isn't JSON in UTF-8.
    NotJson,
    NotObject,
    /// It has no `type` that is a string.
    NoKind,
    UnknownKind,
    /// A `hello` has a `jwt` that is no string.
    BadHello,
    /// A numbered message has no `request_id` that is a whole number of 32 bits.
    BadRequestId,
    /// A message of the server has no form of its kind.
    BadReply,
}

/// Why a text is no message.
#[derive(Clone, Copy, Debug, PartialEq, Eq)]
pub enum MsgFail {
    Violation(Why),
    Declined { request_id: i32, decline: Decline },
    NoMemory,
}
