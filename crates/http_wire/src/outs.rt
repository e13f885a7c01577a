// What goes out on a connection.
use hrana_value::{Bytes, Txt};

/// The method that a path has, where a request came with another (the field `Allow` of RFC 9110, section 10.2.1).
#[derive(Clone, Copy, Debug, PartialEq, Eq)]
pub enum Allow {
    Get,
    Post,
}

/// An answer to a request.
#[derive(Drop)]
pub struct HttpAnswer {
    /// The status code (RFC 9110, section 15).
    pub status: u16,
    /// Given with status 405 alone.
    pub allow: Option<Allow>,
    /// JSON, or nothing.
    pub body: Bytes,
    /// Whether the connection is closed after it.
    pub close: bool,
}

/// What is sent on a connection: a message of WebSocket, or the answer to a request.
#[derive(Drop)]
pub enum Out {
    Message(Txt),
    Answer(HttpAnswer),
}

/// What one event gives.
#[derive(Drop)]
pub struct Outs {
    /// The number of the connection, 0 where the event gives nothing.
    pub conn: u32,
    pub out: Option<Out>,
    /// The code that the connection is closed with (RFC 6455, section 7.4).
    pub close: Option<u16>,
}
