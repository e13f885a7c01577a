// What comes in on a connection.
use hrana_value::{Bytes, Txt};

/// The method of a request. Methods differ by case (RFC 9110, section 9.1).
#[derive(Clone, Copy, Debug, PartialEq, Eq)]
pub enum Method {
    Get,
    Post,
    Other,
}

/// A whole request.
#[derive(Drop)]
pub struct HttpAsk {
    pub method: Method,
    /// The target as it stands in the request line (RFC 9112, section 3.2).
    pub path: Txt,
    /// What follows `Bearer` and one space in the first `Authorization` field (RFC 6750, section 2.1).
    pub bearer: Option<Txt>,
    pub body: Bytes,
    /// Whether the connection is to be closed after the answer (RFC 9112, section 9.6).
    pub close: bool,
}

/// The subprotocol that an upgrade chose.
#[derive(Clone, Copy, Debug, PartialEq, Eq)]
pub enum Chosen {
    Hrana3,
}

/// The key of an upgrade: the base64 of 16 bytes, with padding (RFC 6455, section 4.1).
#[derive(Clone, Copy)]
pub struct Key {
    pub text: [u8; 24],
}

/// What the bytes of a connection gave.
#[derive(Drop)]
pub enum Fed {
    /// Nothing, until more bytes come. After an upgrade the piece was kept.
    More,
    Ask(HttpAsk),
    Upgrade(Key, Chosen),
}

/// Why bytes were refused. Each but `NoMemory` is named after the status of its answer.
#[derive(Clone, Copy, Debug, PartialEq, Eq)]
pub enum WireFail {
    Bad400,
    Expect417,
    Length411,
    TooLarge413,
    NoMemory,
}
