use hrana_value::{Bytes, StreamNo};
use http_wire::HttpAsk;

/// What comes to the hub.
#[derive(Drop)]
pub enum Event {
    /// A WebSocket connection was opened.
    Opened { conn: u32 },
    /// A text message of a WebSocket connection.
    Text { conn: u32, text: Bytes },
    /// A binary message of a WebSocket connection.
    Binary { conn: u32 },
    /// A request over HTTP, whose connection it brings.
    Exchange { conn: u32, ask: HttpAsk },
    /// The connection is gone.
    Lost { conn: u32 },
    /// So many milliseconds have passed since some beginning.
    Moment { at: u64 },
    /// The stream may run one statement.
    Poll { stream: StreamNo },
    /// The run ends.
    Stop,
}
