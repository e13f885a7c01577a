// Streams of exchanges, and what each of them waits for.
use pipeline_body::Exchange;

/// A baton that was issued in an answer.
#[derive(Clone, Copy)]
pub struct Issued {
    pub text: [u8; 32],
    /// The moment of that answer.
    pub at: u64,
}

/// An exchange that isn't answered yet.
#[derive(Drop)]
pub struct Running {
    /// The connection that waits for the answer.
    pub conn: u32,
    /// The words of the baton that comes with the answer.
    pub words: [u64; 2],
    /// Whether the connection is closed after the answer.
    pub close: bool,
    pub exchange: Exchange,
}

/// A stream of exchanges (HRANA_3_SPEC, "Hrana over HTTP"): at most one exchange of it runs.
#[derive(Drop)]
pub enum Session {
    /// It waits for the exchange that brings this baton. Without one it waits for its end.
    Resting(Option<Issued>),
    Running(Running),
}
