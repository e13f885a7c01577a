use hrana_value::{Decline, List, Txt};
use stream_requests::{Ask, Reply};

/// A request of a body.
#[derive(Debug, Drop)]
pub enum PipeAsk {
    Ask(Ask),
    /// A request that is declined stands in its place among the others.
    Declined(Decline),
}

/// The requests of a body.
pub type PipeAsks = List<PipeAsk>;

/// The body of a pipeline: what its stream is asked, in this order. With no baton it opens a stream.
#[derive(Debug, Drop)]
pub struct PipelineBody {
    pub baton: Option<Txt>,
    pub asks: PipeAsks,
}

/// The results of a pipeline, one for each request.
pub type Replies = List<Reply>;

/// The answer to a pipeline. With no baton its stream is closed.
#[derive(Debug, Drop)]
pub struct PipelineAnswer {
    pub baton: Option<Txt>,
    pub results: Replies,
}

/// Why bytes are no body or no answer.
#[derive(Clone, Copy, Debug, PartialEq, Eq)]
pub enum BodyFail {
    /// They aren't JSON in UTF-8.
    NotJson,
    Shape,
    /// The body holds more than `MAX_PIPELINE_ASKS` requests.
    TooMany,
    /// The answer is declined.
    Declined(Decline),
    NoMemory,
}
