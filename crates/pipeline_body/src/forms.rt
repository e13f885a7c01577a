// Which bodies and answers can be written.
ghost use Rattle.std.specs.Prelude.{◌↔◌, IsTrue};
ghost use Rattle.pipeline_body.specs.Answers.{HasAnswerForm};
ghost use Rattle.pipeline_body.specs.Bodies.{HasAskForm, HasBodyForm};

use crate::{PipeAsk, PipelineAnswer, PipelineBody};
use stream_requests::{is_pipeline_kind, is_pipeline_reply};

impl PipeAsk {
    /// Whether the request can be written: it isn't declined, and is one over HTTP.
    pub fn has_form(&self) -> bool
        ensures { IsTrue result ↔ HasAskForm self.now }
    {
        match self {
            PipeAsk::Ask(ask) => is_pipeline_kind(ask.kind()),
            PipeAsk::Declined(_) => false,
        }
    }
}

impl PipelineBody {
    /// Whether the body can be written: each of its requests can.
    pub fn has_form(&self) -> bool
        ensures { IsTrue result ↔ HasBodyForm self.now }
    {
        self.asks.as_slice().iter().all(|ask| ask.has_form())
    }
}

impl PipelineAnswer {
    /// Whether the answer can be written: each of its results is a failure, or the reply to a request over HTTP.
    pub fn has_form(&self) -> bool
        ensures { IsTrue result ↔ HasAnswerForm self.now }
    {
        self.results
            .as_slice()
            .iter()
            .all(|reply| is_pipeline_reply(reply))
    }
}
