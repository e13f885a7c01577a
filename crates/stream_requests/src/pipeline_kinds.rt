// What a pipeline may ask and reply.
ghost use Rattle.std.specs.Prelude.{◌≡◌, ◌↔◌, IsTrue, MatchOption, codes};
ghost use Rattle.serde_json.specs.View.{view};
ghost use Rattle.hrana_value.specs.Members.{HasText};
ghost use Rattle.stream_requests.specs.declared.asks.AskKind.{AskKind};
ghost use Rattle.stream_requests.specs.AskNames.{ask_name};
ghost use Rattle.stream_requests.specs.Results.{HasKind, IsPipelineKind, IsPipelineReply};

use crate::{AskKind, Reply, ask_kind_of_name};
use hrana_value::text_member;
use serde_json::Value as Json;

/// Whether a request of a pipeline may ask so.
pub fn is_pipeline_kind(kind: AskKind) -> bool
    ensures { IsTrue result ↔ IsPipelineKind kind }
{
    match kind {
        AskKind::Cursor => false,
        AskKind::Fetch => false,
        AskKind::CloseCursor => false,
        _ => true,
    }
}

/// The kind of request of a pipeline with this `type`.
pub fn pipeline_kind_of_name(text: &str) -> Option<AskKind>
    ensures { MatchOption result ((k : AskKind) → IsPipelineKind k → ask_name k ≡ text.now → ⊥) (λ k. IsPipelineKind k × (ask_name k ≡ text.now)) }
{
    match ask_kind_of_name(text) {
        Some(kind) => {
            if is_pipeline_kind(kind) {
                Some(kind)
            } else {
                None
            }
        }
        None => None,
    }
}

/// Whether this is a failure, or the reply to a request of a pipeline.
pub fn is_pipeline_reply(reply: &Reply) -> bool
    ensures { IsTrue result ↔ IsPipelineReply reply.now }
{
    match reply {
        Reply::Failed(_) => true,
        _ => match reply.answered_kind() {
            Some(kind) => is_pipeline_kind(kind),
            None => false,
        },
    }
}

/// The kind of request of a pipeline, or of the response to one, that a tree is.
pub fn pipeline_kind_of_json(json: &Json) -> Option<AskKind>
    ensures { MatchOption result ((k : AskKind) → HasKind k (view json.now) → ⊥) (λ k. HasKind k (view json.now)) }
{
    match text_member(json, "type") {
        Some(text) => pipeline_kind_of_name(text),
        None => None,
    }
}
