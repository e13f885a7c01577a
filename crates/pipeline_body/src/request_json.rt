// Requests from JSON trees.
ghost use Rattle.serde_json.specs.View.{view};
ghost use Rattle.hrana_value.specs.Declines.{Reads};
ghost use Rattle.pipeline_body.specs.Requests.{RequestTree, RequestStands};

use crate::PipeAsk;
use hrana_value::{Decline, JsonForm, ReadFail, text_member};
use serde_json::Value as Json;
use std::alloc::Global;
use stream_requests::{Ask, ask_of_json, pipeline_kind_of_name};

/// Reads a request by its `type`. Of a `describe` nothing else is read.
fn request_of_json(alloc: Global, json: &Json) -> Result<Ask, ReadFail>
    ensures { Reads (λ a. RequestTree a (view json.now)) (RequestStands (view json.now)) result }
{
    let Some(text) = text_member(json, "type") else {
        return Err(ReadFail::Declined(Decline::Shape));
    };
    if text == "describe" {
        return Err(ReadFail::Declined(Decline::Describe));
    }
    match pipeline_kind_of_name(text) {
        Some(kind) => ask_of_json(alloc, kind, json),
        None => Err(ReadFail::Declined(Decline::Unknown)),
    }
}

impl JsonForm for PipeAsk {
    ghost use Rattle.stream_requests.specs.Asks.{NothingStands};
    ghost use Rattle.pipeline_body.specs.Requests.{PipeAskTree};

    ghost tree = { PipeAskTree };

    ghost stands = { λ _. NothingStands };

    fn of_json(alloc: Global, json: &Json) -> Result<PipeAsk, ReadFail> {
        match request_of_json(alloc, json) {
            Ok(ask) => Ok(PipeAsk::Ask(ask)),
            Err(ReadFail::Declined(decline)) => Ok(PipeAsk::Declined(decline)),
            Err(ReadFail::NoMemory) => Err(ReadFail::NoMemory),
        }
    }
}
