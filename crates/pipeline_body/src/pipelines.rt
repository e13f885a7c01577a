// Bodies of pipelines, from bytes and back.
ghost use Rattle.std.specs.Prelude.{◌≡◌, IfOk, IfErr};
ghost use Rattle.serde_json.specs.View.{view};
ghost use Rattle.serde_json.specs.Written.{compact_text};
ghost use Rattle.hrana_value.specs.Declines.{Reads};
ghost use Rattle.pipeline_body.specs.Bodies.{BodyTree, BodyStands, IsBodyTree, IsNoBodyTree, HasBodyForm, BodyFits, IsBody, IsNoBody, NoTreeIsTwoBodies, NoBytesHaveTwoBodyReadings};
ghost use Rattle.pipeline_body.specs.Requests.{FittingAsksAreTaken};
ghost use Rattle.pipeline_body.specs.Written.{body_data};

use crate::{BodyFail, MAX_PIPELINE_ASKS, PipelineBody};
use hrana_value::{
    NoMemory, ReadFail, Txt, both_readings, list_of_json, members, option_of_json, text_of,
};
use serde_json::Value as Json;
use std::alloc::Global;
use stream_requests::{fitting_asks_are_read, json_of_bytes, no_members_are_two_asks};

fn body_of_json(alloc: Global, json: &Json) -> Result<PipelineBody, ReadFail>
    ensures { Reads (λ b. BodyTree b (view json.now)) (BodyStands (view json.now)) result }
{
    members!(json; baton = "baton": option_of_json(alloc), asks = "requests": list_of_json(alloc));
    let (baton, asks) = both_readings(baton, asks)?;
    Ok(PipelineBody { baton, asks })
}

fn limited_body_of_json(alloc: Global, json: &Json) -> Result<PipelineBody, BodyFail>
    ensures ok { IfOk result (λ b. IsBodyTree b (view json.now)) }
    ensures refused { IfErr result (IsNoBodyTree (view json.now)) }
{
    match body_of_json(alloc, json) {
        Ok(body) => {
            if body.asks.as_slice().len() > MAX_PIPELINE_ASKS {
                Err(BodyFail::TooMany)
            } else {
                Ok(body)
            }
        }
        Err(ReadFail::Declined(_)) => Err(BodyFail::Shape),
        Err(ReadFail::NoMemory) => Err(BodyFail::NoMemory),
    }
}

/// The body of a pipeline that these bytes are. A request that is declined stands in its place.
pub fn decode_pipeline(alloc: Global, bytes: &[u8]) -> Result<PipelineBody, BodyFail>
    ensures ok { IfOk result (IsBody bytes.now) }
    ensures refused { IfErr result (IsNoBody bytes.now) }
{
    match json_of_bytes(alloc, bytes) {
        Ok(Some(json)) => limited_body_of_json(alloc, &json),
        Ok(None) => Err(BodyFail::NotJson),
        Err(_) => Err(BodyFail::NoMemory),
    }
}

/// Writes the body of a pipeline, compact and with its members in byte order. A baton that is absent is null. No request
/// is to be declined, and each is to be one over HTTP.
pub fn encode_pipeline(alloc: Global, body: &PipelineBody) -> Result<Txt, NoMemory>
    requires { HasBodyForm body.now }
    ensures written { IfOk result (λ text. text ≡ compact_text (body_data body.now)) }
    ensures reads_back { IfOk result (λ text. BodyFits body.now → IsBody text body.now) }
{
    text_of(alloc, body)
}

/// A tree is the form of at most one body.
pub fn no_tree_is_two_pipeline_bodies()
    ensures { NoTreeIsTwoBodies }
{
    no_members_are_two_asks();
}

/// Nothing is declined in the form of a request exactly where what it asks breaks no limit.
pub fn fitting_asks_are_taken()
    ensures { FittingAsksAreTaken }
{
    fitting_asks_are_read();
}

/// Of any bytes `decode_pipeline` has one answer besides want of memory.
pub fn no_bytes_have_two_body_readings()
    ensures { NoBytesHaveTwoBodyReadings }
{
    no_tree_is_two_pipeline_bodies();
}
