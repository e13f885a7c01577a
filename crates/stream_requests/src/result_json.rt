// Results of pipelines from JSON trees (HRANA_3_SPEC, "Hrana over HTTP").
ghost use Rattle.std.specs.Prelude.{codes};
ghost use Rattle.serde_json.specs.View.{view};
ghost use Rattle.hrana_value.specs.Declines.{Reads};
ghost use Rattle.hrana_value.specs.Members.{HasText};
ghost use Rattle.stream_requests.specs.Results.{ResponseTree, ResponseStands, ResultTree, ResultStands, NoTreeIsTwoPipelineResults, PipelineResultsAreRead};

use crate::{
    Reply, no_members_are_two_replies, pipeline_kind_of_json, replies_are_read, reply_of_json,
};
use hrana_stmt::error_of_json;
use hrana_value::{Decline, JsonForm, ReadFail, member_or_null, text_member};
use serde_json::Value as Json;
use std::alloc::Global;

fn response_of_json(alloc: Global, json: &Json) -> Result<Reply, ReadFail>
    ensures { Reads (λ r. ResponseTree r (view json.now)) (ResponseStands (view json.now)) result }
{
    match pipeline_kind_of_json(json) {
        Some(kind) => reply_of_json(alloc, kind, json),
        None => Err(ReadFail::Declined(Decline::Shape)),
    }
}

fn replied_of_json(alloc: Global, json: &Json) -> Result<Reply, ReadFail>
    requires { HasText (view json.now) (codes "type") (codes "ok") }
    ensures { Reads (λ r. ResultTree r (view json.now)) (ResultStands (view json.now)) result }
{
    response_of_json(alloc, member_or_null(json, "response", &Json::Null))
}

fn failed_of_json(alloc: Global, json: &Json) -> Result<Reply, ReadFail>
    requires { HasText (view json.now) (codes "type") (codes "error") }
    ensures { Reads (λ r. ResultTree r (view json.now)) (ResultStands (view json.now)) result }
{
    match error_of_json(alloc, member_or_null(json, "error", &Json::Null)) {
        Ok(error) => Ok(Reply::Failed(error)),
        Err(fail) => Err(fail),
    }
}

impl JsonForm for Reply {
    ghost tree = { ResultTree };

    ghost stands = { ResultStands };

    fn of_json(alloc: Global, json: &Json) -> Result<Reply, ReadFail> {
        let Some(kind) = text_member(json, "type") else {
            return Err(ReadFail::Declined(Decline::Shape));
        };
        if kind == "ok" {
            return replied_of_json(alloc, json);
        }
        if kind == "error" {
            return failed_of_json(alloc, json);
        }
        Err(ReadFail::Declined(Decline::Shape))
    }
}

/// A JSON tree is the form of at most one result.
pub fn no_tree_is_two_pipeline_results()
    ensures { NoTreeIsTwoPipelineResults }
{
    no_members_are_two_replies();
}

/// Nothing is declined in the form of a result.
pub fn pipeline_results_are_read()
    ensures { PipelineResultsAreRead }
{
    replies_are_read();
}
