// Answers to pipelines, from bytes and back.
ghost use Rattle.std.specs.Prelude.{◌≡◌, Option, List, ℕ, IfOk, IfErr};
ghost use Rattle.serde_json.specs.View.{view};
ghost use Rattle.serde_json.specs.Written.{compact_text};
ghost use Rattle.hrana_value.specs.Declines.{Reads, EitherStands};
ghost use Rattle.hrana_value.specs.Members.{TextTree, TextStands};
ghost use Rattle.hrana_value.specs.Trees.{OptionalTree, OptionalStands};
ghost use Rattle.pipeline_body.specs.Answers.{AnswerTree, AnswerStands, AnswerTexts, AnswerTextsStand, HasAnswerForm, IsNoAnswerTree, IsAnswer, IsNoAnswer, NoTreeIsTwoAnswers, AnswersAreRead, NoBytesHaveTwoAnswerReadings};
ghost use Rattle.pipeline_body.specs.Failures.{answer_failure};
ghost use Rattle.pipeline_body.specs.Written.{answer_data};

use crate::{BodyFail, PipelineAnswer};
use hrana_value::{
    Decline, NoMemory, ReadFail, Txt, both_readings, list_of_json, member_or_null, members,
    option_of_json, text_of,
};
use serde_json::Value as Json;
use std::alloc::Global;
use stream_requests::{json_of_bytes, no_tree_is_two_pipeline_results, pipeline_results_are_read};

fn answer_failure(fail: ReadFail) -> BodyFail
    ensures { result ≡ answer_failure fail }
{
    match fail {
        ReadFail::Declined(Decline::Float) => BodyFail::Declined(Decline::Float),
        ReadFail::Declined(_) => BodyFail::Shape,
        ReadFail::NoMemory => BodyFail::NoMemory,
    }
}

// The baton, where the base URL has its form.
fn baton_of_json(alloc: Global, json: &Json) -> Result<Option<Txt>, ReadFail>
    ensures { Reads (λ o. AnswerTexts o (view json.now)) (AnswerTextsStand (view json.now)) result }
{
    members!(json; baton = "baton": option_of_json(alloc), base_url = "base_url": option_of_json(alloc));
    let (baton, _base_url): (Option<Txt>, Option<Txt>) = both_readings(baton, base_url)?;
    Ok(baton)
}

fn answer_of_json(alloc: Global, json: &Json) -> Result<PipelineAnswer, ReadFail>
    ensures { Reads (λ a. AnswerTree a (view json.now)) (AnswerStands (view json.now)) result }
{
    let results = list_of_json(alloc, member_or_null(json, "results", &Json::Null));
    let (baton, results) = both_readings(baton_of_json(alloc, json), results)?;
    Ok(PipelineAnswer { baton, results })
}

fn told_answer_of_json(alloc: Global, json: &Json) -> Result<PipelineAnswer, BodyFail>
    ensures ok { IfOk result (λ a. AnswerTree a (view json.now)) }
    ensures refused { IfErr result (IsNoAnswerTree (view json.now)) }
{
    match answer_of_json(alloc, json) {
        Ok(answer) => Ok(answer),
        Err(fail) => Err(answer_failure(fail)),
    }
}

/// The answer to a pipeline that these bytes are.
pub fn decode_pipeline_answer(alloc: Global, bytes: &[u8]) -> Result<PipelineAnswer, BodyFail>
    ensures ok { IfOk result (IsAnswer bytes.now) }
    ensures refused { IfErr result (IsNoAnswer bytes.now) }
{
    match json_of_bytes(alloc, bytes) {
        Ok(Some(json)) => told_answer_of_json(alloc, &json),
        Ok(None) => Err(BodyFail::NotJson),
        Err(_) => Err(BodyFail::NoMemory),
    }
}

/// Writes the answer to a pipeline, compact and with its members in byte order. What is absent is null, `base_url` always.
/// Each result is to be a failure, or the reply to a request over HTTP.
pub fn encode_pipeline_answer(alloc: Global, answer: &PipelineAnswer) -> Result<Txt, NoMemory>
    requires { HasAnswerForm answer.now }
    ensures written { IfOk result (λ text. text ≡ compact_text (answer_data answer.now)) }
    ensures reads_back { IfOk result (λ text. IsAnswer text answer.now) }
{
    text_of(alloc, answer)
}

/// A tree is the form of at most one answer.
pub fn no_tree_is_two_pipeline_answers()
    ensures { NoTreeIsTwoAnswers }
{
    no_tree_is_two_pipeline_results();
}

/// Nothing is declined in the form of an answer.
pub fn pipeline_answers_are_read()
    ensures { AnswersAreRead }
{
    pipeline_results_are_read();
}

/// Of any bytes `decode_pipeline_answer` has one answer besides want of memory.
pub fn no_bytes_have_two_answer_readings()
    ensures { NoBytesHaveTwoAnswerReadings }
{
    no_tree_is_two_pipeline_answers();
    pipeline_answers_are_read();
}
