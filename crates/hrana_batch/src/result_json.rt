// Results of batches from JSON trees and back.
ghost use Rattle.std.specs.Prelude.{◌≡◌, length, IfOk};
ghost use Rattle.serde_json.specs.Data.{array};
ghost use Rattle.serde_json.specs.View.{view, items_view};
ghost use Rattle.hrana_value.specs.Declines.{Reads};
ghost use Rattle.hrana_value.specs.Trees.{ArrayTree};
ghost use Rattle.hrana_batch.specs.Tree.{ResultEntryTree, ErrorEntryTree, BatchResultTree, BatchResultStands, NoTreeIsTwoBatchResults, BatchResultsAreRead};
ghost use Rattle.hrana_batch.specs.Parts.{OutcomeTree, EntriesStand, OutcomesTree, OutcomesStand, OutcomePartsTree, OutcomePartsStand};
ghost use Rattle.hrana_batch.specs.Written.{batch_result_data};

use crate::{BatchResult, Outcome, Outcomes};
use hrana_stmt::{error_of_json, result_of_json};
use hrana_value::{Decline, NoMemory, ReadFail, json_of, member_or_null, with_item};
use serde_json::Value as Json;
use std::alloc::Global;

// The outcome of a step from its entries in `step_results` and `step_errors`.
fn outcome_of_entries(alloc: Global, done: &Json, failed: &Json) -> Result<Outcome, ReadFail>
    ensures { Reads (λ o. OutcomeTree o (view done.now) (view failed.now)) (EntriesStand (view done.now) (view failed.now)) result }
{
    if done.is_null() {
        if failed.is_null() {
            return Ok(Outcome::Skipped);
        }
        Ok(Outcome::Failed(error_of_json(alloc, failed)?))
    } else if failed.is_null() {
        Ok(Outcome::Done(result_of_json(alloc, done)?))
    } else {
        Err(ReadFail::Declined(Decline::Shape))
    }
}

fn outcomes_of_items(alloc: Global, results: &[Json], errors: &[Json]) -> Result<Outcomes, ReadFail>
    requires { length results.now ≡ length errors.now }
    ensures { Reads (λ os. OutcomesTree os (items_view results.now) (items_view errors.now)) (OutcomesStand (items_view results.now) (items_view errors.now)) result }
{
    let mut outcomes = Ok(Vec::new(alloc));
    for i in 0..results.len() {
        outcomes = with_item(outcomes, outcome_of_entries(alloc, &results[i], &errors[i]));
    }
    Ok(Outcomes::from_vec(outcomes?))
}

fn outcomes_of_lists(alloc: Global, results: &[Json], errors: &[Json]) -> Result<Outcomes, ReadFail>
    ensures { Reads (λ os. OutcomePartsTree os (array (items_view results.now)) (array (items_view errors.now))) (OutcomePartsStand (array (items_view results.now)) (array (items_view errors.now))) result }
{
    if results.len() == errors.len() {
        outcomes_of_items(alloc, results, errors)
    } else {
        Err(ReadFail::Declined(Decline::Shape))
    }
}

fn outcomes_of_parts(alloc: Global, results: &Json, errors: &Json) -> Result<Outcomes, ReadFail>
    ensures { Reads (λ os. OutcomePartsTree os (view results.now) (view errors.now)) (OutcomePartsStand (view results.now) (view errors.now)) result }
{
    let Some(results) = results.as_array() else {
        return Err(ReadFail::Declined(Decline::Shape));
    };
    let Some(errors) = errors.as_array() else {
        return Err(ReadFail::Declined(Decline::Shape));
    };
    outcomes_of_lists(alloc, results.as_slice(), errors.as_slice())
}

/// Reads the result of a batch: `step_results` and `step_errors`, of one length and with at most one of the two for a
/// step. A step with neither was skipped.
pub fn batch_result_of_json(alloc: Global, json: &Json) -> Result<BatchResult, ReadFail>
    ensures { Reads (λ r. BatchResultTree r (view json.now)) (BatchResultStands (view json.now)) result }
{
    let null = Json::Null;
    let results = member_or_null(json, "step_results", &null);
    match outcomes_of_parts(alloc, results, member_or_null(json, "step_errors", &null)) {
        Ok(outcomes) => Ok(BatchResult { outcomes }),
        Err(fail) => Err(fail),
    }
}

/// Writes the result of a batch with its members in byte order. What a step lacks is null.
pub fn batch_result_to_json(alloc: Global, given: &BatchResult) -> Result<Json, NoMemory>
    ensures written { IfOk result (λ json. view json ≡ batch_result_data given.now) }
    ensures reads_back { IfOk result (λ json. BatchResultTree given.now (view json)) }
{
    json_of(alloc, given)
}

/// A JSON tree is the form of at most one result of a batch.
pub fn no_tree_is_two_batch_results()
    ensures { NoTreeIsTwoBatchResults }
{}

/// Nothing is declined in the form of a result of a batch.
pub fn batch_results_are_read()
    ensures { BatchResultsAreRead }
{}
