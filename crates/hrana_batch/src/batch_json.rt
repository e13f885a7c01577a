// Batches from JSON trees and back.
ghost use Rattle.std.specs.Prelude.{◌≡◌, ◌<◌, ◌≤◌, IfOk, map, option_map};
ghost use Rattle.serde_json.specs.Data.{array};
ghost use Rattle.serde_json.specs.View.{view, items_view, items_of};
ghost use Rattle.hrana_value.specs.Declines.{Reads, EitherStands, Only};
ghost use Rattle.hrana_value.specs.Trees.{ItemsTree, ArrayTree, OptionalTree, OptionalStands};
ghost use Rattle.hrana_value.specs.declared.failures.Decline.TheVariants.{Range};
ghost use Rattle.hrana_stmt.specs.Tree.{StmtTree, StmtStands, count_of};
ghost use Rattle.hrana_batch.specs.Tree.{CondTree, CondStands, StepTree, StepStands, StepsStand, StepArrayStands, BatchTree, BatchStands, BatchFits, NoTreeIsTwoBatches, FittingBatchesAreRead};
ghost use Rattle.hrana_batch.specs.Parts.{CondReadsBack};
ghost use Rattle.hrana_batch.specs.Progress.{NamesEarlierSteps};
ghost use Rattle.hrana_batch.specs.Written.{step_object, optional_cond, step_data, batch_data};

use crate::objects::{object_of_one, object_of_two};
use crate::{Batch, Cond, MAX_STEPS, Step, Steps, cond_of_json, cond_to_json};
use hrana_stmt::{stmt_of_json, stmt_to_json};
use hrana_value::{Decline, NoMemory, ReadFail, both_readings, member_or_null, members, with_item};
use serde_json::Value as Json;
use std::alloc::Global;

fn optional_cond_of_json(alloc: Global, step: usize, json: &Json) -> Result<Option<Cond>, ReadFail>
    ensures { Reads (λ c. OptionalTree CondTree c (view json.now)) (OptionalStands (CondStands step) (view json.now)) result }
{
    if json.is_null() {
        return Ok(None);
    }
    match cond_of_json(alloc, step, json) {
        Ok(cond) => Ok(Some(cond)),
        Err(fail) => Err(fail),
    }
}

fn step_of_json(alloc: Global, step: usize, json: &Json) -> Result<Step, ReadFail>
    ensures { Reads (λ s. StepTree s (view json.now)) (StepStands step (view json.now)) result }
{
    members!(json;
        condition = "condition": optional_cond_of_json(alloc, step),
        stmt = "stmt": stmt_of_json(alloc));
    match both_readings(condition, stmt) {
        Ok((condition, stmt)) => Ok(Step { condition, stmt }),
        Err(fail) => Err(fail),
    }
}

fn steps_of_items(alloc: Global, items: &[Json]) -> Result<Steps, ReadFail>
    ensures { Reads (λ steps. ItemsTree StepTree steps (items_view items.now)) (StepsStand 0 (items_view items.now)) result }
{
    let mut steps = Ok(Vec::new(alloc));
    for i in 0..items.len() {
        steps = with_item(steps, step_of_json(alloc, i, &items[i]));
    }
    Ok(Steps::from_vec(steps?))
}

fn steps_of_json(alloc: Global, json: &Json) -> Result<Steps, ReadFail>
    ensures { Reads (λ steps. ArrayTree StepTree steps (view json.now)) (StepArrayStands (view json.now)) result }
{
    match json {
        Json::Array(items) => steps_of_items(alloc, items.as_slice()),
        _ => Err(ReadFail::Declined(Decline::Shape)),
    }
}

fn count(json: &Json) -> usize
    ensures { result ≡ count_of (view json.now) }
{
    match json {
        Json::Array(items) => items.as_slice().len(),
        _ => 0,
    }
}

fn step_limit(steps: &Json) -> Result<(), ReadFail>
    ensures { Reads (λ _. count_of (view steps.now) ≤ MAX_STEPS) (Only Range (MAX_STEPS < count_of (view steps.now))) result }
{
    if count(steps) <= MAX_STEPS {
        Ok(())
    } else {
        Err(ReadFail::Declined(Decline::Range))
    }
}

fn batch_of_parts(alloc: Global, steps: &Json) -> Result<Batch, ReadFail>
    ensures { Reads (λ b. ArrayTree StepTree b.steps (view steps.now)) (EitherStands (StepArrayStands (view steps.now)) (Only Range (MAX_STEPS < count_of (view steps.now)))) result }
{
    let (steps, ()) = both_readings(steps_of_json(alloc, steps), step_limit(steps))?;
    Ok(Batch { steps })
}

/// Reads a batch: `steps`, each with a `stmt` and an optional `condition`. It has at most `MAX_STEPS` steps.
pub fn batch_of_json(alloc: Global, json: &Json) -> Result<Batch, ReadFail>
    ensures reads { Reads (λ b. BatchTree b (view json.now)) (BatchStands (view json.now)) result }
    ensures fits { IfOk result BatchFits }
    ensures earlier { IfOk result NamesEarlierSteps }
{
    batch_of_parts(alloc, member_or_null(json, "steps", &Json::Null))
}

fn step_members(alloc: Global, condition: Option<Json>, stmt: Json) -> Result<Json, NoMemory>
    ensures { IfOk result (λ json. view json ≡ step_object (option_map view condition) (view stmt)) }
{
    match condition {
        Some(condition) => object_of_two(alloc, "condition", condition, "stmt", stmt),
        None => object_of_one(alloc, "stmt", stmt),
    }
}

fn optional_cond_to_json(alloc: Global, condition: &Option<Cond>) -> Result<Option<Json>, NoMemory>
    ensures written { IfOk result (λ part. option_map view part ≡ optional_cond condition.now) }
    ensures reads_back { IfOk result (λ part. CondReadsBack condition.now (option_map view part)) }
{
    match condition {
        Some(condition) => Ok(Some(cond_to_json(alloc, condition)?)),
        None => Ok(None),
    }
}

fn step_to_json(alloc: Global, step: &Step) -> Result<Json, NoMemory>
    ensures written { IfOk result (λ json. view json ≡ step_data step.now) }
    ensures reads_back { IfOk result (λ json. StepTree step.now (view json)) }
{
    let condition = optional_cond_to_json(alloc, &step.condition)?;
    let stmt = stmt_to_json(alloc, &step.stmt)?;
    step_members(alloc, condition, stmt)
}

fn steps_to_json(alloc: Global, steps: &[Step]) -> Result<Json, NoMemory>
    ensures written { IfOk result (λ json. view json ≡ array (items_of (map step_data steps.now))) }
    ensures reads_back { IfOk result (λ json. ArrayTree StepTree steps.now (view json)) }
{
    let mut items = Vec::new(alloc);
    for step in steps {
        items.push(step_to_json(alloc, step)?)?;
    }
    Ok(Json::Array(items))
}

/// Writes a batch with its members in byte order. A condition that is absent is left out.
pub fn batch_to_json(alloc: Global, batch: &Batch) -> Result<Json, NoMemory>
    ensures written { IfOk result (λ json. view json ≡ batch_data batch.now) }
    ensures reads_back { IfOk result (λ json. BatchTree batch.now (view json)) }
{
    let steps = steps_to_json(alloc, batch.steps.as_slice())?;
    object_of_one(alloc, "steps", steps)
}

/// A JSON tree is the form of at most one batch.
pub fn no_tree_is_two_batches()
    ensures { NoTreeIsTwoBatches }
{}

/// Nothing is declined in the form of a batch exactly where the batch breaks no limit and its conditions name earlier
/// steps.
pub fn fitting_batches_are_read()
    ensures { FittingBatchesAreRead }
{}
