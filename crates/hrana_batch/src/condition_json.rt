// Conditions from JSON trees and back.
ghost use Rattle.std.specs.Prelude.{◌≡◌, ◌≤◌, ◌<◌, ◌^◌, ◌⊎◌, ℕ, IfOk, IfErr, IsTrue, ◌↔◌, codes, map, Ok, Err};
ghost use Rattle.serde_json.specs.Data.{object, put as put_member};
ghost use Rattle.serde_json.specs.View.{view, items_view};
ghost use Rattle.hrana_value.specs.Declines.{Reads};
ghost use Rattle.hrana_value.specs.Members.{part_at};
ghost use Rattle.hrana_value.specs.Names.{RowsDiffer};
ghost use Rattle.hrana_value.specs.Trees.{ItemsTree, ItemsStand, ArrayTree, ArrayStands};
ghost use Rattle.hrana_batch.specs.Conditions.{depth_of, greatest};
ghost use Rattle.hrana_batch.specs.Tree.{HasKind, CondTree, StandsWithin, CondStands, NoTreeIsTwoConditions};
ghost use Rattle.hrana_batch.specs.Written.{cond_data, type_member, step_cond};

use crate::objects::{object_of_one, object_of_two};
use crate::step_numbers::step_number_of_json;
use crate::{Cond, Conds, MAX_CONDITION_DEPTH};
use hrana_value::{Decline, NoMemory, ReadFail, index_of, member_or_null, text_member, with_item};
use serde_json::{Value as Json, json};
use sqlite_items::{Boxed, Items};
use std::alloc::Global;

/// The `type` of each kind of condition.
pub const CONDITION_KINDS: [&str; 6] = ["ok", "error", "not", "and", "or", "is_autocommit"];

const OK: usize = 0;

const ERROR: usize = 1;

const NOT: usize = 2;

const AND: usize = 3;

const OR: usize = 4;

const IS_AUTOCOMMIT: usize = 5;

// ---- reading

fn step_ok_of_json(step: usize, json: &Json) -> Result<Cond, ReadFail>
    requires { HasKind (view json.now) (codes "ok") }
    ensures { Reads (λ c. CondTree c (view json.now)) (StandsWithin step (view json.now)) result }
{
    match step_number_of_json(step, member_or_null(json, "step", &Json::Null)) {
        Ok(number) => Ok(Cond::StepOk(number)),
        Err(fail) => Err(fail),
    }
}

fn step_error_of_json(step: usize, json: &Json) -> Result<Cond, ReadFail>
    requires { HasKind (view json.now) (codes "error") }
    ensures { Reads (λ c. CondTree c (view json.now)) (StandsWithin step (view json.now)) result }
{
    match step_number_of_json(step, member_or_null(json, "step", &Json::Null)) {
        Ok(number) => Ok(Cond::StepError(number)),
        Err(fail) => Err(fail),
    }
}

// The negation of a part that was read.
fn negated(
    alloc: Global,
    step: usize,
    json: &Json,
    part: Result<Cond, ReadFail>,
) -> Result<Cond, ReadFail>
    requires kind { HasKind (view json.now) (codes "not") }
    requires part { Reads (λ c. CondTree c (part_at (codes "cond") (view json.now))) (StandsWithin step (part_at (codes "cond") (view json.now))) part }
    ensures { Reads (λ c. CondTree c (view json.now)) (StandsWithin step (view json.now)) result }
{
    match part {
        Ok(part) => match Boxed::new(alloc, part) {
            Ok(part) => Ok(Cond::Not(part)),
            Err(_) => Err(ReadFail::NoMemory),
        },
        Err(fail) => Err(fail),
    }
}

// The conjunction of parts that were read.
fn all_of(step: usize, json: &Json, parts: Result<Conds, ReadFail>) -> Result<Cond, ReadFail>
    requires kind { HasKind (view json.now) (codes "and") }
    requires parts { Reads (λ cs. ArrayTree CondTree cs (part_at (codes "conds") (view json.now))) (ArrayStands (StandsWithin step) (part_at (codes "conds") (view json.now))) parts }
    ensures { Reads (λ c. CondTree c (view json.now)) (StandsWithin step (view json.now)) result }
{
    match parts {
        Ok(parts) => Ok(Cond::All(parts)),
        Err(fail) => Err(fail),
    }
}

// The disjunction of parts that were read.
fn any_of(step: usize, json: &Json, parts: Result<Conds, ReadFail>) -> Result<Cond, ReadFail>
    requires kind { HasKind (view json.now) (codes "or") }
    requires parts { Reads (λ cs. ArrayTree CondTree cs (part_at (codes "conds") (view json.now))) (ArrayStands (StandsWithin step) (part_at (codes "conds") (view json.now))) parts }
    ensures { Reads (λ c. CondTree c (view json.now)) (StandsWithin step (view json.now)) result }
{
    match parts {
        Ok(parts) => Ok(Cond::Any(parts)),
        Err(fail) => Err(fail),
    }
}

// A condition of this step, however deep.
#[cycle(conditions)]
fn cond_of_tree(alloc: Global, step: usize, json: &Json) -> Result<Cond, ReadFail>
    ensures { Reads (λ c. CondTree c (view json.now)) (StandsWithin step (view json.now)) result }
{
    let Some(kind) = text_member(json, "type") else {
        return Err(ReadFail::Declined(Decline::Shape));
    };
    match index_of(&CONDITION_KINDS, kind) {
        Some(OK) => step_ok_of_json(step, json),
        Some(ERROR) => step_error_of_json(step, json),
        Some(NOT) => {
            let part = cond_of_tree(alloc, step, member_or_null(json, "cond", &Json::Null));
            negated(alloc, step, json, part)
        }
        Some(AND) => {
            let parts = conds_of_tree(alloc, step, member_or_null(json, "conds", &Json::Null));
            all_of(step, json, parts)
        }
        Some(OR) => {
            let parts = conds_of_tree(alloc, step, member_or_null(json, "conds", &Json::Null));
            any_of(step, json, parts)
        }
        Some(IS_AUTOCOMMIT) => Ok(Cond::Autocommit),
        _ => Err(ReadFail::Declined(Decline::Shape)),
    }
}

#[cycle(conditions)]
fn conds_of_tree(alloc: Global, step: usize, json: &Json) -> Result<Conds, ReadFail>
    ensures { Reads (λ cs. ArrayTree CondTree cs (view json.now)) (ArrayStands (StandsWithin step) (view json.now)) result }
{
    match json {
        Json::Array(items) => conds_of_items(alloc, step, items.as_slice()),
        _ => Err(ReadFail::Declined(Decline::Shape)),
    }
}

#[cycle(conditions)]
fn conds_of_items(alloc: Global, step: usize, items: &[Json]) -> Result<Conds, ReadFail>
    ensures { Reads (λ cs. ItemsTree CondTree cs (items_view items.now)) (ItemsStand (StandsWithin step) (items_view items.now)) result }
{
    let mut conds = Ok(Vec::new(alloc));
    for item in items {
        conds = with_item(conds, cond_of_tree(alloc, step, item));
    }
    Ok(Items::from_vec(conds?))
}

#[cycle(depth)]
fn is_within(cond: &Cond, limit: u32) -> bool
    ensures { IsTrue result ↔ (depth_of cond.now ≤ limit) }
{
    match cond {
        Cond::StepOk(_) => limit >= 1,
        Cond::StepError(_) => limit >= 1,
        Cond::Not(part) => limit >= 1 && is_within(part.get(), limit - 1),
        Cond::All(parts) => limit >= 1 && are_within(parts.as_slice(), limit - 1),
        Cond::Any(parts) => limit >= 1 && are_within(parts.as_slice(), limit - 1),
        Cond::Autocommit => limit >= 1,
    }
}

#[cycle(depth)]
fn are_within(conds: &[Cond], limit: u32) -> bool
    ensures { IsTrue result ↔ (greatest (map depth_of conds.now) ≤ limit) }
{
    for cond in conds {
        if !is_within(cond, limit) {
            return false;
        }
    }
    true
}

/// Reads a condition of the step of this number. The steps that it names are to be earlier ones, and it is at most
/// `MAX_CONDITION_DEPTH` deep.
pub fn cond_of_json(alloc: Global, step: usize, json: &Json) -> Result<Cond, ReadFail>
    ensures { Reads (λ c. CondTree c (view json.now)) (CondStands step (view json.now)) result }
{
    match cond_of_tree(alloc, step, json) {
        Ok(cond) => {
            if is_within(&cond, MAX_CONDITION_DEPTH) {
                Ok(cond)
            } else {
                Err(ReadFail::Declined(Decline::Range))
            }
        }
        Err(fail) => Err(fail),
    }
}

// ---- writing

// An object of this `type` and one more member.
fn object_of_kind(alloc: Global, kind: &str, name: &str, part: Json) -> Result<Json, NoMemory>
    ensures { IfOk result (λ json. view json ≡ object (put_member name.now (view part) (type_member kind.now))) }
{
    object_of_two(alloc, name, part, "type", json!(in alloc; kind)?)
}

fn step_to_json(alloc: Global, kind: &str, step: u32) -> Result<Json, NoMemory>
    ensures written { IfOk result (λ json. view json ≡ step_cond kind.now step) }
    ensures fits { step < 2 ^ 32 }
{
    object_of_kind(alloc, kind, "step", Json::from(step))
}

fn kind_to_json(alloc: Global, kind: &str) -> Result<Json, NoMemory>
    ensures { IfOk result (λ json. view json ≡ object (type_member kind.now)) }
{
    object_of_one(alloc, "type", json!(in alloc; kind)?)
}

/// Writes a condition with its members in byte order.
#[cycle(writing)]
pub fn cond_to_json(alloc: Global, cond: &Cond) -> Result<Json, NoMemory>
    ensures written { IfOk result (λ json. view json ≡ cond_data cond.now) }
    ensures reads_back { IfOk result (λ json. CondTree cond.now (view json)) }
{
    match cond {
        Cond::StepOk(step) => step_to_json(alloc, "ok", *step),
        Cond::StepError(step) => step_to_json(alloc, "error", *step),
        Cond::Not(part) => {
            let part = cond_to_json(alloc, part.get())?;
            object_of_kind(alloc, "not", "cond", part)
        }
        Cond::All(parts) => {
            let parts = conds_to_json(alloc, parts.as_slice())?;
            object_of_kind(alloc, "and", "conds", Json::Array(parts))
        }
        Cond::Any(parts) => {
            let parts = conds_to_json(alloc, parts.as_slice())?;
            object_of_kind(alloc, "or", "conds", Json::Array(parts))
        }
        Cond::Autocommit => kind_to_json(alloc, "is_autocommit"),
    }
}

#[cycle(writing)]
fn conds_to_json(alloc: Global, conds: &[Cond]) -> Result<Vec<Json>, NoMemory>
    ensures written { IfOk result (λ items. map view items.items ≡ map cond_data conds.now) }
    ensures reads_back { IfOk result (λ items. ItemsTree CondTree conds.now (items_view items.items)) }
{
    let mut items = Vec::new(alloc);
    for cond in conds {
        items.push(cond_to_json(alloc, cond)?)?;
    }
    Ok(items)
}

/// No two kinds of condition have one `type`.
pub fn condition_kinds_differ()
    ensures { RowsDiffer (map (λ row. row.now) CONDITION_KINDS) }
{}

/// A JSON tree is the form of at most one condition.
pub fn no_tree_is_two_conditions()
    ensures { NoTreeIsTwoConditions }
{}
