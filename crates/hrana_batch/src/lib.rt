//! Batches: their conditions and results as types and as JSON trees, and how a batch is run step by step
//! (HRANA_3_SPEC, "Execute a batch").
#![tactic(auto)]

mod batch_json;
mod batches;
mod condition_json;
mod conditions;
mod holding;
mod limits;
mod objects;
mod outcomes;
mod result_json;
mod running;
mod sending;
mod step_numbers;

pub use batch_json::{
    batch_of_json, batch_to_json, fitting_batches_are_read, no_tree_is_two_batches,
};
pub use batches::{Batch, Step, Steps};
pub use condition_json::{
    CONDITION_KINDS, cond_of_json, cond_to_json, condition_kinds_differ, no_tree_is_two_conditions,
};
pub use conditions::{Cond, Conds};
pub use holding::holds;
pub use limits::{MAX_CONDITION_DEPTH, MAX_STEPS, limits_are};
pub use outcomes::{BatchResult, Outcome, Outcomes};
pub use result_json::{
    batch_result_of_json, batch_result_to_json, batch_results_are_read,
    no_tree_is_two_batch_results,
};
pub use running::{BatchRun, Next, turns_are_meant};
pub use sending::begin_with;
