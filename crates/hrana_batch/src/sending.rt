// Conditions, batches and their results as JSON text.
ghost use Rattle.std.specs.Prelude.{OnOk, ◌<◌, ◌^◌, Some, codes, map};
ghost use Rattle.serde_json.specs.Data.{array, member, no_members};
ghost use Rattle.serde_json.specs.Events.{SendsValue, SendsMembers};
ghost use Rattle.serde_json.specs.View.{items_of};
ghost use Rattle.hrana_value.specs.Trees.{ItemsTree};
ghost use Rattle.hrana_value.specs.Whole.{IsWhole};
ghost use Rattle.hrana_stmt.specs.Tree.{StmtTree};
ghost use Rattle.hrana_stmt.specs.Written.{stmt_data};
ghost use Rattle.hrana_batch.specs.Parts.{OutcomesTree};
ghost use Rattle.hrana_batch.specs.Sent.{Begins, entry_of, EntryTree};
ghost use Rattle.hrana_batch.specs.Tree.{CondTree, StepTree, BatchTree, BatchResultTree};
ghost use Rattle.hrana_batch.specs.Written.{cond_data, step_cond, not_cond, list_cond, step_object, step_data, batch_data, result_entry, error_entry, batch_result_object, batch_result_data};

use crate::{Batch, BatchResult, Cond, Outcome, Step};
use hrana_stmt::Stmt;
use hrana_value::{JsonText, end_with_text, send_text_member, send_uint64};
use serde::Serializer;
use std::alloc::Global;

/// Begins an object of so many members, up to the value of its first.
pub fn begin_with<S: Serializer>(count: usize, name: &str, out: &mut S) -> Result<(), S::Error>
    ensures { OnOk result (Begins count name.now (S.written out.old) (S.written out.new)) }
{
    out.begin_map(Some(count))?;
    out.key(name)
}

// ---- conditions

fn send_step<S: Serializer>(kind: &str, step: u32, out: &mut S) -> Result<(), S::Error>
    ensures sends { OnOk result (SendsValue (step_cond kind.now step) (S.written out.old) (S.written out.new)) }
    ensures whole { OnOk result (IsWhole (step_cond kind.now step)) }
    ensures fits { step < 2 ^ 32 }
{
    begin_with(2, "step", out)?;
    send_uint64(u64::from(step), out)?;
    end_with_text("type", kind, out)
}

/// Sends a condition with its members in byte order.
#[cycle(sending)]
pub fn send_cond<S: Serializer>(cond: &Cond, out: &mut S) -> Result<(), S::Error>
    ensures sends { OnOk result (SendsValue (cond_data cond.now) (S.written out.old) (S.written out.new)) }
    ensures whole { OnOk result (IsWhole (cond_data cond.now)) }
    ensures back { OnOk result (CondTree cond.now (cond_data cond.now)) }
{
    match cond {
        Cond::StepOk(step) => send_step("ok", *step, out),
        Cond::StepError(step) => send_step("error", *step, out),
        Cond::Not(part) => send_not(part.get(), out),
        Cond::All(parts) => send_joined("and", parts.as_slice(), out),
        Cond::Any(parts) => send_joined("or", parts.as_slice(), out),
        Cond::Autocommit => send_text_member("type", "is_autocommit", out),
    }
}

#[cycle(sending)]
fn send_not<S: Serializer>(part: &Cond, out: &mut S) -> Result<(), S::Error>
    ensures sends { OnOk result (SendsValue (not_cond (cond_data part.now)) (S.written out.old) (S.written out.new)) }
    ensures whole { OnOk result (IsWhole (not_cond (cond_data part.now))) }
    ensures back { OnOk result (CondTree part.now (cond_data part.now)) }
{
    begin_with(2, "cond", out)?;
    send_cond(part, out)?;
    end_with_text("type", "not", out)
}

#[cycle(sending)]
fn send_joined<S: Serializer>(kind: &str, parts: &[Cond], out: &mut S) -> Result<(), S::Error>
    ensures sends { OnOk result (SendsValue (list_cond kind.now (map cond_data parts.now)) (S.written out.old) (S.written out.new)) }
    ensures whole { OnOk result (IsWhole (list_cond kind.now (map cond_data parts.now))) }
    ensures back { OnOk result (ItemsTree CondTree parts.now (items_of (map cond_data parts.now))) }
{
    begin_with(2, "conds", out)?;
    send_conds(parts, out)?;
    end_with_text("type", kind, out)
}

#[cycle(sending)]
fn send_conds<S: Serializer>(conds: &[Cond], out: &mut S) -> Result<(), S::Error>
    ensures sends { OnOk result (SendsValue (array (items_of (map cond_data conds.now))) (S.written out.old) (S.written out.new)) }
    ensures whole { OnOk result (IsWhole (array (items_of (map cond_data conds.now)))) }
    ensures back { OnOk result (ItemsTree CondTree conds.now (items_of (map cond_data conds.now))) }
{
    out.begin_seq(Some(conds.len()))?;
    for cond in conds {
        send_cond(cond, out)?;
    }
    out.end_seq()
}

impl JsonText for Cond {
    ghost form = { cond_data };

    ghost tree = { CondTree };

    fn send<S: Serializer>(&self, _alloc: Global, out: &mut S) -> Result<(), S::Error> {
        send_cond(self, out)
    }
}

// ---- batches

fn end_with_stmt<S: Serializer>(alloc: Global, stmt: &Stmt, out: &mut S) -> Result<(), S::Error>
    ensures sends { OnOk result (SendsMembers (member (codes "stmt") (stmt_data stmt.now) no_members) (S.written out.old) (S.written out.new)) }
    ensures whole { OnOk result (IsWhole (stmt_data stmt.now)) }
    ensures back { OnOk result (StmtTree stmt.now (stmt_data stmt.now)) }
{
    out.key("stmt")?;
    stmt.send(alloc, out)?;
    out.end_map()
}

fn send_conditional<S: Serializer>(
    alloc: Global,
    condition: &Cond,
    stmt: &Stmt,
    out: &mut S,
) -> Result<(), S::Error>
    ensures sends { OnOk result (SendsValue (step_object (Some (cond_data condition.now)) (stmt_data stmt.now)) (S.written out.old) (S.written out.new)) }
    ensures whole { OnOk result (IsWhole (step_object (Some (cond_data condition.now)) (stmt_data stmt.now))) }
    ensures condition { OnOk result (CondTree condition.now (cond_data condition.now)) }
    ensures stmt { OnOk result (StmtTree stmt.now (stmt_data stmt.now)) }
{
    begin_with(2, "condition", out)?;
    send_cond(condition, out)?;
    end_with_stmt(alloc, stmt, out)
}

impl JsonText for Step {
    ghost form = { step_data };

    ghost tree = { StepTree };

    fn send<S: Serializer>(&self, alloc: Global, out: &mut S) -> Result<(), S::Error> {
        match &self.condition {
            Some(condition) => send_conditional(alloc, condition, &self.stmt, out),
            None => {
                out.begin_map(Some(1))?;
                end_with_stmt(alloc, &self.stmt, out)
            }
        }
    }
}

impl JsonText for Batch {
    ghost form = { batch_data };

    ghost tree = { BatchTree };

    fn send<S: Serializer>(&self, alloc: Global, out: &mut S) -> Result<(), S::Error> {
        begin_with(1, "steps", out)?;
        self.steps.send(alloc, out)?;
        out.end_map()
    }
}

// ---- results of batches

/// The two lists of a result.
#[derive(Clone, Copy)]
enum Side {
    Results,
    Errors,
}

/// Sends what an outcome is in one of the lists.
fn send_entry<S: Serializer>(
    alloc: Global,
    side: Side,
    outcome: &Outcome,
    out: &mut S,
) -> Result<(), S::Error>
    ensures sends { OnOk result (SendsValue (entry_of side outcome.now) (S.written out.old) (S.written out.new)) }
    ensures whole { OnOk result (IsWhole (entry_of side outcome.now)) }
    ensures back { OnOk result (EntryTree side outcome.now (entry_of side outcome.now)) }
{
    match (side, outcome) {
        (Side::Results, Outcome::Done(given)) => given.send(alloc, out),
        (Side::Results, _) => out.unit(),
        (Side::Errors, Outcome::Failed(error)) => error.send(alloc, out),
        (Side::Errors, _) => out.unit(),
    }
}

fn send_entries<S: Serializer>(
    alloc: Global,
    side: Side,
    outcomes: &[Outcome],
    out: &mut S,
) -> Result<(), S::Error>
    ensures sends { OnOk result (SendsValue (array (items_of (map (entry_of side) outcomes.now))) (S.written out.old) (S.written out.new)) }
    ensures whole { OnOk result (IsWhole (array (items_of (map (entry_of side) outcomes.now)))) }
    ensures back { OnOk result (ItemsTree (EntryTree side) outcomes.now (items_of (map (entry_of side) outcomes.now))) }
{
    out.begin_seq(Some(outcomes.len()))?;
    for outcome in outcomes {
        send_entry(alloc, side, outcome, out)?;
    }
    out.end_seq()
}

fn send_outcomes<S: Serializer>(
    alloc: Global,
    outcomes: &[Outcome],
    out: &mut S,
) -> Result<(), S::Error>
    ensures sends { OnOk result (SendsValue (batch_result_object (array (items_of (map error_entry outcomes.now))) (array (items_of (map result_entry outcomes.now)))) (S.written out.old) (S.written out.new)) }
    ensures whole { OnOk result (IsWhole (batch_result_object (array (items_of (map error_entry outcomes.now))) (array (items_of (map result_entry outcomes.now))))) }
    ensures back { OnOk result (OutcomesTree outcomes.now (items_of (map result_entry outcomes.now)) (items_of (map error_entry outcomes.now))) }
{
    begin_with(2, "step_errors", out)?;
    send_entries(alloc, Side::Errors, outcomes, out)?;
    out.key("step_results")?;
    send_entries(alloc, Side::Results, outcomes, out)?;
    out.end_map()
}

impl JsonText for BatchResult {
    ghost form = { batch_result_data };

    ghost tree = { BatchResultTree };

    fn send<S: Serializer>(&self, alloc: Global, out: &mut S) -> Result<(), S::Error> {
        send_outcomes(alloc, self.outcomes.as_slice(), out)
    }
}
