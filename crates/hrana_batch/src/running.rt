// A batch that is run step by step.
ghost use Rattle.std.specs.Prelude.{◌≡◌, ◌<◌, [], ◌∷◌, ◌++◌, length, IfOk, IfSome, OnSome};
ghost use Rattle.hrana_batch.specs.Conditions.{NamesBelow};
ghost use Rattle.hrana_batch.specs.Progress.{NamesEarlierSteps};
ghost use Rattle.hrana_batch.specs.Means.{NextOf, NextIs, TurnsAreMeant};

use crate::{Batch, BatchResult, Outcome, Outcomes, Step, holds};
use hrana_stmt::Stmt;
use hrana_value::NoMemory;
use std::alloc::Global;
use std::marker::Model;

/// What is to be done next in a batch.
#[derive(Debug, Drop)]
pub enum Next<'a> {
    Run(&'a Stmt),
    /// The step whose turn it is has a condition that doesn't hold.
    Skip,
    Finished,
}

/// A batch that is run step by step: it is asked what is next, and told what became of that. Contracts see the batch
/// and the outcomes so far.
#[derive(Drop)]
pub struct BatchRun {
    batch: Batch,
    outcomes: Vec<Outcome>,
}

impl Model for BatchRun {
    ghost use Rattle.std.specs.Prelude.{◌≤◌, length, vec_capacity};
    ghost use Rattle.hrana_batch.specs.Progress.{Progress, NamesEarlierSteps};
    ghost use Rattle.std.specs.Coded.{codes};
    ghost use Rattle.hrana_batch.specs.contracts.conditions.Cond as conditions;

    ghost Value = { Progress };

    ghost coded = { Prim.hlevel (codes, conditions.the_row.coded) };

    ghost view = { λ r. record { batch = r.batch; outcomes = r.outcomes.items } };

    ghost invariant = { λ r. NamesEarlierSteps r.batch × (length r.outcomes.items ≤ length r.batch.steps) × (length r.batch.steps ≤ vec_capacity r.outcomes) };
}

fn next_of<'a>(step: &'a Step, outcomes: &[Outcome], auto: bool) -> Next<'a>
    requires { IfSome step.now.condition (NamesBelow (length outcomes.now)) }
    ensures { NextOf step.now outcomes.now auto result }
{
    match &step.condition {
        None => Next::Run(&step.stmt),
        Some(condition) => {
            if holds(condition, outcomes, auto) {
                Next::Run(&step.stmt)
            } else {
                Next::Skip
            }
        }
    }
}

impl BatchRun {
    /// A run of this batch, with room for all outcomes.
    pub fn new(alloc: Global, batch: Batch) -> Result<BatchRun, NoMemory>
        requires { NamesEarlierSteps batch }
        ensures batch { IfOk result (λ run. run.batch ≡ batch) }
        ensures outcomes { IfOk result (λ run. run.outcomes ≡ []) }
    {
        let outcomes = Vec::with_capacity(alloc, batch.steps.as_slice().len())?;
        Ok(BatchRun { batch, outcomes })
    }

    /// What is to be done next. `auto` is whether the session is in autocommit. Takes no memory.
    pub fn next(&self, auto: bool) -> Next<'_>
        ensures { NextIs self.now auto result }
    {
        match self.batch.steps.as_slice().get(self.outcomes.len()) {
            Some(step) => next_of(step, self.outcomes.as_slice(), auto),
            None => Next::Finished,
        }
    }

    /// Takes down what became of the step whose turn it was. Takes no memory.
    pub fn note(&mut self, outcome: Outcome)
        requires { length self.old.outcomes < length self.old.batch.steps }
        ensures batch { self.new.batch ≡ self.old.batch }
        ensures outcomes { self.new.outcomes ≡ self.old.outcomes ++ outcome ∷ [] }
    {
        self.outcomes.push_reserved(outcome);
    }

    /// The outcomes of a run that is finished. Takes no memory.
    pub fn into_result(self) -> BatchResult
        requires { length self.outcomes ≡ length self.batch.steps }
        ensures { result.outcomes ≡ self.outcomes }
    {
        let BatchRun { batch: _, outcomes } = self;
        BatchResult {
            outcomes: Outcomes::from_vec(outcomes),
        }
    }
}

/// The outcomes of a run are those that the batch means.
pub fn turns_are_meant()
    ensures { TurnsAreMeant }
{}
