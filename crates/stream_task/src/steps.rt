// The steps of a batch or a sequence, and how far they have come.
ghost use Rattle.std.specs.Prelude.{◌≡◌, ◌↔◌, IsTrue, ◌<◌, [], length, IfOk, Some};
ghost use Rattle.hrana_batch.specs.Progress.{NamesEarlierSteps};
ghost use Rattle.stream_task.specs.Steps.{Steps, first_of, noted, passed, NextIn, StartsAt};

use hrana_batch::{Batch, BatchResult, BatchRun, Next, Outcome};
use hrana_stmt::Stmt;
use hrana_value::NoMemory;
use std::alloc::Global;
use std::marker::Model;

/// The steps of a batch or a sequence, and how far they have come. Contracts see the steps that are left, and the
/// outcomes of those before them.
#[derive(Drop)]
pub(crate) struct StepRun {
    run: BatchRun,
}

impl Model for StepRun {
    ghost use Rattle.stream_task.specs.Steps.{Steps, steps_in};
    ghost use Rattle.std.specs.Prelude.{◌≤◌, length};
    ghost use Rattle.std.specs.Coded.{codes};
    ghost use Rattle.hrana_batch.specs.contracts.conditions.Cond as conditions;

    ghost Value = { Steps };

    ghost coded = { Prim.hlevel (codes, conditions.the_row.coded) };

    ghost view = { λ s. steps_in s.run };

    ghost invariant = { λ s. length s.run.outcomes ≤ length s.run.batch.steps };
}

impl StepRun {
    pub(crate) fn new(alloc: Global, batch: Batch) -> Result<StepRun, NoMemory>
        requires { NamesEarlierSteps batch }
        ensures { IfOk result (λ steps. steps ≡ record { left = batch.steps; done = [] }) }
    {
        let run = BatchRun::new(alloc, batch)?;
        Ok(StepRun { run })
    }

    /// What is next. `auto` is whether the session is in autocommit.
    pub(crate) fn next(&self, auto: bool) -> Next<'_>
        ensures { NextIn auto self.now.left self.now.done result }
    {
        self.run.next(auto)
    }

    /// The statement of the first of the steps that are left, which isn't skipped.
    pub(crate) fn first(&self, auto: bool) -> &Stmt
        requires left { 0 < length self.now.left }
        requires starts { StartsAt auto self.now.left self.now.done }
        ensures { first_of self.now.left ≡ Some result.now }
    {
        match self.next(auto) {
            Next::Run(stmt) => stmt,
            Next::Skip => unreachable!(),
            Next::Finished => unreachable!(),
        }
    }

    /// Whether no step is left.
    pub(crate) fn is_finished(&self) -> bool
        ensures { IsTrue result ↔ (self.now.left ≡ []) }
    {
        match self.next(true) {
            Next::Finished => true,
            _ => false,
        }
    }

    /// The first of the steps that are left has this outcome.
    pub(crate) fn note(&mut self, outcome: Outcome)
        requires { 0 < length self.old.left }
        ensures { self.new ≡ noted self.old outcome }
    {
        self.run.note(outcome);
    }

    /// The outcomes of steps of which none is left.
    pub(crate) fn into_result(self) -> BatchResult
        requires { self.left ≡ [] }
        ensures { result.outcomes ≡ self.done }
    {
        let StepRun { run } = self;
        run.into_result()
    }

    /// Passes over the first steps whose condition is false.
    pub(crate) fn pass_over(&mut self, auto: bool)
        ensures passed { self.new ≡ passed auto self.old }
        ensures first { StartsAt auto self.new.left self.new.done }
    {
        while let Next::Skip = self.next(auto) {
            self.note(Outcome::Skipped);
        }
    }
}
