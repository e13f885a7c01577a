// Requests that a stream is going to be asked.
ghost use Rattle.std.specs.Prelude.{◌≡◌, ◌++◌, [], IfOk, OnOk, OnErr, option_to_list};
ghost use Rattle.stream_task.specs.Doing.{MayBeAsked, work_of};

use crate::work::{Work, work_of};
use hrana_value::NoMemory;
use std::alloc::Global;
use std::collections::VecDeque;
use std::marker::Model;
use stream_requests::Ask;

/// Requests that a stream is going to be asked, in their order.
#[derive(Drop)]
pub struct Queued {
    alloc: Global,
    works: VecDeque<Work>,
}

impl Model for Queued {
    ghost use Rattle.std.specs.Prelude.{List};
    ghost use Rattle.std.specs.Coded.{codes};
    ghost use Rattle.hrana_batch.specs.contracts.conditions.Cond as conditions;
    ghost use Rattle.stream_task.specs.declared.work.Work.{Work};

    ghost Value = { List Work };

    ghost coded = { Prim.hlevel (codes, conditions.the_row.coded) };

    ghost view = { λ q. q.works.items };
}

impl Queued {
    /// No request yet.
    pub fn new(alloc: Global) -> Queued
        ensures { result ≡ [] }
    {
        Queued {
            alloc,
            works: VecDeque::new(alloc),
        }
    }

    /// One thing more.
    pub fn add(&mut self, ask: Ask) -> Result<(), NoMemory>
        requires { MayBeAsked ask }
        ensures ok { OnOk result (self.new ≡ self.old ++ option_to_list (work_of ask)) }
        ensures err { OnErr result (self.new ≡ self.old) }
    {
        let work = work_of(self.alloc, ask)?;
        self.works.push_back(work)?;
        Ok(())
    }

    /// The requests.
    pub(crate) fn into_works(self) -> VecDeque<Work>
        ensures { result.items ≡ self }
    {
        let Queued { works, .. } = self;
        works
    }
}
