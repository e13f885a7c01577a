// A front in memory.
ghost use Rattle.std.specs.Prelude.{◌≡◌, Some, IfOk, []};

use crate::copies::copy_outs;
use crate::waiting::Waiting;
use crate::{Accepted, Front, FrontCall, FrontFail, FrontItems, NoMemory, Put, Took};
use hrana_value::{Duplicate, List, Txt};
use http_wire::Outs;
use std::alloc::Global;
use std::marker::Model;

/// A front in memory, which gives a list of items in their order, with a list of the calls that fail, counted from 1. An
/// item that a failing call would have given is taken off. A call that has no memory isn't counted.
#[derive(Drop)]
pub struct MemoryFront {
    alloc: Global,
    items: Waiting,
    fail_at: Vec<u64>,
    calls: List<FrontCall>,
    outs: Vec<Outs>,
    given: u32,
    faults: u64,
}

impl Model for MemoryFront {
    ghost use Rattle.hrana_front.specs.Memory.{Memory};

    ghost Value = { Memory };

    ghost view = { λ f. record { items = f.items; fail_at = f.fail_at.items; calls = f.calls; outs = f.outs.items; given = f.given; faults = f.faults } };
}

impl MemoryFront {
    ghost use Rattle.hrana_front.specs.Items.{AreGivable};
    ghost use Rattle.hrana_front.specs.Memory.{memory_at_first, fails_next};

    pub fn new(alloc: Global, items: FrontItems, fail_at: &[u64]) -> Result<MemoryFront, NoMemory>
        requires givable { AreGivable items }
        ensures told { IfOk result (λ f. ⟦<MemoryFront as Front>⟧.told f ≡ Some []) }
        ensures given { IfOk result (λ f. ⟦<MemoryFront as Front>⟧.given f ≡ 0) }
        ensures puts { IfOk result (λ f. ⟦<MemoryFront as Front>⟧.puts f ≡ Some []) }
        ensures at_first { IfOk result (λ f. f ≡ memory_at_first items fail_at.now) }
    {
        Ok(MemoryFront {
            alloc,
            items: Waiting::new(items),
            fail_at: fail_at.to_vec(alloc)?,
            calls: List::new(alloc),
            outs: Vec::new(alloc),
            given: 0,
            faults: 0,
        })
    }

    /// The outs that were put.
    pub fn outs(&self) -> &[Outs]
        ensures { ⟦<MemoryFront as Front>⟧.puts self.now ≡ Some result.now }
    {
        &self.outs
    }

    /// Whether the next call is one that fails.
    fn fails(&self) -> bool
        ensures { result ≡ fails_next self.now }
    {
        let number = self.calls.as_slice().len() as u64 + 1;
        self.fail_at.iter().any(|listed| *listed == number)
    }
}

impl Front for MemoryFront {
    ghost use Rattle.std.specs.Prelude.{◌≢◌, ◌↔◌, ◌≤◌};
    ghost use Rattle.engine_core.specs.Causes.{Rose};
    ghost use Rattle.http_wire.specs.declared.asks.WireFail.TheVariants as wire;
    ghost use Rattle.hrana_front.specs.Front.{listen_call, accept_call, take_call, put_call, with_call, given_after, IsNext, with_put};
    ghost use Rattle.hrana_front.specs.Memory.{ListensOr, AcceptsOr, NoneForAccept, TakesOr, NoneForTake, PutsOr};

    ghost told = { λ f. Some f.calls };

    ghost given = { λ f. f.given };

    ghost puts = { λ f. Some f.outs };

    ghost faults = { λ f. f.faults };

    fn listen(&mut self, addr: &str) -> Result<(), FrontFail>
        ensures told { Some self.new.calls ≡ with_call (Some self.old.calls) (listen_call addr.now result) }
        ensures given { self.new.given ≡ self.old.given }
        ensures puts { Some self.new.outs ≡ Some self.old.outs }
        ensures failed { result ≡ Err FrontFail.Failed → Rose self.old.faults self.new.faults }
        ensures later { self.old.faults ≤ self.new.faults }
        ensures exact { ListensOr self.old self.new addr.now result }
    {
        let text = Txt::new(self.alloc, addr)?;
        let answer = if self.fails() {
            Err(FrontFail::Failed)
        } else {
            Ok(())
        };
        self.calls.push(FrontCall::Listen(text, answer))?;
        if answer.is_err() {
            self.faults = self.faults.saturating_add(1);
        }
        answer
    }

    fn accept(&mut self) -> Result<Accepted, FrontFail>
        ensures told { Some self.new.calls ≡ with_call (Some self.old.calls) (accept_call result) }
        ensures next { IfOk result (IsNext self.old.given) }
        ensures given { self.new.given ≡ given_after self.old.given result }
        ensures puts { Some self.new.outs ≡ Some self.old.outs }
        ensures failed { result ≡ Err FrontFail.Failed → Rose self.old.faults self.new.faults }
        ensures later { self.old.faults ≤ self.new.faults }
        ensures exact { AcceptsOr self.old self.new result }
        ensures not_yet { IfOk result (λ answer. (answer ≡ Accepted.NotYet) ↔ NoneForAccept self.old) }
    {
        let answer = if self.fails() {
            Err(FrontFail::Failed)
        } else {
            self.items.next_accepted(self.given)
        };
        self.calls.push(FrontCall::Accept(answer))?;
        self.items.drop_accepted();
        match answer {
            Ok(Accepted::New(conn)) => {
                self.given = conn;
            }
            Ok(_) => {}
            Err(_) => {
                self.faults = self.faults.saturating_add(1);
            }
        }
        answer
    }

    fn take(&mut self, conn: u32) -> Result<Took, NoMemory>
        ensures told { Some self.new.calls ≡ with_call (Some self.old.calls) (take_call conn result) }
        ensures given { self.new.given ≡ self.old.given }
        ensures puts { Some self.new.outs ≡ Some self.old.outs }
        ensures refused { result ≢ Ok (Took.Refused wire.NoMemory) }
        ensures gone { result ≡ Ok Took.Gone → Rose self.old.faults self.new.faults }
        ensures later { self.old.faults ≤ self.new.faults }
        ensures exact { TakesOr self.old self.new conn result }
        ensures not_yet { IfOk result (λ answer. (answer ≡ Took.NotYet) ↔ NoneForTake self.old conn) }
    {
        let answer = if self.fails() {
            Took::Gone
        } else {
            self.items.next_taken(self.alloc, conn)?
        };
        let told = answer.copy(self.alloc)?;
        self.calls.push(FrontCall::Take(conn, told))?;
        self.items.drop_taken(conn);
        if let Took::Gone = answer {
            self.faults = self.faults.saturating_add(1);
        }
        Ok(answer)
    }

    fn put(&mut self, outs: Outs) -> Result<Put, NoMemory>
        ensures told { Some self.new.calls ≡ with_call (Some self.old.calls) (put_call outs result) }
        ensures given { self.new.given ≡ self.old.given }
        ensures puts { Some self.new.outs ≡ with_put (Some self.old.outs) outs result }
        ensures gone { result ≡ Ok Put.Gone → Rose self.old.faults self.new.faults }
        ensures later { self.old.faults ≤ self.new.faults }
        ensures exact { PutsOr self.old self.new outs result }
    {
        let answer = if self.fails() { Put::Gone } else { Put::Sent };
        let copy = copy_outs(self.alloc, &outs)?;
        self.outs.reserve(1)?;
        self.calls.push(FrontCall::Put(copy, answer))?;
        self.outs.push_reserved(outs);
        if let Put::Gone = answer {
            self.faults = self.faults.saturating_add(1);
        }
        Ok(answer)
    }
}
