// The streams, and what is known of all of them at once.
ghost use Rattle.std.specs.Prelude.{◌≡◌, [], ℕ, IsTrue, OnOk, OnErr, Option, None, Some, is_some, length};
ghost use Rattle.std.specs.Borrow.{sem};
ghost use Rattle.std.specs.List.Sorted.{IsStrictlySortedBy};
ghost use Rattle.std.specs.Map.{keys_of};
ghost use Rattle.std.specs.Option.{option_copied, option_copied_mut};
ghost use Rattle.std.specs.Ordering.{nat_cmp};
ghost use Rattle.stream_task.specs.Doing.{MayBeAsked};
ghost use Rattle.hrana_hub.specs.Arrivals.{waiting};
ghost use Rattle.hrana_hub.specs.Calls.{first_ready};
ghost use Rattle.hrana_hub.specs.Exchanges.{sessions_in};
ghost use Rattle.hrana_hub.specs.Lending.{LendsStream};
ghost use Rattle.hrana_hub.specs.Maps.{at, put, placed, without, first_number};
ghost use Rattle.hrana_hub.specs.Moments.{first_due};
ghost use Rattle.hrana_hub.specs.State.{Stream};
ghost use Rattle.hrana_hub.specs.Summaries.{IsCalm, Sums};

use crate::connections::Connections;
use crate::slot::Slot;
use hrana_value::NoMemory;
use std::alloc::Global;
use std::collections::{BTreeMap, Bound};
use std::marker::Model;
use stream_requests::Ask;

/// What is known of all streams but one, which may have changed since.
#[derive(Clone, Copy)]
pub(crate) struct Summary {
    /// The stream that is left out.
    but: Option<u64>,
    /// How many of the others are of exchanges.
    sessions: usize,
    /// None of the others is due before this moment.
    calm_until: u64,
}

/// The streams by their numbers. How many are of exchanges is counted as they change, and so is a moment before which none is
/// due: neither an exchange that opens a stream nor a moment at which none expires looks at each.
#[derive(Drop)]
pub(crate) struct Streams {
    slots: BTreeMap<u64, Slot>,
    summary: Summary,
}

impl Model for Streams {
    ghost use Rattle.std.specs.Ordering.{nat_cmp};
    ghost use Rattle.std.specs.List.Sorted.{IsStrictlySortedBy};
    ghost use Rattle.std.specs.Map.{keys_of};
    ghost use Rattle.hrana_hub.specs.Maps.{Numbered};
    ghost use Rattle.hrana_hub.specs.State.{Stream};
    ghost use Rattle.hrana_hub.specs.Summaries.{Sums};
    ghost use Rattle.std.specs.Coded.{codes};
    ghost use Rattle.hrana_batch.specs.contracts.conditions.Cond as conditions;

    ghost Value = { Numbered Stream };

    ghost coded = { Prim.hlevel (codes, conditions.the_row.coded) };

    ghost view = { λ s. s.slots.entries };

    ghost invariant = { λ s. record {
      rising : IsStrictlySortedBy nat_cmp (keys_of s.slots.entries);
      sums : Sums s.summary s.slots.entries;
    } };
}

/// One more slot. Where there is no memory nothing changes.
fn insert(slots: &mut BTreeMap<u64, Slot>, number: u64, slot: Slot) -> Result<(), NoMemory>
    ensures ok { OnOk result (slots.new.entries ≡ placed number slot slots.old.entries) }
    ensures err { OnErr result (slots.new.entries ≡ slots.old.entries) }
{
    match slots.insert(number, slot) {
        Ok(_) => Ok(()),
        Err(_) => Err(NoMemory),
    }
}

impl Summary {
    /// The stream that was left out counts again.
    fn settle(&mut self, slots: &BTreeMap<u64, Slot>)
        requires { Sums self.old slots.now.entries }
        ensures sums { Sums self.new slots.now.entries }
        ensures all { self.new.but ≡ None }
    {
        let Some(number) = self.but else {
            return;
        };
        self.but = None;
        if let Some(slot) = slots.get(&number) {
            if slot.of_exchanges() && self.sessions < slots.len() {
                self.sessions += 1;
            }
            self.calm_until = self.calm_until.min(slot.calm_until());
        }
    }

    /// The stream is left out from now on.
    fn leave_out(&mut self, slots: &BTreeMap<u64, Slot>, number: u64)
        requires { Sums self.old slots.now.entries }
        ensures sums { Sums self.new slots.now.entries }
        ensures but { self.new.but ≡ Some number }
    {
        if self.but == Some(number) {
            return;
        }
        self.settle(slots);
        self.but = Some(number);
        if let Some(slot) = slots.get(&number) {
            if slot.of_exchanges() {
                self.sessions = self.sessions.saturating_sub(1);
            }
        }
    }
}

impl Streams {
    /// No stream.
    pub(crate) fn new(alloc: Global) -> Streams
        ensures { result ≡ [] }
    {
        Streams {
            slots: BTreeMap::new(alloc),
            summary: Summary {
                but: None,
                sessions: 0,
                calm_until: u64::MAX,
            },
        }
    }

    /// What is known of all of them.
    fn settled(&self) -> Summary
        ensures rising { IsStrictlySortedBy nat_cmp (keys_of self.now) }
        ensures sums { Sums result self.now }
        ensures all { result.but ≡ None }
    {
        let mut all = self.summary;
        all.settle(&self.slots);
        all
    }

    /// How many there are.
    pub(crate) fn len(&self) -> usize
        ensures len { result ≡ length self.now }
    {
        self.slots.len()
    }

    /// How many of them are of exchanges.
    pub(crate) fn sessions(&self) -> usize
        ensures { result ≡ sessions_in self.now }
    {
        self.settled().sessions
    }

    /// The lowest number.
    pub(crate) fn first(&self) -> Option<u64>
        ensures { result ≡ first_number self.now }
    {
        match self.slots.first_key_value() {
            Some((number, _)) => Some(*number),
            None => None,
        }
    }

    pub(crate) fn contains(&self, number: u64) -> bool
        ensures { result ≡ is_some (at number self.now) }
    {
        self.slots.contains_key(&number)
    }

    pub(crate) fn get(&self, number: u64) -> Option<&Slot>
        ensures value { option_copied result ≡ at number self.now }
    {
        self.slots.get(&number)
    }

    pub(crate) fn get_mut(&mut self, number: u64) -> Option<&mut Slot>
        ensures* writes_back { sem 𝓛 (LendsStream self.entry number result) }
        ensures value { option_copied_mut result ≡ at number self.old }
    {
        self.summary.leave_out(&self.slots, number);
        self.slots.get_mut(&number)
    }

    /// One more stream. Where there is no memory nothing changes.
    pub(crate) fn add(&mut self, number: u64, slot: Slot) -> Result<(), NoMemory>
        requires fresh { at number self.old ≡ None }
        ensures ok { OnOk result (self.new ≡ placed number slot self.old) }
        ensures err { OnErr result (self.new ≡ self.old) }
    {
        self.summary.leave_out(&self.slots, number);
        insert(&mut self.slots, number, slot)?;
        Ok(())
    }

    pub(crate) fn remove(&mut self, number: u64) -> Option<Slot>
        ensures value { result ≡ at number self.old }
        ensures entries { self.new ≡ without number self.old }
    {
        self.summary.leave_out(&self.slots, number);
        self.slots.remove(&number)
    }

    /// Asks a stream one thing more, where there is one of this number. Where there is no memory nothing changes.
    pub(crate) fn ask(&mut self, number: u64, request_id: i32, ask: Ask) -> Result<(), NoMemory>
        requires { MayBeAsked ask }
        ensures ok { OnOk result ((x : Stream) → at number self.old ≡ Some x → self.new ≡ put number (waiting request_id ask x) self.old) }
        ensures err { OnErr result (self.new ≡ self.old) }
    {
        match self.get_mut(number) {
            Some(slot) => slot.ask(request_id, ask),
            None => Ok(()),
        }
    }

    /// The first stream above this number that has something to do, and is of exchanges or of a connection that is heard.
    pub(crate) fn next_ready(&self, after: u64, conns: &Connections) -> Option<u64>
        ensures { result ≡ first_ready after conns.now self.now }
    {
        for (number, slot) in self.slots.range((Bound::Excluded(after), Bound::Unbounded)) {
            if slot.is_ready(conns) {
                return Some(*number);
            }
        }
        None
    }

    /// Whether it is known already that none is due at the moment.
    fn is_calm(&self, moment: u64) -> bool
        ensures { IsTrue result → (from : ℕ) → first_due moment from self.now ≡ None }
    {
        moment < self.settled().calm_until
    }

    /// The first stream from this number on that is due at the moment, found by a look at each.
    fn find_due(&self, from: u64, moment: u64) -> Option<u64>
        ensures { result ≡ first_due moment from self.now }
    {
        for (number, slot) in self.slots.range((Bound::Included(from), Bound::Unbounded)) {
            if slot.is_due(moment) {
                return Some(*number);
            }
        }
        None
    }

    /// The first stream from this number on that is due at the moment.
    pub(crate) fn next_due(&self, from: u64, moment: u64) -> Option<u64>
        ensures { result ≡ first_due moment from self.now }
    {
        if self.is_calm(moment) {
            return None;
        }
        self.find_due(from, moment)
    }

    /// A moment before which none is due, found by a look at each.
    fn calm_until(&self) -> u64
        ensures { (n : ℕ) (x : Stream) → at n self.now ≡ Some x → IsCalm result x }
    {
        let mut calm_until = u64::MAX;
        for (_, slot) in self.slots.iter() {
            calm_until = calm_until.min(slot.calm_until());
        }
        calm_until
    }

    /// Looks ahead to the next moment at which one may be due, where that moment isn't known.
    pub(crate) fn look_ahead(&mut self, moment: u64)
        ensures { self.new ≡ self.old }
    {
        if self.is_calm(moment) {
            return;
        }
        self.summary = Summary {
            but: None,
            sessions: self.sessions(),
            calm_until: self.calm_until(),
        };
    }
}
