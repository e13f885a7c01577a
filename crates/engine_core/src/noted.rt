// The entries of a run that no journal took yet.
ghost use Rattle.std.specs.Prelude.{◌≡◌, ◌+◌, ◌-◌, ◌^◌, ◌<◌, ◌≤◌, [], ◌∷◌, ◌++◌, IfOk, OnOk, MatchOption, drop};
ghost use Rattle.engine_core.specs.Noted.{Noted, next_after, IsNumbered};

use crate::Entry;
use hrana_value::NoMemory;
use std::alloc::Global;
use std::collections::VecDeque;
use std::marker::Model;

/// The entries of a run that no journal took yet, with places that are ready for more. Contracts see the list, the
/// number of spare places, and the number that the next unit takes.
#[derive(Drop)]
pub struct Entries {
    items: VecDeque<Entry>,
    next: u64,
}

impl Model for Entries {
    ghost use Rattle.std.specs.Prelude.{◌-◌};
    ghost use Rattle.std.specs.VecDeque.{deque_len, deque_capacity};
    ghost use Rattle.engine_core.specs.Noted.{Noted};

    ghost Value = { Noted };

    ghost view = { λ e. record { list = e.items.items; spare = deque_capacity e.items - deque_len e.items; next = e.next } };
}

impl Entries {
    pub fn new(alloc: Global) -> Result<Entries, NoMemory>
        ensures list { IfOk result (λ entries. entries.list ≡ []) }
        ensures next { IfOk result (λ entries. entries.next ≡ 1) }
    {
        Ok(Entries {
            items: VecDeque::new(alloc),
            next: 1,
        })
    }

    /// Makes the spare places at least `places`. They are never fewer than before.
    pub fn reserve(&mut self, places: usize) -> Result<(), NoMemory>
        ensures list { self.new.list ≡ self.old.list }
        ensures next { self.new.next ≡ self.old.next }
        ensures places { OnOk result (places ≤ self.new.spare) }
        ensures kept { self.old.spare ≤ self.new.spare }
    {
        self.items.reserve(places)?;
        Ok(())
    }

    /// Adds an entry in a place that was reserved.
    pub fn push(&mut self, entry: Entry)
        requires room { 0 < self.old.spare }
        requires unit { IsNumbered self.old.next entry }
        ensures list { self.new.list ≡ self.old.list ++ entry ∷ [] }
        ensures spare { self.new.spare + 1 ≡ self.old.spare }
        ensures next { self.new.next ≡ next_after self.old.next entry }
    {
        match entry {
            Entry::Began { .. } => {
                self.next += 1;
            }
            _ => {}
        }
        self.items.push_back_reserved(entry);
    }

    /// The first entry.
    pub fn first(&self) -> Option<&Entry>
        ensures { MatchOption result (self.now.list ≡ []) (λ entry. self.now.list ≡ entry.now ∷ drop 1 self.now.list) }
    {
        self.items.front()
    }

    /// Takes the first entry.
    pub fn take_first(&mut self) -> Option<Entry>
        ensures list { MatchOption result ((self.old.list ≡ []) × (self.new.list ≡ [])) (λ entry. self.old.list ≡ entry ∷ self.new.list) }
        ensures spare { self.old.spare ≤ self.new.spare }
        ensures next { self.new.next ≡ self.old.next }
    {
        self.items.pop_front()
    }

    /// The number of the next unit: one more than the units that began.
    pub fn next_unit(&self) -> u64
        ensures { result ≡ self.now.next }
    {
        self.next
    }

    /// The entries, in the order in which they were added.
    pub fn into_vec(self) -> Vec<Entry>
        ensures { result.items ≡ self.list }
    {
        let Entries { items, next: _ } = self;
        items.into_vec()
    }
}
