// A journal in memory.
ghost use Rattle.std.specs.Prelude.{◌≡◌, Some, IfOk, []};

use engine_core::{Entry, Journal, JournalFail, ListedCalls};
use hrana_value::{Duplicate, List, NoMemory};
use std::alloc::Global;

/// A journal in memory, with a list of the calls that fail, counted from 1. It keeps copies of the entries.
#[derive(Drop)]
pub struct MemoryJournal {
    alloc: Global,
    entries: List<Entry>,
    listed: ListedCalls,
}

impl MemoryJournal {
    ghost use Rattle.hrana_journal.specs.Memory.{journal_calls};

    pub fn new(alloc: Global, fail_at: &[u64]) -> Result<MemoryJournal, NoMemory>
        ensures noted { IfOk result (λ j. ⟦<MemoryJournal as Journal>⟧.noted j ≡ Some []) }
        ensures calls { IfOk result (λ j. journal_calls j ≡ record { fail_at = fail_at.now; calls = 0 }) }
    {
        Ok(MemoryJournal {
            alloc,
            entries: List::new(alloc),
            listed: ListedCalls::new(alloc, fail_at)?,
        })
    }

    /// The entries that were noted.
    pub fn entries(&self) -> &[Entry]
        ensures { ⟦<MemoryJournal as Journal>⟧.noted self.now ≡ Some result.now }
    {
        self.entries.as_slice()
    }
}

impl Journal for MemoryJournal {
    ghost use Rattle.std.specs.Prelude.{◌≤◌, Err, OnOk, OnErr, false};
    ghost use Rattle.engine_core.specs.Causes.{Rose};
    ghost use Rattle.engine_core.specs.Listed.{FailsAsListed};
    ghost use Rattle.engine_core.specs.Notes.{with_entry};
    ghost use Rattle.hrana_journal.specs.Memory.{journal_entries, journal_calls, journal_faults, is_fault};

    ghost noted = { λ j. Some (journal_entries j) };

    ghost faults = { journal_faults };

    /// Breaks exactly at the listed calls.
    fn note(&mut self, entry: &Entry) -> Result<(), JournalFail>
        ensures ok { OnOk result (Some (journal_entries self.new) ≡ with_entry (Some (journal_entries self.old)) entry.now) }
        ensures err { OnErr result (Some (journal_entries self.new) ≡ Some (journal_entries self.old)) }
        ensures fault { result ≡ Err JournalFail.Fault → Rose (journal_faults self.old) (journal_faults self.new) }
        ensures later { journal_faults self.old ≤ journal_faults self.new }
        ensures listed { FailsAsListed (journal_calls self.old) (journal_calls self.new) (is_fault result) }
        ensures no_other { is_fault result ≡ false → journal_faults self.new ≡ journal_faults self.old }
    {
        if self.listed.fails() {
            return Err(JournalFail::Fault);
        }
        let copy = entry.copy(self.alloc)?;
        self.entries.push(copy)?;
        Ok(())
    }
}
