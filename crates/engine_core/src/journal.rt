// A journal notes entries.
ghost use Rattle.std.specs.Prelude.{◌≡◌, ◌≤◌, ℕ, List, Option, Err, OnOk, OnErr};
ghost use Rattle.engine_core.specs.Causes.{Rose};
ghost use Rattle.engine_core.specs.Notes.{with_entry};
ghost use Rattle.engine_core.specs.declared.entries.Entry.{Entry};

use crate::{Entry, NoMemory};

/// Why a journal didn't take an entry.
#[derive(Clone, Copy, Debug, PartialEq, Eq)]
pub enum JournalFail {
    /// The journal broke.
    Fault,
    NoMemory,
}

impl From<NoMemory> for JournalFail {
    ghost use Rattle.engine_core.specs.declared.journal.JournalFail.TheVariants as fail;

    ghost from_gives = { λ _ e. e ≡ fail.NoMemory };

    fn from(_: NoMemory) -> Self {
        JournalFail::NoMemory
    }
}

pub trait Journal {
    /// The entries that were noted, where the journal tells them.
    ghost noted: { Self → Option (List Entry) };

    /// How often it has failed.
    ghost faults: { Self → ℕ };

    /// Notes one more entry.
    fn note(&mut self, entry: &Entry) -> Result<(), JournalFail>
        ensures ok { OnOk result (noted self.new ≡ with_entry (noted self.old) entry.now) }
        ensures err { OnErr result (noted self.new ≡ noted self.old) }
        ensures fault { result ≡ Err JournalFail.Fault → Rose (faults self.old) (faults self.new) }
        ensures later { faults self.old ≤ faults self.new };
}
