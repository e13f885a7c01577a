// Names that are taken.
ghost use Rattle.std.specs.Prelude.{◌≡◌, ℕ, List, Bool, false, not, ◌||◌, string_bytes, IfOk, OnOk};
ghost use Rattle.std.specs.BTreeSet.{contains_text};
ghost use Rattle.std.specs.Str.{bytes_eq};
ghost use Rattle.keeper_dialect.specs.Tokens.{is_same_name};
ghost use Rattle.keeper_dialect.specs.Taken.{is_taken};

use hrana_value::NoMemory;
use std::alloc::Global;
use std::collections::BTreeSet;

/// Names that are taken, in lower case, so that one is found in a time that is logarithmic in them.
#[derive(Drop)]
pub(crate) struct Taken {
    names: BTreeSet<String>,
}

fn insert(names: &mut BTreeSet<String>, name: String) -> Result<bool, NoMemory>
    ensures new { IfOk result (λ new. new ≡ not (contains_text names.old (string_bytes name))) }
    ensures takes { OnOk result ((bytes : List ℕ) → contains_text names.new bytes ≡ (bytes_eq (string_bytes name) bytes || contains_text names.old bytes)) }
{
    Ok(names.insert(name)?)
}

impl Taken {
    pub(crate) fn new(alloc: Global) -> Taken
        ensures { (name : List ℕ) → is_taken result name ≡ false }
    {
        Taken {
            names: BTreeSet::new(alloc),
        }
    }

    /// Takes a name, and says whether it wasn't taken.
    pub(crate) fn take(&mut self, alloc: Global, name: &str) -> Result<bool, NoMemory>
        ensures new { IfOk result (λ new. new ≡ not (is_taken self.old name.now)) }
        ensures takes { OnOk result ((other : List ℕ) → is_taken self.new other ≡ (is_same_name name.now other || is_taken self.old other)) }
    {
        insert(&mut self.names, name.to_ascii_lowercase(alloc)?)
    }
}
