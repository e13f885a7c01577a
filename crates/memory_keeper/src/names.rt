// The places of tables by their names, so that a table is found in a time that is logarithmic in the tables.
ghost use Rattle.std.specs.Prelude.{◌≡◌, cond, take, ℕ, List, [], None, Some, IfOk, OnOk};
ghost use Rattle.std.specs.Option.{option_or};
ghost use Rattle.std.specs.Str.{str_eq_ignore_ascii_case, str_to_ascii_lowercase};
ghost use Rattle.memory_keeper.specs.Names.{place_of_name, HasNamesOf, FindsTables};

use crate::tables::Table;
use hrana_value::NoMemory;
use keeper_rows::put_vec;
use std::alloc::Global;
use std::collections::BTreeMap;

/// The places of tables by their names in lower case. Of tables with one name it has the first.
#[derive(Debug, Drop)]
pub struct TableNames {
    places: BTreeMap<Vec<u8>, usize>,
}

fn lower_case(alloc: Global, name: &str) -> Result<Vec<u8>, NoMemory>
    ensures { IfOk result (λ lower. lower.items ≡ str_to_ascii_lowercase name.now) }
{
    Ok(name.as_bytes().to_ascii_lowercase(alloc)?)
}

impl TableNames {
    /// The names of no tables.
    pub fn new(alloc: Global) -> TableNames
        ensures { HasNamesOf result [] }
    {
        TableNames {
            places: BTreeMap::new(alloc),
        }
    }

    /// The place of the table of a name.
    pub fn get(&self, alloc: Global, name: &str) -> Result<Option<usize>, NoMemory>
        ensures { IfOk result (λ place. place ≡ place_of_name self.now name.now) }
    {
        let lower = lower_case(alloc, name)?;
        Ok(self.places.get(lower.as_slice()).copied())
    }

    /// Gives a name a place, if it has none.
    fn add(&mut self, alloc: Global, name: &str, place: usize) -> Result<(), NoMemory>
        ensures { OnOk result ((other : List ℕ) → place_of_name self.new other ≡ option_or (place_of_name self.old other) (cond (str_eq_ignore_ascii_case name.now other) (Some place) None)) }
    {
        let lower = lower_case(alloc, name)?;
        if self.places.get(lower.as_slice()).is_some() {
            return Ok(());
        }
        put_vec(&mut self.places, lower, place)?;
        Ok(())
    }

    /// Adds the names of the tables from a place on.
    fn add_tables(&mut self, alloc: Global, from: usize, tables: &[Table]) -> Result<(), NoMemory>
        ensures { OnOk result (HasNamesOf self.old (take from tables.now) → HasNamesOf self.new tables.now) }
    {
        for place in from..tables.len() {
            self.add(alloc, tables[place].name.as_str(), place)?;
        }
        Ok(())
    }
}

/// The map with the names of the tables from a place on; none where memory is wanting.
pub fn grown_names(
    alloc: Global,
    names: Option<TableNames>,
    from: usize,
    tables: &[Table],
) -> Option<TableNames>
    ensures { FindsTables names (take from tables.now) → FindsTables result tables.now }
{
    let Some(mut names) = names else {
        return None;
    };
    match names.add_tables(alloc, from, tables) {
        Ok(()) => Some(names),
        Err(_) => None,
    }
}
