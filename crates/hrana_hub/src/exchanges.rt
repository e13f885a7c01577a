// The exchanges that aren't answered yet, by their connections.
ghost use Rattle.std.specs.Prelude.{◌≡◌, ◌<◌, [], IfOk, Option, None, Some, length, option_copied};
ghost use Rattle.hrana_hub.specs.Maps.{at, placed, without, IsSearched};
ghost use Rattle.hrana_hub.specs.declared.limits.TheConstants.{MAX_CONNECTIONS};

use crate::limits::MAX_CONNECTIONS;
use hrana_value::NoMemory;
use std::alloc::Global;
use std::marker::Model;

/// The streams of the exchanges that aren't answered yet, by their connections in rising number, with room for as many as there may
/// be.
#[derive(Drop)]
pub(crate) struct Exchanges {
    items: Vec<(u32, u64)>,
}

impl Model for Exchanges {
    ghost use Rattle.std.specs.Prelude.{◌≤◌, vec_capacity, ℕ};
    ghost use Rattle.std.specs.Ordering.{nat_cmp};
    ghost use Rattle.std.specs.List.Sorted.{IsStrictlySortedBy};
    ghost use Rattle.std.specs.Map.{keys_of};
    ghost use Rattle.hrana_hub.specs.Maps.{Numbered};
    ghost use Rattle.hrana_hub.specs.declared.limits.TheConstants.{MAX_CONNECTIONS};

    ghost Value = { Numbered ℕ };

    ghost view = { λ e. e.items.items };

    ghost invariant = { λ e. record {
      rising : IsStrictlySortedBy nat_cmp (keys_of e.items.items);
      room : MAX_CONNECTIONS ≤ vec_capacity e.items;
    } };
}

impl Exchanges {
    /// No exchange, with room for all.
    pub(crate) fn new(alloc: Global) -> Result<Exchanges, NoMemory>
        ensures { IfOk result (λ exchanges. exchanges ≡ []) }
    {
        Ok(Exchanges {
            items: Vec::with_capacity(alloc, MAX_CONNECTIONS)?,
        })
    }

    /// The place of the exchange, or the place where it would be put.
    fn place(&self, conn: u32) -> Result<usize, usize>
        ensures { IsSearched conn self.now result }
    {
        self.items.binary_search_by_key(&conn, |entry| entry.0)
    }

    /// How many there are.
    pub(crate) fn len(&self) -> usize
        ensures { result ≡ length self.now }
    {
        self.items.len()
    }

    /// The stream of the exchange that came in on the connection.
    pub(crate) fn get(&self, conn: u32) -> Option<u64>
        ensures { result ≡ at conn self.now }
    {
        match self.place(conn) {
            Ok(place) => Some(self.items[place].1),
            Err(_) => None,
        }
    }

    /// One more exchange, in the room that there is.
    pub(crate) fn begin(&mut self, conn: u32, stream: u64)
        requires unknown { at conn self.old ≡ None }
        requires room { length self.old < MAX_CONNECTIONS }
        ensures { self.new ≡ placed conn stream self.old }
    {
        if let Err(place) = self.place(conn) {
            let _put = self.items.insert(place, (conn, stream));
        }
    }

    /// Lets go of all.
    pub(crate) fn clear(&mut self)
        ensures { self.new ≡ [] }
    {
        self.items.clear();
    }

    /// The exchange is answered, or lost.
    pub(crate) fn remove(&mut self, conn: u32) -> Option<u64>
        ensures stream { result ≡ at conn self.old }
        ensures rest { self.new ≡ without conn self.old }
        ensures gone { at conn self.new ≡ None }
    {
        match self.place(conn) {
            Ok(place) => Some(self.items.remove(place).1),
            Err(_) => None,
        }
    }
}
