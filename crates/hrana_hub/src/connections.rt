// The connections that are known.
ghost use Rattle.std.specs.Prelude.{◌≡◌, ◌<◌, ◌≤◌, ◌^◌, ◌-◌, ◌∷◌, ◌++◌, [], IfOk, OnOk, OnErr, MatchOption, Option, None, Some, length};
ghost use Rattle.stream_requests.specs.declared.replies.Reply.{Reply};
ghost use Rattle.hrana_hub.specs.Arrivals.{greeted, shut, joined, waited, with_texts};
ghost use Rattle.hrana_hub.specs.Calls.{is_heard};
ghost use Rattle.hrana_hub.specs.Lending.{LendsKnown, LendsConnection};
ghost use Rattle.hrana_hub.specs.Maps.{at, put, placed, without, id_at, IsPlaceOf, IsSearched};
ghost use Rattle.std.specs.Borrow.{sem};
ghost use Rattle.std.specs.Option.{option_copied_mut};
ghost use Rattle.hrana_hub.specs.Polled.{replied};
ghost use Rattle.hrana_hub.specs.State.{Conn};
ghost use Rattle.hrana_hub.specs.Step.{new_conn};
ghost use Rattle.stream_task.specs.Texts.{without_text};
ghost use Rattle.hrana_hub.specs.declared.limits.TheConstants.{MAX_CONNECTIONS};

use crate::connection::Connection;
use crate::limits::MAX_CONNECTIONS;
use hrana_value::{NoMemory, Txt};
use std::alloc::Global;
use std::marker::Model;

/// The connections that are known, in rising number, with room for as many as there may be.
#[derive(Drop)]
pub(crate) struct Connections {
    alloc: Global,
    items: Vec<(u32, Connection)>,
}

impl Model for Connections {
    ghost use Rattle.std.specs.Prelude.{◌≤◌, vec_capacity};
    ghost use Rattle.std.specs.Ordering.{nat_cmp};
    ghost use Rattle.std.specs.List.Sorted.{IsStrictlySortedBy};
    ghost use Rattle.std.specs.Map.{keys_of};
    ghost use Rattle.hrana_hub.specs.Maps.{Numbered};
    ghost use Rattle.hrana_hub.specs.State.{Conn};
    ghost use Rattle.hrana_hub.specs.declared.limits.TheConstants.{MAX_CONNECTIONS};

    ghost Value = { Numbered Conn };

    ghost view = { λ c. c.items.items };

    ghost invariant = { λ c. record {
      rising : IsStrictlySortedBy nat_cmp (keys_of c.items.items);
      room : MAX_CONNECTIONS ≤ vec_capacity c.items;
    } };
}

impl Connections {
    /// No connection, with room for all.
    pub(crate) fn new(alloc: Global) -> Result<Connections, NoMemory>
        ensures { IfOk result (λ conns. conns ≡ []) }
    {
        Ok(Connections {
            alloc,
            items: Vec::with_capacity(alloc, MAX_CONNECTIONS)?,
        })
    }

    /// The place of the connection, or the place where it would be put.
    fn place(&self, conn: u32) -> Result<usize, usize>
        ensures { IsSearched conn self.now result }
    {
        self.items.binary_search_by_key(&conn, |entry| entry.0)
    }

    /// How many there are.
    pub(crate) fn len(&self) -> usize
        ensures { result ≡ length self.now }
    {
        self.items.len()
    }

    pub(crate) fn get(&self, conn: u32) -> Option<&Connection>
        ensures { MatchOption result (at conn self.now ≡ None) (λ known. at conn self.now ≡ Some known.now) }
    {
        match self.place(conn) {
            Ok(place) => Some(&self.items[place].1),
            Err(_) => None,
        }
    }

    /// Whether the connection is known and isn't closing.
    pub(crate) fn hear(&self, conn: u32) -> bool
        ensures { result ≡ is_heard (at conn self.now) }
    {
        match self.get(conn) {
            Some(known) => !known.is_closing(),
            None => false,
        }
    }

    /// One more connection, in the room that there is. One that is closing already isn't heard.
    pub(crate) fn open(&mut self, conn: u32, closing: bool)
        requires unknown { at conn self.old ≡ None }
        requires room { length self.old < MAX_CONNECTIONS }
        ensures { self.new ≡ placed conn (new_conn closing) self.old }
    {
        if let Err(place) = self.place(conn) {
            let _put = self
                .items
                .insert(place, (conn, Connection::new(self.alloc, closing)));
        }
    }

    /// Lets go of all.
    pub(crate) fn clear(&mut self)
        ensures { self.new ≡ [] }
    {
        self.items.clear();
    }

    /// Lets go of the connection.
    pub(crate) fn remove(&mut self, conn: u32) -> Option<Connection>
        ensures connection { result ≡ at conn self.old }
        ensures rest { self.new ≡ without conn self.old }
        ensures gone { at conn self.new ≡ None }
    {
        match self.place(conn) {
            Ok(place) => Some(self.items.remove(place).1),
            Err(_) => None,
        }
    }

    /// The connection at its place.
    fn known(&mut self, conn: u32, place: usize) -> &mut Connection
        requires { IsPlaceOf conn self.old place }
        ensures* writes_back { sem 𝓛 (LendsKnown self.entry conn result) }
        ensures value { at conn self.old ≡ Some result.now }
    {
        &mut self.items[place].1
    }

    fn get_mut(&mut self, conn: u32) -> Option<&mut Connection>
        ensures* writes_back { sem 𝓛 (LendsConnection self.entry conn result) }
        ensures value { option_copied_mut result ≡ at conn self.old }
    {
        match self.place(conn) {
            Ok(place) => Some(self.known(conn, place)),
            Err(_) => None,
        }
    }

    /// A hello of it was accepted.
    pub(crate) fn greet(&mut self, conn: u32)
        ensures { (k : Conn) → at conn self.old ≡ Some k → self.new ≡ put conn (greeted k) self.old }
    {
        if let Some(known) = self.get_mut(conn) {
            known.greet();
        }
    }

    /// It is closed, and not heard from now on.
    pub(crate) fn shut(&mut self, conn: u32)
        ensures { (k : Conn) → at conn self.old ≡ Some k → self.new ≡ put conn (shut k) self.old }
    {
        if let Some(known) = self.get_mut(conn) {
            known.shut();
        }
    }

    /// It has one more stream. Where there is no memory nothing changes.
    pub(crate) fn join(&mut self, conn: u32, id: i32, stream: u64) -> Result<(), NoMemory>
        requires { (k : Conn) → at conn self.old ≡ Some k → id_at id k.ids ≡ None }
        ensures ok { OnOk result ((k : Conn) → at conn self.old ≡ Some k → self.new ≡ put conn (joined id stream k) self.old) }
        ensures err { OnErr result (self.new ≡ self.old) }
    {
        match self.get_mut(conn) {
            Some(known) => known.join(id, stream),
            None => Ok(()),
        }
    }

    /// One more of its requests waits. A close frees the id of its stream.
    pub(crate) fn wait(&mut self, conn: u32, stream: i32, closes: bool)
        requires { (k : Conn) → at conn self.old ≡ Some k → k.outstanding < 2 ^ 32 - 1 }
        ensures { (k : Conn) → at conn self.old ≡ Some k → self.new ≡ put conn (waited stream closes k) self.old }
    {
        if let Some(known) = self.get_mut(conn) {
            known.wait(stream, closes);
        }
    }

    /// One of its requests was answered. A stream that is over is let go of.
    pub(crate) fn answered(&mut self, conn: u32, stream: u64, over: bool)
        ensures { (k : Conn) (reply : Reply) → at conn self.old ≡ Some k → self.new ≡ put conn (replied stream over (Some reply) k) self.old }
    {
        if let Some(known) = self.get_mut(conn) {
            known.answered(stream, over);
        }
    }

    /// It stores a text. Where there is no memory nothing changes.
    pub(crate) fn store(&mut self, conn: u32, id: i32, sql: Txt) -> Result<(), NoMemory>
        ensures ok { OnOk result ((k : Conn) → at conn self.old ≡ Some k → self.new ≡ put conn (with_texts (k.texts ++ record { id = id; sql = sql } ∷ []) k) self.old) }
        ensures err { OnErr result (self.new ≡ self.old) }
    {
        match self.get_mut(conn) {
            Some(known) => known.store(id, sql),
            None => Ok(()),
        }
    }

    /// It lets go of a stored text.
    pub(crate) fn forget_text(&mut self, conn: u32, id: i32)
        ensures { (k : Conn) → at conn self.old ≡ Some k → self.new ≡ put conn (with_texts (without_text id k.texts) k) self.old }
    {
        if let Some(known) = self.get_mut(conn) {
            known.forget_text(id);
        }
    }
}
