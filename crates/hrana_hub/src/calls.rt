// The calls of the hub beside `step`. None takes memory.
ghost use Rattle.std.specs.Prelude.{◌≡◌, ◌≤◌, MatchOption, is_some, [], ◌∷◌, drop, Option, None, Some};
ghost use Rattle.txn_table.specs.Turns.{first_waiter};
ghost use Rattle.hrana_hub.specs.Calls.{has_room_for, is_known, is_heard, first_ready};
ghost use Rattle.hrana_hub.specs.Maps.{at};
ghost use Rattle.hrana_hub.specs.State.{with_state};
ghost use Rattle.hrana_hub.specs.Step.{fits, may_come, may_open, may_send, is_free};

use crate::events::Event;
use crate::hub::Hub;
use crate::limits::{MAX_CONNECTIONS, MAX_EVENTS};
use engine_core::Entry;
use hrana_value::StreamNo;

impl Hub {
    fn may_send(&self, conn: u32) -> bool
        ensures { result ≡ may_send (at conn self.now.state.conns) }
    {
        match self.conns.get(conn) {
            Some(known) => known.has_room(),
            None => false,
        }
    }

    fn may_open(&self, conn: u32) -> bool
        ensures { result ≡ may_open self.now.state conn }
    {
        conn > 0
            && !self.knows(conn)
            && self.exchanges.len() < MAX_CONNECTIONS.saturating_sub(self.conns.len())
    }

    fn may_come(&self, event: &Event) -> bool
        ensures { result ≡ may_come self.now.state event.now }
    {
        match event {
            Event::Opened { conn } => self.may_open(*conn),
            Event::Text { conn, .. } => self.may_send(*conn),
            Event::Binary { conn } => self.may_send(*conn),
            Event::Exchange { conn, .. } => self.may_open(*conn),
            Event::Lost { .. } => true,
            Event::Moment { .. } => true,
            Event::Poll { .. } => true,
            Event::Stop => true,
        }
    }

    /// Whether the event may come now. A connection that was opened has a number that isn't known, of at most
    /// `MAX_CONNECTIONS`; a message is of a connection that is known, and either closing or with fewer than
    /// `MAX_OUTSTANDING` requests that wait.
    pub fn fits(&self, event: &Event) -> bool
        ensures { result ≡ fits self.now.state event.now }
    {
        !self.stopped && self.events < MAX_EVENTS && self.may_come(event)
    }

    /// Whether something may be taken from the connection: it isn't closing, and has fewer than `MAX_OUTSTANDING` requests
    /// that wait, and its exchange was answered. One that isn't known has room.
    pub fn room(&self, conn: u32) -> bool
        ensures { result ≡ has_room_for self.now.state conn }
    {
        match self.conns.get(conn) {
            Some(known) => !known.is_closing() && known.has_room() && self.is_free(conn),
            None => self.is_free(conn),
        }
    }

    /// Whether no exchange that came in on the connection waits for its answer.
    fn is_free(&self, conn: u32) -> bool
        ensures { result ≡ is_free (at conn self.now.state.exchanges) }
    {
        self.exchanges.get(conn).is_none()
    }

    /// Whether the connection is known: one over WebSocket until it is lost, one over HTTP until its exchange is answered.
    pub fn knows(&self, conn: u32) -> bool
        ensures { result ≡ is_known self.now.state conn }
    {
        self.conns.get(conn).is_some() || self.exchanges.get(conn).is_some()
    }

    /// Whether the connection is known and isn't closing.
    pub(crate) fn hears(&self, conn: u32) -> bool
        ensures { result ≡ is_heard (at conn self.now.state.conns) }
    {
        self.conns.hear(conn)
    }

    /// The lowest stream above this number that has something to do, and whose connection isn't closing.
    pub fn next_ready(&self, after: u64) -> Option<StreamNo>
        ensures { MatchOption result (first_ready after self.now.state.conns self.now.state.streams ≡ None) (λ stream. first_ready after self.now.state.conns self.now.state.streams ≡ Some stream.0) }
    {
        match self.streams.next_ready(after, &self.conns) {
            Some(number) => Some(StreamNo(number)),
            None => None,
        }
    }

    /// The stream that has waited longest for the turn, where nobody holds it.
    pub fn first_waiter(&self) -> Option<StreamNo>
        ensures { result ≡ first_waiter self.now.turns.turn self.now.turns.waiters }
    {
        self.turns.next_waiter()
    }

    /// The first of the entries that no journal took yet.
    pub fn first_entry(&self) -> Option<&Entry>
        ensures { MatchOption result (self.now.noted.list ≡ []) (λ entry. self.now.noted.list ≡ entry.now ∷ drop 1 self.now.noted.list) }
    {
        self.entries.first()
    }

    /// The entries that no journal took, in the order in which they were added.
    pub fn into_entries(self) -> Vec<Entry>
        ensures { result.items ≡ self.noted.list }
    {
        let Hub { entries, .. } = self;
        entries.into_vec()
    }

    /// Takes the first of the entries that no journal took yet.
    pub fn take_entry(&mut self) -> Option<Entry>
        ensures entry { MatchOption result (self.old.noted.list ≡ []) (λ entry. self.old.noted.list ≡ entry ∷ self.new.noted.list) }
        ensures none { result ≡ None → self.new.noted.list ≡ [] }
        ensures state { (self.new.state ≡ self.old.state) × (self.new.turns ≡ self.old.turns) × (self.new.token ≡ self.old.token) }
        ensures store { self.new.store ≡ self.old.store }
        ensures places { self.old.noted.spare ≤ self.new.noted.spare }
        ensures next { self.new.noted.next ≡ self.old.noted.next }
    {
        self.entries.take_first()
    }
}
