// The table: one turn, the version, and who waits.
ghost use Rattle.std.specs.Prelude.{◌≡◌, ◌≢◌, ◌-◌, ◌^◌, ◌<◌, List, IsTrue, All, IfOk, IfSome, OnOk, OnErr, Some};
ghost use Rattle.txn_table.specs.Turns.{no_turns, has, with_place, without, queued, grant_of, after_grant, after_commit, after_end, after_loss, first_waiter};

use crate::tickets::{Ticket, find, waiter_place};
use hrana_value::{NoMemory, StreamNo};
use std::alloc::Global;
use std::marker::Model;

/// What a stream wants the turn for.
#[derive(Clone, Copy, Debug, PartialEq, Eq)]
pub enum Need {
    /// A statement of its own.
    Alone,
    /// A transaction that begins.
    Begin,
    /// A transaction that read, and began at this version.
    Upgrade { had: u64 },
}

/// What is answered.
#[derive(Clone, Copy, Debug, PartialEq, Eq)]
pub enum Grant {
    /// The stream has the turn, at this version.
    Now(u64),
    /// The stream waits for this one, which holds the turn.
    Wait(StreamNo),
    /// The stream read an older version than the one that is now.
    Stale { had: u64, now: u64 },
    /// This stream holds the turn, and nothing waits for it.
    Held(StreamNo),
}

/// The turn, the version, and the waiters.
///
/// A stream has a place from `reserve_stream` on. The places stand in the order of the streams' numbers, and the waiters' tickets
/// in the order of arrival. A place keeps its stream's last ticket. So a place is searched in halves by the stream's number, and a
/// waiter in halves by the number of its ticket.
#[derive(Drop)]
pub struct TxnTable {
    turn: Option<StreamNo>,
    version: u64,
    last_ticket: u64,
    places: Vec<Ticket>,
    waiters: Vec<Ticket>,
}

impl Model for TxnTable {
    ghost use Rattle.std.specs.Prelude.{vec_len, vec_capacity, ◌≤◌};
    ghost use Rattle.txn_table.specs.Turns.{Turns};
    ghost use Rattle.txn_table.specs.Tickets.{AreSound, streams_of};

    ghost Value = { Turns };

    ghost view = { λ t. record { turn = t.turn; version = t.version; waiters = streams_of t.waiters.items; reserved = streams_of t.places.items } };

    ghost invariant = { λ t. record {
      sound : AreSound t.places.items t.waiters.items t.last_ticket;
      room : vec_len t.places ≤ vec_capacity t.waiters;
    } };
}

impl TxnTable {
    pub fn new(alloc: Global) -> Result<TxnTable, NoMemory>
        ensures { IfOk result (λ table. table ≡ no_turns) }
    {
        Ok(TxnTable {
            turn: None,
            version: 0,
            last_ticket: 0,
            places: Vec::new(alloc),
            waiters: Vec::new(alloc),
        })
    }

    /// Makes a place for the stream, unless it has one.
    pub fn reserve_stream(&mut self, stream: StreamNo) -> Result<(), NoMemory>
        ensures ok { OnOk result (self.new ≡ with_place self.old stream) }
        ensures place { OnOk result (IsTrue (has stream self.new.reserved)) }
        ensures err { OnErr result (self.new ≡ self.old) }
    {
        let place = match find(&self.places, stream) {
            Ok(_) => return Ok(()),
            Err(place) => place,
        };
        let places = self.places.len() + 1;
        self.waiters
            .reserve(places.saturating_sub(self.waiters.len()))?;
        self.places.insert(place, Ticket { number: 0, stream })?;
        Ok(())
    }

    /// The stream that holds the turn.
    pub fn turn(&self) -> Option<StreamNo>
        ensures { result ≡ self.now.turn }
    {
        self.turn
    }

    /// How many commits there were.
    pub fn version(&self) -> u64
        ensures { result ≡ self.now.version }
    {
        self.version
    }

    /// Asks for the turn. A stream that is told to wait is put at the end of the waiters.
    pub fn want(&mut self, stream: StreamNo, need: Need) -> Grant
        requires reserved { IsTrue (has stream self.old.reserved) }
        requires other { self.old.turn ≢ Some stream }
        ensures grant { result ≡ grant_of self.old need }
        ensures table { self.new ≡ after_grant self.old stream result }
        ensures reserved { self.new.reserved ≡ self.old.reserved }
    {
        if let Need::Upgrade { had } = need
            && had < self.version
        {
            return Grant::Stale {
                had,
                now: self.version,
            };
        }
        let Some(holder) = self.turn else {
            self.take_turn(stream);
            return Grant::Now(self.version);
        };
        if let Need::Upgrade { .. } = need {
            return Grant::Held(holder);
        }
        self.queue(stream);
        Grant::Wait(holder)
    }

    /// Puts the stream at the end of the waiters, unless it waits.
    fn queue(&mut self, stream: StreamNo)
        requires { IsTrue (has stream self.old.reserved) }
        ensures { self.new ≡ record self.old { waiters = queued stream self.old.waiters } }
    {
        let None = waiter_place(&self.places, &self.waiters, stream) else {
            return;
        };
        let place = match find(&self.places, stream) {
            Ok(place) => place,
            Err(_) => return,
        };
        self.last_ticket = self.last_ticket.saturating_add(1);
        let ticket = Ticket {
            number: self.last_ticket,
            stream,
        };
        self.places[place] = ticket;
        self.waiters.push_reserved(ticket);
    }

    /// Takes the stream out of the waiters.
    fn leave(&mut self, stream: StreamNo)
        ensures { self.new ≡ record self.old { waiters = without stream self.old.waiters } }
    {
        match waiter_place(&self.places, &self.waiters, stream) {
            Some(place) => {
                let _ticket = self.waiters.remove(place);
            }
            None => {}
        }
    }

    /// Gives the turn, which nobody holds, to the stream.
    fn take_turn(&mut self, stream: StreamNo)
        ensures { self.new ≡ record self.old { turn = Some stream; waiters = without stream self.old.waiters } }
    {
        self.leave(stream);
        self.turn = Some(stream);
    }

    /// The stream's work was committed: the version rises, and the turn is free.
    pub fn committed(&mut self, stream: StreamNo)
        requires holds { self.old.turn ≡ Some stream }
        requires few { self.old.version < 2 ^ 64 - 1 }
        ensures { self.new ≡ after_commit self.old }
    {
        self.version += 1;
        self.ended(stream);
    }

    /// The stream's work has ended: the turn is free, if the stream held it.
    pub fn ended(&mut self, stream: StreamNo)
        ensures { self.new ≡ after_end self.old stream }
    {
        if let Some(holder) = self.turn
            && holder.0 == stream.0
        {
            self.turn = None;
        }
    }

    /// The stream is gone. It gives back its place, and the turn, if it held it.
    pub fn lost(&mut self, stream: StreamNo)
        ensures { self.new ≡ after_loss self.old stream }
    {
        self.ended(stream);
        self.leave(stream);
        self.give_back(stream);
    }

    /// Takes the place of a stream that doesn't wait.
    fn give_back(&mut self, stream: StreamNo)
        requires { All (λ x. x ≢ stream) self.old.waiters }
        ensures { self.new ≡ record self.old { reserved = without stream self.old.reserved } }
    {
        match find(&self.places, stream) {
            Ok(place) => {
                let _ticket = self.places.remove(place);
            }
            Err(_) => {}
        }
    }

    /// The stream that has waited longest, where nobody holds the turn.
    pub fn next_waiter(&self) -> Option<StreamNo>
        ensures first { result ≡ first_waiter self.now.turn self.now.waiters }
        ensures place { IfSome result (λ stream. IsTrue (has stream self.now.reserved)) }
    {
        if self.turn.is_some() {
            return None;
        }
        match self.waiters.first() {
            Some(waiter) => Some(waiter.stream),
            None => None,
        }
    }
}
