//! Streams over one engine and one table of turns, for tests: they are asked and polled by their places, from 0.
ghost use Rattle.std.specs.Prelude.{◌≡◌};
ghost use Rattle.engine_core.specs.Transactions.{NoneLive};
ghost use Rattle.stream_task.specs.Doing.{MayBeAsked};

use engine_core::{Engine, Entries, Entry, NoMemory, Undo};
use hrana_value::StreamNo;
use std::alloc::Global;
use std::marker::Model;
use stream_requests::Ask;
use stream_task::{Poll, Stepped, StreamTask, Task, TxnState};
use txn_table::TxnTable;

/// Streams over one engine and one table of turns.
#[derive(Drop)]
pub struct Desk<E: Engine + Drop> {
    alloc: Global,
    engine: E,
    turns: TxnTable,
    entries: Entries,
    streams: Vec<StreamTask>,
}

impl<E: Engine + Drop> Model for Desk<E> {
    ghost use Rattle.std.specs.Prelude.{ℕ, length};
    ghost use Rattle.stream_tests.specs.Desk.{IsSound};

    ghost Value = { ℕ };

    ghost view = { λ d. length d.streams.items };

    ghost invariant = { λ d. IsSound E.told E.SHARED (E.db d.engine) (E.live d.engine) d.turns d.entries.next d.streams.items };
}

impl<E: Engine + Drop> Desk<E> {
    /// A desk with no stream, over an engine that has no transaction.
    pub fn new(alloc: Global, engine: E) -> Result<Desk<E>, NoMemory>
        requires { NoneLive (E.live engine) }
    {
        Ok(Desk {
            alloc,
            engine,
            turns: TxnTable::new(alloc)?,
            entries: Entries::new(alloc)?,
            streams: Vec::new(alloc),
        })
    }

    /// Opens one more stream.
    pub fn open(&mut self) -> Result<(), NoMemory> {
        let number = StreamNo(self.streams.len() as u64);
        let task = StreamTask::new(self.alloc, number, true)?;
        self.streams.reserve(1)?;
        self.turns.reserve_stream(number)?;
        self.streams.push_reserved(task);
        Ok(())
    }

    /// Asks a stream, if there is one.
    pub fn ask(&mut self, place: usize, ask: Ask) -> Result<(), NoMemory>
        requires { MayBeAsked ask }
    {
        if place >= self.streams.len() {
            return Ok(());
        }
        self.streams[place].add(ask)
    }

    /// Polls a stream. Where there is none, that is no memory.
    pub fn poll(&mut self, place: usize) -> Poll<Stepped> {
        if place >= self.streams.len()
            || self.turns.version() == u64::MAX
            || self.entries.next_unit() == u64::MAX
        {
            return Poll::Ready(Stepped::Broke);
        }
        let Ok(()) = self.entries.reserve(1) else {
            return Poll::Ready(Stepped::Broke);
        };
        let stream = &mut self.streams[place];
        stream.poll(&mut self.engine, &mut self.turns, &mut self.entries)
    }

    /// Ends a stream from outside, if there is one.
    pub fn end(&mut self, place: usize, how: Undo) -> Result<(), NoMemory> {
        if place >= self.streams.len() {
            return Ok(());
        }
        self.entries.reserve(1)?;
        let stream = &mut self.streams[place];
        stream.end(&mut self.engine, &mut self.turns, &mut self.entries, how);
        Ok(())
    }

    /// The state of a stream, if there is one.
    pub fn state(&self, place: usize) -> Option<TxnState> {
        if place < self.streams.len() {
            Some(self.streams[place].state())
        } else {
            None
        }
    }

    /// The stream that holds the turn.
    pub fn turn(&self) -> Option<StreamNo> {
        self.turns.turn()
    }

    /// The stream that has waited longest, where nobody holds the turn.
    pub fn next_waiter(&self) -> Option<StreamNo> {
        self.turns.next_waiter()
    }

    /// The entries, in the order in which they were added.
    pub fn into_entries(self) -> Vec<Entry> {
        let Desk { entries, .. } = self;
        entries.into_vec()
    }
}
