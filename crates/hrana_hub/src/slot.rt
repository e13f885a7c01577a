// A stream, with the requests that wait on it.
ghost use Rattle.std.specs.Prelude.{◌≡◌, ◌<◌, ◌≤◌, ◌+◌, ◌-◌, ◌^◌, OnOk, OnErr, IfOk, IsSome, false, Option, Some, None, IsTrue};
ghost use Rattle.txn_table.specs.Turns.{has};
ghost use Rattle.stream_task.specs.Doing.{MayBeAsked};
ghost use Rattle.stream_task.specs.Session.{is_shut, open_of};
ghost use Rattle.stream_task.specs.Polls.{is_waiting};
ghost use Rattle.stream_task.specs.Together.{MayPoll, HasPolled, HasEnded};
ghost use Rattle.hrana_hub.specs.Agrees.{forgets};
ghost use Rattle.hrana_hub.specs.Arrivals.{fresh, waiting};
ghost use Rattle.hrana_hub.specs.Calls.{is_ready};
ghost use Rattle.hrana_hub.specs.Moments.{is_begun, may_expire, is_due, expired};
ghost use Rattle.hrana_hub.specs.Askers.{asker_of, running_of, asks_these};
ghost use Rattle.hrana_hub.specs.Exchanges.{fresh_session, in_session};
ghost use Rattle.hrana_hub.specs.ExchangeSettled.{given_up, rested};
ghost use Rattle.hrana_hub.specs.Polled.{first_id, dropped, is_closed, passed, with_task};
ghost use Rattle.hrana_hub.specs.State.{of_exchanges};
ghost use Rattle.hrana_hub.specs.Summaries.{IsCalm};
ghost use Rattle.hrana_hub.specs.declared.sessions.Running.{Running};
ghost use Rattle.hrana_hub.specs.declared.sessions.Session.{Session};

use crate::connections::Connections;
use crate::limits::EXPIRY_MS;
use crate::sessions::{Issued, Running, Session};
use baton_store::BatonStore;
use engine_core::{Engine, Entries, Undo};
use hrana_value::{NoMemory, StreamNo};
use std::alloc::Global;
use std::collections::VecDeque;
use std::marker::Model;
use stream_requests::Ask;
use stream_task::{Poll, Queued, Stepped, StreamTask, Task, TxnState};
use txn_table::TxnTable;

/// A stream, with the ids of the requests that wait on it.
#[derive(Drop)]
pub(crate) struct Slot {
    conn: u32,
    waits: VecDeque<i32>,
    /// The moment of its last answer, at first that of its opening.
    last_answer: u64,
    /// What a stream of exchanges waits for. A stream of a connection has none.
    session: Option<Session>,
    task: StreamTask,
}

/// Whom a stream answers.
#[derive(Clone, Copy)]
pub(crate) enum Asker {
    Connection(u32),
    /// The exchange that comes in on this connection, which is closed after the answer, or isn't.
    Exchange { conn: u32, close: bool },
    /// None of its exchanges runs.
    Nobody,
}

impl Model for Slot {
    ghost use Rattle.std.specs.Coded.{codes};
    ghost use Rattle.hrana_batch.specs.contracts.conditions.Cond as conditions;
    ghost use Rattle.hrana_hub.specs.State.{Stream};

    ghost Value = { Stream };

    ghost coded = { Prim.hlevel (codes, conditions.the_row.coded) };

    ghost view = { λ x. record { conn = x.conn; waits = x.waits.items; last_answer = x.last_answer; session = x.session; task = x.task } };
}

/// The store lets go of the place and the baton of a stream, where it is one of exchanges.
pub(crate) fn forget_session(store: &mut BatonStore, slot: &Slot, number: u64)
    ensures { store.new ≡ forgets slot.now number store.old }
{
    if slot.of_exchanges() {
        store.forget(StreamNo(number));
    }
}

/// Whether a transaction was begun and is neither ended nor lost.
fn is_begun(state: TxnState) -> bool
    ensures { result ≡ is_begun state }
{
    match state {
        TxnState::Deferred => true,
        TxnState::Reading { .. } => true,
        TxnState::Writing { .. } => true,
        _ => false,
    }
}

fn is_shut(state: TxnState) -> bool
    ensures { result ≡ is_shut state }
{
    match state {
        TxnState::Dead(_) => true,
        TxnState::Closed => true,
        _ => false,
    }
}

fn is_closed(state: TxnState) -> bool
    ensures { result ≡ is_closed state }
{
    match state {
        TxnState::Closed => true,
        _ => false,
    }
}

impl Slot {
    /// A stream of this connection that opens now and was asked nothing.
    pub(crate) fn new(alloc: Global, now: u64, conn: u32, stream: u64) -> Result<Slot, NoMemory>
        ensures { IfOk result (λ slot. slot ≡ fresh now conn stream) }
    {
        Ok(Slot {
            conn,
            waits: VecDeque::new(alloc),
            last_answer: now,
            session: None,
            task: StreamTask::new(alloc, StreamNo(stream), false)?,
        })
    }

    /// A stream of exchanges that opens now, by one that comes in on this connection.
    pub(crate) fn new_session(
        alloc: Global,
        now: u64,
        conn: u32,
        stream: u64,
    ) -> Result<Slot, NoMemory>
        ensures { IfOk result (λ slot. slot ≡ fresh_session now conn stream) }
    {
        Ok(Slot {
            conn,
            waits: VecDeque::new(alloc),
            last_answer: now,
            session: Some(Session::Resting(None)),
            task: StreamTask::new(alloc, StreamNo(stream), true)?,
        })
    }

    /// The connection that opened it.
    pub(crate) fn conn(&self) -> u32
        ensures { result ≡ self.now.conn }
    {
        self.conn
    }

    /// Whom it answers.
    pub(crate) fn asker(&self) -> Asker
        ensures { result ≡ asker_of self.now }
    {
        match &self.session {
            None => Asker::Connection(self.conn),
            Some(Session::Resting(_)) => Asker::Nobody,
            Some(Session::Running(running)) => Asker::Exchange {
                conn: running.conn,
                close: running.close,
            },
        }
    }

    pub(crate) fn of_exchanges(&self) -> bool
        ensures { result ≡ of_exchanges self.now }
    {
        self.session.is_some()
    }

    /// Whether it does no more than answer.
    pub(crate) fn is_shut(&self) -> bool
        ensures { result ≡ is_shut self.now.task.session.state }
    {
        is_shut(self.task.state())
    }

    /// It waits for the exchange that brings this baton from now on.
    pub(crate) fn rest(&mut self, baton: Option<Issued>)
        ensures { self.new ≡ in_session (Session.Resting baton) self.old }
    {
        self.session = Some(Session::Resting(baton));
    }

    /// The requests that wait are dropped, and it rests without a baton from now on.
    pub(crate) fn give_up(&mut self, now: u64)
        ensures { self.new ≡ given_up now self.old }
    {
        self.drop_asks();
        self.answered(now);
        self.rest(None);
    }

    /// Its exchange is answered now, and it rests with this baton.
    pub(crate) fn hand_out(&mut self, now: u64, text: [u8; 32])
        ensures { self.new ≡ rested text now self.old }
    {
        self.answered(now);
        self.rest(Some(Issued { text, at: now }));
    }

    /// An exchange begins, by which it is asked this.
    pub(crate) fn run(&mut self, running: Running, queued: Queued)
        ensures { self.new ≡ in_session (Session.Running running) (asks_these queued self.old) }
    {
        self.session = Some(Session::Running(running));
        self.task.ask_these(queued);
    }

    /// The exchange that runs, which is answered now.
    pub(crate) fn take_running(&mut self) -> Option<Running>
        ensures running { result ≡ running_of self.old }
        ensures slot { IsSome (running_of self.old) → self.new ≡ in_session (Session.Resting None) self.old }
        ensures none { running_of self.old ≡ None → self.new ≡ self.old }
    {
        match self.session.take() {
            Some(Session::Running(running)) => {
                self.session = Some(Session::Resting(None));
                Some(running)
            }
            other => {
                self.session = other;
                None
            }
        }
    }

    /// The exchange runs on.
    pub(crate) fn run_on(&mut self, running: Running)
        ensures { self.new ≡ in_session (Session.Running running) self.old }
    {
        self.session = Some(Session::Running(running));
    }

    pub(crate) fn is_closed(&self) -> bool
        ensures { result ≡ is_closed self.now.task.session.state }
    {
        is_closed(self.task.state())
    }

    /// Whether a request waits or runs.
    pub(crate) fn is_waiting(&self) -> bool
        ensures { result ≡ is_waiting self.now.task.asks }
    {
        self.task.ready()
    }

    /// A request has come. Where there is no memory nothing changes.
    pub(crate) fn ask(&mut self, id: i32, ask: Ask) -> Result<(), NoMemory>
        requires { MayBeAsked ask }
        ensures ok { OnOk result (self.new ≡ waiting id ask self.old) }
        ensures err { OnErr result (self.new ≡ self.old) }
    {
        self.waits.reserve(1)?;
        self.task.add(ask)?;
        self.waits.push_back_reserved(id);
        Ok(())
    }

    /// The id of the first request that waits.
    pub(crate) fn first_id(&self) -> i32
        ensures { result ≡ first_id self.now.waits }
    {
        match self.waits.front() {
            Some(id) => *id,
            None => 0,
        }
    }

    /// The first request is answered now.
    pub(crate) fn answered(&mut self, now: u64)
        ensures { self.new ≡ passed now self.old }
    {
        self.last_answer = now;
        let _answered = self.waits.pop_front();
    }

    /// One poll of the stream.
    pub(crate) fn poll<E: Engine>(
        &mut self,
        engine: &mut E,
        turns: &mut TxnTable,
        entries: &mut Entries,
    ) -> Poll<Stepped>
        requires may { MayPoll E.told E.SHARED (E.db engine.old) (E.live engine.old) turns.old entries.old.next self.old.task.stream self.old.task.session.state }
        requires room { 0 < entries.old.spare }
        requires few { (turns.old.version < 2 ^ 64 - 1) × (entries.old.next < 2 ^ 64 - 1) }
        ensures polled { HasPolled E.told E.SHARED E.meaning E.db E.live E.faults engine.old engine.new turns.old turns.new entries.old entries.new self.old.task self.new.task result }
        ensures slot { self.new ≡ with_task self.new.task self.old }
        ensures spare { entries.old.spare ≤ entries.new.spare + 1 }
        ensures later { E.faults engine.old ≤ E.faults engine.new }
    {
        self.task.poll(engine, turns, entries)
    }

    /// Ends the stream from outside.
    pub(crate) fn end<E: Engine>(
        mut self,
        engine: &mut E,
        turns: &mut TxnTable,
        entries: &mut Entries,
        why: Undo,
    )
        requires may { MayPoll E.told E.SHARED (E.db engine.old) (E.live engine.old) turns.old entries.old.next self.task.stream self.task.session.state }
        requires room { open_of self.task.session.state ≤ entries.old.spare }
        ensures ended { HasEnded E.told E.SHARED E.meaning E.db E.live E.faults engine.old engine.new turns.old turns.new entries.old entries.new self.task why }
        ensures spare { entries.new.spare + open_of self.task.session.state ≡ entries.old.spare }
        ensures later { E.faults engine.old ≤ E.faults engine.new }
    {
        self.task.end(engine, turns, entries, why);
    }

    /// Whether it expires unless it gives an answer: it holds a transaction or is of exchanges, and has nothing to do.
    fn may_expire(&self) -> bool
        ensures { result ≡ may_expire self.now }
    {
        (self.of_exchanges() || is_begun(self.task.state())) && !self.task.ready()
    }

    /// Whether it may expire, and gave its last answer long enough ago.
    pub(crate) fn is_due(&self, now: u64) -> bool
        ensures { result ≡ is_due now self.now }
    {
        self.may_expire() && now.saturating_sub(self.last_answer) >= EXPIRY_MS
    }

    /// It isn't due before this moment.
    pub(crate) fn calm_until(&self) -> u64
        ensures { IsCalm result self.now }
    {
        if self.may_expire() {
            return self.last_answer.saturating_add(EXPIRY_MS);
        }
        u64::MAX
    }

    /// Whether it has something to do, and is of exchanges or of a connection that is heard.
    pub(crate) fn is_ready(&self, conns: &Connections) -> bool
        ensures { result ≡ is_ready conns.now self.now }
    {
        self.is_waiting() && (self.of_exchanges() || conns.hear(self.conn))
    }

    /// It expires: its open unit is taken back, and it is dead from now on.
    pub(crate) fn expire<E: Engine>(
        &mut self,
        engine: &mut E,
        turns: &mut TxnTable,
        entries: &mut Entries,
    )
        requires may { MayPoll E.told E.SHARED (E.db engine.old) (E.live engine.old) turns.old entries.old.next self.old.task.stream self.old.task.session.state }
        requires room { open_of self.old.task.session.state ≤ entries.old.spare }
        ensures ended { HasEnded E.told E.SHARED E.meaning E.db E.live E.faults engine.old engine.new turns.old turns.new entries.old entries.new self.old.task Undo.Expired }
        ensures slot { self.new ≡ expired self.old }
        ensures spare { entries.new.spare + open_of self.old.task.session.state ≡ entries.old.spare }
        ensures later { E.faults engine.old ≤ E.faults engine.new }
    {
        self.task.end(engine, turns, entries, Undo::Expired);
    }

    /// The requests that wait are dropped.
    pub(crate) fn drop_asks(&mut self)
        ensures { self.new ≡ dropped self.old.task self.old }
    {
        self.task.drop_asks();
        self.waits.clear();
    }
}
