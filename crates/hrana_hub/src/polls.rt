// Polls of streams.
ghost use Rattle.std.specs.Prelude.{◌≡◌, ◌≤◌, ◌+◌, true, false, None, [], Some, IsSome, length, OnOk};
ghost use Rattle.stream_requests.specs.declared.replies.Reply.{Reply};
ghost use Rattle.stream_task.specs.Polls.{is_waiting};
ghost use Rattle.hrana_hub.specs.Adds.{Adds};
ghost use Rattle.hrana_hub.specs.Agrees.{HubAgrees, IsAhead};
ghost use Rattle.hrana_hub.specs.Maps.{at, put};
ghost use Rattle.hrana_hub.specs.State.{Conn, Stream, OnlyPlaces, with_state};
ghost use Rattle.hrana_hub.specs.Polled.{first_id, dropped, is_closed, passed, with_streams};
ghost use Rattle.hrana_hub.specs.Settled.{PollsStream, Settles, PollEnds, after_fall, after_told, after_passed};
ghost use Rattle.hrana_hub.specs.Step.{PollSteps, closes_short};

use crate::hub::Hub;
use crate::outs::{answers, nothing};
use crate::slot::Asker;
use engine_core::{Engine, Undo};
use hrana_value::{NoMemory, StreamNo};
use http_wire::Outs;
use stream_requests::Reply;
use stream_task::{Poll, Stepped, polls_keep_agreement, polls_lead_on, streams_agree};

impl Hub {
    /// Makes places for a poll's entry and for the ends of all units.
    pub(crate) fn make_places(&mut self) -> Result<(), NoMemory>
        ensures rest { OnlyPlaces self.old self.new }
        ensures places { OnOk result (length self.old.state.streams + 2 ≤ self.new.noted.spare) }
    {
        let Some(places) = self.streams.len().checked_add(2) else {
            return Err(NoMemory);
        };
        self.entries.reserve(places)
    }

    /// One poll of the stream. What it gave isn't told yet.
    pub(crate) fn poll_stream<E: Engine>(&mut self, engine: &mut E, stream: u64) -> Poll<Stepped>
        requires agrees { HubAgrees E.told E.SHARED (E.db engine.old) (E.live engine.old) self.old }
        requires ahead { IsAhead self.old.state }
        requires room { length self.old.state.streams + 2 ≤ self.old.noted.spare }
        ensures adds { Adds E.told E.SHARED E.meaning E.db E.live E.faults engine.old engine.new self.old self.new
            (λ added. (x : Stream) → at stream self.old.state.streams ≡ Some x → PollsStream E.SHARED self.old.state stream x added result self.new.state) }
        ensures agrees { HubAgrees E.told E.SHARED (E.db engine.new) (E.live engine.new) self.new }
        ensures token { self.new.token ≡ self.old.token }
        ensures later { E.faults engine.old ≤ E.faults engine.new }
    {
        streams_agree::<E>();
        polls_keep_agreement::<E>();
        polls_lead_on::<E>();
        match self.streams.get_mut(stream) {
            Some(slot) => slot.poll(engine, &mut self.turns, &mut self.entries),
            None => Poll::Ready(Stepped::Idle),
        }
    }

    /// The stream's requests are dropped.
    fn drop_asks(&mut self, stream: u64)
        ensures { (x : Stream) → at stream self.old.state.streams ≡ Some x → self.new ≡ with_state (with_streams (put stream (dropped x.task x) self.old.state.streams) self.old.state) self.old }
    {
        if let Some(slot) = self.streams.get_mut(stream) {
            slot.drop_asks();
        }
    }

    /// There was no memory: the stream's requests are dropped, and its connection is closed.
    fn fall(&mut self, conn: u32, stream: u64) -> Outs
        ensures given { result ≡ closes_short conn }
        ensures hub { (k : Conn) (x : Stream) → at conn self.old.state.conns ≡ Some k → at stream self.old.state.streams ≡ Some x
            → self.new ≡ with_state (after_fall stream conn k x self.old.state) self.old }
    {
        self.drop_asks(stream);
        self.close(conn, None, 1011)
    }

    /// The first request of the stream was answered. Answers whether the stream is over.
    fn pass_first(&mut self, stream: u64) -> bool
        ensures over { (x : Stream) → at stream self.old.state.streams ≡ Some x → result ≡ is_closed x.task.session.state }
        ensures hub { (x : Stream) → at stream self.old.state.streams ≡ Some x
            → self.new ≡ with_state (with_streams (put stream (passed self.old.state.now x) self.old.state.streams) self.old.state) self.old }
    {
        let now = self.moment;
        match self.streams.get_mut(stream) {
            Some(slot) => {
                slot.answered(now);
                slot.is_closed()
            }
            None => false,
        }
    }

    /// The first request was answered. Answers whether the stream is over.
    fn answered(&mut self, conn: u32, stream: u64) -> bool
        ensures over { (x : Stream) → at stream self.old.state.streams ≡ Some x → result ≡ is_closed x.task.session.state }
        ensures hub { (k : Conn) (x : Stream) (reply : Reply) → at conn self.old.state.conns ≡ Some k → at stream self.old.state.streams ≡ Some x
            → self.new ≡ with_state (after_passed stream conn k x reply self.old.state) self.old }
    {
        let over = self.pass_first(stream);
        self.conns.answered(conn, stream, over);
        over
    }

    fn first_id(&self, stream: u64) -> i32
        ensures { (x : Stream) → at stream self.now.state.streams ≡ Some x → result ≡ first_id x.waits }
    {
        match self.streams.get(stream) {
            Some(slot) => slot.first_id(),
            None => 0,
        }
    }

    /// The first request was answered. A stream that is over is let go of.
    fn pass<E: Engine>(&mut self, engine: &mut E, conn: u32, stream: u64)
        requires agrees { HubAgrees E.told E.SHARED (E.db engine.old) (E.live engine.old) self.old }
        requires connection { IsSome (at conn self.old.state.conns) }
        requires stream { IsSome (at stream self.old.state.streams) }
        ensures adds { Adds E.told E.SHARED E.meaning E.db E.live E.faults engine.old engine.new self.old self.new
            (λ added. (k : Conn) (x : Stream) (reply : Reply) → at conn self.old.state.conns ≡ Some k → at stream self.old.state.streams ≡ Some x
            → (added ≡ []) × (self.new.state ≡ after_told stream conn k x (Some reply) self.old.state)) }
        ensures agrees { HubAgrees E.told E.SHARED (E.db engine.new) (E.live engine.new) self.new }
        ensures token { self.new.token ≡ self.old.token }
        ensures later { E.faults engine.old ≤ E.faults engine.new }
    {
        if self.answered(conn, stream) {
            self.end_stream(engine, stream, Undo::Lost);
        }
    }

    /// Gives the reply of a poll.
    fn reply<E: Engine>(&mut self, engine: &mut E, conn: u32, stream: u64, reply: Reply) -> Outs
        requires agrees { HubAgrees E.told E.SHARED (E.db engine.old) (E.live engine.old) self.old }
        requires connection { IsSome (at conn self.old.state.conns) }
        requires stream { IsSome (at stream self.old.state.streams) }
        ensures adds { Adds E.told E.SHARED E.meaning E.db E.live E.faults engine.old engine.new self.old self.new
            (λ added. (k : Conn) (x : Stream) → at conn self.old.state.conns ≡ Some k → at stream self.old.state.streams ≡ Some x → Settles self.old.state stream conn x k (Poll.Ready (Stepped.Replied reply)) added result self.new.state) }
        ensures agrees { HubAgrees E.told E.SHARED (E.db engine.new) (E.live engine.new) self.new }
        ensures token { self.new.token ≡ self.old.token }
        ensures later { E.faults engine.old ≤ E.faults engine.new }
    {
        let Ok(outs) = answers(self.alloc, conn, self.first_id(stream), reply) else {
            return self.fall(conn, stream);
        };
        self.pass(engine, conn, stream);
        outs
    }

    /// Tells what a poll gave.
    fn settle<E: Engine>(
        &mut self,
        engine: &mut E,
        conn: u32,
        stream: u64,
        polled: Poll<Stepped>,
    ) -> Outs
        requires agrees { HubAgrees E.told E.SHARED (E.db engine.old) (E.live engine.old) self.old }
        requires connection { IsSome (at conn self.old.state.conns) }
        requires stream { IsSome (at stream self.old.state.streams) }
        ensures adds { Adds E.told E.SHARED E.meaning E.db E.live E.faults engine.old engine.new self.old self.new
            (λ added. (k : Conn) (x : Stream) → at conn self.old.state.conns ≡ Some k → at stream self.old.state.streams ≡ Some x → Settles self.old.state stream conn x k polled added result self.new.state) }
        ensures agrees { HubAgrees E.told E.SHARED (E.db engine.new) (E.live engine.new) self.new }
        ensures token { self.new.token ≡ self.old.token }
        ensures later { E.faults engine.old ≤ E.faults engine.new }
    {
        match polled {
            Poll::Ready(Stepped::Replied(reply)) => self.reply(engine, conn, stream, reply),
            Poll::Ready(Stepped::Broke) => self.fall(conn, stream),
            Poll::Ready(Stepped::Ran) => nothing(),
            Poll::Ready(Stepped::Idle) => nothing(),
            Poll::Pending => nothing(),
        }
    }

    /// One poll of a stream that has something to do, where there are places.
    fn poll_placed<E: Engine>(&mut self, engine: &mut E, conn: u32, stream: u64) -> Outs
        requires agrees { HubAgrees E.told E.SHARED (E.db engine.old) (E.live engine.old) self.old }
        requires ahead { IsAhead self.old.state }
        requires room { length self.old.state.streams + 2 ≤ self.old.noted.spare }
        requires connection { IsSome (at conn self.old.state.conns) }
        requires stream { IsSome (at stream self.old.state.streams) }
        ensures adds { Adds E.told E.SHARED E.meaning E.db E.live E.faults engine.old engine.new self.old self.new
            (λ added. (k : Conn) (x : Stream) → at conn self.old.state.conns ≡ Some k → at stream self.old.state.streams ≡ Some x → PollEnds E.SHARED self.old.state stream conn x k added result self.new.state) }
        ensures agrees { HubAgrees E.told E.SHARED (E.db engine.new) (E.live engine.new) self.new }
        ensures token { self.new.token ≡ self.old.token }
        ensures later { E.faults engine.old ≤ E.faults engine.new }
    {
        let polled = self.poll_stream(engine, stream);
        self.settle(engine, conn, stream, polled)
    }

    /// One poll of a stream that has something to do, on a connection that is heard.
    fn poll_ready<E: Engine>(&mut self, engine: &mut E, conn: u32, stream: u64) -> Outs
        requires agrees { HubAgrees E.told E.SHARED (E.db engine.old) (E.live engine.old) self.old }
        requires ahead { IsAhead self.old.state }
        requires connection { IsSome (at conn self.old.state.conns) }
        requires stream { IsSome (at stream self.old.state.streams) }
        requires waits { (x : Stream) → at stream self.old.state.streams ≡ Some x → is_waiting x.task.asks ≡ true }
        ensures adds { Adds E.told E.SHARED E.meaning E.db E.live E.faults engine.old engine.new self.old self.new
            (λ added. (k : Conn) (x : Stream) → at conn self.old.state.conns ≡ Some k → at stream self.old.state.streams ≡ Some x → PollEnds E.SHARED self.old.state stream conn x k added result self.new.state) }
        ensures agrees { HubAgrees E.told E.SHARED (E.db engine.new) (E.live engine.new) self.new }
        ensures token { self.new.token ≡ self.old.token }
        ensures later { E.faults engine.old ≤ E.faults engine.new }
    {
        streams_agree::<E>();
        if self.make_places().is_err() {
            return self.fall(conn, stream);
        }
        self.poll_placed(engine, conn, stream)
    }

    /// One poll of a stream of the connection that has something to do.
    fn poll_of_connection<E: Engine>(&mut self, engine: &mut E, conn: u32, stream: u64) -> Outs
        requires agrees { HubAgrees E.told E.SHARED (E.db engine.old) (E.live engine.old) self.old }
        requires ahead { IsAhead self.old.state }
        requires stream { IsSome (at stream self.old.state.streams) }
        requires waits { (x : Stream) → at stream self.old.state.streams ≡ Some x → is_waiting x.task.asks ≡ true }
        requires answers { (x : Stream) → at stream self.old.state.streams ≡ Some x → (x.session ≡ None) × (x.conn ≡ conn) }
        ensures adds { Adds E.told E.SHARED E.meaning E.db E.live E.faults engine.old engine.new self.old self.new (λ added. PollSteps E.SHARED self.old.state stream added result self.new.state) }
        ensures agrees { HubAgrees E.told E.SHARED (E.db engine.new) (E.live engine.new) self.new }
        ensures token { self.new.token ≡ self.old.token }
        ensures later { E.faults engine.old ≤ E.faults engine.new }
    {
        if !self.hears(conn) {
            return nothing();
        }
        self.poll_ready(engine, conn, stream)
    }

    /// One poll of the stream.
    pub(crate) fn poll<E: Engine>(&mut self, engine: &mut E, stream: StreamNo) -> Outs
        requires agrees { HubAgrees E.told E.SHARED (E.db engine.old) (E.live engine.old) self.old }
        requires ahead { IsAhead self.old.state }
        requires running { self.old.state.stopped ≡ false }
        ensures adds { Adds E.told E.SHARED E.meaning E.db E.live E.faults engine.old engine.new self.old self.new (λ added. PollSteps E.SHARED self.old.state stream.0 added result self.new.state) }
        ensures agrees { HubAgrees E.told E.SHARED (E.db engine.new) (E.live engine.new) self.new }
        ensures token { self.new.token ≡ self.old.token }
        ensures later { E.faults engine.old ≤ E.faults engine.new }
    {
        let Some(slot) = self.streams.get(stream.0) else {
            return nothing();
        };
        if !slot.is_waiting() {
            return nothing();
        }
        match slot.asker() {
            Asker::Connection(conn) => self.poll_of_connection(engine, conn, stream.0),
            Asker::Exchange { conn, close } => self.poll_session(engine, conn, close, stream.0),
            Asker::Nobody => nothing(),
        }
    }
}
