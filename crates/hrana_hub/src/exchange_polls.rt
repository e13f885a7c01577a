// Polls of streams whose exchange runs.
ghost use Rattle.std.specs.Prelude.{◌≡◌, ◌≢◌, ◌≤◌, ◌<◌, ◌+◌, ◌-◌, ◌^◌, true, false, [], List, Bool, Option, Some, None, IsSome, Contains, length, OnOk, OnErr, IfOk};
ghost use Rattle.http_wire.specs.declared.outs.HttpAnswer.{HttpAnswer};
ghost use Rattle.pipeline_body.specs.Batons.{blank};
ghost use Rattle.pipeline_body.specs.Exchanges.{pipeline_answer, is_over};
ghost use Rattle.stream_requests.specs.Results.{IsPipelineReply};
ghost use Rattle.stream_requests.specs.declared.replies.Reply.{Reply};
ghost use Rattle.baton_store.specs.Batons.{HasNone};
ghost use Rattle.stream_task.specs.Polls.{is_waiting};
ghost use Rattle.stream_task.specs.Session.{is_shut};
ghost use Rattle.stream_task.specs.Together.{numbered};
ghost use Rattle.hrana_hub.specs.Adds.{Adds};
ghost use Rattle.hrana_hub.specs.Agrees.{HubAgrees, IsAhead};
ghost use Rattle.hrana_hub.specs.Askers.{running_of};
ghost use Rattle.hrana_hub.specs.Exchanges.{answers_with, empty_503, leaves, in_session, without_exchange, next_baton};
ghost use Rattle.hrana_hub.specs.ExchangeSettled.{MayIssue, IsRunning, IsRunningFor, HasPipelineReply, Settles, Ends, HandsOut, Concludes, given_up, rested};
ghost use Rattle.hrana_hub.specs.Step.{PollSteps};
ghost use Rattle.hrana_hub.specs.Maps.{at, put};
ghost use Rattle.hrana_hub.specs.Polled.{with_streams};
ghost use Rattle.hrana_hub.specs.State.{Stream, State, with_state};
ghost use Rattle.hrana_hub.specs.declared.sessions.Running.{Running as Exchange};
ghost use Rattle.hrana_hub.specs.declared.sessions.Session.{Session};

use crate::hub::Hub;
use crate::outs::{answers_with, nothing, without_memory};
use crate::sessions::Running;
use engine_core::{Engine, Undo};
use hrana_value::{NoMemory, StreamNo};
use http_wire::{HttpAnswer, Outs};
use pipeline_body::BlankAnswer;
use stream_requests::Reply;
use stream_task::{Poll, Stepped, polls_reply_to_pipelines, streams_agree};

impl Hub {
    /// The stream rests without a baton, and its requests are dropped.
    fn drop_requests(&mut self, stream: u64)
        ensures { (x : Stream) → at stream self.old.state.streams ≡ Some x → self.new ≡ with_state (with_streams (put stream (given_up self.old.state.now x) self.old.state.streams) self.old.state) self.old }
    {
        let now = self.moment;
        if let Some(slot) = self.streams.get_mut(stream) {
            slot.give_up(now);
        }
    }

    /// There was no memory: the requests of the stream are dropped, and its exchange is answered so. No baton is issued.
    fn give_up(&mut self, conn: u32, close: bool, stream: u64) -> Outs
        ensures given { result ≡ empty_503 conn close }
        ensures hub { (x : Stream) → at stream self.old.state.streams ≡ Some x
            → self.new ≡ with_state (without_exchange conn (with_streams (put stream (given_up self.old.state.now x) self.old.state.streams) self.old.state)) self.old }
    {
        self.drop_requests(stream);
        let _stream = self.exchanges.remove(conn);
        without_memory(self.alloc, conn, close)
    }

    /// The stream rests with this baton.
    fn rest_with(&mut self, stream: u64, text: [u8; 32])
        ensures { (x : Stream) → at stream self.old.state.streams ≡ Some x → self.new ≡ with_state (with_streams (put stream (rested text self.old.state.now x) self.old.state.streams) self.old.state) self.old }
    {
        let now = self.moment;
        if let Some(slot) = self.streams.get_mut(stream) {
            slot.hand_out(now, text);
        }
    }

    /// The answer with a new baton, which is issued at this moment. Takes no memory.
    pub(crate) fn hand_out(
        &mut self,
        conn: u32,
        stream: u64,
        words: [u64; 2],
        answer: BlankAnswer,
    ) -> Outs
        requires place { Contains self.old.store.reserved (numbered stream) }
        requires none { HasNone self.old.store (numbered stream) }
        requires few { self.old.state.issued < 2 ^ 62 }
        requires issued { self.old.store.issued ≡ self.old.state.issued }
        ensures given { (results : List Reply) (close : Bool) → answer ≡ pipeline_answer results (Some blank) close
            → result ≡ answers_with conn (pipeline_answer results (Some (next_baton words self.old.state)) close) }
        ensures hub { (x : Stream) → at stream self.old.state.streams ≡ Some x → HandsOut self.old stream conn words x self.new }
    {
        let now = self.moment;
        let baton = self.store.issue(StreamNo(stream), words, now);
        self.issued += 1;
        self.rest_with(stream, baton.text);
        let _stream = self.exchanges.remove(conn);
        answers_with(conn, answer.with_baton(&baton.text))
    }

    /// The exchange of the stream that runs, which is answered now.
    fn take_running(&mut self, stream: u64) -> Option<Running>
        ensures running { (x : Stream) → at stream self.old.state.streams ≡ Some x → result ≡ running_of x }
        ensures hub { (x : Stream) (e : Exchange) → IsRunning self.old.state stream x e
            → self.new ≡ with_state (with_streams (put stream (in_session (Session.Resting None) x) self.old.state.streams) self.old.state) self.old }
    {
        match self.streams.get_mut(stream) {
            Some(slot) => slot.take_running(),
            None => None,
        }
    }

    /// The exchange runs on.
    fn run_on(&mut self, stream: u64, running: Running)
        ensures { (x : Stream) → at stream self.old.state.streams ≡ Some x → self.new ≡ with_state (with_streams (put stream (in_session (Session.Running running) x) self.old.state.streams) self.old.state) self.old }
    {
        if let Some(slot) = self.streams.get_mut(stream) {
            slot.run_on(running);
        }
    }

    fn is_shut(&self, stream: u64) -> bool
        ensures { (x : Stream) → at stream self.now.state.streams ≡ Some x → result ≡ is_shut x.task.session.state }
    {
        match self.streams.get(stream) {
            Some(slot) => slot.is_shut(),
            None => false,
        }
    }

    /// The answer of a stream that was closed, or broke. It is gone with it. Takes no memory.
    fn take_leave<E: Engine>(
        &mut self,
        engine: &mut E,
        conn: u32,
        stream: u64,
        answer: HttpAnswer,
    ) -> Outs
        requires agrees { HubAgrees E.told E.SHARED (E.db engine.old) (E.live engine.old) self.old }
        requires shut { (x : Stream) → at stream self.old.state.streams ≡ Some x → is_shut x.task.session.state ≡ true }
        requires stream { IsSome (at stream self.old.state.streams) }
        ensures given { result ≡ answers_with conn answer }
        ensures adds { Adds E.told E.SHARED E.meaning E.db E.live E.faults engine.old engine.new self.old self.new
            (λ added. (added ≡ []) × (self.new.state ≡ without_exchange conn (leaves stream self.old.state))) }
        ensures agrees { HubAgrees E.told E.SHARED (E.db engine.new) (E.live engine.new) self.new }
        ensures token { self.new.token ≡ self.old.token }
        ensures later { E.faults engine.old ≤ E.faults engine.new }
    {
        self.end_stream(engine, stream, Undo::Lost);
        let _stream = self.exchanges.remove(conn);
        answers_with(conn, answer)
    }

    /// Each request of the exchange has its result: it is answered, if there is memory.
    fn conclude<E: Engine>(
        &mut self,
        engine: &mut E,
        stream: u64,
        running: Running,
    ) -> Result<Outs, NoMemory>
        requires agrees { HubAgrees E.told E.SHARED (E.db engine.old) (E.live engine.old) self.old }
        requires issues { MayIssue self.old.state }
        requires running { self.old.state.stopped ≡ false }
        requires rests { (x : Stream) → at stream self.old.state.streams ≡ Some x → x.session ≡ Some (Session.Resting None) }
        requires stream { IsSome (at stream self.old.state.streams) }
        ensures adds { Adds E.told E.SHARED E.meaning E.db E.live E.faults engine.old engine.new self.old self.new
            (λ added. (x : Stream) → at stream self.old.state.streams ≡ Some x → Concludes stream x running self.old.state added result self.new.state) }
        ensures err { OnErr result (self.new ≡ self.old) }
        ensures agrees { HubAgrees E.told E.SHARED (E.db engine.new) (E.live engine.new) self.new }
        ensures token { self.new.token ≡ self.old.token }
        ensures later { E.faults engine.old ≤ E.faults engine.new }
    {
        let Running {
            conn,
            words,
            close,
            exchange,
        } = running;
        if self.is_shut(stream) {
            let answer = exchange.into_answer(self.alloc, None, close)?;
            return Ok(self.take_leave(engine, conn, stream, answer));
        }
        let answer = exchange.into_blank_answer(self.alloc, close)?;
        Ok(self.hand_out(conn, stream, words, answer))
    }

    /// The stream has replied to the first of the requests of its exchange, which isn't noted yet.
    fn proceed<E: Engine>(
        &mut self,
        engine: &mut E,
        stream: u64,
        running: Running,
        reply: Reply,
    ) -> Outs
        requires agrees { HubAgrees E.told E.SHARED (E.db engine.old) (E.live engine.old) self.old }
        requires issues { MayIssue self.old.state }
        requires running { self.old.state.stopped ≡ false }
        requires kind { IsPipelineReply reply }
        requires rests { (x : Stream) → at stream self.old.state.streams ≡ Some x → x.session ≡ Some (Session.Resting None) }
        requires stream { IsSome (at stream self.old.state.streams) }
        ensures adds { Adds E.told E.SHARED E.meaning E.db E.live E.faults engine.old engine.new self.old self.new
            (λ added. (x : Stream) → at stream self.old.state.streams ≡ Some x → Settles self.old.state stream x running (Poll.Ready (Stepped.Replied reply)) added result self.new.state) }
        ensures agrees { HubAgrees E.told E.SHARED (E.db engine.new) (E.live engine.new) self.new }
        ensures token { self.new.token ≡ self.old.token }
        ensures later { E.faults engine.old ≤ E.faults engine.new }
    {
        let mut running = running;
        let (conn, close) = (running.conn, running.close);
        if running.exchange.answered(self.alloc, reply).is_err() {
            return self.give_up(conn, close, stream);
        }
        if !running.exchange.is_over() {
            self.run_on(stream, running);
            return nothing();
        }
        match self.conclude(engine, stream, running) {
            Ok(outs) => outs,
            Err(_) => self.give_up(conn, close, stream),
        }
    }

    /// The stream has replied to the first of the requests of its exchange.
    fn note_reply<E: Engine>(&mut self, engine: &mut E, stream: u64, reply: Reply) -> Outs
        requires agrees { HubAgrees E.told E.SHARED (E.db engine.old) (E.live engine.old) self.old }
        requires issues { MayIssue self.old.state }
        requires running { self.old.state.stopped ≡ false }
        requires kind { IsPipelineReply reply }
        requires runs { (x : Stream) → at stream self.old.state.streams ≡ Some x → IsSome (running_of x) }
        requires stream { IsSome (at stream self.old.state.streams) }
        ensures adds { Adds E.told E.SHARED E.meaning E.db E.live E.faults engine.old engine.new self.old self.new
            (λ added. (x : Stream) (e : Exchange) → IsRunning self.old.state stream x e → Settles self.old.state stream x e (Poll.Ready (Stepped.Replied reply)) added result self.new.state) }
        ensures agrees { HubAgrees E.told E.SHARED (E.db engine.new) (E.live engine.new) self.new }
        ensures token { self.new.token ≡ self.old.token }
        ensures later { E.faults engine.old ≤ E.faults engine.new }
    {
        match self.take_running(stream) {
            Some(running) => self.proceed(engine, stream, running, reply),
            None => nothing(),
        }
    }

    /// Tells what a poll gave.
    fn settle_exchange<E: Engine>(
        &mut self,
        engine: &mut E,
        conn: u32,
        close: bool,
        stream: u64,
        polled: Poll<Stepped>,
    ) -> Outs
        requires agrees { HubAgrees E.told E.SHARED (E.db engine.old) (E.live engine.old) self.old }
        requires issues { MayIssue self.old.state }
        requires running { self.old.state.stopped ≡ false }
        requires kind { HasPipelineReply polled }
        requires runs { (x : Stream) → at stream self.old.state.streams ≡ Some x → IsRunningFor conn close x }
        requires stream { IsSome (at stream self.old.state.streams) }
        ensures adds { Adds E.told E.SHARED E.meaning E.db E.live E.faults engine.old engine.new self.old self.new
            (λ added. (x : Stream) (e : Exchange) → IsRunning self.old.state stream x e → Settles self.old.state stream x e polled added result self.new.state) }
        ensures agrees { HubAgrees E.told E.SHARED (E.db engine.new) (E.live engine.new) self.new }
        ensures token { self.new.token ≡ self.old.token }
        ensures later { E.faults engine.old ≤ E.faults engine.new }
    {
        match polled {
            Poll::Ready(Stepped::Replied(reply)) => self.note_reply(engine, stream, reply),
            Poll::Ready(Stepped::Broke) => self.give_up(conn, close, stream),
            Poll::Ready(Stepped::Ran) => nothing(),
            Poll::Ready(Stepped::Idle) => nothing(),
            Poll::Pending => nothing(),
        }
    }

    /// One poll of a stream whose exchange runs, where there are places.
    fn poll_exchange<E: Engine>(
        &mut self,
        engine: &mut E,
        conn: u32,
        close: bool,
        stream: u64,
    ) -> Outs
        requires agrees { HubAgrees E.told E.SHARED (E.db engine.old) (E.live engine.old) self.old }
        requires ahead { IsAhead self.old.state }
        requires running { self.old.state.stopped ≡ false }
        requires room { length self.old.state.streams + 2 ≤ self.old.noted.spare }
        requires runs { (x : Stream) → at stream self.old.state.streams ≡ Some x → IsRunningFor conn close x }
        requires stream { IsSome (at stream self.old.state.streams) }
        ensures adds { Adds E.told E.SHARED E.meaning E.db E.live E.faults engine.old engine.new self.old self.new
            (λ added. (x : Stream) (e : Exchange) → IsRunning self.old.state stream x e → Ends E.SHARED self.old.state stream x e added result self.new.state) }
        ensures agrees { HubAgrees E.told E.SHARED (E.db engine.new) (E.live engine.new) self.new }
        ensures token { self.new.token ≡ self.old.token }
        ensures later { E.faults engine.old ≤ E.faults engine.new }
    {
        polls_reply_to_pipelines();
        let polled = self.poll_stream(engine, stream);
        self.settle_exchange(engine, conn, close, stream, polled)
    }

    /// One poll of a stream that has something to do, and whose exchange runs.
    pub(crate) fn poll_session<E: Engine>(
        &mut self,
        engine: &mut E,
        conn: u32,
        close: bool,
        stream: u64,
    ) -> Outs
        requires agrees { HubAgrees E.told E.SHARED (E.db engine.old) (E.live engine.old) self.old }
        requires ahead { IsAhead self.old.state }
        requires running { self.old.state.stopped ≡ false }
        requires waits { (x : Stream) → at stream self.old.state.streams ≡ Some x → is_waiting x.task.asks ≡ true }
        requires runs { (x : Stream) → at stream self.old.state.streams ≡ Some x → IsRunningFor conn close x }
        requires stream { IsSome (at stream self.old.state.streams) }
        ensures adds { Adds E.told E.SHARED E.meaning E.db E.live E.faults engine.old engine.new self.old self.new (λ added. PollSteps E.SHARED self.old.state stream added result self.new.state) }
        ensures agrees { HubAgrees E.told E.SHARED (E.db engine.new) (E.live engine.new) self.new }
        ensures token { self.new.token ≡ self.old.token }
        ensures later { E.faults engine.old ≤ E.faults engine.new }
    {
        streams_agree::<E>();
        if self.make_places().is_err() {
            return self.give_up(conn, close, stream);
        }
        self.poll_exchange(engine, conn, close, stream)
    }
}
