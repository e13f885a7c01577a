// Exchanges that come in.
ghost use Rattle.std.specs.Prelude.{◌≡◌, ◌<◌, ◌≤◌, ◌+◌, ◌^◌, Bool, Option, None, Some, List, [], ◌∷◌, All, Contains, IfOk, OnOk, OnErr, length};
ghost use Rattle.http_wire.specs.declared.outs.HttpAnswer.{HttpAnswer};
ghost use Rattle.stream_requests.specs.declared.asks.Ask.{Ask};
ghost use Rattle.pipeline_body.specs.Exchanges.{Progress, asked_in};
ghost use Rattle.pipeline_body.specs.declared.bodies.PipelineBody.{PipelineBody};
ghost use Rattle.baton_store.specs.Batons.{HasNone};
ghost use Rattle.baton_store.specs.Batons.{without as without_session};
ghost use Rattle.engine_core.specs.Draws.{Draw};
ghost use Rattle.stream_task.specs.Doing.{MayBeAsked};
ghost use Rattle.stream_task.specs.Together.{numbered};
ghost use Rattle.hrana_hub.specs.Arrivals.{IsAfter};
ghost use Rattle.hrana_hub.specs.Askers.{asks_these};
ghost use Rattle.hrana_hub.specs.Drawn.{DrawsFrom};
ghost use Rattle.hrana_hub.specs.Exchanges.{works_of, in_session, with_exchange, IsHeard};
ghost use Rattle.hrana_hub.specs.ExchangeArrived.{IsReadyFor, IsPreparedFor, Started, HasSession, StoreFits, Entered, GoesOr, GoesPrepared, answer_by};
ghost use Rattle.hrana_hub.specs.Maps.{at, put, without};
ghost use Rattle.hrana_hub.specs.Polled.{with_streams};
ghost use Rattle.hrana_hub.specs.State.{Stream, State, with_state};
ghost use Rattle.hrana_hub.specs.Step.{ExchangeSteps};
ghost use Rattle.hrana_hub.specs.declared.limits.TheConstants.{MAX_CONNECTIONS};
ghost use Rattle.hrana_hub.specs.declared.sessions.Session.{Session};

use crate::arrivals::accepts;
use crate::hub::Hub;
use crate::limits::MAX_SESSIONS;
use crate::outs::{answers_with, nothing, without_memory};
use crate::sessions::Running;
use crate::slot::Slot;
use baton_store::Redeem;
use engine_core::Tokens;
use hrana_stmt::Code;
use hrana_value::{List, NoMemory, StreamNo, Txt};
use http_wire::{HttpAnswer, HttpAsk, Outs};
use pipeline_body::{
    Asked, BlankAnswer, Exchange, PipelineBody, asks_of_bodies_fit, error_answer, read_ask,
    route_answer,
};
use std::alloc::Global;
use stream_requests::Ask;
use stream_task::Queued;

/// How an exchange goes on once its words are drawn. All memory for it is taken.
#[derive(Drop)]
pub(crate) enum Ready {
    /// Nothing is left to poll.
    Answered(BlankAnswer),
    /// The stream is asked this.
    Waits(Exchange, Queued),
}

/// An exchange before its words are drawn.
#[derive(Drop)]
pub(crate) struct Prepared {
    pub conn: u32,
    pub close: bool,
    pub ready: Ready,
    /// The answer where no words could be drawn.
    pub no_token: HttpAnswer,
}

/// The requests, as they are queued.
fn queue(alloc: Global, asks: List<Ask>) -> Result<Queued, NoMemory>
    requires { All MayBeAsked asks }
    ensures { IfOk result (λ queued. queued ≡ works_of asks) }
{
    let mut queued = Queued::new(alloc);
    for ask in asks.into_vec() {
        queued.add(ask)?;
    }
    Ok(queued)
}

/// How the exchange goes on.
fn make_ready(
    alloc: Global,
    exchange: Exchange,
    asks: List<Ask>,
    close: bool,
) -> Result<Ready, NoMemory>
    requires { All MayBeAsked asks }
    ensures { IfOk result (IsReadyFor exchange asks close) }
{
    if exchange.is_over() {
        return Ok(Ready::Answered(exchange.into_blank_answer(alloc, close)?));
    }
    Ok(Ready::Waits(exchange, queue(alloc, asks)?))
}

impl Hub {
    fn run_slot(&mut self, stream: u64, running: Running, queued: Queued)
        ensures { (x : Stream) → at stream self.old.state.streams ≡ Some x
            → self.new ≡ with_state (with_streams (put stream (in_session (Session.Running running) (asks_these queued x)) self.old.state.streams) self.old.state) self.old }
    {
        if let Some(slot) = self.streams.get_mut(stream) {
            slot.run(running, queued);
        }
    }

    /// An exchange of the stream begins. Takes no memory.
    fn run(&mut self, stream: u64, running: Running, queued: Queued)
        requires unknown { at running.conn self.old.state.exchanges ≡ None }
        requires room { length self.old.state.exchanges < MAX_CONNECTIONS }
        ensures { (x : Stream) → at stream self.old.state.streams ≡ Some x
            → self.new ≡ with_state (with_exchange running.conn stream (with_streams (put stream (in_session (Session.Running running) (asks_these queued x)) self.old.state.streams) self.old.state)) self.old }
    {
        self.exchanges.begin(running.conn, stream);
        self.run_slot(stream, running, queued);
    }

    /// The exchange begins, with these words. Where nothing is left to poll it is answered at once. Takes no memory.
    fn start(&mut self, conn: u32, close: bool, stream: u64, words: [u64; 2], ready: Ready) -> Outs
        requires place { Contains self.old.store.reserved (numbered stream) }
        requires none { HasNone self.old.store (numbered stream) }
        requires few { self.old.state.issued < 2 ^ 62 }
        requires issued { self.old.store.issued ≡ self.old.state.issued }
        requires unknown { at conn self.old.state.exchanges ≡ None }
        requires room { length self.old.state.exchanges < MAX_CONNECTIONS }
        ensures { (x : Stream) (p : Progress) (asks : List Ask) → at stream self.old.state.streams ≡ Some x → IsReadyFor p asks close ready
            → Started self.old stream x asks (record { conn = conn; words = words; close = close; exchange = p }) result self.new }
    {
        match ready {
            Ready::Answered(answer) => self.hand_out(conn, stream, words, answer),
            Ready::Waits(exchange, queued) => {
                let running = Running {
                    conn,
                    words,
                    close,
                    exchange,
                };
                self.run(stream, running, queued);
                nothing()
            }
        }
    }

    /// Places for a stream of exchanges that opens next. Where there is no memory the state is as it was.
    fn make_session(&mut self, conn: u32, number: u64) -> Result<(), NoMemory>
        requires next { number ≡ self.old.state.opened + 1 }
        requires fresh { at number self.old.state.streams ≡ None }
        ensures ok { OnOk result (HasSession conn self.old self.new) }
        ensures err { OnErr result (IsAfter self.old.state self.old self.new) }
    {
        self.turns.reserve_stream(StreamNo(number))?;
        let slot = Slot::new_session(self.alloc, self.moment, conn, number)?;
        self.streams.add(number, slot)?;
        if self.store.reserve_stream(StreamNo(number)).is_err() {
            let _slot = self.streams.remove(number);
            return Err(NoMemory);
        }
        Ok(())
    }

    /// It isn't opened after all.
    fn drop_session(&mut self, number: u64)
        ensures { self.new ≡ record (with_state (with_streams (without number self.old.state.streams) self.old.state) self.old) { store = without_session self.old.store (numbered number) } }
    {
        let _slot = self.streams.remove(number);
        self.store.forget(StreamNo(number));
    }

    /// The exchange opens a stream, unless there are too many.
    fn begin_session<T: Tokens>(
        &mut self,
        tokens: &mut T,
        prepared: Prepared,
    ) -> Result<Outs, NoMemory>
        requires prepared { (body : PipelineBody) × IsPreparedFor body prepared }
        requires few { (self.old.state.opened < 2 ^ 62) × (self.old.state.issued < 2 ^ 62) }
        requires fresh { at (self.old.state.opened + 1) self.old.state.streams ≡ None }
        requires store { StoreFits self.old }
        requires unknown { at prepared.conn self.old.state.exchanges ≡ None }
        requires room { length self.old.state.exchanges < MAX_CONNECTIONS }
        ensures drawn { DrawsFrom T.drawn T.faults tokens.old tokens.new (λ draws. (body : PipelineBody) → IsPreparedFor body prepared → body.baton ≡ None
            → GoesOr (λ ds out new. GoesPrepared body prepared.conn prepared.close self.old.state ds out new) self.old.state draws result self.new.state) }
        ensures entered { Entered self.old self.new }
        ensures later { T.faults tokens.old ≤ T.faults tokens.new }
    {
        let Prepared {
            conn,
            close,
            ready,
            no_token,
        } = prepared;
        if MAX_SESSIONS <= self.streams.sessions() {
            let full = error_answer(self.alloc, 503, Code::TooManyStreams, close)?;
            return Ok(answers_with(conn, by_draw(tokens, full, no_token)));
        }
        let number = self.opened + 1;
        self.make_session(conn, number)?;
        let Ok(words) = tokens.words() else {
            self.drop_session(number);
            return Ok(answers_with(conn, no_token));
        };
        self.opened = number;
        Ok(self.start(conn, close, number, words, ready))
    }

    /// The exchange goes on with the stream that waits for its baton, if there is one.
    fn go_on<T: Tokens>(
        &mut self,
        tokens: &mut T,
        prepared: Prepared,
        baton: &Txt,
    ) -> Result<Outs, NoMemory>
        requires prepared { (body : PipelineBody) × IsPreparedFor body prepared }
        requires few { (self.old.state.opened < 2 ^ 62) × (self.old.state.issued < 2 ^ 62) }
        requires fresh { at (self.old.state.opened + 1) self.old.state.streams ≡ None }
        requires store { StoreFits self.old }
        requires unknown { at prepared.conn self.old.state.exchanges ≡ None }
        requires room { length self.old.state.exchanges < MAX_CONNECTIONS }
        ensures drawn { DrawsFrom T.drawn T.faults tokens.old tokens.new (λ draws. (body : PipelineBody) → IsPreparedFor body prepared → body.baton ≡ Some baton.now
            → GoesOr (λ ds out new. GoesPrepared body prepared.conn prepared.close self.old.state ds out new) self.old.state draws result self.new.state) }
        ensures entered { Entered self.old self.new }
        ensures later { T.faults tokens.old ≤ T.faults tokens.new }
    {
        let Prepared {
            conn,
            close,
            ready,
            no_token,
        } = prepared;
        let dead = error_answer(self.alloc, 400, Code::BatonDead, close)?;
        let Ok(words) = tokens.words() else {
            return Ok(answers_with(conn, no_token));
        };
        match self.store.redeem(baton.as_str(), self.moment) {
            Redeem::Live(stream) => Ok(self.start(conn, close, stream.0, words, ready)),
            Redeem::Dead => Ok(answers_with(conn, dead)),
        }
    }

    /// The exchange of a pipeline.
    fn pipeline<T: Tokens>(
        &mut self,
        tokens: &mut T,
        conn: u32,
        close: bool,
        body: PipelineBody,
    ) -> Result<Outs, NoMemory>
        requires few { (self.old.state.opened < 2 ^ 62) × (self.old.state.issued < 2 ^ 62) }
        requires fresh { at (self.old.state.opened + 1) self.old.state.streams ≡ None }
        requires store { StoreFits self.old }
        requires unknown { at conn self.old.state.exchanges ≡ None }
        requires room { length self.old.state.exchanges < MAX_CONNECTIONS }
        requires asked { All MayBeAsked (asked_in body.asks) }
        ensures drawn { DrawsFrom T.drawn T.faults tokens.old tokens.new (λ draws. GoesOr (λ ds out new. GoesPrepared body conn close self.old.state ds out new) self.old.state draws result self.new.state) }
        ensures entered { Entered self.old self.new }
        ensures later { T.faults tokens.old ≤ T.faults tokens.new }
    {
        let PipelineBody { baton, asks } = body;
        let begun = Exchange::begin(self.alloc, asks)?;
        let ready = make_ready(self.alloc, begun.exchange, begun.asks, close)?;
        let no_token = error_answer(self.alloc, 503, Code::NoToken, close)?;
        let prepared = Prepared {
            conn,
            close,
            ready,
            no_token,
        };
        match baton {
            None => self.begin_session(tokens, prepared),
            Some(text) => self.go_on(tokens, prepared, &text),
        }
    }

    /// An exchange that its route alone doesn't answer.
    fn hear<T: Tokens>(
        &mut self,
        tokens: &mut T,
        conn: u32,
        ask: &HttpAsk,
    ) -> Result<Outs, NoMemory>
        requires few { (self.old.state.opened < 2 ^ 62) × (self.old.state.issued < 2 ^ 62) }
        requires fresh { at (self.old.state.opened + 1) self.old.state.streams ≡ None }
        requires store { StoreFits self.old }
        requires unknown { at conn self.old.state.exchanges ≡ None }
        requires room { length self.old.state.exchanges < MAX_CONNECTIONS }
        ensures drawn { DrawsFrom T.drawn T.faults tokens.old tokens.new (λ draws. GoesOr (λ ds out new. IsHeard self.old.token self.old.state conn ask.now ds out new) self.old.state draws result self.new.state) }
        ensures entered { Entered self.old self.new }
        ensures later { T.faults tokens.old ≤ T.faults tokens.new }
    {
        asks_of_bodies_fit();
        let let_in = accepts(&self.token, &ask.bearer);
        match read_ask(self.alloc, ask, let_in)? {
            Asked::Answered(answer) => Ok(answers_with(conn, answer)),
            Asked::Pipeline(body) => self.pipeline(tokens, conn, ask.close, body),
        }
    }

    /// An exchange has come in. Words are drawn for it once all memory is taken.
    pub(crate) fn exchange<T: Tokens>(&mut self, tokens: &mut T, conn: u32, ask: &HttpAsk) -> Outs
        requires few { (self.old.state.opened < 2 ^ 62) × (self.old.state.issued < 2 ^ 62) }
        requires fresh { at (self.old.state.opened + 1) self.old.state.streams ≡ None }
        requires store { StoreFits self.old }
        requires unknown { at conn self.old.state.exchanges ≡ None }
        requires room { length self.old.state.exchanges < MAX_CONNECTIONS }
        ensures drawn { DrawsFrom T.drawn T.faults tokens.old tokens.new (λ draws. ExchangeSteps self.old.token self.old.state conn ask.now draws result self.new.state) }
        ensures entered { Entered self.old self.new }
        ensures later { T.faults tokens.old ≤ T.faults tokens.new }
    {
        if let Some(answer) = route_answer(self.alloc, ask) {
            return answers_with(conn, answer);
        }
        match self.hear(tokens, conn, ask) {
            Ok(outs) => outs,
            Err(_) => without_memory(self.alloc, conn, ask.close),
        }
    }
}

/// The first answer where words could be drawn, and else the second.
fn by_draw<T: Tokens>(tokens: &mut T, drawn: HttpAnswer, failed: HttpAnswer) -> HttpAnswer
    ensures drawn { DrawsFrom T.drawn T.faults tokens.old tokens.new (λ draws. (draw : Draw) × (draws ≡ draw ∷ []) × (result ≡ answer_by draw drawn failed)) }
    ensures later { T.faults tokens.old ≤ T.faults tokens.new }
{
    match tokens.words() {
        Ok(_) => drawn,
        Err(_) => failed,
    }
}
