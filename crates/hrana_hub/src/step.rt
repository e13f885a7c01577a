// One event of the hub.
ghost use Rattle.std.specs.Prelude.{◌≡◌, ◌<◌, ◌≤◌, ◌^◌, true, false};
ghost use Rattle.hrana_hub.specs.Adds.{Adds};
ghost use Rattle.hrana_hub.specs.Agrees.{HubAgrees, IsAhead};
ghost use Rattle.hrana_hub.specs.Drawn.{DrawsFrom};
ghost use Rattle.hrana_hub.specs.Moments.{LossFrees};
ghost use Rattle.hrana_hub.specs.State.{with_state};
ghost use Rattle.hrana_hub.specs.Step.{Step, Comes, ComesOf, is_exchange, fits, may_come, counted};

use crate::events::Event;
use crate::hub::Hub;
use crate::outs::nothing;
use engine_core::{Engine, Tokens};
use http_wire::Outs;
use stream_task::{a_joined_stream_stands, a_stream_joins};

impl Hub {
    /// Counts an event.
    fn count(&mut self)
        requires { self.old.state.events < 2 ^ 62 }
        ensures { self.new ≡ with_state (counted self.old.state) self.old }
    {
        self.events += 1;
    }

    /// What comes of an event that was counted, and isn't an exchange.
    fn happen<E: Engine>(&mut self, engine: &mut E, event: Event) -> Outs
        requires other { is_exchange event ≡ false }
        requires may { may_come self.old.state event ≡ true }
        requires ahead { IsAhead self.old.state }
        requires running { self.old.state.stopped ≡ false }
        requires agrees { HubAgrees E.told E.SHARED (E.db engine.old) (E.live engine.old) self.old }
        ensures adds { Adds E.told E.SHARED E.meaning E.db E.live E.faults engine.old engine.new self.old self.new (λ added. Comes self.old.token E.SHARED self.old.state event added result self.new.state) }
        ensures agrees { HubAgrees E.told E.SHARED (E.db engine.new) (E.live engine.new) self.new }
        ensures freed { LossFrees event self.old self.new }
        ensures token { self.new.token ≡ self.old.token }
        ensures later { E.faults engine.old ≤ E.faults engine.new }
    {
        a_stream_joins::<E>();
        a_joined_stream_stands::<E>();
        match event {
            Event::Opened { conn } => self.open(conn),
            Event::Text { conn, text } => self.text(conn, text.as_slice()),
            Event::Binary { conn } => self.binary(conn),
            Event::Exchange { .. } => nothing(),
            Event::Lost { conn } => self.lose(engine, conn),
            Event::Moment { at } => self.moment(engine, at),
            Event::Poll { stream } => self.poll(engine, stream),
            Event::Stop => self.stop(engine),
        }
    }

    /// What comes of an event that was counted.
    fn come<E: Engine, T: Tokens>(&mut self, engine: &mut E, tokens: &mut T, event: Event) -> Outs
        requires may { may_come self.old.state event ≡ true }
        requires ahead { IsAhead self.old.state }
        requires running { self.old.state.stopped ≡ false }
        requires agrees { HubAgrees E.told E.SHARED (E.db engine.old) (E.live engine.old) self.old }
        ensures adds { DrawsFrom T.drawn T.faults tokens.old tokens.new (λ draws. Adds E.told E.SHARED E.meaning E.db E.live E.faults engine.old engine.new self.old self.new
            (λ added. ComesOf self.old.token E.SHARED self.old.state event draws added result self.new.state)) }
        ensures agrees { HubAgrees E.told E.SHARED (E.db engine.new) (E.live engine.new) self.new }
        ensures freed { LossFrees event self.old self.new }
        ensures token { self.new.token ≡ self.old.token }
        ensures later { E.faults engine.old ≤ E.faults engine.new }
        ensures draws_later { T.faults tokens.old ≤ T.faults tokens.new }
    {
        a_stream_joins::<E>();
        a_joined_stream_stands::<E>();
        match event {
            Event::Exchange { conn, ask } => self.exchange(tokens, conn, &ask),
            other => self.happen(engine, other),
        }
    }

    /// One event: the entries that it adds, what it gives, and the state after it are by the rules of the hub. A step that finds
    /// no memory closes its connection with 1011, or answers its exchange with an empty 503. `Binary`, `Lost`, `Moment` and `Stop`
    /// take none, nor does an exchange that its route alone answers.
    pub fn step<E: Engine, T: Tokens>(
        &mut self,
        engine: &mut E,
        tokens: &mut T,
        event: Event,
    ) -> Outs
        requires fits { fits self.old.state event ≡ true }
        requires agrees { HubAgrees E.told E.SHARED (E.db engine.old) (E.live engine.old) self.old }
        ensures adds { DrawsFrom T.drawn T.faults tokens.old tokens.new (λ draws. Adds E.told E.SHARED E.meaning E.db E.live E.faults engine.old engine.new self.old self.new
            (λ added. Step self.old.token E.SHARED self.old.state event draws added result self.new.state)) }
        ensures agrees { HubAgrees E.told E.SHARED (E.db engine.new) (E.live engine.new) self.new }
        ensures freed { LossFrees event self.old self.new }
        ensures token { self.new.token ≡ self.old.token }
        ensures later { E.faults engine.old ≤ E.faults engine.new }
        ensures draws_later { T.faults tokens.old ≤ T.faults tokens.new }
    {
        self.count();
        self.come(engine, tokens, event)
    }
}
