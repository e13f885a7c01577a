// Ends of streams from outside.
ghost use Rattle.std.specs.Prelude.{◌≡◌, ◌≤◌, ℕ, true, IsSome, [], take, drop};
ghost use Rattle.txn_table.specs.Turns.{has};
ghost use Rattle.stream_task.specs.Together.{numbered};
ghost use Rattle.hrana_hub.specs.Adds.{Adds};
ghost use Rattle.hrana_hub.specs.Agrees.{HubAgrees};
ghost use Rattle.hrana_hub.specs.Ended.{end_of, ends_of, let_go, all_ends, at_its_end, HasLeft, Frees, FreesExchange};
ghost use Rattle.hrana_hub.specs.Maps.{at, without};
ghost use Rattle.hrana_hub.specs.Arrivals.{nothing};
ghost use Rattle.hrana_hub.specs.Polled.{with_streams};
ghost use Rattle.hrana_hub.specs.Step.{LostAt, ExchangeLost};

use crate::hub::Hub;
use crate::outs::nothing;
use crate::slot::forget_session;
use engine_core::{Engine, Undo};
use http_wire::Outs;
use stream_task::{ends_keep_agreement, ends_lead_on, streams_agree};

impl Hub {
    /// Ends one stream and lets go of it. It holds no turn then, and waits for none.
    pub(crate) fn end_stream<E: Engine>(&mut self, engine: &mut E, stream: u64, why: Undo)
        requires { HubAgrees E.told E.SHARED (E.db engine.old) (E.live engine.old) self.old }
        ensures adds { Adds E.told E.SHARED E.meaning E.db E.live E.faults engine.old engine.new self.old self.new (λ added. added ≡ end_of why (at stream self.old.state.streams)) }
        ensures agrees { HubAgrees E.told E.SHARED (E.db engine.new) (E.live engine.new) self.new }
        ensures state { self.new.state ≡ with_streams (without stream self.old.state.streams) self.old.state }
        ensures table { IsSome (at stream self.old.state.streams) → HasLeft self.new.turns (numbered stream) }
        ensures others { (n : ℕ) → has (numbered n) self.new.turns.waiters ≡ true → has (numbered n) self.old.turns.waiters ≡ true }
        ensures token { self.new.token ≡ self.old.token }
        ensures later { E.faults engine.old ≤ E.faults engine.new }
    {
        streams_agree::<E>();
        ends_keep_agreement::<E>();
        ends_lead_on::<E>();
        if let Some(slot) = self.streams.remove(stream) {
            forget_session(&mut self.store, &slot, stream);
            slot.end(engine, &mut self.turns, &mut self.entries, why);
        }
    }

    /// Ends the stream of the lowest number, and lets go of it.
    fn end_first<E: Engine>(&mut self, engine: &mut E, why: Undo)
        requires { HubAgrees E.told E.SHARED (E.db engine.old) (E.live engine.old) self.old }
        ensures adds { Adds E.told E.SHARED E.meaning E.db E.live E.faults engine.old engine.new self.old self.new (λ added. added ≡ all_ends why (take 1 self.old.state.streams)) }
        ensures agrees { HubAgrees E.told E.SHARED (E.db engine.new) (E.live engine.new) self.new }
        ensures state { self.new.state ≡ with_streams (drop 1 self.old.state.streams) self.old.state }
        ensures token { self.new.token ≡ self.old.token }
        ensures later { E.faults engine.old ≤ E.faults engine.new }
    {
        if let Some(stream) = self.streams.first() {
            self.end_stream(engine, stream, why);
        }
    }

    /// Ends these streams, in this order, and lets go of them.
    fn end_streams<E: Engine>(&mut self, engine: &mut E, streams: &[u64], why: Undo)
        requires { HubAgrees E.told E.SHARED (E.db engine.old) (E.live engine.old) self.old }
        ensures adds { Adds E.told E.SHARED E.meaning E.db E.live E.faults engine.old engine.new self.old self.new (λ added. added ≡ ends_of why streams.now self.old.state.streams) }
        ensures agrees { HubAgrees E.told E.SHARED (E.db engine.new) (E.live engine.new) self.new }
        ensures state { self.new.state ≡ with_streams (let_go streams.now self.old.state.streams) self.old.state }
        ensures token { self.new.token ≡ self.old.token }
        ensures later { E.faults engine.old ≤ E.faults engine.new }
    {
        for stream in streams {
            self.end_stream(engine, *stream, why);
        }
    }

    /// Ends all streams, in rising number.
    fn end_all<E: Engine>(&mut self, engine: &mut E, why: Undo)
        requires { HubAgrees E.told E.SHARED (E.db engine.old) (E.live engine.old) self.old }
        ensures adds { Adds E.told E.SHARED E.meaning E.db E.live E.faults engine.old engine.new self.old self.new (λ added. added ≡ all_ends why self.old.state.streams) }
        ensures agrees { HubAgrees E.told E.SHARED (E.db engine.new) (E.live engine.new) self.new }
        ensures state { self.new.state ≡ with_streams [] self.old.state }
        ensures token { self.new.token ≡ self.old.token }
        ensures later { E.faults engine.old ≤ E.faults engine.new }
    {
        for _ in 0..self.streams.len() {
            self.end_first(engine, why);
        }
    }

    /// The exchange that came in on the connection is lost, if it wasn't answered yet, and its stream with it. Takes no memory.
    fn lose_exchange<E: Engine>(&mut self, engine: &mut E, conn: u32) -> Outs
        requires { HubAgrees E.told E.SHARED (E.db engine.old) (E.live engine.old) self.old }
        ensures adds { Adds E.told E.SHARED E.meaning E.db E.live E.faults engine.old engine.new self.old self.new (λ added. ExchangeLost self.old.state conn (at conn self.old.state.exchanges) added result self.new.state) }
        ensures agrees { HubAgrees E.told E.SHARED (E.db engine.new) (E.live engine.new) self.new }
        ensures freed { FreesExchange conn (at conn self.old.state.exchanges) self.new }
        ensures token { self.new.token ≡ self.old.token }
        ensures later { E.faults engine.old ≤ E.faults engine.new }
    {
        let Some(stream) = self.exchanges.remove(conn) else {
            return nothing();
        };
        self.end_stream(engine, stream, Undo::Lost);
        nothing()
    }

    /// The connection is lost. Takes no memory.
    pub(crate) fn lose<E: Engine>(&mut self, engine: &mut E, conn: u32) -> Outs
        requires { HubAgrees E.told E.SHARED (E.db engine.old) (E.live engine.old) self.old }
        ensures adds { Adds E.told E.SHARED E.meaning E.db E.live E.faults engine.old engine.new self.old self.new (λ added. LostAt self.old.state conn (at conn self.old.state.conns) added result self.new.state) }
        ensures agrees { HubAgrees E.told E.SHARED (E.db engine.new) (E.live engine.new) self.new }
        ensures freed { Frees conn (at conn self.old.state.conns) (at conn self.old.state.exchanges) self.new }
        ensures token { self.new.token ≡ self.old.token }
        ensures later { E.faults engine.old ≤ E.faults engine.new }
    {
        let Some(known) = self.conns.remove(conn) else {
            return self.lose_exchange(engine, conn);
        };
        let streams = known.into_streams();
        self.end_streams(engine, &streams, Undo::Lost);
        nothing()
    }

    /// The run ends. Takes no memory.
    pub(crate) fn stop<E: Engine>(&mut self, engine: &mut E) -> Outs
        requires { HubAgrees E.told E.SHARED (E.db engine.old) (E.live engine.old) self.old }
        ensures adds { Adds E.told E.SHARED E.meaning E.db E.live E.faults engine.old engine.new self.old self.new (λ added. (added ≡ all_ends Undo.Stop self.old.state.streams) × (result ≡ nothing) × (self.new.state ≡ at_its_end self.old.state)) }
        ensures agrees { HubAgrees E.told E.SHARED (E.db engine.new) (E.live engine.new) self.new }
        ensures token { self.new.token ≡ self.old.token }
        ensures later { E.faults engine.old ≤ E.faults engine.new }
    {
        self.end_all(engine, Undo::Stop);
        self.conns.clear();
        self.exchanges.clear();
        self.stopped = true;
        nothing()
    }
}
