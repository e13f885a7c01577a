// Moments, and the streams that expire by them.
ghost use Rattle.std.specs.Prelude.{◌≡◌, ◌≢◌, ◌≤◌, ℕ, true, IsSome, Some};
ghost use Rattle.txn_table.specs.Turns.{has};
ghost use Rattle.stream_task.specs.Together.{numbered};
ghost use Rattle.hrana_hub.specs.Adds.{Adds};
ghost use Rattle.hrana_hub.specs.Agrees.{HubAgrees};
ghost use Rattle.hrana_hub.specs.Ended.{end_of, HasLeft};
ghost use Rattle.hrana_hub.specs.Maps.{at, put, left_at, those_left};
ghost use Rattle.hrana_hub.specs.Moments.{expired, left_of, after, expiries, Expire, MomentFrees};
ghost use Rattle.hrana_hub.specs.Polled.{with_streams};
ghost use Rattle.hrana_hub.specs.State.{Stream, of_exchanges};
ghost use Rattle.hrana_hub.specs.Step.{MomentAt};

use crate::hub::Hub;
use crate::outs::nothing;
use engine_core::{Engine, Undo};
use http_wire::Outs;
use stream_task::{ends_keep_agreement, ends_lead_on, streams_agree};

impl Hub {
    /// The stream of a connection expires: it is dead. It holds no turn then, and waits for none.
    fn deaden<E: Engine>(&mut self, engine: &mut E, stream: u64)
        requires { HubAgrees E.told E.SHARED (E.db engine.old) (E.live engine.old) self.old }
        ensures adds { Adds E.told E.SHARED E.meaning E.db E.live E.faults engine.old engine.new self.old self.new (λ added. added ≡ end_of Undo.Expired (at stream self.old.state.streams)) }
        ensures agrees { HubAgrees E.told E.SHARED (E.db engine.new) (E.live engine.new) self.new }
        ensures state { (x : Stream) → at stream self.old.state.streams ≡ Some x → self.new.state ≡ with_streams (put stream (expired x) self.old.state.streams) self.old.state }
        ensures table { IsSome (at stream self.old.state.streams) → HasLeft self.new.turns (numbered stream) }
        ensures others { (n : ℕ) → has (numbered n) self.new.turns.waiters ≡ true → has (numbered n) self.old.turns.waiters ≡ true }
        ensures token { self.new.token ≡ self.old.token }
        ensures later { E.faults engine.old ≤ E.faults engine.new }
    {
        streams_agree::<E>();
        ends_keep_agreement::<E>();
        ends_lead_on::<E>();
        if let Some(slot) = self.streams.get_mut(stream) {
            slot.expire(engine, &mut self.turns, &mut self.entries);
        }
    }

    fn is_session(&self, stream: u64) -> bool
        ensures { (x : Stream) → at stream self.now.state.streams ≡ Some x → result ≡ of_exchanges x }
    {
        match self.streams.get(stream) {
            Some(slot) => slot.of_exchanges(),
            None => false,
        }
    }

    /// The stream expires: one of exchanges is gone, another is dead. It holds no turn then, and waits for none.
    fn expire<E: Engine>(&mut self, engine: &mut E, stream: u64)
        requires { HubAgrees E.told E.SHARED (E.db engine.old) (E.live engine.old) self.old }
        ensures adds { Adds E.told E.SHARED E.meaning E.db E.live E.faults engine.old engine.new self.old self.new (λ added. added ≡ end_of Undo.Expired (at stream self.old.state.streams)) }
        ensures agrees { HubAgrees E.told E.SHARED (E.db engine.new) (E.live engine.new) self.new }
        ensures state { (x : Stream) → at stream self.old.state.streams ≡ Some x → self.new.state ≡ with_streams (left_at stream (left_of x) self.old.state.streams) self.old.state }
        ensures table { IsSome (at stream self.old.state.streams) → HasLeft self.new.turns (numbered stream) }
        ensures others { (n : ℕ) → has (numbered n) self.new.turns.waiters ≡ true → has (numbered n) self.old.turns.waiters ≡ true }
        ensures token { self.new.token ≡ self.old.token }
        ensures later { E.faults engine.old ≤ E.faults engine.new }
    {
        if self.is_session(stream) {
            self.end_stream(engine, stream, Undo::Expired);
        } else {
            self.deaden(engine, stream);
        }
    }

    /// The streams that are due at the moment expire, in rising number.
    fn expire_due<E: Engine>(&mut self, engine: &mut E, moment: u64)
        requires { HubAgrees E.told E.SHARED (E.db engine.old) (E.live engine.old) self.old }
        ensures adds { Adds E.told E.SHARED E.meaning E.db E.live E.faults engine.old engine.new self.old self.new (λ added. added ≡ expiries moment self.old.state.streams) }
        ensures agrees { HubAgrees E.told E.SHARED (E.db engine.new) (E.live engine.new) self.new }
        ensures state { self.new.state ≡ with_streams (those_left (after moment) self.old.state.streams) self.old.state }
        ensures freed { Expire moment self.old self.new }
        ensures token { self.new.token ≡ self.old.token }
        ensures later { E.faults engine.old ≤ E.faults engine.new }
    {
        let mut from: u64 = 0;
        while let Some(stream) = self.streams.next_due(from, moment) {
            self.expire(engine, stream);
            from = stream;
        }
    }

    /// A moment has come. One below the last changes nothing. Takes no memory.
    pub(crate) fn moment<E: Engine>(&mut self, engine: &mut E, moment: u64) -> Outs
        requires { HubAgrees E.told E.SHARED (E.db engine.old) (E.live engine.old) self.old }
        ensures adds { Adds E.told E.SHARED E.meaning E.db E.live E.faults engine.old engine.new self.old self.new (λ added. MomentAt self.old.state moment added result self.new.state) }
        ensures agrees { HubAgrees E.told E.SHARED (E.db engine.new) (E.live engine.new) self.new }
        ensures freed { MomentFrees moment self.old self.new }
        ensures token { self.new.token ≡ self.old.token }
        ensures later { E.faults engine.old ≤ E.faults engine.new }
    {
        if moment < self.moment {
            return nothing();
        }
        self.expire_due(engine, moment);
        self.streams.look_ahead(moment);
        self.moment = moment;
        nothing()
    }
}
