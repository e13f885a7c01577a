// The hub, and one event.
ghost use Rattle.std.specs.Prelude.{◌≡◌, ◌<◌, ◌≤◌, ◌+◌, ◌^◌, IfOk, IsTrue, true};
ghost use Rattle.engine_core.specs.Transactions.{NoneLive};
ghost use Rattle.hrana_hub.specs.Adds.{Adds};
ghost use Rattle.hrana_hub.specs.Agrees.{HubAgrees, IsNew};
ghost use Rattle.hrana_hub.specs.Maps.{at};
ghost use Rattle.hrana_hub.specs.Arrivals.{shut, with_conn};
ghost use Rattle.hrana_hub.specs.State.{Conn, with_state};
ghost use Rattle.hrana_hub.specs.Step.{Step, Happens, fits, counted};

use crate::connections::Connections;
use crate::exchanges::Exchanges;
use crate::streams::Streams;
use baton_store::BatonStore;
use engine_core::Entries;
use hrana_value::{NoMemory, Txt};
use http_wire::{Out, Outs};
use std::alloc::Global;
use std::marker::Model;
use txn_table::TxnTable;

/// The connections, their streams, who holds the turn, and the entries that no journal took yet.
#[derive(Drop)]
pub struct Hub {
    pub(crate) alloc: Global,
    pub(crate) token: Option<Txt>,
    pub(crate) conns: Connections,
    pub(crate) streams: Streams,
    pub(crate) exchanges: Exchanges,
    /// How many batons were issued.
    pub(crate) issued: u64,
    pub(crate) opened: u64,
    pub(crate) events: u64,
    /// The greatest moment so far.
    pub(crate) moment: u64,
    pub(crate) stopped: bool,
    pub(crate) turns: TxnTable,
    /// The batons that exchanges go on by.
    pub(crate) store: BatonStore,
    pub(crate) entries: Entries,
}

impl Model for Hub {
    ghost use Rattle.std.specs.Coded.{codes};
    ghost use Rattle.hrana_batch.specs.contracts.conditions.Cond as conditions;
    ghost use Rattle.hrana_hub.specs.State.{Seen};

    ghost Value = { Seen };

    ghost coded = { Prim.hlevel (codes, conditions.the_row.coded) };

    ghost view = { λ h. record { token = h.token; state = record { conns = h.conns; streams = h.streams; exchanges = h.exchanges; issued = h.issued; opened = h.opened; next = h.entries.next; version = h.turns.version; events = h.events; now = h.moment; stopped = h.stopped }; turns = h.turns; store = h.store; noted = h.entries } };
}

impl Hub {
    /// A hub that knows nothing yet. Where a token is given, connections have to give it.
    pub fn new(alloc: Global, token: Option<Txt>) -> Result<Hub, NoMemory>
        ensures { IfOk result (λ hub. IsNew token hub) }
    {
        Ok(Hub {
            alloc,
            token,
            conns: Connections::new(alloc)?,
            streams: Streams::new(alloc),
            exchanges: Exchanges::new(alloc)?,
            issued: 0,
            opened: 0,
            events: 0,
            moment: 0,
            stopped: false,
            turns: TxnTable::new(alloc)?,
            store: BatonStore::new(alloc)?,
            entries: Entries::new(alloc)?,
        })
    }

    /// Closes the connection with this code, after what it is told.
    pub(crate) fn close(&mut self, conn: u32, out: Option<Out>, code: u16) -> Outs
        ensures given { result ≡ record { conn = conn; out = out; close = Some code } }
        ensures hub { (k : Conn) → at conn self.old.state.conns ≡ Some k → self.new ≡ with_state (with_conn conn (shut k) self.old.state) self.old }
    {
        self.conns.shut(conn);
        Outs {
            conn,
            out,
            close: Some(code),
        }
    }
}
