// The open connections.
ghost use Rattle.std.specs.Prelude.{◌≢◌, Ok};
ghost use Rattle.http_wire.specs.declared.asks.WireFail.TheVariants as wire;

use crate::peer::{Became, Peer};
use crate::{NoMemory, Took};
use http_wire::Outs;
use mio::event::Event;
use std::alloc::Global;

/// The open connections.
#[derive(Drop)]
pub struct Peers {
    list: Vec<Peer>,
}

impl Peers {
    /// Takes no memory.
    pub fn new(alloc: Global) -> Peers {
        Peers {
            list: Vec::new(alloc),
        }
    }

    /// Makes room for one more.
    pub fn reserve(&mut self) -> Result<(), NoMemory> {
        self.list.reserve(1)?;
        Ok(())
    }

    pub fn push(&mut self, peer: Peer) -> Result<(), NoMemory> {
        self.list.push(peer)?;
        Ok(())
    }

    /// Whether something that was handed over isn't answered.
    pub fn are_owed(&self) -> bool {
        self.list.iter().any(|peer| peer.is_owed())
    }

    /// Whether something may have come that wasn't taken.
    pub fn are_ready(&self) -> bool {
        self.list.iter().any(|peer| peer.is_ready())
    }

    /// Takes a connection off.
    pub fn remove(&mut self, conn: u32) -> Option<Peer> {
        let at = self.list.iter().position(|peer| peer.conn() == conn)?;
        Some(self.list.remove(at))
    }

    /// Notes what the system says of the socket of a connection, and whether there is one.
    pub fn note(&mut self, conn: u32, event: &Event) -> bool {
        for peer in self.list.iter_mut() {
            if peer.conn() == conn {
                peer.note(event);
                return true;
            }
        }
        false
    }

    /// What comes next on a connection.
    pub fn take(&mut self, conn: u32, alloc: Global, chunk: &mut [u8]) -> Result<Took, NoMemory>
        ensures { result ≢ Ok (Took.Refused wire.NoMemory) }
    {
        for peer in self.list.iter_mut() {
            if peer.conn() == conn {
                return peer.take(alloc, chunk);
            }
        }
        Ok(Took::Gone)
    }

    /// Sends what an event gave on its connection.
    pub fn put(&mut self, alloc: Global, outs: &Outs) -> Result<Became, NoMemory> {
        for peer in self.list.iter_mut() {
            if peer.conn() == outs.conn {
                return peer.put(alloc, outs);
            }
        }
        Ok(Became::Gone)
    }
}
