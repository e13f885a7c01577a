// A front over sockets.

use crate::sockets::{Arrival, Sockets};
use crate::{Accepted, Front, FrontFail, NoMemory, Put, Took};
use http_wire::Outs;
use std::alloc::Global;
use std::net::Net;
use std::rt;

/// A front over one TCP port, whose sockets don't block. It speaks HTTP, and WebSocket after an upgrade. It never answers
/// `Stop`, and tells no calls.
///
/// It waits for its sockets inside its own calls, once a turn at most. A turn begins with a call of `accept`, or with a
/// `take` on a number not above that of the turn's last `take`. It waits `WAIT_MICROSECONDS` at most while each message and
/// request that it handed over was answered by a `put` or its connection is gone, and nothing that came is left to be taken.
/// Else it only looks; after `BUSY_TURNS` turns in a row that brought nothing it waits `SHORT_WAIT_MICROSECONDS` a turn.
///
/// What a socket doesn't take at once waits for its peer, and is sent by later calls. A peer for which more than
/// `MAX_UNSENT_BYTES` wait is given up by the next `put`, which answers `Gone`. A connection that is gone or that an out
/// closed isn't known any more. Its last bytes are still sent, and it is read until its end, in `LEAVING_MS` milliseconds at
/// most; of more than `MAX_LEAVING` such connections the oldest is cut off.
///
/// A request is answered before the next on its connection is read. A message above `MAX_MESSAGE_BYTES`, a text that isn't
/// UTF-8 and what breaks the protocol are answered by a close frame with 1009, 1007 and 1002 (RFC 6455, section 7.4.1), and
/// the connection is gone.
#[derive(Drop)]
pub struct SocketFront<'a, R: rt::Clock> {
    rt: &'a R,
    alloc: Global,
    sockets: Option<Sockets<'a, R>>,
    given: u32,
    faults: u64,
}

impl<'a, R: Net + rt::Clock> SocketFront<'a, R> {
    ghost use Rattle.std.specs.Prelude.{◌≡◌};

    /// A front that doesn't listen yet. Takes no memory.
    pub fn new(rt: &'a R, alloc: Global) -> SocketFront<'a, R>
        ensures given { result.given ≡ 0 }
    {
        SocketFront {
            rt,
            alloc,
            sockets: None,
            given: 0,
            faults: 0,
        }
    }
}

impl<R: Net + rt::Clock> Front for SocketFront<'_, R> {
    ghost use Rattle.std.specs.Prelude.{None};

    ghost told = { λ f. None };

    ghost given = { λ f. f.given };

    ghost puts = { λ f. None };

    ghost faults = { λ f. f.faults };

    /// Listens at an IP address and a port. A front listens once.
    fn listen(&mut self, addr: &str) -> Result<(), FrontFail> {
        let listens = match self.sockets {
            None => Sockets::new(self.rt, self.alloc, addr),
            Some(_) => Err(FrontFail::Failed),
        };
        match listens {
            Ok(sockets) => {
                self.sockets = Some(sockets);
                Ok(())
            }
            Err(fail) => {
                self.faults = self.faults.saturating_add(1);
                Err(fail)
            }
        }
    }

    fn accept(&mut self) -> Result<Accepted, FrontFail> {
        let next = self.given.checked_add(1);
        let accepted = match &mut self.sockets {
            Some(sockets) => sockets.accept(next),
            None => Err(FrontFail::Failed),
        };
        match (accepted, next) {
            (Ok(Arrival::Admitted), Some(conn)) => {
                self.given = conn;
                Ok(Accepted::New(conn))
            }
            (Ok(_), _) => Ok(Accepted::NotYet),
            (Err(fail), _) => {
                self.faults = self.faults.saturating_add(1);
                Err(fail)
            }
        }
    }

    fn take(&mut self, conn: u32) -> Result<Took, NoMemory> {
        let took = match &mut self.sockets {
            Some(sockets) => sockets.take(conn)?,
            None => Took::Gone,
        };
        if let Took::Gone = took {
            self.faults = self.faults.saturating_add(1);
        }
        Ok(took)
    }

    fn put(&mut self, outs: Outs) -> Result<Put, NoMemory> {
        let put = match &mut self.sockets {
            Some(sockets) => sockets.put(&outs)?,
            None => Put::Gone,
        };
        if let Put::Gone = put {
            self.faults = self.faults.saturating_add(1);
        }
        Ok(put)
    }
}
