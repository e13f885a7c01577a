// A port with its connections.
ghost use Rattle.std.specs.Prelude.{◌≢◌, Ok};
ghost use Rattle.http_wire.specs.declared.asks.WireFail.TheVariants as wire;

use crate::door::{Door, door_after};
use crate::leaving::Leaving;
use crate::line::Line;
use crate::pace::{Pace, Wait};
use crate::peer::{Became, Peer};
use crate::peers::Peers;
use crate::{FrontFail, NoMemory, Put, Took};
use engine_core::{Clock, MillisecondClock};
use http_wire::{Outs, Wire};
use mio::event::Event;
use mio::net::{TcpListener, TcpStream};
use mio::{Events, Interest, Poll, Token};
use std::alloc::Global;
use std::net::{Net, SocketAddr};
use std::time::Duration;
use std::{io, rt, thread};

/// How many events one wait gives at most.
const EVENTS: usize = 256;

/// How many bytes one read asks for.
const READ_BYTES: usize = 16384;

/// The token of the listener. A connection has its number.
const LISTENER: Token = Token(0);

/// Whether a connection was accepted.
#[derive(Clone, Copy, Debug, PartialEq, Eq)]
pub enum Arrival {
    Admitted,
    Nobody,
}

/// A port with its connections.
#[derive(Drop)]
pub struct Sockets<'a, R: rt::Clock> {
    rt: &'a R,
    alloc: Global,
    clock: MillisecondClock<'a, R>,
    poll: Poll,
    events: Events,
    listener: TcpListener,
    door: Door,
    pace: Pace,
    peers: Peers,
    leaving: Leaving,
    chunk: Vec<u8>,
}

fn bound<R: Net>(rt: &R, poll: &Poll, addr: SocketAddr) -> io::Result<TcpListener> {
    let mut listener = TcpListener::bind(rt, addr)?;
    poll.registry()
        .register(&mut listener, LISTENER, Interest::READABLE)?;
    Ok(listener)
}

fn failed<T: Drop>(outcome: io::Result<T>) -> Result<T, FrontFail> {
    match outcome {
        Ok(value) => Ok(value),
        Err(_) => Err(FrontFail::Failed),
    }
}

impl<'a, R: Net + rt::Clock> Sockets<'a, R> {
    /// A port that listens.
    pub fn new(rt: &'a R, alloc: Global, addr: &str) -> Result<Sockets<'a, R>, FrontFail> {
        let Ok(addr) = addr.parse::<SocketAddr>() else {
            return Err(FrontFail::Failed);
        };
        let mut chunk = Vec::new(alloc);
        if chunk.resize(READ_BYTES, 0).is_err() {
            return Err(FrontFail::NoMemory);
        }
        let Ok(events) = Events::with_capacity(alloc, EVENTS) else {
            return Err(FrontFail::NoMemory);
        };
        let poll = failed(Poll::new(rt))?;
        let listener = failed(bound(rt, &poll, addr))?;
        Ok(Sockets {
            rt,
            alloc,
            clock: MillisecondClock::new(rt),
            poll,
            events,
            listener,
            door: Door::Open,
            pace: Pace::new(),
            peers: Peers::new(alloc),
            leaving: Leaving::new(alloc),
            chunk,
        })
    }
}

/// Notes what the system says of a socket.
fn note(peers: &mut Peers, leaving: &mut Leaving, door: &mut Door, event: &Event) {
    let token = event.token();
    if token == LISTENER {
        *door = Door::Open;
    } else if let Ok(conn) = u32::try_from(token.0) {
        if !peers.note(conn, event) {
            leaving.note(conn, event);
        }
    }
}

impl<R: rt::Clock> Sockets<'_, R> {
    /// Waits as long as the turn may, and notes what the system says.
    fn wait(&mut self, wait: Wait) {
        let time = Duration::from_micros(wait.microseconds());
        let timeout = match wait {
            Wait::Long => time,
            // The wait for readiness knows no time below a millisecond.
            Wait::Short => {
                thread::sleep(self.rt, time);
                Duration::from_micros(0)
            }
            Wait::AtOnce => Duration::from_micros(0),
        };
        if self.poll.poll(&mut self.events, Some(timeout)).is_err() {
            self.door = Door::Broken;
        }
        for event in self.events.iter() {
            note(&mut self.peers, &mut self.leaving, &mut self.door, event);
        }
    }

    /// Begins a turn, with or without a call of `accept`.
    fn begin_turn(&mut self, accepts: bool) {
        self.pace.begin();
        let ready = accepts && self.door == Door::Open || self.peers.are_ready();
        let owed = self.peers.are_owed();
        let wait = self.pace.wait(owed, ready);
        self.wait(wait);
        if !self.leaving.is_empty() {
            let now = self.clock.now();
            self.leaving.go_on(&mut self.chunk, now);
        }
    }

    /// Closes a connection.
    fn close(&mut self, conn: u32) {
        let Some(peer) = self.peers.remove(conn) else {
            return;
        };
        if let Some(line) = peer.into_line() {
            self.leaving.add(conn, line, self.clock.now());
            self.leaving.go_on(&mut self.chunk, self.clock.now());
        }
    }

    /// Gives a socket its number, where the system lets it be watched.
    fn admit(
        &mut self,
        mut stream: TcpStream,
        conn: u32,
        wire: Wire,
    ) -> Result<Arrival, FrontFail> {
        let _ = stream.set_nodelay(true);
        let both = Interest::READABLE | Interest::WRITABLE;
        let token = Token(conn as usize);
        if self
            .poll
            .registry()
            .register(&mut stream, token, both)
            .is_err()
        {
            return Ok(Arrival::Nobody);
        }
        let line = Line::new(self.alloc, stream);
        self.peers.push(Peer::new(conn, line, wire))?;
        self.pace.note_brought();
        Ok(Arrival::Admitted)
    }

    /// Accepts a connection under a number.
    pub fn accept(&mut self, next: Option<u32>) -> Result<Arrival, FrontFail> {
        self.begin_turn(true);
        match self.door {
            Door::Broken => return Err(FrontFail::Failed),
            Door::Quiet => return Ok(Arrival::Nobody),
            Door::Open | Door::Stuck => {}
        }
        self.peers.reserve()?;
        let wire = Wire::new(self.alloc)?;
        match (self.listener.accept(), next) {
            (Ok((stream, _)), Some(conn)) => self.admit(stream, conn, wire),
            (Ok(_), None) => Err(FrontFail::Failed),
            (Err(error), _) => {
                self.door = door_after(error.kind(), error.raw_os_error());
                match self.door {
                    Door::Broken => Err(FrontFail::Failed),
                    _ => Ok(Arrival::Nobody),
                }
            }
        }
    }

    /// What comes next on a connection.
    pub fn take(&mut self, conn: u32) -> Result<Took, NoMemory>
        ensures { result ≢ Ok (Took.Refused wire.NoMemory) }
    {
        if self.pace.begins_with(conn) {
            self.begin_turn(false);
        }
        self.pace.note_take(conn);
        let took = self.peers.take(conn, self.alloc, &mut self.chunk)?;
        match took {
            Took::NotYet => {}
            Took::Gone => {
                self.pace.note_brought();
                self.close(conn);
            }
            _ => self.pace.note_brought(),
        }
        Ok(took)
    }

    /// Sends what an event gave on its connection.
    pub fn put(&mut self, outs: &Outs) -> Result<Put, NoMemory> {
        match self.peers.put(self.alloc, outs)? {
            Became::Sent => Ok(Put::Sent),
            Became::Closed => {
                self.close(outs.conn);
                Ok(Put::Sent)
            }
            Became::Gone => {
                self.close(outs.conn);
                Ok(Put::Gone)
            }
        }
    }
}
