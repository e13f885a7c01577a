// A connection over a socket.
ghost use Rattle.std.specs.Prelude.{◌≢◌, Ok};
ghost use Rattle.http_wire.specs.declared.asks.WireFail.TheVariants as wire;

use crate::line::Line;
use crate::owed::{owed_after_put, owed_after_take};
use crate::plain::{Heard, Plain};
use crate::web::Web;
use crate::{NoMemory, Put, Took};
use http_wire::{Chosen, Key, Out, Outs, Wire};
use mio::event::Event;
use std::alloc::Global;
use std::mem;

/// What a connection speaks.
#[derive(Drop)]
enum Talk {
    Plain(Plain),
    Web(Web),
    Over,
}

/// A connection over a socket.
#[derive(Drop)]
pub struct Peer {
    conn: u32,
    owed: u32,
    talk: Talk,
}

/// What became of an out.
#[derive(Clone, Copy, Debug, PartialEq, Eq)]
pub enum Became {
    Sent,
    /// It was sent, and nothing more is.
    Closed,
    Gone,
}

impl Peer {
    pub fn new(conn: u32, line: Line, wire: Wire) -> Peer {
        Peer {
            conn,
            owed: 0,
            talk: Talk::Plain(Plain::new(line, wire)),
        }
    }

    pub fn conn(&self) -> u32 {
        self.conn
    }

    /// Whether something that was handed over isn't answered.
    pub fn is_owed(&self) -> bool {
        self.owed > 0
    }

    /// Whether something may have come that wasn't taken.
    pub fn is_ready(&self) -> bool {
        match &self.talk {
            Talk::Plain(plain) => !plain.line().is_dry(),
            Talk::Web(web) => !web.is_quiet(),
            Talk::Over => true,
        }
    }

    fn is_broken(&self) -> bool {
        match &self.talk {
            Talk::Plain(plain) => plain.line().is_broken(),
            Talk::Web(web) => web.line().is_broken(),
            Talk::Over => true,
        }
    }

    /// Notes what the system says of the socket.
    pub fn note(&mut self, event: &Event) {
        match &mut self.talk {
            Talk::Plain(plain) => note_event(plain.line_mut(), event),
            Talk::Web(web) => note_event(web.line_mut(), event),
            Talk::Over => {}
        }
    }

    /// The socket, where there is one.
    pub fn into_line(self) -> Option<Line> {
        match self.talk {
            Talk::Plain(plain) => Some(plain.into_line()),
            Talk::Web(web) => Some(web.into_line()),
            Talk::Over => None,
        }
    }

    /// Goes over to WebSocket. Where there is no memory the connection is over.
    fn upgrade(&mut self, alloc: Global, key: &Key, chosen: &Chosen) -> Result<Took, NoMemory>
        ensures { result ≢ Ok (Took.Refused wire.NoMemory) }
    {
        match mem::replace(&mut self.talk, Talk::Over) {
            Talk::Plain(plain) => {
                self.talk = Talk::Web(plain.upgrade(alloc, key, chosen)?);
                Ok(Took::Opened)
            }
            _ => Ok(Took::Gone),
        }
    }

    /// What a read of HTTP gave.
    fn heard(&mut self, alloc: Global, heard: Option<Heard>) -> Result<Took, NoMemory>
        requires { heard ≢ Some (Heard.Took (Took.Refused wire.NoMemory)) }
        ensures { result ≢ Ok (Took.Refused wire.NoMemory) }
    {
        match heard {
            Some(Heard::Took(took)) => Ok(took),
            Some(Heard::Upgrade(key, chosen)) => self.upgrade(alloc, &key, &chosen),
            None => Ok(Took::NotYet),
        }
    }

    /// What comes next, before it is counted. A request is answered before the next is read, so that a peer that sends no
    /// more still gets its answer.
    fn next(&mut self, alloc: Global, chunk: &mut [u8]) -> Result<Took, NoMemory>
        ensures { result ≢ Ok (Took.Refused wire.NoMemory) }
    {
        if self.is_broken() {
            return Ok(Took::Gone);
        }
        let heard = match &mut self.talk {
            Talk::Plain(_) if self.owed > 0 => return Ok(Took::NotYet),
            Talk::Plain(plain) if plain.line().is_dry() => return Ok(Took::NotYet),
            Talk::Plain(plain) => match plain.take(alloc, chunk) {
                Ok(heard) => heard,
                Err(NoMemory) => {
                    plain.line_mut().give_up();
                    return Err(NoMemory);
                }
            },
            Talk::Web(web) if web.is_quiet() => return Ok(Took::NotYet),
            Talk::Web(web) => return web.take(alloc),
            Talk::Over => return Ok(Took::Gone),
        };
        self.heard(alloc, heard)
    }

    /// What comes next.
    pub fn take(&mut self, alloc: Global, chunk: &mut [u8]) -> Result<Took, NoMemory>
        ensures { result ≢ Ok (Took.Refused wire.NoMemory) }
    {
        let took = self.next(alloc, chunk)?;
        self.owed = owed_after_take(self.owed, &took);
        Ok(took)
    }

    /// Sends an out. One of the other protocol ends the connection.
    fn send(&mut self, alloc: Global, out: &Out) -> Result<Became, NoMemory> {
        let (put, closes) = match (&mut self.talk, out) {
            (Talk::Plain(plain), Out::Answer(answer)) => {
                (plain.answer(alloc, answer)?, answer.close)
            }
            (Talk::Web(web), Out::Message(text)) => (web.send(alloc, text)?, false),
            _ => (Put::Gone, true),
        };
        Ok(match put {
            Put::Gone => Became::Gone,
            Put::Sent if closes => Became::Closed,
            Put::Sent => Became::Sent,
        })
    }

    /// Sends what an event gave, and closes where it says so.
    pub fn put(&mut self, alloc: Global, outs: &Outs) -> Result<Became, NoMemory> {
        if self.is_broken() {
            return Ok(Became::Gone);
        }
        let became = match &outs.out {
            Some(out) => self.send(alloc, out)?,
            None => Became::Sent,
        };
        self.owed = owed_after_put(self.owed);
        match (outs.close, became) {
            (Some(code), Became::Sent) => {
                if let Talk::Web(web) = &mut self.talk {
                    web.close(code);
                }
                Ok(Became::Closed)
            }
            _ => Ok(became),
        }
    }
}

/// Notes what the system says of a socket.
pub fn note_event(line: &mut Line, event: &Event) {
    if event.is_error() || event.is_write_closed() {
        line.give_up();
    }
    if event.is_readable() || event.is_read_closed() {
        line.wake();
    }
    if event.is_writable() {
        line.push_out();
    }
}
