// The wire of a connection.
ghost use Rattle.std.specs.Prelude.{◌≡◌, ◌≤◌, [], length, drop, IfOk};
ghost use Rattle.http_wire.specs.Wire.{Feeds, start};

use crate::look::{Look, look_at};
use crate::{Fed, WireFail};
use hrana_value::{Bytes, NoMemory};
use std::alloc::Global;
use std::marker::Model;

/// What came of the connection so far.
#[derive(Clone, Copy)]
pub enum Stage {
    /// Requests, each whole one answered.
    Reading,
    /// An upgrade.
    Upgraded,
    /// A refusal, never for want of memory.
    Refused(WireFail),
}

/// The bytes that came on a connection and that no answer took yet, and what came of the connection so far. Contracts see
/// these two (`Held`).
#[derive(Drop)]
pub struct Wire {
    held: Vec<u8>,
    /// The bytes before this were taken.
    from: usize,
    /// Fewer bytes than this have nothing to be answered.
    need: usize,
    stage: Stage,
}

impl Model for Wire {
    ghost use Rattle.std.specs.Prelude.{◌≤◌, length, drop};
    ghost use Rattle.http_wire.specs.Wire.{Held, WaitsBelow};

    ghost Value = { Held };

    ghost view = { λ w. record { bytes = drop w.from w.held.items; stage = w.stage } };

    ghost invariant = { λ w. (w.from ≤ length w.held.items) × WaitsBelow w.need (drop w.from w.held.items) };
}

/// Takes the bytes before `from` off, at once or later, and says where the rest begins then. Each byte is moved at
/// most as often as another was taken.
fn taken_off(held: &mut Vec<u8>, from: usize) -> usize
    requires { from ≤ length held.old.items }
    ensures within { result ≤ length held.new.items }
    ensures rest { drop result held.new.items ≡ drop from held.old.items }
{
    if held.len() - from > from {
        return from;
    }
    held.drain(..from);
    0
}

impl Wire {
    /// A connection that sent nothing yet. Takes no memory.
    pub fn new(alloc: Global) -> Result<Wire, NoMemory>
        ensures { IfOk result (λ wire. wire ≡ start) }
    {
        Ok(Wire {
            held: Vec::new(alloc),
            from: 0,
            need: 0,
            stage: Stage::Reading,
        })
    }

    /// `feed` after an upgrade.
    fn keep(&mut self, piece: &[u8]) -> Result<Fed, WireFail>
        requires { self.old.stage ≡ Stage.Upgraded }
        ensures { Feeds self.old piece.now result self.new }
    {
        self.need = 0;
        match self.held.extend_from_slice(piece) {
            Ok(()) => Ok(Fed::More),
            Err(_) => Err(WireFail::NoMemory),
        }
    }

    /// `feed` before one.
    fn read(&mut self, alloc: Global, piece: &[u8]) -> Result<Fed, WireFail>
        requires { self.old.stage ≡ Stage.Reading }
        ensures { Feeds self.old piece.now result self.new }
    {
        let before = self.held.len();
        let Ok(()) = self.held.extend_from_slice(piece) else {
            return Err(WireFail::NoMemory);
        };
        if self.held.len() - self.from < self.need {
            return Ok(Fed::More);
        }
        match look_at(alloc, &self.held[self.from..]) {
            Ok(Look::Wait(need)) => {
                self.need = need;
                Ok(Fed::More)
            }
            Ok(Look::Found(ask, count)) => {
                self.need = 0;
                self.from = taken_off(&mut self.held, self.from + count);
                Ok(Fed::Ask(ask))
            }
            Ok(Look::Switched(key, chosen, count)) => {
                self.need = 0;
                self.from = taken_off(&mut self.held, self.from + count);
                self.stage = Stage::Upgraded;
                Ok(Fed::Upgrade(key, chosen))
            }
            Ok(Look::Refusal(fail)) => {
                self.need = 0;
                self.stage = Stage::Refused(fail);
                Err(fail)
            }
            Err(NoMemory) => {
                self.held.truncate(before);
                Err(WireFail::NoMemory)
            }
        }
    }

    /// Appends the piece, and takes the first whole request or upgrade off the bytes that are held. After a request
    /// `feed(&[])` looks at the rest. After an upgrade every piece is kept for `into_rest`.
    ///
    /// A request has its head by RFC 9112, sections 2 to 5, within `MAX_HEAD_BYTES` and `MAX_FIELDS`, and a body of as many
    /// bytes as its `Content-Length` says (section 6.2), at most `MAX_BODY_BYTES`. An upgrade is that of RFC 6455, section 4.
    /// After a refusal each call answers it again; after want of memory the piece isn't held.
    pub fn feed(&mut self, alloc: Global, piece: &[u8]) -> Result<Fed, WireFail>
        ensures { Feeds self.old piece.now result self.new }
    {
        match self.stage {
            Stage::Reading => self.read(alloc, piece),
            Stage::Upgraded => self.keep(piece),
            Stage::Refused(fail) => Err(fail),
        }
    }

    /// The bytes that no answer took; after an upgrade they are the first of WebSocket. Takes no memory.
    pub fn into_rest(self) -> Bytes
        ensures { result ≡ self.bytes }
    {
        let Wire {
            mut held,
            from,
            need: _,
            stage: _,
        } = self;
        held.drain(..from);
        Bytes::from_vec(held)
    }
}
