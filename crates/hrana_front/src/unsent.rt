// The bytes that wait for a peer.
ghost use Rattle.std.specs.Prelude.{◌≡◌, ◌≢◌, ◌≤◌, ◌<◌, ◌==◌, ◌++◌, [], length, drop, Ok};

use crate::NoMemory;
use crate::socket_limits::MAX_UNSENT_BYTES;
use std::alloc::Global;
use std::marker::Model;

/// Whether bytes were added to those that wait.
#[derive(Clone, Copy, Debug, PartialEq, Eq)]
pub enum Room {
    Taken,
    Full,
}

/// The bytes that wait for a peer. Contracts see them as a list.
#[derive(Drop)]
pub struct Unsent {
    bytes: Vec<u8>,
    /// The bytes before this were sent.
    from: usize,
}

impl Model for Unsent {
    ghost use Rattle.std.specs.Prelude.{◌≤◌, List, ℕ, length, drop};

    ghost Value = { List ℕ };

    ghost view = { λ u. drop u.from u.bytes.items };

    ghost invariant = { λ u. u.from ≤ length u.bytes.items };
}

impl Unsent {
    ghost use Rattle.hrana_front.specs.Unsent.{Takes};

    /// Takes no memory.
    pub fn new(alloc: Global) -> Unsent
        ensures { result ≡ [] }
    {
        Unsent {
            bytes: Vec::new(alloc),
            from: 0,
        }
    }

    pub fn is_empty(&self) -> bool
        ensures { result ≡ (length self.now == 0) }
    {
        self.from == self.bytes.len()
    }

    pub fn as_slice(&self) -> &[u8]
        ensures { result.now ≡ self.now }
    {
        &self.bytes[self.from..]
    }

    /// Adds bytes to those that wait, unless too many do.
    pub fn push(&mut self, bytes: &[u8]) -> Result<Room, NoMemory>
        ensures { Takes self.old bytes.now result self.new }
    {
        if self.bytes.len() - self.from > MAX_UNSENT_BYTES {
            return Ok(Room::Full);
        }
        self.bytes.extend_from_slice(bytes)?;
        Ok(Room::Taken)
    }

    /// Takes off what was sent. Each byte is moved at most as often as another was sent.
    pub fn note_sent(&mut self, count: usize)
        requires { count ≤ length self.old }
        ensures { self.new ≡ drop count self.old }
    {
        let from = self.from + count;
        if self.bytes.len() - from > from {
            self.from = from;
        } else {
            self.bytes.drain(..from);
            self.from = 0;
        }
    }
}
