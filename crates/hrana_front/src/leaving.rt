// The connections that are closed and whose last bytes are on their way.

use crate::ends::{Stay, stay_of};
use crate::line::{Line, is_for_later};
use crate::peer::note_event;
use crate::socket_limits::MAX_LEAVING;
use mio::event::Event;
use std::alloc::Global;
use std::io::Read;

/// A connection that is closed.
#[derive(Drop)]
struct Leaver {
    conn: u32,
    line: Line,
    since: u64,
    finished: bool,
}

impl Leaver {
    /// Whether the peer ended the connection, by what it still sends.
    fn has_ended(&mut self, chunk: &mut [u8]) -> bool {
        if self.line.is_dry() {
            return false;
        }
        self.line.allow_reads();
        match self.line.read(chunk) {
            Ok(count) => count == 0,
            Err(error) => !is_for_later(&error),
        }
    }

    /// Does what is still to be done, and says whether something is left.
    fn stays(&mut self, chunk: &mut [u8], now: u64) -> bool {
        let unsent = self.line.has_unsent();
        let ended = self.line.is_broken() || self.finished && self.has_ended(chunk);
        match stay_of(unsent, ended, now.saturating_sub(self.since)) {
            Stay::Over => false,
            Stay::Send => true,
            Stay::Drain => {
                if !self.finished {
                    self.line.finish();
                    self.finished = true;
                }
                true
            }
        }
    }
}

/// The connections that are closed and whose last bytes are on their way, the oldest first.
#[derive(Drop)]
pub struct Leaving {
    list: Vec<Leaver>,
}

impl Leaving {
    /// Takes no memory.
    pub fn new(alloc: Global) -> Leaving {
        Leaving {
            list: Vec::new(alloc),
        }
    }

    pub fn is_empty(&self) -> bool {
        self.list.is_empty()
    }

    /// Closes a connection. Where too many are leaving the oldest is cut off, and where there is no memory this one.
    pub fn add(&mut self, conn: u32, line: Line, since: u64) {
        if self.list.len() >= MAX_LEAVING {
            self.list.remove(0);
        }
        let _ = self.list.push(Leaver {
            conn,
            line,
            since,
            finished: false,
        });
    }

    /// Notes what the system says of the socket of a connection.
    pub fn note(&mut self, conn: u32, event: &Event) {
        for leaver in self.list.iter_mut() {
            if leaver.conn == conn {
                note_event(&mut leaver.line, event);
                return;
            }
        }
    }

    /// Goes on with each connection, and drops those that are over.
    pub fn go_on(&mut self, chunk: &mut [u8], now: u64) {
        self.list.retain_mut(|leaver| leaver.stays(chunk, now));
    }
}
