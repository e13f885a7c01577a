// A socket with the bytes that wait for its peer.
ghost use Rattle.std.specs.Io.{ReadsAtMost, WritesAtMost};

use crate::unsent::{Room, Unsent};
use crate::{NoMemory, Put};
use mio::net::TcpStream;
use std::alloc::Global;
use std::io;
use std::io::{ErrorKind, Read, Write};
use std::net::Shutdown;

/// How often a socket is read in one `take`, so that a peer that sends without end doesn't keep the others waiting.
const READS: u32 = 16;

/// A socket that doesn't block. What it doesn't take at once waits here, so a write takes all bytes or fails.
#[derive(Drop)]
pub struct Line {
    stream: TcpStream,
    unsent: Unsent,
    reads: u32,
    dry: bool,
    broken: bool,
}

/// Whether a read or a write is to be tried again later.
pub fn is_for_later(error: &io::Error) -> bool {
    matches!(error.kind(), ErrorKind::WouldBlock | ErrorKind::Interrupted)
}

impl Line {
    pub fn new(alloc: Global, stream: TcpStream) -> Line {
        Line {
            stream,
            unsent: Unsent::new(alloc),
            reads: 0,
            dry: false,
            broken: false,
        }
    }

    /// Whether nothing comes in until the system says so.
    pub fn is_dry(&self) -> bool {
        self.dry
    }

    pub fn is_broken(&self) -> bool {
        self.broken
    }

    pub fn has_unsent(&self) -> bool {
        !self.unsent.is_empty()
    }

    /// From now on the connection counts as gone.
    pub fn give_up(&mut self) {
        self.broken = true;
    }

    /// Something may come in again.
    pub fn wake(&mut self) {
        self.dry = false;
    }

    /// Allows the reads of one more `take`.
    pub fn allow_reads(&mut self) {
        self.reads = READS;
    }

    /// Tells the peer that nothing more is sent.
    pub fn finish(&mut self) {
        if self.stream.shutdown(Shutdown::Write).is_err() {
            self.broken = true;
        }
    }

    /// Sends what waits, as far as the socket takes it.
    pub fn push_out(&mut self) {
        for _ in 0..usize::MAX {
            if self.broken || self.unsent.is_empty() {
                return;
            }
            match self.stream.write(self.unsent.as_slice()) {
                Ok(0) => self.broken = true,
                Ok(count) => self.unsent.note_sent(count),
                Err(error) if error.kind() == ErrorKind::WouldBlock => return,
                Err(error) => self.broken = error.kind() != ErrorKind::Interrupted,
            }
        }
    }

    /// Sends bytes behind those that wait, now or later. A peer for which too many wait is given up.
    pub fn send(&mut self, bytes: &[u8]) -> Result<Put, NoMemory> {
        self.push_out();
        if !self.broken {
            match self.unsent.push(bytes)? {
                Room::Taken => self.push_out(),
                Room::Full => self.broken = true,
            }
        }
        Ok(if self.broken { Put::Gone } else { Put::Sent })
    }
}

impl Read for Line {
    fn read(&mut self, buf: &mut [u8]) -> io::Result<usize>
        ensures { ReadsAtMost result buf.new }
    {
        if self.reads == 0 {
            return Err(io::Error::from(ErrorKind::WouldBlock));
        }
        self.reads -= 1;
        match self.stream.read(buf) {
            Ok(count) => Ok(count),
            Err(error) => {
                self.dry = error.kind() == ErrorKind::WouldBlock;
                Err(error)
            }
        }
    }
}

impl Write for Line {
    fn write(&mut self, buf: &[u8]) -> io::Result<usize>
        ensures { WritesAtMost result buf.now }
    {
        match self.send(buf) {
            Ok(Put::Sent) => Ok(buf.len()),
            Ok(Put::Gone) => Err(io::Error::from(ErrorKind::BrokenPipe)),
            Err(NoMemory) => Err(io::Error::from(ErrorKind::OutOfMemory)),
        }
    }

    fn flush(&mut self) -> io::Result<()> {
        Ok(())
    }
}
