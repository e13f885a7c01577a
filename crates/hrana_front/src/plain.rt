// A connection that speaks HTTP.
ghost use Rattle.hrana_front.specs.Sockets.{NeverForMemory};

use crate::line::{Line, is_for_later};
use crate::web::Web;
use crate::{NoMemory, Put, Took};
use http_wire::{Chosen, Fed, HttpAnswer, Key, Wire, WireFail, answer_bytes, upgrade_bytes};
use std::alloc::Global;
use std::io::Read;

/// The most pieces that one `take` feeds to the wire.
const PIECES: u32 = 16;

/// What came on a connection that speaks HTTP.
#[derive(Drop)]
pub enum Heard {
    Took(Took),
    Upgrade(Key, Chosen),
}

/// A connection that speaks HTTP.
#[derive(Drop)]
pub struct Plain {
    line: Line,
    wire: Wire,
}

fn hear(fed: Result<Fed, WireFail>) -> Result<Option<Heard>, NoMemory>
    ensures { NeverForMemory result }
{
    match fed {
        Ok(Fed::More) => Ok(None),
        Ok(Fed::Ask(ask)) => Ok(Some(Heard::Took(Took::Exchange(ask)))),
        Ok(Fed::Upgrade(key, chosen)) => Ok(Some(Heard::Upgrade(key, chosen))),
        Err(WireFail::NoMemory) => Err(NoMemory),
        Err(fail) => Ok(Some(Heard::Took(Took::Refused(fail)))),
    }
}

impl Plain {
    pub fn new(line: Line, wire: Wire) -> Plain {
        Plain { line, wire }
    }

    pub fn line(&self) -> &Line {
        &self.line
    }

    pub fn line_mut(&mut self) -> &mut Line {
        &mut self.line
    }

    pub fn into_line(self) -> Line {
        self.line
    }

    /// What one more read gives; nothing where the wire waits for more.
    fn read_on(&mut self, alloc: Global, chunk: &mut [u8]) -> Result<Option<Heard>, NoMemory>
        ensures { NeverForMemory result }
    {
        match self.line.read(chunk) {
            Ok(0) => Ok(Some(Heard::Took(Took::Gone))),
            Ok(count) => hear(self.wire.feed(alloc, &chunk[..count])),
            Err(error) if is_for_later(&error) => Ok(Some(Heard::Took(Took::NotYet))),
            Err(_) => Ok(Some(Heard::Took(Took::Gone))),
        }
    }

    /// What comes next. After a want of memory what was read is lost.
    pub fn take(&mut self, alloc: Global, chunk: &mut [u8]) -> Result<Option<Heard>, NoMemory>
        ensures { NeverForMemory result }
    {
        self.line.allow_reads();
        let held = hear(self.wire.feed(alloc, &[]))?;
        if held.is_some() {
            return Ok(held);
        }
        for _ in 0..PIECES {
            let next = self.read_on(alloc, chunk)?;
            if next.is_some() {
                return Ok(next);
            }
        }
        Ok(None)
    }

    pub fn answer(&mut self, alloc: Global, answer: &HttpAnswer) -> Result<Put, NoMemory> {
        let bytes = answer_bytes(alloc, answer)?;
        self.line.send(bytes.as_slice())
    }

    /// Answers an upgrade, and goes on with what came behind it.
    pub fn upgrade(self, alloc: Global, key: &Key, chosen: &Chosen) -> Result<Web, NoMemory> {
        let Plain { mut line, wire } = self;
        let bytes = upgrade_bytes(alloc, key, chosen)?;
        let rest = wire.into_rest();
        let part = rest.as_slice().to_vec(alloc)?;
        line.send(bytes.as_slice())?;
        Ok(Web::new(alloc, line, part))
    }
}
