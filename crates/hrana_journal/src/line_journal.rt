// A journal of lines.
ghost use Rattle.std.specs.Prelude.{◌≡◌};
ghost use Rattle.hrana_journal.specs.Lines.{sink_of};

use crate::line_of;
use engine_core::{Entry, Journal, JournalFail, Sink, write_all};
use std::alloc::Global;

/// A journal that writes each entry to a sink, as a line. It doesn't tell the entries: what it wrote does.
#[derive(Drop)]
pub struct LineJournal<O: Sink + Drop> {
    alloc: Global,
    sink: O,
}

impl<O: Sink + Drop> LineJournal<O> {
    pub fn new(alloc: Global, sink: O) -> LineJournal<O>
        ensures { sink_of result ≡ sink }
    {
        LineJournal { alloc, sink }
    }

    /// Where the lines go.
    pub fn sink(&self) -> &O
        ensures { result.now ≡ sink_of self.now }
    {
        &self.sink
    }
}

impl<O: Sink + Drop> Journal for LineJournal<O> {
    ghost use Rattle.std.specs.Prelude.{◌≤◌, None, Err, OnOk, OnErr};
    ghost use Rattle.std.specs.Io.KnownBytes.{Appends};
    ghost use Rattle.engine_core.specs.Bytes.{AppendsFront};
    ghost use Rattle.engine_core.specs.Causes.{Rose};
    ghost use Rattle.hrana_journal.specs.Lines.{entry_line};

    ghost noted = { λ _. None };

    ghost faults = { λ j. O.faults (sink_of j) };

    /// Writes the entry's line. Where the sink fails, a front of the line was written.
    fn note(&mut self, entry: &Entry) -> Result<(), JournalFail>
        ensures line { OnOk result (Appends (O.written (sink_of self.old)) (O.written (sink_of self.new)) (entry_line entry.now)) }
        ensures front { OnErr result (AppendsFront (O.written (sink_of self.old)) (O.written (sink_of self.new)) (entry_line entry.now)) }
        ensures fault { result ≡ Err JournalFail.Fault → Rose (O.faults (sink_of self.old)) (O.faults (sink_of self.new)) }
        ensures later { O.faults (sink_of self.old) ≤ O.faults (sink_of self.new) }
    {
        let line = line_of(self.alloc, entry)?;
        match write_all(&mut self.sink, line.as_str().as_bytes()) {
            Ok(()) => Ok(()),
            Err(_) => Err(JournalFail::Fault),
        }
    }
}
