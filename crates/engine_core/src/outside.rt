// Where bytes come from and go to, each with a count of its faults that never falls.
ghost use Rattle.std.specs.Prelude.{◌≡◌, ◌<◌, ℕ, List, Option, length, IfOk};
ghost use Rattle.std.specs.Io.{ReadsAtMost, WritesAtMost};
ghost use Rattle.std.specs.Io.KnownBytes.{ReadConsumes, WriteAppends};
ghost use Rattle.engine_core.specs.Causes.{HasCause};

use std::io::{Read, Write};

/// The call failed. The object's count of faults has risen.
#[derive(Clone, Copy, Debug, PartialEq, Eq)]
pub struct Failed;

pub trait Source {
    /// The bytes that are left, where the source tells them.
    ghost left: { Self → Option (List ℕ) };

    /// How often it has failed.
    ghost faults: { Self → ℕ };

    /// Reading 0 bytes into a buffer that is not empty is the end of the input.
    fn read(&mut self, buf: &mut [u8]) -> Result<usize, Failed>
        ensures bound { ReadsAtMost result buf.new }
        ensures bytes { ReadConsumes (left self.old) (left self.new) result buf.new }
        ensures cause { HasCause (faults self.old) (faults self.new) result };
}

pub trait Sink {
    /// The bytes that were written, where the sink tells them.
    ghost written: { Self → Option (List ℕ) };

    /// How often it has failed.
    ghost faults: { Self → ℕ };

    /// A piece that is not empty loses at least one byte.
    fn write(&mut self, bytes: &[u8]) -> Result<usize, Failed>
        ensures bound { WritesAtMost result bytes.now }
        ensures some { 0 < length bytes.now → IfOk result (λ n. 0 < n) }
        ensures bytes { WriteAppends (written self.old) (written self.new) result bytes.now }
        ensures cause { HasCause (faults self.old) (faults self.new) result };
}

/// A source over any reader of std, as standard input.
#[derive(Drop)]
pub struct ReaderSource<R: Read + Drop> {
    inner: R,
    faults: u64,
}

impl<R: Read + Drop> ReaderSource<R> {
    pub fn new(inner: R) -> ReaderSource<R>
        ensures { ⟦<ReaderSource<R> as Source>⟧.left result ≡ R.remaining inner }
    {
        ReaderSource { inner, faults: 0 }
    }
}

impl<R: Read + Drop> Source for ReaderSource<R> {
    ghost left = { λ s. R.remaining s.inner };

    ghost faults = { λ s. s.faults };

    fn read(&mut self, buf: &mut [u8]) -> Result<usize, Failed> {
        match self.inner.read(buf) {
            Ok(count) => Ok(count),
            Err(_) => {
                self.faults = self.faults.saturating_add(1);
                Err(Failed)
            }
        }
    }
}

/// A sink over any writer of std, as standard output. A write of no bytes counts as a failure here.
#[derive(Drop)]
pub struct WriterSink<W: Write + Drop> {
    inner: W,
    faults: u64,
}

impl<W: Write + Drop> WriterSink<W> {
    pub fn new(inner: W) -> WriterSink<W>
        ensures { ⟦<WriterSink<W> as Sink>⟧.written result ≡ W.contents inner }
    {
        WriterSink { inner, faults: 0 }
    }
}

impl<W: Write + Drop> Sink for WriterSink<W> {
    ghost written = { λ s. W.contents s.inner };

    ghost faults = { λ s. s.faults };

    fn write(&mut self, bytes: &[u8]) -> Result<usize, Failed> {
        match self.inner.write(bytes) {
            Ok(count) => {
                if count > 0 || bytes.is_empty() {
                    Ok(count)
                } else {
                    self.faults = self.faults.saturating_add(1);
                    Err(Failed)
                }
            }
            Err(_) => {
                self.faults = self.faults.saturating_add(1);
                Err(Failed)
            }
        }
    }
}
