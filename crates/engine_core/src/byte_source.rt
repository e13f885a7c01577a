// A source in memory.
ghost use Rattle.std.specs.Prelude.{◌≡◌, ◌≤◌, Some, IfOk, vec_len};

use crate::{Failed, NoMemory, Source};
use std::alloc::Global;

/// A source in memory, with a list of the calls that fail, counted from 1.
#[derive(Drop)]
pub struct ByteSource {
    bytes: Vec<u8>,
    at: usize,
    fail_at: Vec<u64>,
    calls: u64,
    faults: u64,
    ghost inside: { at ≤ vec_len bytes },
}

impl ByteSource {
    ghost use Rattle.engine_core.specs.Listed.{source_calls};

    pub fn new(alloc: Global, bytes: &[u8], fail_at: &[u64]) -> Result<ByteSource, NoMemory>
        ensures left { IfOk result (λ s. ⟦<ByteSource as Source>⟧.left s ≡ Some bytes.now) }
        ensures calls { IfOk result (λ s. source_calls s ≡ record { fail_at = fail_at.now; calls = 0 }) }
    {
        Ok(ByteSource {
            bytes: bytes.to_vec(alloc)?,
            at: 0,
            fail_at: fail_at.to_vec(alloc)?,
            calls: 0,
            faults: 0,
        })
    }
}

impl Source for ByteSource {
    ghost use Rattle.std.specs.Io.{ReadsAtMost};
    ghost use Rattle.std.specs.Io.KnownBytes.{ReadConsumes};
    ghost use Rattle.std.specs.Prelude.{OnErr};
    ghost use Rattle.engine_core.specs.Causes.{HasCause};
    ghost use Rattle.engine_core.specs.Listed.{source_calls, source_left, source_faults, CountsCall, FailsNext};

    ghost left = { λ s. Some (source_left s) };

    ghost faults = { source_faults };

    /// Fails exactly at the listed calls.
    fn read(&mut self, buf: &mut [u8]) -> Result<usize, Failed>
        ensures bound { ReadsAtMost result buf.new }
        ensures bytes { ReadConsumes (Some (source_left self.old)) (Some (source_left self.new)) result buf.new }
        ensures cause { HasCause (source_faults self.old) (source_faults self.new) result }
        ensures listed { CountsCall (source_calls self.old) (source_calls self.new) (source_faults self.old) (source_faults self.new) result }
        ensures no_other { OnErr result (FailsNext (source_calls self.old)) }
    {
        self.calls = self.calls.saturating_add(1);
        if self.fail_at.contains(&self.calls) {
            self.faults = self.faults.saturating_add(1);
            return Err(Failed);
        }
        let count = buf.len().min(self.bytes.len() - self.at);
        buf[..count].copy_from_slice(&self.bytes[self.at..self.at + count]);
        self.at += count;
        Ok(count)
    }
}
