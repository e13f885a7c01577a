// A sink in memory.
ghost use Rattle.std.specs.Prelude.{◌≡◌, Some, IfOk, []};

use crate::{Failed, NoMemory, Sink};
use std::alloc::Global;

/// A sink in memory, with a list of the calls that fail, counted from 1. It takes each piece whole, or nothing where it
/// has no memory for it, which counts as a fault.
#[derive(Drop)]
pub struct ByteSink {
    bytes: Vec<u8>,
    fail_at: Vec<u64>,
    calls: u64,
    faults: u64,
}

impl ByteSink {
    ghost use Rattle.engine_core.specs.Listed.{sink_calls};

    pub fn new(alloc: Global, fail_at: &[u64]) -> Result<ByteSink, NoMemory>
        ensures written { IfOk result (λ s. ⟦<ByteSink as Sink>⟧.written s ≡ Some []) }
        ensures calls { IfOk result (λ s. sink_calls s ≡ record { fail_at = fail_at.now; calls = 0 }) }
    {
        Ok(ByteSink {
            bytes: Vec::new(alloc),
            fail_at: fail_at.to_vec(alloc)?,
            calls: 0,
            faults: 0,
        })
    }

    pub fn bytes(&self) -> &[u8]
        ensures { ⟦<ByteSink as Sink>⟧.written self.now ≡ Some result.now }
    {
        &self.bytes
    }
}

impl Sink for ByteSink {
    ghost use Rattle.std.specs.Io.{WritesAtMost};
    ghost use Rattle.std.specs.Io.KnownBytes.{WriteAppends};
    ghost use Rattle.std.specs.Prelude.{◌<◌, length};
    ghost use Rattle.engine_core.specs.Causes.{HasCause};
    ghost use Rattle.engine_core.specs.Listed.{sink_calls, sink_bytes, sink_faults, CountsCall};

    ghost written = { λ s. Some (sink_bytes s) };

    ghost faults = { sink_faults };

    /// Fails at the listed calls, and at others only for want of memory.
    fn write(&mut self, bytes: &[u8]) -> Result<usize, Failed>
        ensures bound { WritesAtMost result bytes.now }
        ensures some { 0 < length bytes.now → IfOk result (λ n. 0 < n) }
        ensures bytes { WriteAppends (Some (sink_bytes self.old)) (Some (sink_bytes self.new)) result bytes.now }
        ensures cause { HasCause (sink_faults self.old) (sink_faults self.new) result }
        ensures listed { CountsCall (sink_calls self.old) (sink_calls self.new) (sink_faults self.old) (sink_faults self.new) result }
    {
        self.calls = self.calls.saturating_add(1);
        if self.fail_at.contains(&self.calls) || self.bytes.extend_from_slice(bytes).is_err() {
            self.faults = self.faults.saturating_add(1);
            return Err(Failed);
        }
        Ok(bytes.len())
    }
}
