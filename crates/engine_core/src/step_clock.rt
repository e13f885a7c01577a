// A clock in memory.
ghost use Rattle.std.specs.Prelude.{◌≡◌, ◌<◌, vec_len};

use crate::{Clock, NoMemory};
use std::alloc::Global;

/// A clock in memory, which gives the listed readings in their order, and the last one again and again.
#[derive(Drop)]
pub struct StepClock {
    listed: Vec<u64>,
    given: usize,
    ghost some: { 0 < vec_len listed },
}

impl StepClock {
    ghost use Rattle.std.specs.Prelude.{Some, IfOk, [], length};
    ghost use Rattle.engine_core.specs.Readings.{clock_steps};

    pub fn new(alloc: Global, readings: &[u64]) -> Result<StepClock, NoMemory>
        requires { 0 < length readings.now }
        ensures readings { IfOk result (λ c. ⟦<StepClock as Clock>⟧.readings c ≡ Some []) }
        ensures steps { IfOk result (λ c. clock_steps c ≡ record { listed = readings.now; given = 0 }) }
    {
        Ok(StepClock {
            listed: readings.to_vec(alloc)?,
            given: 0,
        })
    }
}

impl Clock for StepClock {
    ghost use Rattle.std.specs.Prelude.{Some};
    ghost use Rattle.engine_core.specs.Readings.{clock_readings, clock_steps, reading_after, step_after, TellsReading};

    ghost readings = { λ c. Some (clock_readings c) };

    fn now(&mut self) -> u64
        ensures reading { TellsReading (Some (clock_readings self.old)) (Some (clock_readings self.new)) result }
        ensures next { result ≡ reading_after (clock_steps self.old).listed (clock_steps self.old).given }
        ensures stepped { clock_steps self.new ≡ step_after (clock_steps self.old) }
    {
        let place = self.given.min(self.listed.len() - 1);
        self.given = self.given.saturating_add(1);
        self.listed[place]
    }
}
