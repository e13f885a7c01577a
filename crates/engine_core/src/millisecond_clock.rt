// A clock over std's.
ghost use Rattle.std.specs.Prelude.{None};

use crate::Clock;
use std::rt;
use std::time::Instant;

/// The milliseconds since it was made. Where no reading can be had it repeats its last one.
#[derive(Drop)]
pub struct MillisecondClock<'a, R: rt::Clock> {
    rt: &'a R,
    start: Option<Instant>,
    last: u64,
}

impl<'a, R: rt::Clock> MillisecondClock<'a, R> {
    pub fn new(rt: &'a R) -> MillisecondClock<'a, R> {
        MillisecondClock {
            rt,
            start: Instant::now(rt).ok(),
            last: 0,
        }
    }

    fn reading(&self) -> Option<u64> {
        let since = self.start?.elapsed(self.rt).ok()?;
        u64::try_from(since.as_millis()).ok()
    }
}

impl<R: rt::Clock> Clock for MillisecondClock<'_, R> {
    ghost readings = { λ c. None };

    fn now(&mut self) -> u64 {
        if let Some(reading) = self.reading() {
            self.last = reading;
        }
        self.last
    }
}
