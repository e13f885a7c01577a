// A clock.
ghost use Rattle.std.specs.Prelude.{ℕ, List, Option};
ghost use Rattle.engine_core.specs.Readings.{TellsReading};

pub trait Clock {
    /// The readings so far, where the clock tells them.
    ghost readings: { Self → Option (List ℕ) };

    /// The milliseconds that the clock reads.
    fn now(&mut self) -> u64
        ensures { TellsReading (readings self.old) (readings self.new) result };
}
