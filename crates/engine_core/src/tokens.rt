// Random words.
ghost use Rattle.std.specs.Prelude.{ℕ, List, Option};
ghost use Rattle.engine_core.specs.Causes.{HasCause};
ghost use Rattle.engine_core.specs.Draws.{Draw, TellsDraw};

use crate::Failed;

pub trait Tokens {
    /// The draws so far, where the tokens tell them.
    ghost drawn: { Self → Option (List Draw) };

    /// How often a draw has failed.
    ghost faults: { Self → ℕ };

    /// Draws two words, which nobody should guess.
    fn words(&mut self) -> Result<[u64; 2], Failed>
        ensures draw { TellsDraw (drawn self.old) (drawn self.new) result }
        ensures cause { HasCause (faults self.old) (faults self.new) result };
}
