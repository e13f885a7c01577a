// The limits of batons.
ghost use Rattle.std.specs.Prelude.{◌≡◌};

/// How long a baton lives, in milliseconds: it is accepted while less than this has passed since its issue.
pub const BATON_LIFE_MS: u64 = 10000;

/// The limits as numbers.
pub fn limits_are()
    ensures baton_life_ms { BATON_LIFE_MS ≡ 10000 }
{}
