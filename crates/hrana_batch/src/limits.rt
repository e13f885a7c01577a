// The limits of batches.
ghost use Rattle.std.specs.Prelude.{◌≡◌};

/// The most steps of a batch.
pub const MAX_STEPS: usize = 256;

/// How deep a condition may be. One with no parts has the depth 1.
pub const MAX_CONDITION_DEPTH: u32 = 32;

/// The limits as numbers.
pub fn limits_are()
    ensures max_steps { MAX_STEPS ≡ 256 }
    ensures max_condition_depth { MAX_CONDITION_DEPTH ≡ 32 }
{}
