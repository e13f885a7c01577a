// The limit of pipelines.
ghost use Rattle.std.specs.Prelude.{◌≡◌};

/// The most requests of a body.
pub const MAX_PIPELINE_ASKS: usize = 256;

/// The limit as a number.
pub fn limits_are()
    ensures { MAX_PIPELINE_ASKS ≡ 256 }
{}
