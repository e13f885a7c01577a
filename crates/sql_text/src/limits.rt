// The limits of parameters.
ghost use Rattle.std.specs.Prelude.{◌≡◌};

/// The most parameters of a text: their numbers are from 1 to this.
pub const MAX_PARAMETERS: u16 = 256;

/// The limits as numbers.
pub fn limits_are()
    ensures max_parameters { MAX_PARAMETERS ≡ 256 }
{}
