// The limits of the dialect.
ghost use Rattle.std.specs.Prelude.{◌≡◌};

/// The most columns of a table.
pub const MAX_COLUMNS: usize = 64;

/// The limits by their numbers.
pub fn limits_are()
    ensures { MAX_COLUMNS ≡ 64 }
{}
