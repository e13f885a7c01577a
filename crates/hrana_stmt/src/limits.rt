// The limits of statements.
ghost use Rattle.std.specs.Prelude.{◌≡◌};

/// The most bytes of an SQL text.
pub const MAX_SQL_BYTES: usize = 65536;

/// The most arguments of a statement, positional and named ones together.
pub const MAX_ARGUMENTS: usize = 256;

/// The limits as numbers.
pub fn limits_are()
    ensures max_sql_bytes { MAX_SQL_BYTES ≡ 65536 }
    ensures max_arguments { MAX_ARGUMENTS ≡ 256 }
{}
