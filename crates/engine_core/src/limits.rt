// The limits of input and results.
ghost use Rattle.std.specs.Prelude.{◌≡◌};

/// The longest input that is taken, in bytes.
pub const MAX_INPUT_BYTES: usize = 67108864;

/// The most rows of a result.
pub const MAX_ROWS: usize = 4096;

/// The most bytes of a result's values: a null and an integer count 8, a text and a blob 8 and their length.
pub const MAX_RESULT_BYTES: usize = 1048576;

/// What the limits are.
pub fn limits_are()
    ensures max_input_bytes { MAX_INPUT_BYTES ≡ 67108864 }
    ensures max_rows { MAX_ROWS ≡ 4096 }
    ensures max_result_bytes { MAX_RESULT_BYTES ≡ 1048576 }
{}
