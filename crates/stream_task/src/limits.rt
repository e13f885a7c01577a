// The limits of stored texts.
ghost use Rattle.std.specs.Prelude.{◌≡◌};

/// The most texts that a stream or a connection stores.
pub const MAX_STORED_TEXTS: usize = 32;

/// The most bytes of the texts that a stream or a connection stores, together.
pub const MAX_STORED_BYTES: usize = 262144;

/// The limits as numbers.
pub fn limits_are()
    ensures max_stored_texts { MAX_STORED_TEXTS ≡ 32 }
    ensures max_stored_bytes { MAX_STORED_BYTES ≡ 262144 }
{}
