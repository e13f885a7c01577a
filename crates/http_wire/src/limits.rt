// The limits of requests.
ghost use Rattle.std.specs.Prelude.{◌≡◌};

/// The most bytes of a head, with the empty line that ends it.
pub const MAX_HEAD_BYTES: usize = 16384;

/// The most fields of a head.
pub const MAX_FIELDS: usize = 64;

/// The most bytes of a body.
pub const MAX_BODY_BYTES: usize = 262144;

/// The limits as numbers.
pub fn limits_are()
    ensures max_head_bytes { MAX_HEAD_BYTES ≡ 16384 }
    ensures max_fields { MAX_FIELDS ≡ 64 }
    ensures max_body_bytes { MAX_BODY_BYTES ≡ 262144 }
{}
