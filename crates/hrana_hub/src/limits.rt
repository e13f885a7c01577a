// The limits of the hub.
ghost use Rattle.std.specs.Prelude.{◌≡◌, ◌-◌, ◌^◌};

/// The most connections that are known.
pub const MAX_CONNECTIONS: usize = 64;

/// The most streams of a connection, with those whose close waits.
pub const MAX_STREAMS: usize = 128;

/// The most streams of exchanges.
pub const MAX_SESSIONS: usize = 256;

/// The most requests of a connection that wait for their reply.
pub const MAX_OUTSTANDING: u32 = 32;

/// After how many milliseconds since its last answer a stream expires that holds a transaction and has nothing to do.
pub const EXPIRY_MS: u64 = 10000;

/// The most events of a run.
pub const MAX_EVENTS: u64 = 4611686018427387903;

/// The limits as numbers.
pub fn limits_are()
    ensures max_connections { MAX_CONNECTIONS ≡ 64 }
    ensures max_streams { MAX_STREAMS ≡ 128 }
    ensures max_sessions { MAX_SESSIONS ≡ 256 }
    ensures max_outstanding { MAX_OUTSTANDING ≡ 32 }
    ensures expiry { EXPIRY_MS ≡ 10000 }
    ensures max_events { MAX_EVENTS ≡ 2 ^ 62 - 1 }
{}
