// The limits of a front over sockets.
ghost use Rattle.std.specs.Prelude.{◌≡◌};

/// A peer that leaves more bytes than this unread is dropped when something more is to be sent to it. So at most this many
/// bytes and one out wait for a peer.
pub const MAX_UNSENT_BYTES: usize = 1048576;

/// The most bytes of a message of WebSocket that are handed over. It is above the longest message that is answered, so
/// that what is a little longer is refused where the others are answered; what is longer than this is refused by the front.
pub const MAX_MESSAGE_BYTES: usize = 524288;

/// The most connections that are closed and whose last bytes are still on their way.
pub const MAX_LEAVING: usize = 64;

/// How many milliseconds a connection that is closed has for its last bytes.
pub const LEAVING_MS: u64 = 2000;

/// How many microseconds a turn waits while nothing is unanswered.
pub const WAIT_MICROSECONDS: u64 = 5000;

/// How many microseconds a turn waits after `BUSY_TURNS`. The system may take some 60 more.
pub const SHORT_WAIT_MICROSECONDS: u64 = 100;

/// After so many turns in a row that brought nothing a turn waits also while something is unanswered.
pub const BUSY_TURNS: u32 = 1024;

/// The limits as numbers.
pub fn socket_limits_are()
    ensures max_unsent_bytes { MAX_UNSENT_BYTES ≡ 1048576 }
    ensures max_message_bytes { MAX_MESSAGE_BYTES ≡ 524288 }
    ensures max_leaving { MAX_LEAVING ≡ 64 }
    ensures leaving_ms { LEAVING_MS ≡ 2000 }
    ensures wait_microseconds { WAIT_MICROSECONDS ≡ 5000 }
    ensures short_wait_microseconds { SHORT_WAIT_MICROSECONDS ≡ 100 }
    ensures busy_turns { BUSY_TURNS ≡ 1024 }
{}
