// Whether a connection waits to be accepted.
ghost use Rattle.std.specs.Prelude.{◌≡◌, ◌≢◌, ◌↔◌, None};

use std::io::ErrorKind;

/// Whether a connection waits to be accepted.
#[derive(Clone, Copy, Debug, PartialEq, Eq)]
pub enum Door {
    /// None until the system says so.
    Quiet,
    /// One may.
    Open,
    /// One may, but the system had no room for it.
    Stuck,
    /// No connection can come any more.
    Broken,
}

/// EBADF, EINVAL, ENOTSOCK and EOPNOTSUPP: the socket doesn't listen.
const NO_LISTENER: [i32; 4] = [9, 22, 88, 95];

/// What an `accept` of the system that failed leaves, by the kind of its error and its number. A connection that was reset
/// before it was accepted leaves the others waiting.
pub fn door_after(kind: ErrorKind, number: Option<i32>) -> Door
    ensures quiet { (result ≡ Door.Quiet) ↔ (kind ≡ ErrorKind.WouldBlock) }
    ensures reset { kind ≡ ErrorKind.ConnectionAborted → result ≡ Door.Open }
    ensures stuck { number ≡ None → result ≢ Door.Broken }
{
    match (kind, number) {
        (ErrorKind::WouldBlock, _) => Door::Quiet,
        (ErrorKind::ConnectionAborted | ErrorKind::Interrupted, _) => Door::Open,
        (_, Some(number)) if NO_LISTENER.contains(&number) => Door::Broken,
        _ => Door::Stuck,
    }
}
