// How a connection over sockets ends.
ghost use Rattle.std.specs.Prelude.{◌≡◌, ◌∷◌, [], ◌<◌};
ghost use Rattle.std.specs.Int.{to_be_bytes, w16};
ghost use Rattle.hrana_front.specs.Ends.{stay_of};

use crate::socket_limits::LEAVING_MS;

/// What is still to be done for a connection that is closed.
#[derive(Clone, Copy, Debug, PartialEq, Eq)]
pub enum Stay {
    /// Its last bytes are sent.
    Send,
    /// It is read until its end (RFC 9112, section 9.6), so that the last bytes reach the peer.
    Drain,
    /// Nothing more.
    Over,
}

/// What is still to be done for a connection that was closed so many milliseconds ago, by whether bytes wait for it, and
/// whether it ended or broke.
pub fn stay_of(unsent: bool, ended: bool, waited: u64) -> Stay
    ensures { result ≡ stay_of unsent ended waited }
{
    if ended || waited >= LEAVING_MS {
        Stay::Over
    } else if unsent {
        Stay::Send
    } else {
        Stay::Drain
    }
}

/// The frame by which a server closes with a code (RFC 6455, sections 5.2 and 5.5.1): the last of its message, of kind 8,
/// unmasked, with a payload of two bytes.
pub fn close_frame(code: u16) -> [u8; 4]
    ensures { result ≡ 136 ∷ 2 ∷ to_be_bytes w16 code }
{
    let [high, low] = code.to_be_bytes();
    [0x88, 2, high, low]
}
