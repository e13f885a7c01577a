// The lines of a script, one after another.
ghost use Rattle.std.specs.Prelude.{◌≡◌, ◌∷◌, ◌<◌, length, IfSome};
ghost use Rattle.engine_core.specs.Bytes.{lines_of};
ghost use Rattle.hrana_serve.specs.Lines.{lines_left};

use memchr::memchr;

/// The first line of the bytes, and what is left after its newline.
pub fn next_line(bytes: &[u8]) -> (&[u8], Option<&[u8]>)
    ensures lines { lines_of bytes.now ≡ result.0.now ∷ lines_left result.1 }
    ensures shorter { IfSome result.1 (λ left. length left.now < length bytes.now) }
{
    match memchr(b'\n', bytes) {
        Some(at) => (&bytes[..at], Some(&bytes[at + 1..])),
        None => (bytes, None),
    }
}
