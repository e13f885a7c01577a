// Reading a source to its end, and writing a piece whole.
ghost use Rattle.std.specs.Prelude.{◌≡◌, ◌↔◌, ◌+◌, ◌<◌, ◌≤◌, ℕ, length, Err, IfOk, IfErr, OnOk, OnErr, IfSome, vec_len};
ghost use Rattle.std.specs.Io.KnownBytes.{Appends};
ghost use Rattle.engine_core.specs.Causes.{Rose, HasCause};
ghost use Rattle.engine_core.specs.Bytes.{AppendsFront};
ghost use Rattle.engine_core.specs.Transfer.{given_count};

use crate::{Failed, MAX_INPUT_BYTES, NoMemory, Sink, Source};
use std::alloc::Global;

const PIECE: usize = 65536;

/// Why a source wasn't read to its end.
#[derive(Clone, Copy, Debug, PartialEq, Eq)]
pub enum ReadAllFail {
    Fault,
    TooLong,
    NoMemory,
}

/// Reads the source to its end, in pieces of 64 KiB.
pub fn read_all<S: Source>(alloc: Global, source: &mut S) -> Result<Vec<u8>, ReadAllFail>
    ensures whole { IfOk result (λ bytes. IfSome (S.left source.old) (λ left. left ≡ bytes.items)) }
    ensures fits { IfOk result (λ bytes. vec_len bytes ≤ MAX_INPUT_BYTES) }
    ensures taken { given_count (S.left source.old) (S.left source.new) ≤ MAX_INPUT_BYTES + 1 }
    ensures too_long { IfSome (S.left source.old) (λ _. (result ≡ Err ReadAllFail.TooLong) ↔ (MAX_INPUT_BYTES < given_count (S.left source.old) (S.left source.new))) }
    ensures fault { result ≡ Err ReadAllFail.Fault → Rose (S.faults source.old) (S.faults source.new) }
    ensures later { S.faults source.old ≤ S.faults source.new }
{
    let mut bytes: Vec<u8> = Vec::new(alloc);
    let mut buf = [0u8; PIECE];
    loop {
        let room = buf.len().min(MAX_INPUT_BYTES + 1 - bytes.len());
        let Ok(count) = source.read(&mut buf[..room]) else {
            return Err(ReadAllFail::Fault);
        };
        if count == 0 {
            return Ok(bytes);
        }
        if count > MAX_INPUT_BYTES - bytes.len() {
            return Err(ReadAllFail::TooLong);
        }
        if bytes.extend_from_slice(&buf[..count]).is_err() {
            return Err(ReadAllFail::NoMemory);
        }
    }
}

/// Writes the piece whole. Where a write fails, a front of it was written.
pub fn write_all<O: Sink>(sink: &mut O, bytes: &[u8]) -> Result<(), Failed>
    ensures ok { OnOk result (Appends (O.written sink.old) (O.written sink.new) bytes.now) }
    ensures err { OnErr result (AppendsFront (O.written sink.old) (O.written sink.new) bytes.now) }
    ensures cause { HasCause (O.faults sink.old) (O.faults sink.new) result }
{
    let mut done = 0;
    while done < bytes.len() {
        let Ok(count) = sink.write(&bytes[done..]) else {
            return Err(Failed);
        };
        done += count;
    }
    Ok(())
}
