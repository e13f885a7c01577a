// Tokens from the system's random device.
ghost use Rattle.std.specs.Prelude.{◌≡◌, ◌++◌, None, IfOk, slice_index};
ghost use Rattle.std.specs.Int.{to_le_bytes, w64};
ghost use Rattle.std.specs.Io.KnownBytes.{Consumes};

use crate::{Failed, Tokens};
use std::fs::File;
use std::io;
use std::io::Read;
use std::rt::Files;

const DEVICE: &str = "/dev/urandom";

/// The word that eight bytes are.
fn word(bytes: [u8; 8]) -> u64
    ensures { to_le_bytes w64 result ≡ bytes }
{
    u64::from_le_bytes(bytes)
}

/// The word that the next bytes of a device are.
fn word_of<D: Read>(device: &mut D) -> io::Result<u64>
    ensures { IfOk result (λ word. Consumes (D.remaining device.old) (D.remaining device.new) (to_le_bytes w64 word)) }
{
    let mut bytes = [0u8; 8];
    device.read_exact(&mut bytes)?;
    Ok(word(bytes))
}

/// The two words that the next bytes of a device are.
fn words_of<D: Read>(device: &mut D) -> io::Result<[u64; 2]>
    ensures { IfOk result (λ words. Consumes (D.remaining device.old) (D.remaining device.new) (to_le_bytes w64 (slice_index words 0) ++ to_le_bytes w64 (slice_index words 1))) }
{
    let first = word_of(device)?;
    let second = word_of(device)?;
    Ok([first, second])
}

/// Tokens from the system's random device, which each call opens.
#[derive(Drop)]
pub struct DeviceTokens<'a, R: Files> {
    files: &'a R,
    faults: u64,
}

impl<'a, R: Files> DeviceTokens<'a, R> {
    pub fn new(files: &'a R) -> DeviceTokens<'a, R> {
        DeviceTokens { files, faults: 0 }
    }

    fn draw(&self) -> io::Result<[u64; 2]> {
        let mut device = File::open(self.files, DEVICE)?;
        words_of(&mut device)
    }
}

impl<R: Files> Tokens for DeviceTokens<'_, R> {
    ghost drawn = { λ t. None };

    ghost faults = { λ t. t.faults };

    fn words(&mut self) -> Result<[u64; 2], Failed> {
        match self.draw() {
            Ok(words) => Ok(words),
            Err(_) => {
                self.faults = self.faults.saturating_add(1);
                Err(Failed)
            }
        }
    }
}
