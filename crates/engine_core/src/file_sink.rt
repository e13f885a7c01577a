// A sink over a file.
ghost use Rattle.std.specs.Prelude.{◌≡◌, ◌<◌, None, length, IfOk};
ghost use Rattle.std.specs.Io.{WritesAtMost};

use crate::{Failed, Sink};
use std::fs::File;
use std::io;
use std::io::Write;
use std::rt::Files;

/// A sink over a file, which the first write creates in the place of an older one.
#[derive(Drop)]
pub struct FileSink<'a, R: Files> {
    files: &'a R,
    name: &'a str,
    file: Option<R::File>,
    faults: u64,
}

impl<'a, R: Files> FileSink<'a, R> {
    pub fn new(files: &'a R, name: &'a str) -> FileSink<'a, R> {
        FileSink {
            files,
            name,
            file: None,
            faults: 0,
        }
    }

    fn write_file(&mut self, bytes: &[u8]) -> io::Result<usize>
        ensures bound { WritesAtMost result bytes.now }
        ensures faults { self.new.faults ≡ self.old.faults }
    {
        if let Some(file) = &mut self.file {
            return file.write(bytes);
        }
        let mut file = File::create(self.files, self.name)?;
        let written = file.write(bytes);
        self.file = Some(file);
        written
    }
}

impl<R: Files> Sink for FileSink<'_, R> {
    ghost written = { λ s. None };

    ghost faults = { λ s. s.faults };

    fn write(&mut self, bytes: &[u8]) -> Result<usize, Failed> {
        match self.write_file(bytes) {
            Ok(count) if count > 0 || bytes.is_empty() => Ok(count),
            _ => {
                self.faults = self.faults.saturating_add(1);
                Err(Failed)
            }
        }
    }
}
