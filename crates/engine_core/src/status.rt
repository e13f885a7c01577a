// How a run ended.
ghost use Rattle.std.specs.Prelude.{◌≡◌};
ghost use Rattle.engine_core.specs.Exit.{exit_number_of};

use std::fmt;

/// How a run ended.
#[derive(Clone, Copy, Debug, PartialEq, Eq)]
pub enum Status {
    Done,
    BadWords,
    /// The line, from 1, that is no event's line, or whose event doesn't fit.
    BadScript { line: u64 },
    ReadFault,
    WriteFault,
    JournalFault,
    NoMemory,
    InputTooLong,
}

impl Status {
    /// The exit number of a program that ends so.
    pub fn exit_number(self) -> u8
        ensures { result ≡ exit_number_of self }
    {
        match self {
            Status::Done => 0,
            Status::BadWords => 2,
            Status::BadScript { line: _ } => 3,
            Status::ReadFault => 4,
            Status::WriteFault => 5,
            Status::JournalFault => 7,
            Status::NoMemory => 11,
            Status::InputTooLong => 12,
        }
    }
}

impl fmt::Display for Status {
    fn fmt<W: fmt::Write>(&self, f: &mut fmt::Formatter<W>) -> fmt::Result {
        match self {
            Status::Done => f.write_str("done"),
            Status::BadWords => f.write_str("bad words"),
            Status::BadScript { line } => write!(f, "bad line {line}"),
            Status::ReadFault => f.write_str("read failed"),
            Status::WriteFault => f.write_str("write failed"),
            Status::JournalFault => f.write_str("journal failed"),
            Status::NoMemory => f.write_str("out of memory"),
            Status::InputTooLong => f.write_str("input too long"),
        }
    }
}
