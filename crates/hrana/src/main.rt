//! The program `hrana`: the top call over standard input and output, the keeper in memory, and a journal in a file.
#![tactic(auto)]

use engine_core::{CountTokens, FileSink, ReaderSource, WriterSink};
use hrana_journal::LineJournal;
use hrana_serve::{Status, World, hrana};
use memory_keeper::MemoryKeeper;
use std::process::ExitCode;
use std::{env, io};

const VERSION: &str = "hrana 0.1.0 (Hrana 3)\n";

const HELP: &str = "\
hrana: a Hrana 3 SQL server that plays scripts

Usage: hrana COMMAND

Commands:
  replay [TOKEN]  Read a script from standard input, run the event of each line,
                  and print what the server sends. With a TOKEN of 1 to 4096
                  bytes, a hello has to bring it as its jwt, and an HTTP request
                  as its bearer.
                  Example: hrana replay < examples/hello.script

Options, alone:
  --help          Print this text
  --version       Print the version

A script has one event a line. Empty lines are passed over.
  + C       connection C, a number of 1 or more, opens
  > C TEXT  the client of C sends TEXT, one JSON message
  # C       the client of C sends a binary message
  ? C METHOD PATH TOKEN BODY
            an HTTP request comes in on connection C; TOKEN is - for none, and
            BODY may be missing
  ! N       stream N runs the oldest statement that waits on it; streams are
            numbered from 1 in the order in which they were opened
  - C       connection C is lost
  @ T       T milliseconds have passed since the start
A message that the server sends on C is printed as '< C TEXT', each line of an
HTTP answer as '< C STATUS LINE', and a close of C with a code as 'x C CODE'.

What statements did is noted in the file hrana.journal of the current folder,
one JSON object a line. The first entry makes the file, in the place of an older
one.

Exit status: 0 done, 2 bad words, 3 bad line, 4 read failed, 5 write failed,
7 journal failed, 11 out of memory, 12 input too long. If it is not 0, standard
error says why.
";

/// The journal's file, in the current folder.
const JOURNAL: &str = "hrana.journal";

/// The words after the program's name.
fn read_words(rt: &HostRuntime) -> Result<Vec<String>, Status> {
    let args = match env::args(rt) {
        Ok(args) => args,
        Err(error) => {
            return match error.kind() {
                io::ErrorKind::OutOfMemory => Err(Status::NoMemory),
                _ => Err(Status::BadWords),
            };
        }
    };
    match args.skip(1).collect::<Vec<String>>(rt.alloc()) {
        Ok(words) => Ok(words),
        Err(_) => Err(Status::NoMemory),
    }
}

/// Writes the text to standard output.
fn print_text(rt: &HostRuntime, text: &str) -> Status {
    match rt.print(text) {
        Ok(()) => Status::Done,
        Err(_) => Status::WriteFault,
    }
}

/// Runs the words over standard input and output and the journal's file.
fn run_words(rt: &HostRuntime, words: &[&str]) -> Status {
    let alloc = rt.alloc();
    let Ok(engine) = MemoryKeeper::new(alloc) else {
        return Status::NoMemory;
    };
    let Ok(tokens) = CountTokens::new(alloc, &[]) else {
        return Status::NoMemory;
    };
    let mut world = World {
        source: ReaderSource::new(rt.reader()),
        sink: WriterSink::new(io::writer(rt)),
        engine,
        tokens,
        journal: LineJournal::new(alloc, FileSink::new(rt, JOURNAL)),
    };
    hrana(alloc, words, &mut world).status
}

/// Answers a lone `--help` or `--version`, and runs all other words.
fn answer(rt: &HostRuntime, words: &[&str]) -> Status {
    match words {
        ["--help"] => print_text(rt, HELP),
        ["--version"] => print_text(rt, VERSION),
        _ => run_words(rt, words),
    }
}

fn run(rt: &HostRuntime) -> Status {
    let words = match read_words(rt) {
        Ok(words) => words,
        Err(status) => return status,
    };
    match words
        .iter()
        .map(|word| word.as_str())
        .collect::<Vec<&str>>(rt.alloc())
    {
        Ok(words) => answer(rt, words.as_slice()),
        Err(_) => Status::NoMemory,
    }
}

fn main(rt: HostRuntime) -> ExitCode {
    let status = run(&rt);
    if status != Status::Done {
        // The exit number tells the same where standard error takes nothing.
        let _ = eprintln!(rt; "hrana: {status}");
    }
    ExitCode::from(status.exit_number())
}
