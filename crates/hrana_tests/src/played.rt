// Scripts played by the top call over memory, and what is to come of them.
ghost use Rattle.engine_core.specs.Transactions.{NoneLive};

use engine_core::{ByteSink, ByteSource, CountTokens, Engine, NoMemory};
use hrana_journal::MemoryJournal;
use hrana_serve::{Ended, Status, World, hrana};
use std::alloc::Global;
use std::process::Abort;
use std::test::Fail;

/// The numbers of the calls that fail, from 1; 0 where none does.
#[derive(Clone, Copy)]
pub struct Faults {
    pub read: u64,
    pub write: u64,
    pub note: u64,
    pub draw: u64,
}

impl Faults {
    pub const NONE: Faults = Faults {
        read: 0,
        write: 0,
        note: 0,
        draw: 0,
    };
}

/// How a run ended, what it wrote, and what it noted.
#[derive(Drop)]
pub struct Played {
    pub ended: Ended,
    pub sink: ByteSink,
    pub journal: MemoryJournal,
}

pub fn play<E: Engine + Drop>(
    alloc: Global,
    words: &[&str],
    script: &str,
    faults: Faults,
    engine: E,
) -> Result<Played, NoMemory>
    requires { NoneLive (E.live engine) }
{
    let mut world = World {
        source: ByteSource::new(alloc, script.as_bytes(), &[faults.read])?,
        sink: ByteSink::new(alloc, &[faults.write])?,
        engine,
        tokens: CountTokens::new(alloc, &[faults.draw])?,
        journal: MemoryJournal::new(alloc, &[faults.note])?,
    };
    let ended = hrana(alloc, words, &mut world);
    let World { sink, journal, .. } = world;
    Ok(Played {
        ended,
        sink,
        journal,
    })
}

/// What a run is to end with: so many entries were noted, so many are handed back, and this was written.
#[derive(Clone, Copy)]
pub struct Wanted<'a> {
    pub status: Status,
    pub events: u64,
    pub noted: usize,
    pub unsaved: usize,
    pub out: &'a str,
}

/// Plays the script, where the calls of these numbers fail, and compares how it ended.
pub fn compare<E: Engine + Drop>(
    rt: &impl Abort,
    alloc: Global,
    script: &str,
    faults: Faults,
    engine: E,
    wanted: Wanted,
) -> Result<(), Fail>
    requires { NoneLive (E.live engine) }
{
    let played = play(alloc, &["replay"], script, faults, engine)?;
    let ended = &played.ended;
    let counts = (
        ended.events,
        played.journal.entries().len(),
        ended.unsaved.len(),
    );
    assert_eq!(rt; played.sink.bytes(), wanted.out.as_bytes());
    assert_eq!(rt; ended.status, wanted.status);
    assert_eq!(rt; counts, (wanted.events, wanted.noted, wanted.unsaved));
    Ok(())
}

/// A request of connection `conn`, as the line of a script.
pub fn request_line(
    alloc: Global,
    conn: u32,
    id: usize,
    request: &str,
) -> Result<String, NoMemory> {
    Ok(format!(in alloc;
        "> {conn} {{\"type\":\"request\",\"request_id\":{id},\"request\":{request}}}\n"
    )?)
}

/// The line of an answer: a response, or a code and its message.
pub fn answer_line(
    alloc: Global,
    conn: u32,
    id: usize,
    code: &str,
    text: &str,
) -> Result<String, NoMemory> {
    if code.is_empty() {
        return Ok(format!(in alloc;
            "< {conn} {{\"request_id\":{id},\"response\":{text},\"type\":\"response_ok\"}}\n"
        )?);
    }
    Ok(format!(in alloc;
        "< {conn} {{\"error\":{{\"code\":\"{code}\",\"message\":\"{text}\"}},\"request_id\":{id},\"type\":\"response_error\"}}\n"
    )?)
}
