// The lines of a script, one after another.
ghost use Rattle.std.specs.Prelude.{◌≡◌, ◌+◌, ◌^◌, ◌<◌, ◌≤◌, true, false, [], length, Ok, Err, OnOk, OnErr, IfOk, IfErr};
ghost use Rattle.std.specs.Io.KnownBytes.{Appends};
ghost use Rattle.engine_core.specs.Bytes.{AppendsFront, lines_of};
ghost use Rattle.engine_core.specs.Causes.{Rose};
ghost use Rattle.engine_core.specs.Transactions.{NoneLive};
ghost use Rattle.engine_core.specs.declared.limits.TheConstants.{MAX_INPUT_BYTES};
ghost use Rattle.hrana_hub.specs.Agrees.{HubAgrees};
ghost use Rattle.hrana_hub.specs.Arrivals.{nothing};
ghost use Rattle.hrana_hub.specs.Drawn.{DrawsFrom};
ghost use Rattle.hrana_hub.specs.State.{first_state};
ghost use Rattle.hrana_hub.specs.Step.{Step, fits};
ghost use Rattle.hrana_serve.specs.Notes.{AddsNoted};
ghost use Rattle.hrana_serve.specs.Printed.{print_outs};
ghost use Rattle.hrana_serve.specs.Replay.{PlaysAs, Halted, IsLinesStatus, BreaksBy, LastsAs, LastStatus, is_saved, status_at, count_at};
ghost use Rattle.hrana_serve.specs.Script.{IsLineOf, IsBadLine};

use crate::lines::next_line;
use crate::notes::{note_entries, run_event};
use crate::prints::print_outs;
use crate::script::{LineFail, event_of_line};
use engine_core::{Engine, Journal, JournalFail, Sink, Status, Tokens, write_all};
use hrana_hub::{Event, Hub, nothing_lives_without_streams, taken_entries_leave_agreement};
use http_wire::Outs;
use std::alloc::Global;

/// Why what an event gave wasn't written whole.
#[derive(Clone, Copy)]
pub enum WriteFail {
    Fault,
    NoMemory,
}

/// What came of a line.
#[derive(Clone, Copy)]
pub enum LineEnd {
    /// Its event was run, its entries were noted, and what it gave was written.
    Played,
    /// It is no event's line, or its event doesn't fit. Nothing changed.
    Bad,
    /// There was no memory to read it, and nothing changed.
    Short,
    /// Its event was run, and the journal didn't take all of its entries.
    Unsaved(JournalFail),
    /// Its event was run, its entries were noted, and what it gave wasn't written whole.
    Unwritten(WriteFail),
}

/// The event of a line that isn't empty, where it fits.
fn next_event(alloc: Global, line: &[u8], hub: &Hub) -> Result<Event, LineFail>
    requires filled { 0 < length line.now }
    ensures line { IfOk result (λ event. IsLineOf line.now event) }
    ensures fits { IfOk result (λ event. fits hub.now.state event ≡ true) }
    ensures none { result ≡ Err LineFail.NoEvent → IsBadLine hub.now.state line.now }
{
    let event = event_of_line(alloc, line)?;
    if hub.fits(&event) {
        Ok(event)
    } else {
        Err(LineFail::NoEvent)
    }
}

/// Writes what an event gave, in one call where the sink takes it whole.
fn write_outs<O: Sink>(alloc: Global, outs: &Outs, sink: &mut O) -> Result<(), WriteFail>
    ensures ok { OnOk result (Appends (O.written sink.old) (O.written sink.new) (print_outs outs.now)) }
    ensures err { OnErr result (AppendsFront (O.written sink.old) (O.written sink.new) (print_outs outs.now)) }
    ensures fault { result ≡ Err WriteFail.Fault → Rose (O.faults sink.old) (O.faults sink.new) }
    ensures later { O.faults sink.old ≤ O.faults sink.new }
{
    let Ok(printed) = print_outs(alloc, outs) else {
        return Err(WriteFail::NoMemory);
    };
    match write_all(sink, printed.as_slice()) {
        Ok(()) => Ok(()),
        Err(_) => Err(WriteFail::Fault),
    }
}

/// Runs the event of a line that isn't empty, notes its entries, and then writes what it gives.
fn play_line<E: Engine, T: Tokens, J: Journal, O: Sink>(
    alloc: Global,
    line: &[u8],
    hub: &mut Hub,
    engine: &mut E,
    tokens: &mut T,
    journal: &mut J,
    sink: &mut O,
) -> LineEnd
    requires filled { 0 < length line.now }
    requires agrees { HubAgrees E.told E.SHARED (E.db engine.old) (E.live engine.old) hub.old }
    requires saved { hub.old.noted.list ≡ [] }
    ensures adds { DrawsFrom T.drawn T.faults tokens.old tokens.new (λ draws. AddsNoted E.told E.SHARED E.meaning E.db E.live E.faults engine.old engine.new hub.old hub.new (J.noted journal.old) (J.noted journal.new)
        (PlaysAs hub.old.token E.SHARED line.now hub.old.state result hub.new.state (O.written sink.old) (O.written sink.new) draws)) }
    ensures agrees { HubAgrees E.told E.SHARED (E.db engine.new) (E.live engine.new) hub.new }
    ensures token { hub.new.token ≡ hub.old.token }
    ensures saved { is_saved result ≡ true → hub.new.noted.list ≡ [] }
    ensures saving { result ≡ LineEnd.Unsaved JournalFail.Fault → Rose (J.faults journal.old) (J.faults journal.new) }
    ensures write { result ≡ LineEnd.Unwritten WriteFail.Fault → Rose (O.faults sink.old) (O.faults sink.new) }
    ensures later { J.faults journal.old ≤ J.faults journal.new }
    ensures sink_later { O.faults sink.old ≤ O.faults sink.new }
    ensures engine_later { E.faults engine.old ≤ E.faults engine.new }
{
    let event = match next_event(alloc, line, hub) {
        Ok(event) => event,
        Err(LineFail::NoEvent) => return LineEnd::Bad,
        Err(LineFail::NoMemory) => return LineEnd::Short,
    };
    let outs = match run_event(hub, engine, tokens, journal, event) {
        Ok(outs) => outs,
        Err(fail) => return LineEnd::Unsaved(fail),
    };
    match write_outs(alloc, &outs, sink) {
        Ok(()) => LineEnd::Played,
        Err(fail) => LineEnd::Unwritten(fail),
    }
}

/// How the lines ended.
#[derive(Clone, Copy)]
pub struct Halt {
    pub status: Status,
    /// How many events were run before `Stop`.
    pub events: u64,
    /// Whether the journal took each entry so far.
    pub saved: bool,
}

/// How the lines end at this line, from 1, after so many events.
fn halt_at(end: LineEnd, at: u64, events: u64) -> Halt
    requires few { events + 1 < 2 ^ 64 }
    ensures status { result.status ≡ status_at end at }
    ensures events { result.events ≡ count_at end events }
    ensures saved { result.saved ≡ is_saved end }
{
    let status = match end {
        LineEnd::Played => Status::Done,
        LineEnd::Bad => Status::BadScript { line: at },
        LineEnd::Short => Status::NoMemory,
        LineEnd::Unsaved(JournalFail::Fault) => Status::JournalFault,
        LineEnd::Unsaved(JournalFail::NoMemory) => Status::NoMemory,
        LineEnd::Unwritten(WriteFail::Fault) => Status::WriteFault,
        LineEnd::Unwritten(WriteFail::NoMemory) => Status::NoMemory,
    };
    let (events, saved) = match end {
        LineEnd::Bad | LineEnd::Short => (events, true),
        LineEnd::Unsaved(_) => (events + 1, false),
        LineEnd::Played | LineEnd::Unwritten(_) => (events + 1, true),
    };
    Halt {
        status,
        events,
        saved,
    }
}

/// Plays the lines of a script up to their end or the first that stops the run.
pub fn play_lines<E: Engine, T: Tokens, J: Journal, O: Sink>(
    alloc: Global,
    script: &[u8],
    hub: &mut Hub,
    engine: &mut E,
    tokens: &mut T,
    journal: &mut J,
    sink: &mut O,
) -> Halt
    requires fresh { hub.old.state ≡ first_state }
    requires saved { hub.old.noted.list ≡ [] }
    requires agrees { HubAgrees E.told E.SHARED (E.db engine.old) (E.live engine.old) hub.old }
    requires short { length script.now ≤ MAX_INPUT_BYTES }
    ensures adds { DrawsFrom T.drawn T.faults tokens.old tokens.new (λ draws. AddsNoted E.told E.SHARED E.meaning E.db E.live E.faults engine.old engine.new hub.old hub.new (J.noted journal.old) (J.noted journal.new)
        (Halted hub.old.token E.SHARED (lines_of script.now) result.status hub.new.state result.events hub.new.noted.list (O.written sink.old) (O.written sink.new) draws)) }
    ensures agrees { HubAgrees E.told E.SHARED (E.db engine.new) (E.live engine.new) hub.new }
    ensures token { hub.new.token ≡ hub.old.token }
    ensures ends { IsLinesStatus result.status }
    ensures few { result.events ≤ MAX_INPUT_BYTES + 1 }
    ensures saved { result.saved ≡ true → hub.new.noted.list ≡ [] }
    ensures unsaved { result.saved ≡ false → BreaksBy (J.faults journal.old) (J.faults journal.new) result.status }
    ensures saving { result.status ≡ Status.JournalFault → Rose (J.faults journal.old) (J.faults journal.new) }
    ensures write { result.status ≡ Status.WriteFault → Rose (O.faults sink.old) (O.faults sink.new) }
    ensures later { J.faults journal.old ≤ J.faults journal.new }
{
    let mut events: u64 = 0;
    let mut at: u64 = 0;
    let mut left = Some(script);
    while let Some(bytes) = left {
        let (line, after) = next_line(bytes);
        left = after;
        at += 1;
        if line.is_empty() {
            continue;
        }
        match play_line(alloc, line, hub, engine, tokens, journal, sink) {
            LineEnd::Played => events += 1,
            end => return halt_at(end, at, events),
        }
    }
    Halt {
        status: Status::Done,
        events,
        saved: true,
    }
}

/// The status of a run whose last entries were noted so. Want of memory of the journal goes before every other.
fn last_status(status: Status, noted: Result<(), JournalFail>) -> Status
    ensures { LastsAs status noted result }
{
    match noted {
        Ok(()) => status,
        Err(JournalFail::NoMemory) => Status::NoMemory,
        Err(JournalFail::Fault) => match status {
            Status::Done => Status::JournalFault,
            other => other,
        },
    }
}

/// Runs `Stop`, and notes its entries unless the journal has failed before. The status is the last one of the run.
pub fn stop<E: Engine, T: Tokens, J: Journal>(
    hub: &mut Hub,
    engine: &mut E,
    tokens: &mut T,
    journal: &mut J,
    halt: Halt,
) -> Status
    requires fits { fits hub.old.state Event.Stop ≡ true }
    requires agrees { HubAgrees E.told E.SHARED (E.db engine.old) (E.live engine.old) hub.old }
    ensures adds { DrawsFrom T.drawn T.faults tokens.old tokens.new (λ draws. AddsNoted E.told E.SHARED E.meaning E.db E.live E.faults engine.old engine.new hub.old hub.new (J.noted journal.old) (J.noted journal.new)
        (λ ended. Step hub.old.token E.SHARED hub.old.state Event.Stop draws ended nothing hub.new.state)) }
    ensures quiet { NoneLive (E.live engine.new) }
    ensures last { LastStatus halt.saved halt.status result (J.faults journal.old) (J.faults journal.new) hub.new.noted.list }
    ensures later { J.faults journal.old ≤ J.faults journal.new }
{
    taken_entries_leave_agreement::<E>();
    nothing_lives_without_streams::<E>();
    let _nothing = hub.step(engine, tokens, Event::Stop);
    if halt.saved {
        last_status(halt.status, note_entries(hub, journal))
    } else {
        halt.status
    }
}
