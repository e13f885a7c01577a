// What events add is noted by the journal.
ghost use Rattle.std.specs.Prelude.{◌≡◌, ◌≤◌, true, [], Err, OnOk};
ghost use Rattle.engine_core.specs.Causes.{Rose};
ghost use Rattle.hrana_hub.specs.Agrees.{HubAgrees, OnlyTaken};
ghost use Rattle.hrana_hub.specs.Drawn.{DrawsFrom};
ghost use Rattle.hrana_hub.specs.Step.{fits};
ghost use Rattle.hrana_serve.specs.Notes.{Notes, AddsNoted, RunsAs};

use engine_core::{Engine, Entry, Journal, JournalFail, Tokens};
use hrana_hub::{Event, Hub, taken_entries_leave_agreement};
use http_wire::Outs;

/// Lets go of an entry that was noted.
fn forget(_noted: Option<Entry>) {}

/// Notes the entries that no journal took yet, up to the first that the journal refuses.
pub fn note_entries<J: Journal>(hub: &mut Hub, journal: &mut J) -> Result<(), JournalFail>
    ensures notes { Notes (J.noted journal.old) (J.noted journal.new) hub.old.noted.list hub.new.noted.list }
    ensures all { OnOk result (hub.new.noted.list ≡ []) }
    ensures taken { OnlyTaken hub.old hub.new }
    ensures token { hub.new.token ≡ hub.old.token }
    ensures fault { result ≡ Err JournalFail.Fault → Rose (J.faults journal.old) (J.faults journal.new) }
    ensures later { J.faults journal.old ≤ J.faults journal.new }
{
    while let Some(entry) = hub.first_entry() {
        journal.note(entry)?;
        forget(hub.take_entry());
    }
    Ok(())
}

/// Runs an event, and notes the entries that it adds.
pub fn run_event<E: Engine, T: Tokens, J: Journal>(
    hub: &mut Hub,
    engine: &mut E,
    tokens: &mut T,
    journal: &mut J,
    event: Event,
) -> Result<Outs, JournalFail>
    requires fits { fits hub.old.state event ≡ true }
    requires agrees { HubAgrees E.told E.SHARED (E.db engine.old) (E.live engine.old) hub.old }
    ensures adds { DrawsFrom T.drawn T.faults tokens.old tokens.new (λ draws. AddsNoted E.told E.SHARED E.meaning E.db E.live E.faults engine.old engine.new hub.old hub.new (J.noted journal.old) (J.noted journal.new)
        (RunsAs hub.old.token E.SHARED hub.old.state event result hub.new.state draws)) }
    ensures all { OnOk result (hub.new.noted.list ≡ []) }
    ensures agrees { HubAgrees E.told E.SHARED (E.db engine.new) (E.live engine.new) hub.new }
    ensures token { hub.new.token ≡ hub.old.token }
    ensures fault { result ≡ Err JournalFail.Fault → Rose (J.faults journal.old) (J.faults journal.new) }
    ensures later { J.faults journal.old ≤ J.faults journal.new }
    ensures engine_later { E.faults engine.old ≤ E.faults engine.new }
{
    taken_entries_leave_agreement::<E>();
    let outs = hub.step(engine, tokens, event);
    note_entries(hub, journal)?;
    Ok(outs)
}
