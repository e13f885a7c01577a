// What keeps the agreement of the hub with the engine, beside `step`. Each is a law, with a body that does nothing.
ghost use Rattle.hrana_hub.specs.Agrees.{NewHubAgrees, TakingAgrees, NothingLives};

use engine_core::Engine;
use stream_task::{streams_begin, streams_stand_at_first};

/// A new hub agrees with every engine that has no live transaction, and both stand for the empty journal.
pub fn a_new_hub_agrees<E: Engine>()
    ensures { NewHubAgrees E.told E.SHARED E.meaning }
{
    streams_begin::<E>();
    streams_stand_at_first::<E>();
}

/// Entries that are taken leave the agreement, and what both stand for.
pub fn taken_entries_leave_agreement<E: Engine>()
    ensures { TakingAgrees E.told E.SHARED E.meaning }
{}

/// Where no stream is left, the engine has no live transaction.
pub fn nothing_lives_without_streams<E: Engine>()
    ensures { NothingLives E.Db E.told E.SHARED }
{}
