// The turn, as a poll asks for it and gives it back.
ghost use Rattle.std.specs.Prelude.{◌≡◌, ◌≢◌, ◌<◌, ◌-◌, ◌^◌, IsTrue, IsSome, Some};
ghost use Rattle.txn_table.specs.Turns.{has};
ghost use Rattle.stream_task.specs.Table.{need_of};
ghost use Rattle.stream_task.specs.Moved.{turn_given, table_given, settled, CommitsByTurn};

use crate::table::{Row, need_of};
use engine_core::{Deny, Entry, How};
use hrana_value::StreamNo;
use txn_table::{Grant, TxnTable};

/// What a row is told that may want the turn.
#[derive(Clone, Copy)]
pub(crate) enum Turn {
    /// The stream has the turn, or needs none.
    Taken,
    /// Another stream holds it, and this one waits.
    Held,
    /// The stream's unit may not write.
    Denied(Deny),
}

/// Takes the turn, where the row wants it.
pub(crate) fn take_turn(turns: &mut TxnTable, stream: StreamNo, row: Row) -> Turn
    requires reserved { IsTrue (has stream turns.old.reserved) }
    requires other { IsSome (need_of row) → turns.old.turn ≢ Some stream }
    ensures turn { result ≡ turn_given turns.old (need_of row) }
    ensures table { turns.new ≡ table_given turns.old stream (need_of row) }
{
    let Some(need) = need_of(row) else {
        return Turn::Taken;
    };
    match turns.want(stream, need) {
        Grant::Now(_) => Turn::Taken,
        Grant::Wait(_) => Turn::Held,
        Grant::Stale { had, now } => Turn::Denied(Deny::Stale { had, now }),
        Grant::Held(by) => Turn::Denied(Deny::Held { by }),
    }
}

/// Gives the turn back, where the entry ends what the stream held it for.
pub(crate) fn settle_turn(turns: &mut TxnTable, stream: StreamNo, entry: &Entry)
    requires holds { CommitsByTurn stream entry.now turns.old }
    requires few { turns.old.version < 2 ^ 64 - 1 }
    ensures { turns.new ≡ settled stream entry.now turns.old }
{
    match entry {
        Entry::Alone { wrote: true, .. } => turns.committed(stream),
        Entry::Ended {
            how: How::Committed,
            ..
        } => turns.committed(stream),
        Entry::Alone { .. } | Entry::Ended { .. } | Entry::Failed { .. } => turns.ended(stream),
        Entry::Began { .. } | Entry::Ran { .. } | Entry::Denied { .. } => {}
    }
}
