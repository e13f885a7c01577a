// The laws of what the streams, the table of turns and the engine stand for. Each is a function that does nothing: its body only
// names the law of serial order, where it rests on that.
ghost use Rattle.stream_task.specs.Leads.{BeginsStanding, JoinsStanding, VersionStands, PollsLead, EndsLead, StandsAtNothing, StandsAsKept, StandsExplained};

use engine_core::{Answer, BoundStmt, Engine};
use serial_order::serial_order;

/// At the beginning, where the engine has no transaction, they stand for the empty journal.
pub fn streams_stand_at_first<E: Engine>()
    ensures { BeginsStanding E.SHARED E.meaning }
{
    serial_order::<E::Db, BoundStmt, Answer>();
}

/// They stand for the same journal where one more stream has got its place.
pub fn a_joined_stream_stands<E: Engine>()
    ensures { JoinsStanding E.SHARED E.meaning }
{}

/// And where the table of turns changes, but for its version.
pub fn version_alone_stands<E: Engine>()
    ensures { VersionStands E.SHARED E.meaning }
{}

/// A poll of one of them leads on: they stand for the journal with its entry, over an engine that tells its tables.
pub fn polls_lead_on<E: Engine>()
    ensures { PollsLead E.told E.SHARED E.meaning E.db E.live E.faults }
{
    serial_order::<E::Db, BoundStmt, Answer>();
}

/// The end of one of them leads on as well.
pub fn ends_lead_on<E: Engine>()
    ensures { EndsLead E.told E.SHARED E.meaning E.db E.live E.faults }
{
    serial_order::<E::Db, BoundStmt, Answer>();
}

/// What the journal says of them: it counts the commits, and tells the committed database and the views of live transactions.
/// It is explained, and where no stream has an open unit nothing lives.
pub fn journal_says_what_stands<E: Engine>()
    ensures kept { StandsAsKept E.SHARED E.meaning }
    ensures explained { StandsExplained E.SHARED E.meaning }
    ensures nothing { StandsAtNothing E.SHARED E.meaning }
{
    serial_order::<E::Db, BoundStmt, Answer>();
}
