// The laws of many streams over one engine and one table of turns. Each is a function with an empty body.
ghost use Rattle.std.specs.Prelude.{ℕ};
ghost use Rattle.txn_table.specs.Turns.{Turns};
ghost use Rattle.engine_core.specs.Transactions.{Lives};
ghost use Rattle.stream_task.specs.Together.{States, Together, TurnIsWriters, LiveAreOpen, WritersAreWriting, NoReaders, EachMayPoll, BeginsTogether, JoinsTogether, PollsTogether, EndsTogether};

use engine_core::Engine;

/// What each stream of a server finds: its polls may be called, the turn is held by the stream that writes, the live
/// transactions are the open units, and those that write are the units of streams that write. Over an engine that doesn't share
/// no stream reads in a unit that isn't to write.
pub fn streams_agree<E: Engine>()
    ensures polls { EachMayPoll E.Db E.told E.SHARED }
    ensures turn { (db : E.Db) (live : Lives E.Db) (t : Turns) (next : ℕ) (states : States) → Together E.told E.SHARED db live t next states → TurnIsWriters t states }
    ensures units { (db : E.Db) (live : Lives E.Db) (t : Turns) (next : ℕ) (states : States) → Together E.told E.SHARED db live t next states → LiveAreOpen live states }
    ensures writers { (db : E.Db) (live : Lives E.Db) (t : Turns) (next : ℕ) (states : States) → Together E.told E.SHARED db live t next states → WritersAreWriting live states }
    ensures readers { (db : E.Db) (live : Lives E.Db) (t : Turns) (next : ℕ) (states : States) → Together E.told E.SHARED db live t next states → NoReaders E.SHARED states }
{}

/// At the beginning, where the engine has no transaction, they agree.
pub fn streams_begin<E: Engine>()
    ensures { BeginsTogether E.Db E.told E.SHARED }
{}

/// They agree still where one more stream has got its place.
pub fn a_stream_joins<E: Engine>()
    ensures { JoinsTogether E.Db E.told E.SHARED }
{}

/// They agree still after a poll of one of them.
pub fn polls_keep_agreement<E: Engine>()
    ensures { PollsTogether E.told E.SHARED E.meaning E.db E.live E.faults }
{}

/// They agree still after the end of one of them.
pub fn ends_keep_agreement<E: Engine>()
    ensures { EndsTogether E.told E.SHARED E.meaning E.db E.live E.faults }
{}
