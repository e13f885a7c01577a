// Streams that share an engine: who waits, what goes on after a failure, an end or a close, and the entries.
use crate::playing::*;
use engine_core::Undo;
use hrana_value::StreamNo;
use std::test::Fail;
use stream_requests::Ask;
use stream_task::StreamTask;

// After what came of the poll stand the stream that holds the turn then, and the one that waits longest where none does. There is
// no stream 9.
#[test]
fn streams_take_turns(rt: HostRuntime) -> Result<(), Fail> {
    let lines = [
        (0, TABLE, "done 9 9"),
        (0, IMMEDIATE, "done 0 9"),
        (1, ADD_ONE, "pending 0 9"),
        (2, IMMEDIATE, "pending 0 9"),
        (1, Call::Poll, "pending 0 9"),
        (0, ADD_TWO, "done 0 9"),
        (0, COMMIT, "done 9 1"),
        (2, Call::Poll, "done 2 9"),
        (1, Call::Poll, "pending 2 9"),
        (0, BEGIN, "done 2 9"),
        (0, COUNT, "pending 2 9"),
        (2, ADD_ONE, "done 2 9"),
        (2, Call::End(Undo::Expired), "idle 9 1"),
        (1, Call::Poll, "done 9 0"),
        (0, Call::Poll, "ran 0 9"),
        (0, Call::Poll, "done 0 9"),
        (0, Call::Close, "done 9 9"),
        (2, COUNT, "STREAM_LOST 9 9"),
        (2, Call::Close, "done 9 9"),
        (2, Call::Autocommit, "STREAM_NOT_OPEN 9 9"),
        (0, Call::Close, "STREAM_NOT_OPEN 9 9"),
    ];
    let entries = entries_of(rt.alloc(), Telling::Turns, NO_CALL, &lines)?;
    assert_eq!(rt;
        entries.as_str(),
        " wrote began ran committed began ran expired wrote began ran closed"
    );
    Ok(())
}

// Where a call of the engine fails: the statement alone, the begin, the statement in the unit, the commit, or none.
#[test]
fn each_call_of_the_engine_fails_once(rt: HostRuntime) -> Result<(), Fail> {
    let alloc = rt.alloc();
    for (fail_at, begin, wanted) in [
        (
            1,
            IMMEDIATE,
            "ENGINE_FAULT done NO_TABLE idle done auto: failed began refused committed",
        ),
        (
            2,
            IMMEDIATE,
            "done ENGINE_FAULT done idle NO_TXN auto: wrote failed wrote",
        ),
        (
            3,
            IMMEDIATE,
            "done done ENGINE_FAULT idle STREAM_LOST broken: wrote began lost-unit",
        ),
        (
            4,
            IMMEDIATE,
            "done done done idle ENGINE_FAULT broken: wrote began ran lost-unit",
        ),
        (
            5,
            IMMEDIATE,
            "done done done idle done auto: wrote began ran committed",
        ),
        (
            2,
            BEGIN,
            "done done ENGINE_FAULT idle done auto: wrote failed",
        ),
        (
            3,
            BEGIN,
            "done done ran ENGINE_FAULT STREAM_LOST broken: wrote began lost-unit",
        ),
        (
            4,
            BEGIN,
            "done done ran done ENGINE_FAULT broken: wrote began ran lost-unit",
        ),
    ] {
        let calls = [TABLE, begin, ADD_ONE, Call::Poll, COMMIT];
        let told = played(alloc, fail_at, &calls)?;
        assert_eq!(rt; told.as_str(), wanted);
    }
    Ok(())
}

// In autocommit, in a transaction that has begun no unit and in one that has, dead by each cause that there is without want of
// memory, and closed. No engine here has readers beside a writer.
#[test]
fn streams_are_closed(rt: HostRuntime) -> Result<(), Fail> {
    let alloc = rt.alloc();
    for (first, second, wanted) in [
        (Call::Poll, Call::Poll, "idle idle done closed:"),
        (BEGIN, Call::Poll, "done idle done closed:"),
        (IMMEDIATE, Call::Poll, "done idle done closed: began closed"),
        (
            IMMEDIATE,
            ADD_ONE,
            "done ENGINE_FAULT done closed: began lost-unit",
        ),
        (
            IMMEDIATE,
            Call::End(Undo::Lost),
            "done idle done closed: began lost",
        ),
        (BEGIN, Call::End(Undo::Expired), "done idle done closed:"),
        (Call::Poll, Call::Close, "idle done STREAM_NOT_OPEN closed:"),
    ] {
        let told = played(alloc, 2, &[first, second, Call::Close])?;
        assert_eq!(rt; told.as_str(), wanted);
    }
    Ok(())
}

// From outside, in each state, and with a request that waits.
#[test]
fn streams_are_ended(rt: HostRuntime) -> Result<(), Fail> {
    let alloc = rt.alloc();
    for (first, how, wanted) in [
        (Call::Poll, Undo::Lost, "idle idle STREAM_LOST lost:"),
        (BEGIN, Undo::Expired, "done idle STREAM_LOST expired:"),
        (
            IMMEDIATE,
            Undo::Lost,
            "done idle STREAM_LOST lost: began lost",
        ),
        (
            IMMEDIATE,
            Undo::Expired,
            "done idle STREAM_LOST expired: began expired",
        ),
        (
            IMMEDIATE,
            Undo::Stop,
            "done idle STREAM_LOST lost: began stopped",
        ),
        (
            Call::Sequence("BEGIN; SELECT 1; SELECT 2"),
            Undo::Expired,
            "ran idle STREAM_LOST expired:",
        ),
        (
            Call::End(Undo::Lost),
            Undo::Expired,
            "idle idle STREAM_LOST expired:",
        ),
    ] {
        let told = played(alloc, NO_CALL, &[first, Call::End(how), Call::Autocommit])?;
        assert_eq!(rt; told.as_str(), wanted);
    }
    Ok(())
}

// Each check, and of two checks the first.
#[test]
fn statements_are_checked_in_order(rt: HostRuntime) -> Result<(), Fail> {
    let lines = [
        (0, Call::Stored(7), "NO_SQL_ID"),
        (0, Call::Execute("/* x"), "SQL_OPEN"),
        (0, Call::Execute("SELECT 1; SELECT 'a"), "SQL_OPEN"),
        (0, Call::Execute("SAVEPOINT 'a"), "SQL_OPEN"),
        (0, Call::Execute(" ; -- x"), "NO_STATEMENT"),
        (0, Call::Given("", 1), "NO_STATEMENT"),
        (0, Call::Execute("SAVEPOINT a; SELECT 1"), "MANY_STATEMENTS"),
        (0, Call::Execute("PRAGMA a; SELECT 1"), "MANY_STATEMENTS"),
        (0, Call::Execute("SELECT ?; SELECT 1"), "MANY_STATEMENTS"),
        (0, Call::Execute("SAVEPOINT ?"), "SAVEPOINT_UNSUPPORTED"),
        (0, Call::Execute("PRAGMA ?"), "SQL_UNSUPPORTED"),
        (0, Call::Execute("SELECT ?"), "ARGS"),
        (0, Call::Given("SELECT ?", 1), "done"),
        (0, Call::Given("COMMIT", 1), "ARGS"),
        (0, COMMIT, "NO_TXN"),
        (0, ROLLBACK, "NO_TXN"),
        (0, BEGIN, "done"),
        (0, Call::Given("BEGIN", 1), "ARGS"),
        (0, BEGIN, "TXN_OPEN"),
        (0, IMMEDIATE, "TXN_OPEN"),
        (0, COMMIT, "done"),
        (0, Call::StoredSequence(7), "NO_SQL_ID"),
        (0, Call::Sequence("SELECT 1; SELECT 'a"), "SQL_OPEN"),
        (0, Call::Sequence(" ; ;"), "done"),
        (0, Call::Poll, "idle"),
    ];
    let entries = entries_of(rt.alloc(), Telling::Brief, NO_CALL, &lines)?;
    assert_eq!(rt; entries.as_str(), " alone");
    Ok(())
}

#[test]
fn streams_are_ready_while_they_are_asked(rt: HostRuntime) -> Result<(), Fail> {
    let mut stream = StreamTask::new(rt.alloc(), StreamNo(0), false)?;
    assert!(rt; !stream.ready());
    stream.add(Ask::Close)?;
    assert!(rt; stream.ready());
    Ok(())
}
