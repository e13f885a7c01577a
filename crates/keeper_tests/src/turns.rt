// The table of turns: grants by calls of streams that wait for each other.
use hrana_value::{NoMemory, StreamNo};
use std::test::Fail;
use txn_table::{Grant, Need, TxnTable};

#[derive(Clone, Copy)]
enum Call {
    Want(Need),
    Commit,
    End,
    Lose,
}

/// Asks for the turn, unless the stream holds it.
fn want(table: &mut TxnTable, stream: StreamNo, need: Need) -> Result<Option<Grant>, NoMemory> {
    table.reserve_stream(stream)?;
    if table.turn() == Some(stream) {
        return Ok(None);
    }
    Ok(Some(table.want(stream, need)))
}

/// Commits, if the stream holds the turn.
fn commit(table: &mut TxnTable, stream: StreamNo) {
    if table.turn() == Some(stream) && table.version() < 100 {
        table.committed(stream);
    }
}

fn make_call(table: &mut TxnTable, number: u64, call: Call) -> Result<Option<Grant>, NoMemory> {
    let stream = StreamNo(number);
    match call {
        Call::Want(need) => return want(table, stream, need),
        Call::Commit => commit(table, stream),
        Call::End => table.ended(stream),
        Call::Lose => table.lost(stream),
    }
    Ok(None)
}

/// The stream's number, or 0.
fn number_of(stream: Option<StreamNo>) -> u64 {
    match stream {
        Some(stream) => stream.0,
        None => 0,
    }
}

/// Who holds the turn, who is the next waiter, and the version.
fn state(table: &TxnTable) -> (u64, u64, u64) {
    (
        number_of(table.turn()),
        number_of(table.next_waiter()),
        table.version(),
    )
}

const ALONE: Call = Call::Want(Need::Alone);

const BEGIN: Call = Call::Want(Need::Begin);

fn upgrade(had: u64) -> Call {
    Call::Want(Need::Upgrade { had })
}

fn waits(holder: u64) -> Option<Grant> {
    Some(Grant::Wait(StreamNo(holder)))
}

// Each line has a stream's call, what is answered, who holds the turn then, who is the next waiter, and the version.
#[test]
fn streams_wait_for_each_other(rt: HostRuntime) -> Result<(), Fail> {
    let mut table = TxnTable::new(rt.alloc())?;
    for (stream, what, grant, holder, waiter, version) in [
        (2, ALONE, Some(Grant::Now(0)), 2, 0, 0),
        (1, BEGIN, waits(2), 2, 0, 0),
        (2, Call::Commit, None, 0, 1, 1),
        (1, BEGIN, Some(Grant::Now(1)), 1, 0, 1),
        (3, ALONE, waits(1), 1, 0, 1),
        (2, BEGIN, waits(1), 1, 0, 1),
        (3, ALONE, waits(1), 1, 0, 1),
        (4, upgrade(1), Some(Grant::Held(StreamNo(1))), 1, 0, 1),
        (
            4,
            upgrade(0),
            Some(Grant::Stale { had: 0, now: 1 }),
            1,
            0,
            1,
        ),
        (2, Call::End, None, 1, 0, 1),
        (1, Call::End, None, 0, 3, 1),
        (2, ALONE, Some(Grant::Now(1)), 2, 0, 1),
        (2, Call::Commit, None, 0, 3, 2),
        (
            4,
            upgrade(1),
            Some(Grant::Stale { had: 1, now: 2 }),
            0,
            3,
            2,
        ),
        (4, upgrade(2), Some(Grant::Now(2)), 4, 0, 2),
        (2, BEGIN, waits(4), 4, 0, 2),
        (1, BEGIN, waits(4), 4, 0, 2),
        (3, Call::Lose, None, 4, 0, 2),
        (4, Call::Lose, None, 0, 2, 2),
        (3, ALONE, Some(Grant::Now(2)), 3, 0, 2),
    ] {
        assert_eq!(rt; make_call(&mut table, stream, what)?, grant);
        assert_eq!(rt; state(&table), (holder, waiter, version));
    }
    Ok(())
}
