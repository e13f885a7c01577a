// Sources, sinks, tokens, clocks and engines.
ghost use Rattle.std.specs.Prelude.{IfOk, IsTrue};
ghost use Rattle.engine_core.specs.Engine.{IsReadOrWrite};
ghost use Rattle.engine_core.specs.Transactions.{NoneLive};

use engine_core::*;
use hrana_stmt::Code;
use hrana_value::{StreamNo, Txt, Value, Values};
use sql_text::class_of;
use std::alloc::Global;
use std::process::Abort;
use std::test::Fail;

const INSERT: &str = "INSERT INTO t VALUES (?)";

const SELECT: &str = "SELECT a FROM t";

fn is_run(class: Class) -> bool
    ensures { IsTrue result → IsReadOrWrite class }
{
    match class {
        Class::Read => true,
        Class::Write => true,
        _ => false,
    }
}

/// A statement of a text that reads or writes, which is each text of these tests.
fn statement(alloc: Global, sql: &str, value: Value) -> Result<BoundStmt, NoMemory>
    ensures { IfOk result (λ stmt. IsReadOrWrite stmt.class) }
{
    let class = class_of(sql);
    if !is_run(class) {
        return Err(NoMemory);
    }
    let mut values = Values::new(alloc);
    values.push(value)?;
    Ok(BoundStmt {
        sql: Txt::new(alloc, sql)?,
        class,
        values,
    })
}

/// Runs a statement alone, where no transaction lives: the counts of rows that it changed and gave.
fn run_alone(alloc: Global, keeper: &mut PlainKeeper, sql: &str) -> Result<(u64, usize), EngineFail>
    requires quiet { NoneLive (⟦<PlainKeeper as Engine>⟧.live keeper.old) }
    ensures quiet { NoneLive (⟦<PlainKeeper as Engine>⟧.live keeper.new) }
{
    let stmt = statement(alloc, sql, Value::Integer(5))?;
    let given = keeper.alone(&stmt)?;
    Ok((given.affected, given.rows.as_slice().len()))
}

/// Inserts a row in a transaction, and counts the rows then.
fn insert_in_one(alloc: Global, engine: &mut Failing<PlainKeeper>) -> Result<usize, EngineFail>
    requires quiet { NoneLive (⟦<Failing<PlainKeeper> as Engine>⟧.live engine.old) }
{
    let insert = statement(alloc, INSERT, Value::Integer(7))?;
    let select = statement(alloc, SELECT, Value::Null)?;
    engine.begin(1, true)?;
    engine.run(1, &insert)?;
    engine.commit(1)?;
    Ok(engine.alone(&select)?.rows.as_slice().len())
}

fn are_drawn<T: Tokens>(
    rt: &impl Abort,
    tokens: &mut T,
    cases: &[(u64, Result<[u64; 2], Failed>)],
) {
    for (call, wanted) in cases {
        let is_wanted = tokens.words() == *wanted;
        assert!(rt; is_wanted, "at call {call}");
    }
}

fn are_read<C: Clock>(rt: &impl Abort, clock: &mut C, readings: &[u64]) {
    for wanted in readings {
        assert_eq!(rt; clock.now(), *wanted);
    }
}

#[test]
fn statuses_have_texts(rt: HostRuntime) -> Result<(), Fail> {
    for (status, text) in [
        (Status::BadWords, "bad words"),
        (Status::BadScript { line: 8 }, "bad line 8"),
        (Status::ReadFault, "read failed"),
        (Status::WriteFault, "write failed"),
        (Status::NoMemory, "out of memory"),
        (Status::InputTooLong, "input too long"),
    ] {
        assert_eq!(rt; status.to_string(rt.alloc())?.as_str(), text);
    }
    Ok(())
}

#[test]
fn plain_keeper_runs_two_statements(rt: HostRuntime) -> Result<(), Fail> {
    let alloc = rt.alloc();
    let mut keeper = PlainKeeper::new(alloc)?;
    let given = [
        run_alone(alloc, &mut keeper, INSERT),
        run_alone(alloc, &mut keeper, "INSERT INTO t VALUES (5)"),
        run_alone(alloc, &mut keeper, INSERT),
        run_alone(alloc, &mut keeper, SELECT),
    ];
    let wanted = [
        Ok((1, 0)),
        Err(EngineFail::Refused(Code::Syntax)),
        Ok((1, 0)),
        Ok((0, 2)),
    ];
    assert_eq!(rt; given, wanted);
    Ok(())
}

#[test]
fn listed_calls_of_an_engine_fail(rt: HostRuntime) -> Result<(), Fail> {
    let alloc = rt.alloc();
    for (at, wanted) in [
        (1, Err(EngineFail::Fault)),
        (2, Err(EngineFail::Fault)),
        (3, Err(EngineFail::Fault)),
        (4, Err(EngineFail::Fault)),
        (5, Ok(1)),
    ] {
        let mut engine = Failing::new(alloc, PlainKeeper::new(alloc)?, &[at])?;
        assert_eq!(rt; insert_in_one(alloc, &mut engine), wanted, "at call {at}");
    }
    Ok(())
}

#[test]
fn sources_are_read_whole(rt: HostRuntime) -> Result<(), Fail> {
    let alloc = rt.alloc();
    for (fail_at, wanted) in [
        (1, Err(ReadAllFail::Fault)),
        (2, Err(ReadAllFail::Fault)),
        (3, Ok(3)),
    ] {
        let read = read_all(alloc, &mut ByteSource::new(alloc, b"abc", &[fail_at])?);
        let count = match &read {
            Ok(bytes) => Ok(bytes.len()),
            Err(fail) => Err(*fail),
        };
        assert_eq!(rt; count, wanted, "where call {fail_at} fails");
    }
    assert_eq!(rt;
        read_all(alloc, &mut ReaderSource::new(b"abc".as_slice()))?.as_slice(),
        b"abc".as_slice()
    );
    Ok(())
}

#[test]
fn pieces_are_written_whole(rt: HostRuntime) -> Result<(), Fail> {
    let alloc = rt.alloc();
    let mut sink = ByteSink::new(alloc, &[2])?;
    for (piece, wanted) in [("ab", Ok(())), ("cd", Err(Failed)), ("ef", Ok(()))] {
        assert_eq!(rt;
            write_all(&mut sink, piece.as_bytes()),
            wanted,
            "at {piece}"
        );
    }
    assert_eq!(rt; sink.bytes(), b"abef".as_slice());
    let mut written = Vec::new(alloc);
    assert_eq!(rt;
        write_all(&mut WriterSink::new(&mut written), b"ab"),
        Ok(())
    );
    assert_eq!(rt; written.as_slice(), b"ab".as_slice());
    Ok(())
}

#[test]
fn listed_draws_fail(rt: HostRuntime) -> Result<(), Fail> {
    let mut tokens = CountTokens::new(rt.alloc(), &[2, 5])?;
    let cases = [
        (1, Ok([0, 0])),
        (2, Err(Failed)),
        (3, Ok([0, 0])),
        (4, Ok([0, 0])),
        (5, Err(Failed)),
        (6, Ok([0, 0])),
    ];
    are_drawn(&rt, &mut tokens, &cases);
    Ok(())
}

#[test]
fn the_last_reading_is_repeated(rt: HostRuntime) -> Result<(), Fail> {
    let mut clock = StepClock::new(rt.alloc(), &[3, 8, 5])?;
    are_read(&rt, &mut clock, &[3, 8, 5, 5, 5]);
    Ok(())
}

#[test]
fn the_system_gives_words_and_readings(rt: HostRuntime) -> Result<(), Fail> {
    let mut tokens = DeviceTokens::new(&rt);
    let words = tokens.words()?;
    assert_ne!(rt; tokens.words()?, words);
    let mut clock = MillisecondClock::new(&rt);
    let reading = clock.now();
    assert!(rt; reading <= clock.now());
    Ok(())
}

#[test]
fn entries_keep_their_order(rt: HostRuntime) -> Result<(), Fail> {
    let mut entries = Entries::new(rt.alloc())?;
    entries.reserve(2)?;
    entries.push(Entry::Began {
        unit: 1,
        stream: StreamNo(1),
    });
    entries.push(Entry::Ended {
        unit: 1,
        how: How::Read,
    });
    assert_eq!(rt; entries.next_unit(), 2);
    assert_eq!(rt; entries.into_vec().len(), 2);
    Ok(())
}
