// The memory keeper, by tables of statements with their answers.
ghost use Rattle.std.specs.Prelude.{IfOk, IsTrue};
ghost use Rattle.engine_core.specs.Engine.{IsReadOrWrite};
ghost use Rattle.engine_core.specs.Transactions.{NoneLive};

use engine_core::{BoundStmt, Class, Engine, EngineFail};
use hrana_stmt::{Code, StmtResult};
use hrana_value::{Bytes, NoMemory, Txt, Value, Values};
use memory_keeper::{Database, MemoryKeeper};
use sql_text::class_of;
use std::alloc::Global;
use std::process::Abort;
use std::test::Fail;

fn is_run(class: Class) -> bool
    ensures { IsTrue result → IsReadOrWrite class }
{
    match class {
        Class::Read => true,
        Class::Write => true,
        _ => false,
    }
}

// A statement of a text that reads or writes, which is each text of these tests.
fn statement(alloc: Global, sql: &str, values: Values) -> Result<BoundStmt, NoMemory>
    ensures { IfOk result (λ stmt. IsReadOrWrite stmt.class) }
{
    let class = class_of(sql);
    if !is_run(class) {
        return Err(NoMemory);
    }
    Ok(BoundStmt {
        sql: Txt::new(alloc, sql)?,
        class,
        values,
    })
}

fn run(
    alloc: Global,
    db: &mut Database,
    sql: &str,
    values: Values,
) -> Result<StmtResult, EngineFail> {
    match statement(alloc, sql, values) {
        Ok(stmt) => db.execute(alloc, &stmt),
        Err(_) => Err(EngineFail::NoMemory),
    }
}

fn push_value(out: &mut String, alloc: Global, value: &Value) -> Result<(), Fail> {
    let text = match value {
        Value::Null => format!(in alloc; "null ")?,
        Value::Integer(number) => format!(in alloc; "{number} ")?,
        Value::Text(text) => format!(in alloc; "'{}' ", text.as_str())?,
        Value::Blob(bytes) => format!(in alloc; "x{:?} ", bytes.as_slice())?,
    };
    out.push_str(text.as_str())?;
    Ok(())
}

// An answer as a text: a code, or the columns, the rows, the count and the last rowid.
fn answer_text(alloc: Global, answer: &Result<StmtResult, EngineFail>) -> Result<String, Fail> {
    let given = match answer {
        Ok(given) => given,
        Err(fail) => return Ok(format!(in alloc; "{fail:?}")?),
    };
    let mut text = String::new(alloc);
    for col in given.cols.as_slice() {
        if let Some(name) = &col.name {
            text.push_str(&format!(in alloc; "{}|", name.as_str())?)?;
        }
    }
    for row in given.rows.as_slice() {
        text.push_str(" (")?;
        for value in row.as_slice() {
            push_value(&mut text, alloc, value)?;
        }
        text.push_str(")")?;
    }
    text.push_str(&format!(in alloc; " {}", given.affected)?)?;
    if let Some(rowid) = given.last_rowid {
        text.push_str(&format!(in alloc; " {rowid}")?)?;
    }
    Ok(text)
}

// Runs statements one after another on an empty database, and compares each answer.
fn play(rt: &impl Abort, alloc: Global, table: &[(&str, &str)]) -> Result<(), Fail> {
    let mut db = Database::new(alloc);
    for (sql, wanted) in table {
        let text = answer_text(alloc, &run(alloc, &mut db, sql, Values::new(alloc)))?;
        assert_eq!(rt; text.as_str(), *wanted, "{sql}");
    }
    Ok(())
}

#[test]
fn statements_are_answered(rt: HostRuntime) -> Result<(), Fail> {
    play(
        &rt,
        rt.alloc(),
        &[
            ("CREATE TABLE t (a PRIMARY KEY, b)", " 0"),
            ("INSERT INTO t VALUES (1, 'x')", " 1 1"),
            ("SELECT a + 1, b FROM t", "a + 1|b| (2 'x' ) 0"),
            (
                "INSERT INTO t VALUES (2, 'y'), (1, 'z')",
                "Refused(Constraint)",
            ),
            ("SELECT COUNT ( * ) FROM t", "COUNT ( * )| (1 ) 0"),
            ("UPDATE t SET a = a + 1", " 1"),
            ("SELECT * FROM T", "a|b| (2 'x' ) 0"),
            ("SELECT b + 1 FROM t", "Refused(BadType)"),
            ("SELECT 9223372036854775807 + 1", "Refused(Overflow)"),
            ("INSERT INTO t VALUES (3)", "Refused(NoColumn)"),
            ("CREATE TABLE T (c)", "Refused(TableExists)"),
            ("SELECT a FROM", "Refused(Syntax)"),
            ("INSERT INTO u VALUES (b)", "Refused(NoTable)"),
            ("DELETE FROM t WHERE a = 2", " 1"),
            (
                "INSERT INTO t (b, a) VALUES (X'0aFF', ?)",
                "Refused(Constraint)",
            ),
            ("INSERT INTO t (b, a) VALUES (X'0aFF', 3 - 1 - 1)", " 1 2"),
            (
                "SELECT ?, 'it''s', NULL + 'x', a, b FROM t",
                "?|'it''s'|NULL + 'x'|a|b| (null 'it's' null 1 x[10, 255] ) 0",
            ),
        ],
    )
}

#[test]
fn refusals_come_in_order(rt: HostRuntime) -> Result<(), Fail> {
    play(
        &rt,
        rt.alloc(),
        &[
            ("SELECT a", "Refused(NoColumn)"),
            ("CREATE TABLE t (a INTEGER PRIMARY KEY, b TEXT)", " 0"),
            // No row, so no row on which the condition could be refused.
            ("SELECT b FROM t WHERE a = 'x' + 1", "b| 0"),
            (
                "INSERT INTO t (a, c) VALUES (1, 'x' + 1)",
                "Refused(NoColumn)",
            ),
            (
                "INSERT INTO t (a) VALUES ('x' + 1), (1, 2)",
                "Refused(NoColumn)",
            ),
            ("INSERT INTO t VALUES (1, 'x'), (2, 7)", " 2 2"),
            ("SELECT c FROM t WHERE a = 'x' + 1", "Refused(NoColumn)"),
            // The first row's text comes before the second row's overflow.
            ("SELECT b + 9223372036854775807 FROM t", "Refused(BadType)"),
            // The condition comes before what is shown.
            (
                "SELECT 'x' + 1 FROM t WHERE a = 9223372036854775807 + a",
                "Refused(Overflow)",
            ),
            // Tuple by tuple: the first tuple's key comes before the second one's sum.
            (
                "INSERT INTO t VALUES (1, 1), (3, 'x' - 1)",
                "Refused(Constraint)",
            ),
            (
                "INSERT INTO t VALUES (3, 'x' - 1), (1, 1)",
                "Refused(BadType)",
            ),
            ("UPDATE t SET a = 5", "Refused(Constraint)"),
            ("UPDATE t SET a = NULL WHERE a = 1", "Refused(Constraint)"),
            ("SELECT * FROM t", "a|b| (1 'x' ) (2 7 ) 0"),
        ],
    )
}

#[test]
fn keys_find_their_rows(rt: HostRuntime) -> Result<(), Fail> {
    play(
        &rt,
        rt.alloc(),
        &[
            ("CREATE TABLE t (k PRIMARY KEY, v)", " 0"),
            (
                "INSERT INTO t VALUES (1, 'a'), ('1', 'b'), (X'31', 'c'), (4, 'd')",
                " 4 4",
            ),
            ("SELECT v FROM t WHERE k = 3 - 1 - 1", "v| ('a' ) 0"),
            ("SELECT v FROM t WHERE k = '1'", "v| ('b' ) 0"),
            ("SELECT v FROM t WHERE k = X'31'", "v| ('c' ) 0"),
            ("SELECT v FROM t WHERE k = NULL", "v| 0"),
            ("UPDATE t SET k = 2, v = k WHERE k = 1", " 1"),
            ("UPDATE t SET k = 4 WHERE k = 2", "Refused(Constraint)"),
            ("DELETE FROM t WHERE k = '1'", " 1"),
            // A refusal at the last row leaves the keys of those before it.
            ("INSERT INTO t VALUES (1, 1)", " 1 5"),
            ("UPDATE t SET k = v", "Refused(Constraint)"),
            ("SELECT v FROM t WHERE k = 2", "v| (1 ) 0"),
            // The rows behind a removed one move up, and the next rowid stays.
            ("DELETE FROM t WHERE v = 1", " 2"),
            ("SELECT v FROM t WHERE k = 4", "v| ('d' ) 0"),
            ("UPDATE t SET k = 1 WHERE v = 'd'", " 1"),
            ("INSERT INTO t VALUES (X'31', 'e')", "Refused(Constraint)"),
            ("INSERT INTO t VALUES (4, 'e')", " 1 6"),
            ("UPDATE t SET k = 5 - k WHERE k = 4", "Refused(Constraint)"),
            ("SELECT * FROM t", "k|v| (x[49] 'c' ) (1 'd' ) (4 'e' ) 0"),
        ],
    )
}

/// How many rows a statement with no arguments gives.
fn row_count(alloc: Global, db: &mut Database, sql: &str) -> Result<usize, EngineFail> {
    let given = run(alloc, db, sql, Values::new(alloc))?;
    Ok(given.rows.as_slice().len())
}

/// Runs a statement so many times.
fn run_often(alloc: Global, db: &mut Database, sql: &str, times: u32) -> Result<(), EngineFail> {
    for _ in 0..times {
        row_count(alloc, db, sql)?;
    }
    Ok(())
}

const TOO_LARGE: Result<usize, EngineFail> = Err(EngineFail::Refused(Code::ResultTooLarge));

#[test]
fn results_have_limits(rt: HostRuntime) -> Result<(), Fail> {
    let alloc = rt.alloc();
    let mut db = Database::new(alloc);
    run_often(alloc, &mut db, "CREATE TABLE t (a)", 1)?;
    run_often(alloc, &mut db, "INSERT INTO t VALUES (0)", 4096)?;
    assert_eq!(rt; row_count(alloc, &mut db, "SELECT * FROM t"), Ok(4096));
    run_often(alloc, &mut db, "INSERT INTO t VALUES (1)", 1)?;
    assert_eq!(rt; row_count(alloc, &mut db, "SELECT * FROM t"), TOO_LARGE);
    let refused = row_count(alloc, &mut db, "SELECT a + 'x' FROM t");
    assert_eq!(rt; refused, Err(EngineFail::Refused(Code::BadType)));
    Ok(())
}

/// A blob of so many bytes, as the only argument.
fn blob(alloc: Global, count: usize) -> Result<Values, NoMemory> {
    let mut values = Values::new(alloc);
    values.push(Value::Blob(Bytes::from_vec(vec![in alloc; 0u8; count]?)))?;
    Ok(values)
}

fn insert_blob(alloc: Global, db: &mut Database, count: usize) -> Result<(), EngineFail> {
    let values = blob(alloc, count)?;
    run(alloc, db, "INSERT INTO t VALUES (?)", values)?;
    Ok(())
}

#[test]
fn results_have_bytes(rt: HostRuntime) -> Result<(), Fail> {
    let alloc = rt.alloc();
    let mut db = Database::new(alloc);
    run_often(alloc, &mut db, "CREATE TABLE t (a)", 1)?;
    // A blob counts 8 and its length, so that this one is 1,048,576 bytes.
    insert_blob(alloc, &mut db, 1048568)?;
    assert_eq!(rt; row_count(alloc, &mut db, "SELECT a FROM t"), Ok(1));
    assert_eq!(rt; row_count(alloc, &mut db, "SELECT a, 1 FROM t"), TOO_LARGE);
    Ok(())
}

/// How many rows an inserting transaction has found, and how many there are once it is dropped.
fn counts_of_dropped(
    keeper: &mut MemoryKeeper,
    create: &BoundStmt,
    insert: &BoundStmt,
    select: &BoundStmt,
) -> Result<(usize, usize), EngineFail>
    requires quiet { NoneLive (⟦<MemoryKeeper as Engine>⟧.live keeper.old) }
    requires create { IsReadOrWrite create.now.class }
    requires insert { IsReadOrWrite insert.now.class }
    requires select { IsReadOrWrite select.now.class }
{
    keeper.alone(create)?;
    keeper.begin(7, true)?;
    keeper.run(7, insert)?;
    let within = keeper.run(7, select)?.rows.as_slice().len();
    keeper.drop_txn(7);
    Ok((within, keeper.alone(select)?.rows.as_slice().len()))
}

/// How many rows there are once an inserting transaction has committed.
fn count_of_committed(
    keeper: &mut MemoryKeeper,
    create: &BoundStmt,
    insert: &BoundStmt,
    select: &BoundStmt,
) -> Result<usize, EngineFail>
    requires quiet { NoneLive (⟦<MemoryKeeper as Engine>⟧.live keeper.old) }
    requires create { IsReadOrWrite create.now.class }
    requires insert { IsReadOrWrite insert.now.class }
    requires select { IsReadOrWrite select.now.class }
{
    keeper.alone(create)?;
    keeper.begin(8, true)?;
    keeper.run(8, insert)?;
    keeper.commit(8)?;
    Ok(keeper.alone(select)?.rows.as_slice().len())
}

/// A statement with no arguments.
fn bare(alloc: Global, sql: &str) -> Result<BoundStmt, NoMemory>
    ensures { IfOk result (λ stmt. IsReadOrWrite stmt.class) }
{
    statement(alloc, sql, Values::new(alloc))
}

#[test]
fn transactions_work_on_copies(rt: HostRuntime) -> Result<(), Fail> {
    let alloc = rt.alloc();
    let create = bare(alloc, "CREATE TABLE t (a)")?;
    let insert = bare(alloc, "INSERT INTO t VALUES (1)")?;
    let select = bare(alloc, "SELECT a FROM t")?;
    let mut keeper = MemoryKeeper::new(alloc)?;
    let counts = counts_of_dropped(&mut keeper, &create, &insert, &select);
    assert_eq!(rt; counts, Ok((1, 0)));
    Ok(())
}

#[test]
fn commits_are_kept(rt: HostRuntime) -> Result<(), Fail> {
    let alloc = rt.alloc();
    let create = bare(alloc, "CREATE TABLE t (a)")?;
    let insert = bare(alloc, "INSERT INTO t VALUES (1)")?;
    let select = bare(alloc, "SELECT a FROM t")?;
    let mut keeper = MemoryKeeper::new(alloc)?;
    let count = count_of_committed(&mut keeper, &create, &insert, &select);
    assert_eq!(rt; count, Ok(1));
    Ok(())
}
