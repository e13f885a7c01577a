// The parser of the keeper's dialect.
use hrana_value::NoMemory;
use keeper_dialect::{DialectFail, parse};
use std::alloc::Global;
use std::test::Fail;

fn is_query(alloc: Global, sql: &str) -> bool {
    parse(alloc, sql).is_ok()
}

fn stops_at(alloc: Global, sql: &str, at: usize) -> bool {
    match parse(alloc, sql) {
        Ok(_) => false,
        Err(fail) => fail == DialectFail::Syntax { at },
    }
}

#[test]
fn texts_are_queries(rt: HostRuntime) {
    for sql in [
        "create table \"T\"\"x\" (\"\" INTEGER primary key, é text)",
        "INSERT INTO t VALUES (1, 'it''s', x'01fF', NULL, ?, \"n\")",
        "insert into t (a, \"b c\") values (-1), (a - -2 + '')",
        "SELECT * FROM t",
        "select count(/**/*)from t where a = b",
        "SELECT /* x */ a/* y */-1 /* z */ -- w",
        "SELECT -9223372036854775808, 9223372036854775807, :a, ?256",
        "SELECT X, x'', X + 'a' FROM X",
        "UPDATE t SET a = 1, \"\"\"\" = b - 2 WHERE a = NULL",
        "DELETE FROM\n\"from\"",
    ] {
        assert!(rt; is_query(rt.alloc(), sql), "{sql}");
    }
}

#[test]
fn texts_stop_at_their_places(rt: HostRuntime) {
    for (sql, at) in [
        ("", 0),
        ("-- x", 4),
        ("VALUES (1)", 0),
        ("CREATE TABLE t (a b c)", 20),
        ("CREATE TABLE t (a PRIMARY)", 25),
        ("CREATE TABLE t (a, \"A\")", 19),
        ("CREATE TABLE t (a PRIMARY KEY, b PRIMARY KEY)", 33),
        ("CREATE TABLE t (a /* x", 18),
        ("INSERT INTO t (a, \"A\") VALUES (1)", 18),
        ("INSERT INTO t VALUES (1),", 25),
        ("SELECT *, a FROM t", 8),
        ("SELECT a, COUNT(*) FROM t", 10),
        ("SELECT a FROM t WHERE a > 1", 24),
        ("SELECT - - 1", 9),
        ("SELECT 1.5", 8),
        ("SELECT `a`", 7),
        ("SELECT 9223372036854775808", 7),
        ("SELECT -9223372036854775809", 8),
        ("SELECT x/**/'00'", 12),
        ("SELECT x'0'", 8),
        ("SELECT ?256, ?", 13),
        ("SELECT 1; SELECT 2", 8),
        ("UPDATE t SET a = 1, A = 2", 20),
        ("DELETE FROM t WHERE a = 1 AND b = 2", 26),
    ] {
        assert!(rt; stops_at(rt.alloc(), sql, at), "{sql}");
    }
}

// A table of so many columns, and where the name of the last one starts.
fn table_of(alloc: Global, count: u32) -> Result<(String, usize), NoMemory> {
    let mut sql = String::from_str(alloc, "CREATE TABLE t (c0")?;
    let mut last = 16;
    for number in 1..count {
        sql.push_str(", ")?;
        last = sql.len();
        sql.push_str(&format!(in alloc; "c{number}")?)?;
    }
    sql.push_str(")")?;
    Ok((sql, last))
}

// Whether a table of so many columns is a query; nothing where the text stops elsewhere than at the last of them.
fn table_fits(alloc: Global, count: u32) -> Option<bool> {
    let (sql, last) = table_of(alloc, count).ok()?;
    if is_query(alloc, sql.as_str()) {
        return Some(true);
    }
    if stops_at(alloc, sql.as_str(), last) {
        return Some(false);
    }
    None
}

#[test]
fn tables_have_64_columns_at_most(rt: HostRuntime) {
    assert!(rt; table_fits(rt.alloc(), 64) == Some(true));
    assert!(rt; table_fits(rt.alloc(), 65) == Some(false));
}

#[test]
fn a_refusal_says_its_place(rt: HostRuntime) -> Result<(), Fail> {
    let text = format!(in rt.alloc(); "{}", DialectFail::Syntax { at: 7 })?;
    assert_eq!(rt; text.as_str(), "the text is no query: it stops at byte 7");
    Ok(())
}
