// Whole runs of the top call over memory.
use crate::played::{Faults, Wanted, compare, play};
use engine_core::{Failing, NoMemory, PlainKeeper};
use hrana_serve::Status;
use memory_keeper::MemoryKeeper;
use std::alloc::Global;
use std::test::Fail;

const HELLO: &str = "\
+ 1\n\
> 1 {\"type\":\"hello\",\"jwt\":null}\n";

const HELLO_OUT: &str = "< 1 {\"type\":\"hello_ok\"}\n";

const OPEN: &str = "\
+ 1\n\
> 1 {\"type\":\"hello\"}\n\
> 1 {\"type\":\"request\",\"request_id\":1,\"request\":{\"type\":\"open_stream\",\"stream_id\":7}}\n";

const OPEN_OUT: &str = "\
< 1 {\"type\":\"hello_ok\"}\n\
< 1 {\"request_id\":1,\"response\":{\"type\":\"open_stream\"},\"type\":\"response_ok\"}\n";

const INSERT: &str =
    "{\"sql\":\"INSERT INTO t VALUES (?)\",\"args\":[{\"type\":\"integer\",\"value\":\"5\"}]}";

const SELECT: &str = "{\"sql\":\"SELECT a FROM t\"}";

const INSERTED: &str =
    "{\"affected_row_count\":1,\"cols\":[],\"last_insert_rowid\":\"1\",\"rows\":[]}";

const NO_ROWS: &str =
    "{\"affected_row_count\":0,\"cols\":[{\"name\":\"a\"}],\"last_insert_rowid\":null,\"rows\":[]}";

const ONE_ROW: &str =
    "{\"affected_row_count\":0,\"cols\":[{\"name\":\"a\"}],\"last_insert_rowid\":null,\"rows\":[[{\"type\":\"integer\",\"value\":\"5\"}]]}";

/// The line of an `execute` on stream 7, and a poll of it.
fn execute(alloc: Global, id: usize, stmt: &str) -> Result<String, NoMemory> {
    Ok(format!(in alloc;
        "> 1 {{\"type\":\"request\",\"request_id\":{id},\"request\":{{\"type\":\"execute\",\"stream_id\":7,\"stmt\":{stmt}}}}}\n! 1\n"
    )?)
}

/// The reply to an `execute`: a result, or a code and its message.
fn reply(alloc: Global, id: usize, code: &str, text: &str) -> Result<String, NoMemory> {
    if code.is_empty() {
        return Ok(format!(in alloc;
            "< 1 {{\"request_id\":{id},\"response\":{{\"result\":{text},\"type\":\"execute\"}},\"type\":\"response_ok\"}}\n"
        )?);
    }
    Ok(format!(in alloc;
        "< 1 {{\"error\":{{\"code\":\"{code}\",\"message\":\"{text}\"}},\"request_id\":{id},\"type\":\"response_error\"}}\n"
    )?)
}

/// A script that opens a stream and executes two statements.
fn script_of(alloc: Global, second: &str, third: &str) -> Result<String, NoMemory> {
    let second = execute(alloc, 2, second)?;
    let third = execute(alloc, 3, third)?;
    Ok(format!(in alloc; "{OPEN}{second}{third}")?)
}

/// What such a script is answered.
fn answers_of(
    alloc: Global,
    second: (&str, &str),
    third: (&str, &str),
) -> Result<String, NoMemory> {
    let second = reply(alloc, 2, second.0, second.1)?;
    let third = reply(alloc, 3, third.0, third.1)?;
    Ok(format!(in alloc; "{OPEN_OUT}{second}{third}")?)
}

#[test]
fn events_are_answered(rt: HostRuntime) -> Result<(), Fail> {
    let alloc = rt.alloc();
    let script = script_of(alloc, INSERT, SELECT)?;
    let out = answers_of(alloc, ("", INSERTED), ("", ONE_ROW))?;
    for (tail, status, events) in [
        ("", Status::Done, 7),
        ("\n! 1\n\n! 2", Status::Done, 9),
        ("- 3\n", Status::Done, 8),
        ("+ 1\n", Status::BadScript { line: 8 }, 7),
        ("+ 0\n", Status::BadScript { line: 8 }, 7),
        ("+ 4294967296\n", Status::BadScript { line: 8 }, 7),
        ("> 2 {}\n", Status::BadScript { line: 8 }, 7),
        ("# 2\n", Status::BadScript { line: 8 }, 7),
        ("> 1\n", Status::BadScript { line: 8 }, 7),
        ("\nhello", Status::BadScript { line: 9 }, 7),
        ("! 01\n", Status::BadScript { line: 8 }, 7),
        ("-  1\n", Status::BadScript { line: 8 }, 7),
        ("@\n", Status::BadScript { line: 8 }, 7),
        ("@ 05\n", Status::BadScript { line: 8 }, 7),
        ("@ 18446744073709551616\n", Status::BadScript { line: 8 }, 7),
        ("? 1 GET /v3 -\n", Status::BadScript { line: 8 }, 7),
    ] {
        let wanted = Wanted {
            status,
            events,
            noted: 2,
            unsaved: 0,
            out: out.as_str(),
        };
        let script = format!(in alloc; "{script}{tail}")?;
        compare(
            &rt,
            alloc,
            script.as_str(),
            Faults::NONE,
            PlainKeeper::new(alloc)?,
            wanted,
        )?;
    }
    Ok(())
}

#[test]
fn short_scripts_are_done(rt: HostRuntime) -> Result<(), Fail> {
    let alloc = rt.alloc();
    for (script, out, events) in [("", "", 0), (HELLO, HELLO_OUT, 2)] {
        let wanted = Wanted {
            status: Status::Done,
            events,
            noted: 0,
            unsaved: 0,
            out,
        };
        compare(
            &rt,
            alloc,
            script,
            Faults::NONE,
            PlainKeeper::new(alloc)?,
            wanted,
        )?;
    }
    Ok(())
}

/// A word of this many letters.
fn long_word(alloc: Global, length: usize) -> Result<String, NoMemory> {
    let mut word = String::new(alloc);
    for _ in 0..length {
        word.push('x')?;
    }
    Ok(word)
}

#[test]
fn words_of_no_form_are_bad(rt: HostRuntime) -> Result<(), Fail> {
    let alloc = rt.alloc();
    let longest = long_word(alloc, 4096)?;
    let longer = long_word(alloc, 4097)?;
    for (words, status) in [
        (["play", "x"], Status::BadWords),
        (["replay", ""], Status::BadWords),
        (["replay", longest.as_str()], Status::Done),
        (["replay", longer.as_str()], Status::BadWords),
    ] {
        let keeper = PlainKeeper::new(alloc)?;
        let played = play(alloc, &words, "+ 1", Faults::NONE, keeper)?;
        assert_eq!(rt; played.ended.status, status);
    }
    let keeper = PlainKeeper::new(alloc)?;
    let none = play(alloc, &[], "", Faults::NONE, keeper)?;
    assert_eq!(rt; none.ended.status, Status::BadWords);
    Ok(())
}

const WELCOME: &str = "< 1 {\"type\":\"hello_ok\"}\n";

const NO_WELCOME: &str =
    "< 1 {\"error\":{\"code\":\"AUTH\",\"message\":\"authentication failed\"},\"type\":\"hello_error\"}\nx 1 1000\n";

#[test]
fn a_token_is_the_one_that_was_given(rt: HostRuntime) -> Result<(), Fail> {
    let alloc = rt.alloc();
    for (token, out) in [
        ("\"jwt\":\"secret\",", WELCOME),
        ("\"jwt\":\"Secret\",", NO_WELCOME),
        ("\"jwt\":\"secre\",", NO_WELCOME),
        ("\"jwt\":null,", NO_WELCOME),
        ("", NO_WELCOME),
    ] {
        let script = format!(in alloc; "+ 1\n> 1 {{{token}\"type\":\"hello\"}}\n")?;
        let keeper = PlainKeeper::new(alloc)?;
        let played = play(
            alloc,
            &["replay", "secret"],
            script.as_str(),
            Faults::NONE,
            keeper,
        )?;
        assert_eq!(rt; played.sink.bytes(), out.as_bytes());
    }
    Ok(())
}

/// Statements one after another, and what each is answered: a code and its message, or a result.
const STATEMENTS: [(&str, &str, &str); 17] = [
    (
        "CREATE TABLE t (a PRIMARY KEY, b)",
        "",
        "{\"affected_row_count\":0,\"cols\":[],\"last_insert_rowid\":null,\"rows\":[]}",
    ),
    ("INSERT INTO t VALUES (1, 'x')", "", INSERTED),
    ("SELECT 'x", "SQL_OPEN", "quote or comment is not closed"),
    (" ; -- x", "NO_STATEMENT", "text holds no statement"),
    (
        "PRAGMA x; PRAGMA y",
        "MANY_STATEMENTS",
        "text holds more than one statement",
    ),
    (
        "rollback to a",
        "SAVEPOINT_UNSUPPORTED",
        "savepoints are not supported",
    ),
    (
        "PRAGMA x = ?",
        "SQL_UNSUPPORTED",
        "statement is not supported",
    ),
    ("SELECT ?257", "ARGS", "arguments do not match parameters"),
    ("SELECT ?, ?", "ARGS", "arguments do not match parameters"),
    ("SELECT", "SYNTAX", "statement is not understood"),
    ("SELECT a FROM s", "NO_TABLE", "no such table"),
    ("INSERT INTO t VALUES (3)", "NO_COLUMN", "no such column"),
    ("CREATE TABLE T (c)", "TABLE_EXISTS", "table exists"),
    (
        "INSERT INTO t VALUES (2, 'y'), (1, 'z')",
        "CONSTRAINT",
        "primary key constraint failed",
    ),
    ("SELECT b + 1 FROM t", "TYPE", "operand is not an integer"),
    (
        "SELECT 9223372036854775807 + 1",
        "OVERFLOW",
        "integer overflow",
    ),
    (
        " ; SELECT a + 1, b FROM t -- x",
        "",
        "{\"affected_row_count\":0,\"cols\":[{\"name\":\"a + 1\"},{\"name\":\"b\"}],\"last_insert_rowid\":null,\"rows\":[[{\"type\":\"integer\",\"value\":\"2\"},{\"type\":\"text\",\"value\":\"x\"}]]}",
    ),
];

/// Adds a statement to a script, and its reply to the output.
fn add_statement(
    alloc: Global,
    script: &mut String,
    out: &mut String,
    id: usize,
    row: (&str, &str, &str),
) -> Result<(), NoMemory> {
    let (sql, code, text) = row;
    let stmt = format!(in alloc; "{{\"sql\":\"{sql}\"}}")?;
    script.push_str(execute(alloc, id, stmt.as_str())?.as_str())?;
    out.push_str(reply(alloc, id, code, text)?.as_str())?;
    Ok(())
}

#[test]
fn sql_is_answered(rt: HostRuntime) -> Result<(), Fail> {
    let alloc = rt.alloc();
    let mut script = format!(in alloc; "{OPEN}")?;
    let mut out = format!(in alloc; "{OPEN_OUT}")?;
    for (id, row) in STATEMENTS.iter().enumerate() {
        add_statement(alloc, &mut script, &mut out, id, *row)?;
    }
    let wanted = Wanted {
        status: Status::Done,
        events: 37,
        noted: 10,
        unsaved: 0,
        out: out.as_str(),
    };
    compare(
        &rt,
        alloc,
        script.as_str(),
        Faults::NONE,
        MemoryKeeper::new(alloc)?,
        wanted,
    )
}

/// An insert of a text of this length.
fn insert_text(alloc: Global, length: usize) -> Result<String, NoMemory> {
    let text = long_word(alloc, length)?;
    Ok(format!(in alloc;
        "{{\"sql\":\"INSERT INTO t VALUES (?)\",\"args\":[{{\"type\":\"text\",\"value\":\"{text}\"}}]}}"
    )?)
}

#[test]
fn a_large_result_is_refused(rt: HostRuntime) -> Result<(), Fail> {
    let alloc = rt.alloc();
    let mut script = format!(in alloc; "{OPEN}")?;
    let mut out = format!(in alloc; "{OPEN_OUT}")?;
    let create = (
        "CREATE TABLE t (a)",
        "",
        "{\"affected_row_count\":0,\"cols\":[],\"last_insert_rowid\":null,\"rows\":[]}",
    );
    add_statement(alloc, &mut script, &mut out, 0, create)?;
    // A text counts 8 and its length, and a result has at most 1,048,576 bytes.
    let insert = insert_text(alloc, 220000)?;
    for id in 1..6 {
        script.push_str(execute(alloc, id, insert.as_str())?.as_str())?;
        let inserted = format!(in alloc;
            "{{\"affected_row_count\":1,\"cols\":[],\"last_insert_rowid\":\"{id}\",\"rows\":[]}}"
        )?;
        out.push_str(reply(alloc, id, "", inserted.as_str())?.as_str())?;
    }
    for (id, row) in [
        (
            6,
            ("SELECT a FROM t", "RESULT_TOO_LARGE", "result is too large"),
        ),
        (7, ("SELECT", "SYNTAX", "statement is not understood")),
    ] {
        add_statement(alloc, &mut script, &mut out, id, row)?;
    }
    let wanted = Wanted {
        status: Status::Done,
        events: 19,
        noted: 8,
        unsaved: 0,
        out: out.as_str(),
    };
    compare(
        &rt,
        alloc,
        script.as_str(),
        Faults::NONE,
        MemoryKeeper::new(alloc)?,
        wanted,
    )
}

#[test]
fn unwanted_rows_are_left_out(rt: HostRuntime) -> Result<(), Fail> {
    let alloc = rt.alloc();
    let script = script_of(
        alloc,
        INSERT,
        "{\"sql\":\"SELECT a FROM t\",\"want_rows\":false}",
    )?;
    let out = answers_of(alloc, ("", INSERTED), ("", NO_ROWS))?;
    let wanted = Wanted {
        status: Status::Done,
        events: 7,
        noted: 2,
        unsaved: 0,
        out: out.as_str(),
    };
    compare(
        &rt,
        alloc,
        script.as_str(),
        Faults::NONE,
        PlainKeeper::new(alloc)?,
        wanted,
    )
}

#[test]
fn no_33rd_request_waits(rt: HostRuntime) -> Result<(), Fail> {
    let alloc = rt.alloc();
    let mut script = format!(in alloc; "{OPEN}")?;
    for at in 0..33 {
        write!(
            script,
            "> 1 {{\"type\":\"request\",\"request_id\":{at},\"request\":{{\"type\":\"execute\",\"stream_id\":7,\"stmt\":{SELECT}}}}}\n"
        )?;
    }
    let wanted = Wanted {
        status: Status::BadScript { line: 36 },
        events: 35,
        noted: 0,
        unsaved: 0,
        out: OPEN_OUT,
    };
    compare(
        &rt,
        alloc,
        script.as_str(),
        Faults::NONE,
        PlainKeeper::new(alloc)?,
        wanted,
    )
}

#[test]
fn faults_of_source_sink_and_journal_end_the_run(rt: HostRuntime) -> Result<(), Fail> {
    let alloc = rt.alloc();
    let script = script_of(alloc, INSERT, SELECT)?;
    // The source is read in two calls, of which the second finds the end. Two entries are noted.
    for (read, write, note, status, out, counts) in [
        (1, 0, 0, Status::ReadFault, "", (0, 0, 0)),
        (2, 0, 0, Status::ReadFault, "", (0, 0, 0)),
        (0, 1, 0, Status::WriteFault, "", (2, 0, 0)),
        (0, 2, 0, Status::WriteFault, HELLO_OUT, (3, 0, 0)),
        (0, 3, 0, Status::WriteFault, OPEN_OUT, (5, 1, 0)),
        (0, 0, 1, Status::JournalFault, OPEN_OUT, (5, 0, 1)),
        (0, 3, 1, Status::JournalFault, OPEN_OUT, (5, 0, 1)),
    ] {
        let wanted = Wanted {
            status,
            events: counts.0,
            noted: counts.1,
            unsaved: counts.2,
            out,
        };
        compare(
            &rt,
            alloc,
            script.as_str(),
            Faults {
                read,
                write,
                note,
                draw: 0,
            },
            PlainKeeper::new(alloc)?,
            wanted,
        )?;
    }
    Ok(())
}

const FAULT: (&str, &str) = ("ENGINE_FAULT", "engine failed");

#[test]
fn faults_of_an_engine_are_answered(rt: HostRuntime) -> Result<(), Fail> {
    let alloc = rt.alloc();
    let script = script_of(alloc, INSERT, SELECT)?;
    for (at, insert, select) in [(1, FAULT, ("", NO_ROWS)), (2, ("", INSERTED), FAULT)] {
        let out = answers_of(alloc, insert, select)?;
        let wanted = Wanted {
            status: Status::Done,
            events: 7,
            noted: 2,
            unsaved: 0,
            out: out.as_str(),
        };
        let engine = Failing::new(alloc, PlainKeeper::new(alloc)?, &[at])?;
        compare(&rt, alloc, script.as_str(), Faults::NONE, engine, wanted)?;
    }
    Ok(())
}
