// Journals, their lines, and the entries that wait for one.
use engine_core::*;
use hrana_journal::{LineJournal, MemoryJournal, line_of};
use hrana_stmt::{Code, Col, Cols, Rows, StmtResult};
use hrana_value::{Bytes, StreamNo, Txt, Value, Values};
use sql_text::class_of;
use std::alloc::Global;
use std::fs;
use std::test::Fail;

fn statement(alloc: Global, sql: &str) -> Result<BoundStmt, NoMemory> {
    Ok(BoundStmt {
        sql: Txt::new(alloc, sql)?,
        class: class_of(sql),
        values: Values::new(alloc),
    })
}

fn statement_with(alloc: Global, sql: &str, value: Value) -> Result<BoundStmt, NoMemory> {
    let mut values = Values::new(alloc);
    values.push(value)?;
    Ok(BoundStmt {
        sql: Txt::new(alloc, sql)?,
        class: class_of(sql),
        values,
    })
}

fn changed(alloc: Global, affected: u64, last_rowid: Option<i64>) -> Answer {
    Answer::Gave(StmtResult {
        cols: Cols::new(alloc),
        rows: Rows::new(alloc),
        affected,
        last_rowid,
    })
}

/// One row of one value, under a name.
fn found(alloc: Global, name: &str, value: Value) -> Result<Answer, NoMemory> {
    let mut cols = Cols::new(alloc);
    cols.push(Col {
        name: Some(Txt::new(alloc, name)?),
    })?;
    let mut row = Values::new(alloc);
    row.push(value)?;
    let mut rows = Rows::new(alloc);
    rows.push(row)?;
    Ok(Answer::Gave(StmtResult {
        cols,
        rows,
        affected: 0,
        last_rowid: None,
    }))
}

fn lines_of(alloc: Global, entries: &[Entry]) -> Result<String, NoMemory> {
    let mut lines = String::new(alloc);
    for entry in entries {
        lines.push_str(line_of(alloc, entry)?.as_str())?;
    }
    Ok(lines)
}

fn began(unit: u64) -> Entry {
    Entry::Began {
        unit,
        stream: StreamNo(7),
    }
}

fn ended(unit: u64, how: How) -> Entry {
    Entry::Ended { unit, how }
}

fn failed(unit: Option<u64>, cause: Broken) -> Entry {
    Entry::Failed {
        stream: StreamNo(7),
        unit,
        cause,
    }
}

#[test]
fn entries_have_lines(rt: HostRuntime) -> Result<(), Fail> {
    let held = Deny::Held { by: StreamNo(2) };
    for (entry, line) in [
        (began(1), r#"{"kind":"began","stream":7,"unit":1}"#),
        (
            Entry::Denied {
                unit: 1,
                deny: Deny::Stale { had: 2, now: 3 },
            },
            r#"{"had":2,"kind":"stale","now":3,"unit":1}"#,
        ),
        (
            Entry::Denied {
                unit: 1,
                deny: held,
            },
            r#"{"by":2,"kind":"held","unit":1}"#,
        ),
        (
            ended(1, How::Committed),
            r#"{"how":"committed","kind":"ended","unit":1}"#,
        ),
        (
            ended(1, How::Read),
            r#"{"how":"read","kind":"ended","unit":1}"#,
        ),
        (
            ended(1, How::Undone(Undo::Close)),
            r#"{"how":"close","kind":"ended","unit":1}"#,
        ),
        (
            ended(1, How::Undone(Undo::Lost)),
            r#"{"how":"lost","kind":"ended","unit":1}"#,
        ),
        (
            ended(1, How::Undone(Undo::Expired)),
            r#"{"how":"expired","kind":"ended","unit":1}"#,
        ),
        (
            ended(1, How::Undone(Undo::Rollback)),
            r#"{"how":"rollback","kind":"ended","unit":1}"#,
        ),
        (
            ended(18446744073709551615, How::Undone(Undo::Stop)),
            r#"{"how":"stop","kind":"ended","unit":18446744073709551615}"#,
        ),
        (
            failed(Some(1), Broken::Fault),
            r#"{"cause":"fault","kind":"failed","stream":7,"unit":1}"#,
        ),
        (
            failed(None, Broken::NoMemory),
            r#"{"cause":"memory","kind":"failed","stream":7,"unit":null}"#,
        ),
    ] {
        let written = line_of(rt.alloc(), &entry)?;
        assert_eq!(rt; written.as_str().strip_suffix("\n"), Some(line));
    }
    Ok(())
}

/// A statement of each kind, answered with a result and with a refusal.
fn statements(alloc: Global) -> Result<Vec<Entry>, NoMemory> {
    let mut entries = Vec::new(alloc);
    entries.push(Entry::Alone {
        stream: StreamNo(1),
        stmt: statement(alloc, "CREATE TABLE t (a)")?,
        answer: changed(alloc, 0, None),
        wrote: true,
    })?;
    entries.push(Entry::Alone {
        stream: StreamNo(1),
        stmt: statement(alloc, "INSERT INTO t VALUES (5)")?,
        answer: changed(alloc, 1, Some(1)),
        wrote: true,
    })?;
    entries.push(Entry::Alone {
        stream: StreamNo(1),
        stmt: statement(alloc, "SELECT z FROM \"t\"")?,
        answer: Answer::Refused(Code::NoColumn),
        wrote: false,
    })?;
    entries.push(Entry::Ran {
        unit: 3,
        stmt: statement_with(alloc, "INSERT INTO t VALUES (?)", Value::Integer(-5))?,
        answer: Answer::Refused(Code::Constraint),
    })?;
    entries.push(Entry::Ran {
        unit: 3,
        stmt: statement(alloc, "SELECT b FROM t")?,
        answer: found(alloc, "b", Value::Blob(Bytes::new(alloc, &[1])?))?,
    })?;
    Ok(entries)
}

const STATEMENTS: &str =
    r#"{"answer":{"affected_row_count":0,"cols":[],"last_insert_rowid":null,"rows":[]},"kind":"alone","stmt":{"sql":"CREATE TABLE t (a)","values":[]},"stream":1,"wrote":true}
{"answer":{"affected_row_count":1,"cols":[],"last_insert_rowid":"1","rows":[]},"kind":"alone","stmt":{"sql":"INSERT INTO t VALUES (5)","values":[]},"stream":1,"wrote":true}
{"answer":{"refused":"NO_COLUMN"},"kind":"alone","stmt":{"sql":"SELECT z FROM \"t\"","values":[]},"stream":1,"wrote":false}
{"answer":{"refused":"CONSTRAINT"},"kind":"ran","stmt":{"sql":"INSERT INTO t VALUES (?)","values":[{"type":"integer","value":"-5"}]},"unit":3}
{"answer":{"affected_row_count":0,"cols":[{"name":"b"}],"last_insert_rowid":null,"rows":[[{"base64":"AQ==","type":"blob"}]]},"kind":"ran","stmt":{"sql":"SELECT b FROM t","values":[]},"unit":3}
"#;

/// Notes the entries, as far as they are taken.
fn note_all<J: Journal>(journal: &mut J, entries: &[Entry]) -> Result<(), JournalFail> {
    for entry in entries {
        journal.note(entry)?;
    }
    Ok(())
}

#[test]
fn statements_have_lines(rt: HostRuntime) -> Result<(), Fail> {
    let alloc = rt.alloc();
    let entries = statements(alloc)?;
    let mut memory = MemoryJournal::new(alloc, &[])?;
    note_all(&mut memory, entries.as_slice())?;
    assert_eq!(rt; lines_of(alloc, memory.entries())?.as_str(), STATEMENTS);
    let mut lines = LineJournal::new(alloc, ByteSink::new(alloc, &[])?);
    note_all(&mut lines, memory.entries())?;
    assert_eq!(rt; lines.sink().bytes(), STATEMENTS.as_bytes());
    Ok(())
}

const FIRST: &str = "{\"kind\":\"began\",\"stream\":7,\"unit\":1}\n";

const SECOND: &str = "{\"kind\":\"began\",\"stream\":7,\"unit\":2}\n";

const BOTH: &str =
    "{\"kind\":\"began\",\"stream\":7,\"unit\":1}\n{\"kind\":\"began\",\"stream\":7,\"unit\":2}\n";

#[test]
fn listed_notes_fail(rt: HostRuntime) -> Result<(), Fail> {
    let alloc = rt.alloc();
    for (fail_at, notes, kept) in [
        (1, [Err(JournalFail::Fault), Ok(())], SECOND),
        (2, [Ok(()), Err(JournalFail::Fault)], FIRST),
        (3, [Ok(()), Ok(())], BOTH),
    ] {
        let mut memory = MemoryJournal::new(alloc, &[fail_at])?;
        let noted = [memory.note(&began(1)), memory.note(&began(2))];
        assert_eq!(rt; noted, notes, "in memory, at call {fail_at}");
        assert_eq!(rt; lines_of(alloc, memory.entries())?.as_str(), kept);
        let mut lines = LineJournal::new(alloc, ByteSink::new(alloc, &[fail_at])?);
        let written = [lines.note(&began(1)), lines.note(&began(2))];
        assert_eq!(rt; written, notes, "in lines, at call {fail_at}");
        assert_eq!(rt; lines.sink().bytes(), kept.as_bytes());
    }
    Ok(())
}

fn add(entries: &mut Entries, unit: u64) -> Result<(), NoMemory> {
    entries.reserve(1)?;
    entries.push(Entry::Ended {
        unit,
        how: How::Read,
    });
    Ok(())
}

/// Takes the first entry four times: the lines of what came, and a newline for each time that none did.
fn take_four(alloc: Global, entries: &mut Entries) -> Result<String, NoMemory> {
    let mut lines = String::new(alloc);
    for _ in 0..4 {
        match entries.take_first() {
            Some(entry) => lines.push_str(line_of(alloc, &entry)?.as_str())?,
            None => lines.push('\n')?,
        }
    }
    Ok(lines)
}

#[test]
fn first_entries_are_taken(rt: HostRuntime) -> Result<(), Fail> {
    let alloc = rt.alloc();
    for (count, wanted) in [
        (0, "\n\n\n\n"),
        (
            1,
            "{\"how\":\"read\",\"kind\":\"ended\",\"unit\":0}\n\n\n\n",
        ),
        (
            3,
            "{\"how\":\"read\",\"kind\":\"ended\",\"unit\":0}\n{\"how\":\"read\",\"kind\":\"ended\",\"unit\":1}\n{\"how\":\"read\",\"kind\":\"ended\",\"unit\":2}\n\n",
        ),
    ] {
        let mut entries = Entries::new(alloc)?;
        for unit in 0..count {
            add(&mut entries, unit)?;
        }
        assert_eq!(rt; take_four(alloc, &mut entries)?.as_str(), wanted);
    }
    Ok(())
}

const FILE: &str = "file_sink.journal";

#[test]
fn files_are_created_at_the_first_write(rt: HostRuntime) -> Result<(), Fail> {
    let mut sink = FileSink::new(&rt, FILE);
    assert!(rt; !fs::exists(&rt, FILE)?);
    assert_eq!(rt; write_all(&mut sink, b"ab"), Ok(()));
    assert_eq!(rt; write_all(&mut sink, b"cd"), Ok(()));
    assert_eq!(rt; fs::read_to_string(&rt, FILE)?.as_str(), "abcd");
    assert_eq!(rt; write_all(&mut FileSink::new(&rt, FILE), b"e"), Ok(()));
    assert_eq!(rt; fs::read_to_string(&rt, FILE)?.as_str(), "e");
    fs::remove_file(&rt, FILE)?;
    let mut nowhere = FileSink::new(&rt, "no_folder/file_sink.journal");
    assert_eq!(rt; write_all(&mut nowhere, b"a"), Err(Failed));
    Ok(())
}
