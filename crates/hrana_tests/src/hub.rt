// Scripts of many connections: what is answered at arrival, what closes a connection, who waits for whom, and what a
// journal or an engine that fails leaves.
use crate::played::{Faults, Wanted, answer_line, compare, play, request_line};
use engine_core::{Failing, NoMemory};
use hrana_serve::Status;
use memory_keeper::MemoryKeeper;
use std::alloc::Global;
use std::process::Abort;
use std::test::Fail;

const HELLO: &str = "> 1 {\"type\":\"hello\"}\n";

const WELCOME: &str = "< 1 {\"type\":\"hello_ok\"}\n";

/// Requests that are answered at their arrival, one after another on one connection, each with what it is answered: a
/// code and its message, or a response.
const ARRIVALS: [(&str, &str, &str); 24] = [
    (
        "{\"type\":\"execute\",\"stream_id\":1,\"stmt\":{\"sql_id\":4}}",
        "STREAM_NOT_OPEN",
        "stream is not open",
    ),
    (
        "{\"type\":\"close_stream\",\"stream_id\":1}",
        "",
        "{\"type\":\"close_stream\"}",
    ),
    (
        "{\"type\":\"open_stream\",\"stream_id\":1}",
        "",
        "{\"type\":\"open_stream\"}",
    ),
    (
        "{\"type\":\"open_stream\",\"stream_id\":1}",
        "STREAM_EXISTS",
        "stream id is in use",
    ),
    (
        "{\"type\":\"execute\",\"stream_id\":1,\"stmt\":{\"sql_id\":4}}",
        "NO_SQL_ID",
        "sql id is not stored",
    ),
    (
        "{\"type\":\"sequence\",\"stream_id\":1,\"sql_id\":4}",
        "NO_SQL_ID",
        "sql id is not stored",
    ),
    (
        "{\"type\":\"batch\",\"stream_id\":1,\"batch\":{\"steps\":[{\"stmt\":{\"sql\":\"SELECT 1\"}},{\"condition\":{\"type\":\"error\",\"step\":0},\"stmt\":{\"sql_id\":4}}]}}",
        "NO_SQL_ID",
        "sql id is not stored",
    ),
    (
        "{\"type\":\"close_sql\",\"sql_id\":4}",
        "",
        "{\"type\":\"close_sql\"}",
    ),
    (
        "{\"type\":\"store_sql\",\"sql_id\":4,\"sql\":\"SELECT 1\"}",
        "",
        "{\"type\":\"store_sql\"}",
    ),
    (
        "{\"type\":\"store_sql\",\"sql_id\":4,\"sql\":\"SELECT 2\"}",
        "SQL_ID_IN_USE",
        "sql id is in use",
    ),
    (
        "{\"type\":\"close_sql\",\"sql_id\":4}",
        "",
        "{\"type\":\"close_sql\"}",
    ),
    (
        "{\"type\":\"execute\",\"stream_id\":1,\"stmt\":{\"sql_id\":4}}",
        "NO_SQL_ID",
        "sql id is not stored",
    ),
    (
        "{\"type\":\"describe\",\"stream_id\":9}",
        "DESCRIBE_UNSUPPORTED",
        "describe is not supported",
    ),
    (
        "{\"type\":\"sing\"}",
        "UNKNOWN_REQUEST",
        "unknown request type",
    ),
    (
        "{\"type\":\"execute\",\"stream_id\":1,\"stmt\":{}}",
        "BAD_REQUEST",
        "malformed request",
    ),
    (
        "{\"type\":\"execute\",\"stream_id\":1,\"stmt\":{\"sql\":\"a\",\"sql_id\":1}}",
        "BAD_REQUEST",
        "malformed request",
    ),
    (
        "{\"type\":\"open_stream\",\"stream_id\":2147483648}",
        "BAD_REQUEST",
        "malformed request",
    ),
    (
        "{\"type\":\"execute\",\"stream_id\":1,\"stmt\":{\"sql\":\"a\",\"args\":[{\"type\":\"float\",\"value\":1}]}}",
        "FLOAT_UNSUPPORTED",
        "float values are not supported",
    ),
    (
        "{\"type\":\"batch\",\"stream_id\":1,\"batch\":{\"steps\":[{\"condition\":{\"type\":\"ok\",\"step\":0},\"stmt\":{\"sql\":\"SELECT 1\"}}]}}",
        "BAD_STEP",
        "condition names a step that is not earlier",
    ),
    (
        "{\"type\":\"open_cursor\",\"stream_id\":1,\"cursor_id\":1,\"batch\":{\"steps\":[]}}",
        "UNKNOWN_REQUEST",
        "unknown request type",
    ),
    (
        "{\"type\":\"fetch_cursor\",\"cursor_id\":1,\"max_count\":1}",
        "UNKNOWN_REQUEST",
        "unknown request type",
    ),
    (
        "{\"type\":\"close_cursor\",\"cursor_id\":1}",
        "UNKNOWN_REQUEST",
        "unknown request type",
    ),
    (
        "{\"type\":\"execute\",\"stream_id\":2,\"stmt\":{\"sql_id\":4}}",
        "STREAM_NOT_OPEN",
        "stream is not open",
    ),
    (
        "{\"type\":\"open_stream\",\"stream_id\":-2147483648}",
        "",
        "{\"type\":\"open_stream\"}",
    ),
];

/// A script, what is to come of it, and the number of its events.
#[derive(Drop)]
pub struct Scene {
    alloc: Global,
    script: String,
    out: String,
    events: u64,
}

impl Scene {
    /// Connection 1 is open and was welcomed.
    pub fn new(alloc: Global) -> Result<Scene, NoMemory> {
        Ok(Scene {
            alloc,
            script: format!(in alloc; "+ 1\n{HELLO}")?,
            out: format!(in alloc; "{WELCOME}")?,
            events: 2,
        })
    }

    /// One more line, and what it gives.
    pub fn line(&mut self, line: &str, out: &str) -> Result<(), NoMemory> {
        self.script.push_str(line)?;
        self.out.push_str(out)?;
        self.events = self.events.saturating_add(1);
        Ok(())
    }

    /// A request that is answered at its arrival.
    pub fn ask(
        &mut self,
        conn: u32,
        id: usize,
        request: &str,
        code: &str,
        text: &str,
    ) -> Result<(), NoMemory> {
        let line = request_line(self.alloc, conn, id, request)?;
        let out = answer_line(self.alloc, conn, id, code, text)?;
        self.line(line.as_str(), out.as_str())
    }

    /// A statement that waits on a stream of its connection.
    pub fn waits(&mut self, conn: u32, id: usize, stream: i32, sql: &str) -> Result<(), NoMemory> {
        let request = format!(in self.alloc;
            "{{\"type\":\"execute\",\"stream_id\":{stream},\"stmt\":{{\"sql\":\"{sql}\"}}}}"
        )?;
        let line = request_line(self.alloc, conn, id, request.as_str())?;
        self.line(line.as_str(), "")
    }

    /// A poll, and the code and text of the answer that it gives, if any.
    pub fn poll(
        &mut self,
        stream: u64,
        conn: u32,
        id: usize,
        code: &str,
        text: &str,
    ) -> Result<(), NoMemory> {
        let line = format!(in self.alloc; "! {stream}\n")?;
        let out = answer_line(self.alloc, conn, id, code, text)?;
        self.line(line.as_str(), out.as_str())
    }

    /// A statement of a stream that is polled at once.
    pub fn runs(
        &mut self,
        conn: u32,
        id: usize,
        stream: u64,
        sql: &str,
        text: &str,
    ) -> Result<(), NoMemory> {
        self.waits(conn, id, 1, sql)?;
        self.poll(stream, conn, id, "", text)
    }

    /// What the script is to end with, where nothing fails.
    fn wanted(&self, status: Status, noted: usize) -> Wanted<'_> {
        Wanted {
            status,
            events: self.events,
            noted,
            unsaved: 0,
            out: self.out.as_str(),
        }
    }

    /// Plays the script over a keeper in memory.
    pub fn compare(&self, rt: &impl Abort, status: Status, noted: usize) -> Result<(), Fail> {
        compare(
            rt,
            self.alloc,
            self.script.as_str(),
            Faults::NONE,
            MemoryKeeper::new(self.alloc)?,
            self.wanted(status, noted),
        )
    }
}

#[test]
fn requests_are_refused_at_arrival(rt: HostRuntime) -> Result<(), Fail> {
    let mut scene = Scene::new(rt.alloc())?;
    for (id, (request, code, text)) in ARRIVALS.iter().enumerate() {
        scene.ask(1, id, request, code, text)?;
    }
    scene.compare(&rt, Status::Done, 0)
}

/// The request that opens a stream.
fn opening(alloc: Global, stream: usize) -> Result<String, NoMemory> {
    Ok(format!(in alloc; "{{\"type\":\"open_stream\",\"stream_id\":{stream}}}")?)
}

#[test]
fn the_129th_stream_is_refused(rt: HostRuntime) -> Result<(), Fail> {
    let alloc = rt.alloc();
    let mut scene = Scene::new(alloc)?;
    for stream in 0..128 {
        let request = opening(alloc, stream)?;
        scene.ask(
            1,
            stream,
            request.as_str(),
            "",
            "{\"type\":\"open_stream\"}",
        )?;
    }
    let used = opening(alloc, 5)?;
    scene.ask(1, 5, used.as_str(), "STREAM_EXISTS", "stream id is in use")?;
    let more = opening(alloc, 128)?;
    scene.ask(1, 6, more.as_str(), "TOO_MANY_STREAMS", "too many streams")?;
    scene.compare(&rt, Status::Done, 0)
}

/// The request that stores a text of this many bytes.
fn storing(alloc: Global, number: usize, length: usize) -> Result<String, NoMemory> {
    let mut text = String::new(alloc);
    for _ in 0..length {
        text.push('x')?;
    }
    Ok(format!(in alloc; "{{\"type\":\"store_sql\",\"sql_id\":{number},\"sql\":\"{text}\"}}")?)
}

/// Texts of this length are stored, so many of them, and one more of this length is refused.
fn compare_texts(
    rt: &impl Abort,
    alloc: Global,
    count: usize,
    length: usize,
    more: usize,
) -> Result<(), Fail> {
    let mut scene = Scene::new(alloc)?;
    for number in 0..count {
        let request = storing(alloc, number, length)?;
        scene.ask(1, number, request.as_str(), "", "{\"type\":\"store_sql\"}")?;
    }
    let used = storing(alloc, 0, more)?;
    scene.ask(1, 0, used.as_str(), "SQL_ID_IN_USE", "sql id is in use")?;
    let next = storing(alloc, count, more)?;
    scene.ask(
        1,
        1,
        next.as_str(),
        "TOO_MANY_TEXTS",
        "too many stored texts",
    )?;
    scene.compare(rt, Status::Done, 0)
}

#[test]
fn texts_beyond_the_limits_are_refused(rt: HostRuntime) -> Result<(), Fail> {
    // The 33rd text, and the byte past 262,144.
    for (count, length, more) in [(32, 1, 0), (4, 65536, 1)] {
        compare_texts(&rt, rt.alloc(), count, length, more)?;
    }
    Ok(())
}

#[test]
fn the_65th_connection_does_not_fit(rt: HostRuntime) -> Result<(), Fail> {
    let alloc = rt.alloc();
    let mut scene = Scene::new(alloc)?;
    for conn in 2..65 {
        let line = format!(in alloc; "+ {conn}\n")?;
        scene.line(line.as_str(), "")?;
    }
    scene.compare(&rt, Status::Done, 0)?;
    scene.script.push_str("+ 65\n")?;
    scene.compare(&rt, Status::BadScript { line: 66 }, 0)
}

/// A text of so many bytes, which is no message.
fn letters(alloc: Global, length: usize) -> Result<String, NoMemory> {
    let mut line = String::from_str(alloc, "> 1 ")?;
    for _ in 0..length {
        line.push('x')?;
    }
    line.push('\n')?;
    Ok(line)
}

#[test]
fn connections_are_closed(rt: HostRuntime) -> Result<(), Fail> {
    let alloc = rt.alloc();
    let longest = letters(alloc, 262144)?;
    let longer = letters(alloc, 262145)?;
    let early = request_line(alloc, 1, 1, "{\"type\":\"sing\"}")?;
    for (line, out) in [
        (longest.as_str(), "x 1 1002\n"),
        (longer.as_str(), "x 1 1009\n"),
        ("# 1\n", "x 1 1003\n"),
        ("> 1 [1]\n", "x 1 1002\n"),
        ("> 1 {\"type\":\"hi\"}\n", "x 1 1002\n"),
        ("> 1 {\"type\":\"hello\",\"jwt\":1}\n", "x 1 1002\n"),
        (early.as_str(), "x 1 1002\n"),
    ] {
        // Nothing is heard of it then, and its number may come again once it is lost.
        let script = format!(in alloc; "+ 1\n{line}{line}{HELLO}- 1\n+ 1\n{HELLO}")?;
        let out = format!(in alloc; "{out}{WELCOME}")?;
        let wanted = Wanted {
            status: Status::Done,
            events: 7,
            noted: 0,
            unsaved: 0,
            out: out.as_str(),
        };
        compare(
            &rt,
            alloc,
            script.as_str(),
            Faults::NONE,
            MemoryKeeper::new(alloc)?,
            wanted,
        )?;
    }
    Ok(())
}

pub const OPENED: &str = "{\"type\":\"open_stream\"}";

pub const EMPTY: &str =
    "{\"result\":{\"affected_row_count\":0,\"cols\":[],\"last_insert_rowid\":null,\"rows\":[]},\"type\":\"execute\"}";

pub const ONE: &str =
    "{\"result\":{\"affected_row_count\":1,\"cols\":[],\"last_insert_rowid\":\"1\",\"rows\":[]},\"type\":\"execute\"}";

/// Two connections with a stream each, and a table.
pub fn two_connections(alloc: Global) -> Result<Scene, NoMemory> {
    let mut scene = Scene::new(alloc)?;
    scene.ask(
        1,
        1,
        "{\"type\":\"open_stream\",\"stream_id\":1}",
        "",
        OPENED,
    )?;
    scene.runs(1, 2, 1, "CREATE TABLE t (a)", EMPTY)?;
    scene.line("+ 2\n", "")?;
    scene.line(
        "> 2 {\"type\":\"hello\"}\n",
        "< 2 {\"type\":\"hello_ok\"}\n",
    )?;
    scene.ask(
        2,
        1,
        "{\"type\":\"open_stream\",\"stream_id\":1}",
        "",
        OPENED,
    )?;
    Ok(scene)
}

#[test]
fn a_closing_connection_keeps_its_turn_until_it_is_lost(rt: HostRuntime) -> Result<(), Fail> {
    let alloc = rt.alloc();
    let mut scene = two_connections(alloc)?;
    scene.runs(1, 3, 1, "BEGIN IMMEDIATE", EMPTY)?;
    scene.runs(1, 4, 1, "INSERT INTO t VALUES (1)", ONE)?;
    scene.waits(1, 5, 1, "COMMIT")?;
    scene.waits(2, 2, 1, "INSERT INTO t VALUES (2)")?;
    scene.line("# 1\n", "x 1 1003\n")?;
    scene.line("! 1\n", "")?;
    scene.line("! 2\n", "")?;
    scene.line("- 1\n", "")?;
    scene.line("! 1\n", "")?;
    scene.poll(2, 2, 2, "", ONE)?;
    scene.compare(&rt, Status::Done, 5)
}

/// Adds a poll to the scene, once it was played with a journal that fails as the poll's entry is noted: the answer isn't
/// written then, and the entry and those of the run's end are handed back.
fn poll_noted(
    rt: &impl Abort,
    scene: &mut Scene,
    note: u64,
    stream: u64,
    unsaved: usize,
    answer: (u32, usize, &str),
) -> Result<(), Fail> {
    let script = format!(in scene.alloc; "{}! {stream}\n", scene.script)?;
    let faults = Faults {
        note,
        ..Faults::NONE
    };
    let engine = MemoryKeeper::new(scene.alloc)?;
    let played = play(scene.alloc, &["replay"], script.as_str(), faults, engine)?;
    assert_eq!(rt; played.ended.status, Status::JournalFault);
    assert_eq!(rt; played.ended.events, scene.events.saturating_add(1));
    assert_eq!(rt; played.ended.unsaved.len(), unsaved);
    assert_eq!(rt; played.sink.bytes(), scene.out.as_bytes());
    let (conn, id, text) = answer;
    scene.poll(stream, conn, id, "", text)?;
    Ok(())
}

#[test]
fn a_failing_journal_keeps_what_it_took(rt: HostRuntime) -> Result<(), Fail> {
    let mut scene = two_connections(rt.alloc())?;
    // A unit that is open at the end has an entry for its end.
    scene.waits(1, 3, 1, "BEGIN IMMEDIATE")?;
    poll_noted(&rt, &mut scene, 2, 1, 2, (1, 3, EMPTY))?;
    scene.waits(1, 4, 1, "INSERT INTO t VALUES (1)")?;
    poll_noted(&rt, &mut scene, 3, 1, 2, (1, 4, ONE))?;
    scene.waits(1, 5, 1, "COMMIT")?;
    poll_noted(&rt, &mut scene, 4, 1, 1, (1, 5, EMPTY))?;
    scene.waits(2, 2, 1, "BEGIN IMMEDIATE")?;
    poll_noted(&rt, &mut scene, 5, 2, 2, (2, 2, EMPTY))?;
    // The last entry is that of the end.
    let faults = Faults {
        note: 6,
        ..Faults::NONE
    };
    let wanted = Wanted {
        unsaved: 1,
        ..scene.wanted(Status::JournalFault, 5)
    };
    let engine = MemoryKeeper::new(scene.alloc)?;
    compare(
        &rt,
        scene.alloc,
        scene.script.as_str(),
        faults,
        engine,
        wanted,
    )
}

/// The three streams' statements in turn, each with its stream.
const STATEMENTS: [(&str, usize); 6] = [
    ("CREATE TABLE t (a)", 1),
    ("BEGIN IMMEDIATE", 1),
    ("INSERT INTO t VALUES (1)", 1),
    ("COMMIT", 1),
    ("INSERT INTO t VALUES (2)", 2),
    ("SELECT COUNT(*) FROM t", 3),
];

/// The call of the engine that fails, from 1, the code that each statement is answered with, where it is refused, and the
/// rowid and the count that the last two statements find.
const ENGINE_FAULTS: [(u64, [&str; 6], &str, &str); 7] = [
    (0, ["", "", "", "", "", ""], "2", "2"),
    (
        1,
        ["ENGINE_FAULT", "", "NO_TABLE", "", "NO_TABLE", "NO_TABLE"],
        "",
        "",
    ),
    (2, ["", "ENGINE_FAULT", "", "NO_TXN", "", ""], "2", "2"),
    (3, ["", "", "ENGINE_FAULT", "STREAM_LOST", "", ""], "1", "1"),
    (4, ["", "", "", "ENGINE_FAULT", "", ""], "1", "1"),
    (5, ["", "", "", "", "ENGINE_FAULT", ""], "", "1"),
    (6, ["", "", "", "", "", "ENGINE_FAULT"], "2", ""),
];

fn message_of(code: &str) -> &str {
    match code {
        "ENGINE_FAULT" => "engine failed",
        "NO_TABLE" => "no such table",
        "NO_TXN" => "no transaction is open",
        _ => "stream was lost",
    }
}

/// The response of the statement at this place, where it isn't refused.
fn response_of(alloc: Global, place: usize, rowid: &str, count: &str) -> Result<String, NoMemory> {
    Ok(match place {
        2 => format!(in alloc; "{ONE}")?,
        4 => format!(in alloc;
            "{{\"result\":{{\"affected_row_count\":1,\"cols\":[],\"last_insert_rowid\":\"{rowid}\",\"rows\":[]}},\"type\":\"execute\"}}"
        )?,
        5 => format!(in alloc;
            "{{\"result\":{{\"affected_row_count\":0,\"cols\":[{{\"name\":\"COUNT(*)\"}}],\"last_insert_rowid\":null,\"rows\":[[{{\"type\":\"integer\",\"value\":\"{count}\"}}]]}},\"type\":\"execute\"}}"
        )?,
        _ => format!(in alloc; "{EMPTY}")?,
    })
}

/// Three streams, and their statements with these answers.
fn three_streams(
    alloc: Global,
    codes: &[&str; 6],
    rowid: &str,
    count: &str,
) -> Result<Scene, NoMemory> {
    let mut scene = Scene::new(alloc)?;
    for stream in 1..4 {
        let request = opening(alloc, stream)?;
        scene.ask(1, stream, request.as_str(), "", OPENED)?;
    }
    for (place, (code, (sql, stream))) in codes.iter().zip(STATEMENTS.iter()).enumerate() {
        let request = format!(in alloc;
            "{{\"type\":\"execute\",\"stream_id\":{stream},\"stmt\":{{\"sql\":\"{sql}\"}}}}"
        )?;
        let line = request_line(alloc, 1, place, request.as_str())?;
        scene.line(line.as_str(), "")?;
        let poll = format!(in alloc; "! {stream}\n")?;
        let text = if code.is_empty() {
            response_of(alloc, place, rowid, count)?
        } else {
            String::from_str(alloc, message_of(code))?
        };
        let answer = answer_line(alloc, 1, place, code, text.as_str())?;
        scene.line(poll.as_str(), answer.as_str())?;
    }
    Ok(scene)
}

#[test]
fn a_failing_engine_breaks_one_stream(rt: HostRuntime) -> Result<(), Fail> {
    let alloc = rt.alloc();
    for (call, codes, rowid, count) in ENGINE_FAULTS {
        let scene = three_streams(alloc, &codes, rowid, count)?;
        let engine = Failing::new(alloc, MemoryKeeper::new(alloc)?, &[call])?;
        let played = play(
            alloc,
            &["replay"],
            scene.script.as_str(),
            Faults::NONE,
            engine,
        )?;
        assert_eq!(rt; played.sink.bytes(), scene.out.as_bytes());
        assert_eq!(rt; played.ended.status, Status::Done);
    }
    Ok(())
}
