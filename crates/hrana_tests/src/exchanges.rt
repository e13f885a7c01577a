// Exchanges over HTTP: what each is refused with, by which baton it goes on, and when a stream of them expires.
use crate::played::{Faults, play};
use engine_core::NoMemory;
use hrana_serve::Status;
use memory_keeper::MemoryKeeper;
use std::alloc::Global;
use std::process::Abort;
use std::test::Fail;

/// The first batons, where each word that is drawn is 0.
const B1: &str = "AAAAAAAAAAEAAAAAAAAAAAAAAAAAAAAA";

const B2: &str = "AAAAAAAAAAIAAAAAAAAAAAAAAAAAAAAA";

const B3: &str = "AAAAAAAAAAMAAAAAAAAAAAAAAAAAAAAA";

const EMPTY: &str =
    "{\"response\":{\"result\":{\"affected_row_count\":0,\"cols\":[],\"last_insert_rowid\":null,\"rows\":[]},\"type\":\"execute\"},\"type\":\"ok\"}";

const CLOSED: &str = "{\"response\":{\"type\":\"close\"},\"type\":\"ok\"}";

const DEAD: &str = "< 1 400 {\"code\":\"BATON_DEAD\",\"message\":\"baton is not valid\"}\n";

/// A pipeline with this baton, as the line of a script. An empty baton is null.
fn pipeline(alloc: Global, baton: &str, requests: &str) -> Result<String, NoMemory> {
    if baton.is_empty() {
        return Ok(format!(in alloc;
            "? 1 POST /v3/pipeline - {{\"baton\":null,\"requests\":[{requests}]}}\n"
        )?);
    }
    Ok(format!(in alloc;
        "? 1 POST /v3/pipeline - {{\"baton\":\"{baton}\",\"requests\":[{requests}]}}\n"
    )?)
}

/// The line of its answer.
fn results(alloc: Global, baton: &str, results: &str) -> Result<String, NoMemory> {
    if baton.is_empty() {
        return Ok(format!(in alloc;
            "< 1 200 {{\"base_url\":null,\"baton\":null,\"results\":[{results}]}}\n"
        )?);
    }
    Ok(format!(in alloc;
        "< 1 200 {{\"base_url\":null,\"baton\":\"{baton}\",\"results\":[{results}]}}\n"
    )?)
}

/// The request for a statement.
fn execute(alloc: Global, sql: &str) -> Result<String, NoMemory> {
    Ok(format!(in alloc; "{{\"type\":\"execute\",\"stmt\":{{\"sql\":\"{sql}\"}}}}")?)
}

/// A script and what is to come of it.
#[derive(Drop)]
struct Dialog {
    alloc: Global,
    script: String,
    out: String,
}

impl Dialog {
    fn new(alloc: Global) -> Dialog {
        Dialog {
            alloc,
            script: String::new(alloc),
            out: String::new(alloc),
        }
    }

    /// One more line, and what it gives.
    fn line(&mut self, line: &str, out: &str) -> Result<(), NoMemory> {
        self.script.push_str(line)?;
        self.out.push_str(out)?;
        Ok(())
    }

    /// A pipeline that is answered by the polls of this stream that follow, or at once where there is none.
    fn asks(
        &mut self,
        baton: &str,
        requests: &str,
        polls: &str,
        next: &str,
        answers: &str,
    ) -> Result<(), NoMemory> {
        let line = pipeline(self.alloc, baton, requests)?;
        let out = results(self.alloc, next, answers)?;
        self.line(line.as_str(), "")?;
        self.line(polls, out.as_str())
    }

    /// A pipeline that is answered so at once.
    fn told(&mut self, baton: &str, requests: &str, out: &str) -> Result<(), NoMemory> {
        let line = pipeline(self.alloc, baton, requests)?;
        self.line(line.as_str(), out)
    }

    /// Plays the script with these words, where the draw of this number fails, and compares what was written.
    fn compare_with(&self, rt: &impl Abort, words: &[&str], draw: u64) -> Result<(), Fail> {
        let faults = Faults {
            draw,
            ..Faults::NONE
        };
        let played = play(
            self.alloc,
            words,
            self.script.as_str(),
            faults,
            MemoryKeeper::new(self.alloc)?,
        )?;
        assert_eq!(rt; played.sink.bytes(), self.out.as_bytes());
        assert_eq!(rt; played.ended.status, Status::Done);
        Ok(())
    }

    fn compare(&self, rt: &impl Abort) -> Result<(), Fail> {
        self.compare_with(rt, &["replay"], 0)
    }
}

/// Exchanges that are answered at once, one after another, where a token is required and the third draw fails.
const REFUSALS: [(&str, &str); 17] = [
    ("? 1 GET /nope - {\n", "< 1 404\n"),
    ("? 1 POST /v3/cursor secret {}\n", "< 1 404\n"),
    ("? 1 POST /v3 -\n", "< 1 405\n"),
    ("? 1 GET /v3/pipeline -\n", "< 1 405\n"),
    (
        "? 1 PUT /v3/pipeline secret {\"requests\":[]}\n",
        "< 1 405\n",
    ),
    ("? 1 GET /v3 -\n", "< 1 200\n"),
    (
        "? 1 POST /v3/pipeline - {\n",
        "< 1 401 {\"code\":\"AUTH\",\"message\":\"authentication failed\"}\n",
    ),
    (
        "? 1 POST /v3/pipeline Secret {\"requests\":[]}\n",
        "< 1 401 {\"code\":\"AUTH\",\"message\":\"authentication failed\"}\n",
    ),
    (
        "? 1 POST /v3/pipeline secret {\n",
        "< 1 400 {\"code\":\"BAD_REQUEST\",\"message\":\"malformed request\"}\n",
    ),
    (
        "? 1 POST /v3/pipeline secret\n",
        "< 1 400 {\"code\":\"BAD_REQUEST\",\"message\":\"malformed request\"}\n",
    ),
    (
        "? 1 POST /v3/pipeline secret {\"baton\":1,\"requests\":[]}\n",
        "< 1 400 {\"code\":\"BAD_REQUEST\",\"message\":\"malformed request\"}\n",
    ),
    (
        "? 1 POST /v3/pipeline secret {\"requests\":[]}\n",
        "< 1 200 {\"base_url\":null,\"baton\":\"AAAAAAAAAAEAAAAAAAAAAAAAAAAAAAAA\",\"results\":[]}\n",
    ),
    (
        "? 1 POST /v3/pipeline secret {\"baton\":\"x\",\"requests\":[]}\n",
        "< 1 400 {\"code\":\"BATON_DEAD\",\"message\":\"baton is not valid\"}\n",
    ),
    (
        "? 1 POST /v3/pipeline secret {\"baton\":\"x\",\"requests\":[]}\n",
        "< 1 503 {\"code\":\"NO_TOKEN\",\"message\":\"no token could be drawn\"}\n",
    ),
    (
        "? 1 POST /v3/pipeline secret {\"baton\":\"AAAAAAAAAAEAAAAAAAAAAAAAAAAAAAAB\",\"requests\":[]}\n",
        "< 1 400 {\"code\":\"BATON_DEAD\",\"message\":\"baton is not valid\"}\n",
    ),
    (
        "? 1 POST /v3/pipeline secret {\"baton\":\"AAAAAAAAAAEAAAAAAAAAAAAAAAAAAAAA\",\"requests\":[{\"type\":\"sing\"},{\"type\":\"describe\"},1]}\n",
        "< 1 200 {\"base_url\":null,\"baton\":\"AAAAAAAAAAIAAAAAAAAAAAAAAAAAAAAA\",\"results\":[{\"error\":{\"code\":\"UNKNOWN_REQUEST\",\"message\":\"unknown request type\"},\"type\":\"error\"},{\"error\":{\"code\":\"DESCRIBE_UNSUPPORTED\",\"message\":\"describe is not supported\"},\"type\":\"error\"},{\"error\":{\"code\":\"BAD_REQUEST\",\"message\":\"malformed request\"},\"type\":\"error\"}]}\n",
    ),
    (
        "? 1 POST /v3/pipeline secret {\"baton\":\"AAAAAAAAAAEAAAAAAAAAAAAAAAAAAAAA\",\"requests\":[]}\n",
        "< 1 400 {\"code\":\"BATON_DEAD\",\"message\":\"baton is not valid\"}\n",
    ),
];

#[test]
fn exchanges_are_refused_in_order(rt: HostRuntime) -> Result<(), Fail> {
    let mut dialog = Dialog::new(rt.alloc());
    for (line, out) in REFUSALS {
        dialog.line(line, out)?;
    }
    dialog.compare_with(&rt, &["replay", "secret"], 3)
}

#[test]
fn a_failed_draw_leaves_its_baton(rt: HostRuntime) -> Result<(), Fail> {
    let refused = "< 1 503 {\"code\":\"NO_TOKEN\",\"message\":\"no token could be drawn\"}\n";
    let mut dialog = Dialog::new(rt.alloc());
    dialog.asks("", "", "", B1, "")?;
    dialog.told(B1, "", refused)?;
    dialog.asks(B1, "", "", B2, "")?;
    dialog.told(B1, "", DEAD)?;
    dialog.compare_with(&rt, &["replay"], 2)
}

/// So many requests, each of which is declined.
fn declined(alloc: Global, count: usize, item: &str) -> Result<String, NoMemory> {
    let mut items = String::from_str(alloc, item)?;
    for _ in 1..count {
        items.push(',')?;
        items.push_str(item)?;
    }
    Ok(items)
}

#[test]
fn the_257th_request_is_refused(rt: HostRuntime) -> Result<(), Fail> {
    let alloc = rt.alloc();
    let error =
        "{\"error\":{\"code\":\"BAD_REQUEST\",\"message\":\"malformed request\"},\"type\":\"error\"}";
    let refused = "< 1 400 {\"code\":\"BAD_REQUEST\",\"message\":\"malformed request\"}\n";
    let mut dialog = Dialog::new(alloc);
    let most = declined(alloc, 256, "1")?;
    let errors = declined(alloc, 256, error)?;
    dialog.asks("", most.as_str(), "", B1, errors.as_str())?;
    let more = declined(alloc, 257, "1")?;
    dialog.told(B1, more.as_str(), refused)?;
    dialog.asks(B1, "", "", B2, "")?;
    dialog.compare(&rt)
}

/// Opens so many streams, and then another one.
fn opened(alloc: Global, count: usize) -> Result<String, NoMemory> {
    let mut script = String::new(alloc);
    let line = pipeline(alloc, "", "")?;
    for _ in 0..count {
        script.push_str(line.as_str())?;
    }
    Ok(script)
}

/// What the script writes ends so.
fn ends_so(rt: &impl Abort, alloc: Global, script: &str, end: &str) -> Result<(), Fail> {
    let played = play(
        alloc,
        &["replay"],
        script,
        Faults::NONE,
        MemoryKeeper::new(alloc)?,
    )?;
    assert!(rt; played.sink.bytes().ends_with(end.as_bytes()));
    Ok(())
}

#[test]
fn the_257th_stream_is_refused(rt: HostRuntime) -> Result<(), Fail> {
    let alloc = rt.alloc();
    let full = "< 1 503 {\"code\":\"TOO_MANY_STREAMS\",\"message\":\"too many streams\"}\n";
    let last =
        "< 1 200 {\"base_url\":null,\"baton\":\"AAAAAAAAAQAAAAAAAAAAAAAAAAAAAAAA\",\"results\":[]}\n";
    let mut script = opened(alloc, 256)?;
    ends_so(&rt, alloc, script.as_str(), last)?;
    script.push_str(opened(alloc, 1)?.as_str())?;
    ends_so(&rt, alloc, script.as_str(), full)?;
    // Where one of them is closed there is room again.
    script.push_str(pipeline(alloc, B1, "{\"type\":\"close\"}")?.as_str())?;
    script.push_str("! 1\n")?;
    script.push_str(opened(alloc, 1)?.as_str())?;
    let next =
        "< 1 200 {\"base_url\":null,\"baton\":\"AAAAAAAAAQEAAAAAAAAAAAAAAAAAAAAA\",\"results\":[]}\n";
    ends_so(&rt, alloc, script.as_str(), next)
}

/// A statement that a stream runs, a moment, and whether the stream is in autocommit then; nothing where its baton is dead.
const EXPIRIES: [(&str, &str, &str); 6] = [
    ("CREATE TABLE t (a)", "@ 9999\n", "true"),
    ("CREATE TABLE t (a)", "@ 10000\n", ""),
    ("BEGIN", "@ 9999\n", "false"),
    ("BEGIN", "@ 10000\n", ""),
    ("BEGIN IMMEDIATE", "@ 9999\n", "false"),
    ("BEGIN IMMEDIATE", "@ 10000\n", ""),
];

/// The stream goes on at the moment, or its baton is dead.
fn at_moment(alloc: Global, sql: &str, moment: &str, autocommit: &str) -> Result<Dialog, NoMemory> {
    let mut dialog = Dialog::new(alloc);
    let asking = "{\"type\":\"get_autocommit\"}";
    dialog.asks("", execute(alloc, sql)?.as_str(), "! 1\n", B1, EMPTY)?;
    dialog.line(moment, "")?;
    if autocommit.is_empty() {
        dialog.told(B1, asking, DEAD)?;
        return Ok(dialog);
    }
    let said = format!(in alloc;
        "{{\"response\":{{\"is_autocommit\":{autocommit},\"type\":\"get_autocommit\"}},\"type\":\"ok\"}}"
    )?;
    dialog.asks(B1, asking, "! 1\n", B2, said.as_str())?;
    Ok(dialog)
}

#[test]
fn streams_of_exchanges_expire(rt: HostRuntime) -> Result<(), Fail> {
    for (sql, moment, autocommit) in EXPIRIES {
        at_moment(rt.alloc(), sql, moment, autocommit)?.compare(&rt)?;
    }
    Ok(())
}

#[test]
fn a_request_that_waits_keeps_its_stream(rt: HostRuntime) -> Result<(), Fail> {
    let alloc = rt.alloc();
    let mut dialog = Dialog::new(alloc);
    dialog.asks("", execute(alloc, "BEGIN")?.as_str(), "! 1\n", B1, EMPTY)?;
    let line = pipeline(alloc, B1, execute(alloc, "COMMIT")?.as_str())?;
    dialog.line(line.as_str(), "")?;
    dialog.line("@ 10000\n", "")?;
    let out = results(alloc, B2, EMPTY)?;
    dialog.line("! 1\n", out.as_str())?;
    dialog.compare(&rt)
}

#[test]
fn stored_texts_are_of_one_stream(rt: HostRuntime) -> Result<(), Fail> {
    let alloc = rt.alloc();
    let storing = "{\"type\":\"store_sql\",\"sql_id\":1,\"sql\":\"CREATE TABLE t (a)\"}";
    let stored = "{\"response\":{\"type\":\"store_sql\"},\"type\":\"ok\"}";
    let running = "{\"type\":\"execute\",\"stmt\":{\"sql_id\":1}}";
    let missing =
        "{\"error\":{\"code\":\"NO_SQL_ID\",\"message\":\"sql id is not stored\"},\"type\":\"error\"}";
    let mut dialog = Dialog::new(alloc);
    dialog.asks("", storing, "! 1\n", B1, stored)?;
    dialog.asks("", running, "! 2\n", B2, missing)?;
    dialog.asks(B1, running, "! 1\n", B3, EMPTY)?;
    dialog.compare(&rt)
}

#[test]
fn a_closed_stream_has_no_baton(rt: HostRuntime) -> Result<(), Fail> {
    let alloc = rt.alloc();
    let after =
        "{\"error\":{\"code\":\"STREAM_NOT_OPEN\",\"message\":\"stream is not open\"},\"type\":\"error\"}";
    let requests = "{\"type\":\"close\"},{\"type\":\"get_autocommit\"}";
    let answers = format!(in alloc; "{CLOSED},{after}")?;
    let mut dialog = Dialog::new(alloc);
    dialog.asks("", "", "", B1, "")?;
    dialog.asks(B1, requests, "! 1\n! 1\n", "", answers.as_str())?;
    dialog.told(B1, "", DEAD)?;
    dialog.compare(&rt)
}

#[test]
fn a_lost_exchange_takes_its_stream_along(rt: HostRuntime) -> Result<(), Fail> {
    let alloc = rt.alloc();
    let mut dialog = Dialog::new(alloc);
    let creating = execute(alloc, "CREATE TABLE t (a)")?;
    let line = pipeline(alloc, "", creating.as_str())?;
    dialog.line(line.as_str(), "")?;
    dialog.line("- 1\n! 1\n", "")?;
    // Nothing ran, and its connection and its stream are gone.
    dialog.asks("", creating.as_str(), "! 2\n", B1, EMPTY)?;
    dialog.compare(&rt)
}
