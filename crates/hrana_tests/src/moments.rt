// Moments: when a stream that holds a transaction expires, and what is left of it.
use crate::hub::{EMPTY, ONE, OPENED, Scene, two_connections};
use hrana_serve::Status;
use std::alloc::Global;
use std::process::Abort;
use std::test::Fail;

const AUTOCOMMIT: &str = "{\"is_autocommit\":true,\"type\":\"get_autocommit\"}";

const IN_TRANSACTION: &str = "{\"is_autocommit\":false,\"type\":\"get_autocommit\"}";

/// Statements of a stream that are run at once and the moments between them, how many entries they add with the end, and
/// what the stream says of its transaction then; nothing where it is lost.
const EXPIRIES: [(&[&str], usize, &str); 11] = [
    (&["@ 10000"], 0, AUTOCOMMIT),
    (&["BEGIN", "@ 9999"], 0, IN_TRANSACTION),
    (&["BEGIN", "@ 10000"], 0, ""),
    (&["BEGIN IMMEDIATE", "@ 9999"], 2, IN_TRANSACTION),
    (&["BEGIN IMMEDIATE", "@ 10000"], 2, ""),
    (&["BEGIN", "ROLLBACK", "@ 10000"], 0, AUTOCOMMIT),
    (&["@ 5000", "BEGIN IMMEDIATE", "@ 14999"], 2, IN_TRANSACTION),
    (&["@ 5000", "BEGIN IMMEDIATE", "@ 15000"], 2, ""),
    (&["@ 20000", "BEGIN", "@ 1", "@ 29999"], 0, IN_TRANSACTION),
    (&["@ 20000", "BEGIN", "@ 1", "@ 30000"], 0, ""),
    (&["BEGIN IMMEDIATE", "@ 18446744073709551615"], 2, ""),
];

/// The statements and moments on a stream that was opened.
fn played(alloc: Global, steps: &[&str], said: &str) -> Result<Scene, Fail> {
    let mut scene = Scene::new(alloc)?;
    let opening = "{\"type\":\"open_stream\",\"stream_id\":1}";
    scene.ask(1, 1, opening, "", OPENED)?;
    for step in steps {
        if step.starts_with("@") {
            let line = format!(in alloc; "{step}\n")?;
            scene.line(line.as_str(), "")?;
        } else {
            scene.runs(1, 2, 1, step, EMPTY)?;
        }
    }
    let asking =
        "> 1 {\"type\":\"request\",\"request_id\":3,\"request\":{\"type\":\"get_autocommit\",\"stream_id\":1}}\n";
    scene.line(asking, "")?;
    if said.is_empty() {
        scene.poll(1, 1, 3, "STREAM_LOST", "stream was lost")?;
    } else {
        scene.poll(1, 1, 3, "", said)?;
    }
    Ok(scene)
}

#[test]
fn transactions_expire(rt: HostRuntime) -> Result<(), Fail> {
    for (steps, noted, said) in EXPIRIES {
        let scene = played(rt.alloc(), steps, said)?;
        scene.compare(&rt, Status::Done, noted)?;
    }
    Ok(())
}

#[test]
fn a_request_that_waits_keeps_its_transaction(rt: HostRuntime) -> Result<(), Fail> {
    let mut scene = two_connections(rt.alloc())?;
    scene.runs(1, 3, 1, "BEGIN IMMEDIATE", EMPTY)?;
    scene.waits(1, 4, 1, "INSERT INTO t VALUES (1)")?;
    scene.line("@ 10000\n", "")?;
    scene.poll(1, 1, 4, "", ONE)?;
    scene.line("@ 19999\n", "")?;
    scene.runs(1, 5, 1, "COMMIT", EMPTY)?;
    scene.compare(&rt, Status::Done, 4)
}

/// What connection 1 wrote in its transaction is taken back, and who waited for the turn goes on.
fn expired(rt: &impl Abort, alloc: Global, line: &str, out: &str) -> Result<(), Fail> {
    let mut scene = two_connections(alloc)?;
    scene.runs(1, 3, 1, "BEGIN IMMEDIATE", EMPTY)?;
    scene.runs(1, 4, 1, "INSERT INTO t VALUES (1)", ONE)?;
    scene.waits(2, 2, 1, "INSERT INTO t VALUES (2)")?;
    scene.line(line, out)?;
    scene.line("! 2\n", "")?;
    scene.line("@ 10000\n", "")?;
    scene.poll(2, 2, 2, "", ONE)?;
    scene.line("- 1\n", "")?;
    scene.compare(rt, Status::Done, 5)
}

#[test]
fn what_expires_is_taken_back(rt: HostRuntime) -> Result<(), Fail> {
    // On a connection that is closing, too.
    expired(&rt, rt.alloc(), "! 1\n", "")?;
    expired(&rt, rt.alloc(), "# 1\n", "x 1 1003\n")
}
