// Stored texts of streams: what is told of them, what names them, and each refusal.
use crate::playing::*;
use engine_core::Undo;
use std::test::Fail;

const STORED: &str = r#"{"request_id":1,"response":{"type":"store_sql"},"type":"response_ok"}"#;

const CLOSED_TEXT: &str =
    r#"{"request_id":1,"response":{"type":"close_sql"},"type":"response_ok"}"#;

const ONE: &str =
    r#"{"request_id":1,"response":{"result":{"affected_row_count":0,"cols":[{"name":"1"}],"last_insert_rowid":null,"rows":[[{"type":"integer","value":"1"}]]},"type":"execute"},"type":"response_ok"}"#;

const RAN_ALL: &str = r#"{"request_id":1,"response":{"type":"sequence"},"type":"response_ok"}"#;

const TWO_STEPS: Call = Call::Batch(r#"{"steps":[{"stmt":{"sql_id":7}},{"stmt":{"sql_id":8}}]}"#);

const ONE_OF_TWO: &str =
    r#"{"request_id":1,"response":{"result":{"step_errors":[null,{"code":"NO_SQL_ID","message":"sql id is not stored"}],"step_results":[{"affected_row_count":0,"cols":[{"name":"1"}],"last_insert_rowid":null,"rows":[[{"type":"integer","value":"1"}]]},null]},"type":"batch"},"type":"response_ok"}"#;

const NO_SQL_ID: &str =
    r#"{"error":{"code":"NO_SQL_ID","message":"sql id is not stored"},"request_id":1,"type":"response_error"}"#;

const SQL_ID_IN_USE: &str =
    r#"{"error":{"code":"SQL_ID_IN_USE","message":"sql id is in use"},"request_id":1,"type":"response_error"}"#;

// By a statement, a batch and a sequence of its own stream, until it is closed. A number in use keeps its text, and one that was
// closed is free. To close a text that isn't there is done.
#[test]
fn stored_texts_are_used(rt: HostRuntime) -> Result<(), Fail> {
    let lines = [
        (0, Call::CloseSql(7), CLOSED_TEXT),
        (0, Call::StoreSql(7, "SELECT 1"), STORED),
        (0, Call::StoreSql(7, "SELECT 2"), SQL_ID_IN_USE),
        (0, Call::Stored(7), ONE),
        (0, TWO_STEPS, "ran"),
        (0, Call::Poll, ONE_OF_TWO),
        (0, Call::StoredSequence(7), RAN_ALL),
        (1, Call::Stored(7), NO_SQL_ID),
        (0, Call::CloseSql(7), CLOSED_TEXT),
        (0, Call::Stored(7), NO_SQL_ID),
        (0, Call::StoreSql(7, "SELECT 1; SELECT 1"), STORED),
        (0, Call::StoredSequence(7), "ran"),
        (0, Call::Poll, RAN_ALL),
    ];
    let entries = entries_of(rt.alloc(), Telling::Written, NO_CALL, &lines)?;
    assert_eq!(rt; entries.as_str(), " alone alone alone alone alone");
    Ok(())
}

// So many texts of so many bytes are stored, and then one more of so many bytes.
#[test]
fn texts_are_limited(rt: HostRuntime) -> Result<(), Fail> {
    let alloc = rt.alloc();
    for (count, bytes, last, wanted) in [
        (0, 0, 262144, "done"),
        (0, 0, 262145, "TOO_MANY_TEXTS"),
        (3, 65536, 65536, "done"),
        (3, 65536, 65537, "TOO_MANY_TEXTS"),
        (4, 65536, 0, "done"),
        (31, 1, 1, "done"),
        (32, 1, 1, "TOO_MANY_TEXTS"),
    ] {
        let told = told_after_texts(alloc, count, bytes, last)?;
        assert_eq!(rt; told.as_str(), wanted);
    }
    Ok(())
}

// In each state that a stream can have here: they add no entry and leave the state.
#[test]
fn texts_leave_the_transaction(rt: HostRuntime) -> Result<(), Fail> {
    let alloc = rt.alloc();
    for (first, wanted) in [
        (Call::Poll, "idle done done auto:"),
        (BEGIN, "done done done deferred:"),
        (IMMEDIATE, "done done done writing: began"),
        (Call::End(Undo::Lost), "idle STREAM_LOST STREAM_LOST lost:"),
        (Call::Close, "done STREAM_NOT_OPEN STREAM_NOT_OPEN closed:"),
    ] {
        let calls = [first, Call::StoreSql(7, "SELECT 1"), Call::CloseSql(8)];
        let told = played(alloc, NO_CALL, &calls)?;
        assert_eq!(rt; told.as_str(), wanted);
    }
    Ok(())
}
