// Replies as the server writes them, of calls of several streams, and the entries.
use crate::playing::*;
use engine_core::Undo;
use std::test::Fail;

const EMPTY: &str =
    r#"{"request_id":1,"response":{"result":{"affected_row_count":0,"cols":[],"last_insert_rowid":null,"rows":[]},"type":"execute"},"type":"response_ok"}"#;

const ONE_ROW: &str =
    r#"{"request_id":1,"response":{"result":{"affected_row_count":1,"cols":[],"last_insert_rowid":"1","rows":[]},"type":"execute"},"type":"response_ok"}"#;

const COUNTED: &str =
    r#"{"request_id":1,"response":{"result":{"affected_row_count":0,"cols":[{"name":"COUNT(*)"}],"last_insert_rowid":null,"rows":[[{"type":"integer","value":"1"}]]},"type":"execute"},"type":"response_ok"}"#;

const AUTOCOMMIT: &str =
    r#"{"request_id":1,"response":{"is_autocommit":true,"type":"get_autocommit"},"type":"response_ok"}"#;

const NO_AUTOCOMMIT: &str =
    r#"{"request_id":1,"response":{"is_autocommit":false,"type":"get_autocommit"},"type":"response_ok"}"#;

const RAN_ALL: &str = r#"{"request_id":1,"response":{"type":"sequence"},"type":"response_ok"}"#;

const CLOSED: &str = r#"{"request_id":1,"response":{"type":"close_stream"},"type":"response_ok"}"#;

const NO_TXN: &str =
    r#"{"error":{"code":"NO_TXN","message":"no transaction is open"},"request_id":1,"type":"response_error"}"#;

const TXN_OPEN: &str =
    r#"{"error":{"code":"TXN_OPEN","message":"a transaction is open"},"request_id":1,"type":"response_error"}"#;

const SYNTAX: &str =
    r#"{"error":{"code":"SYNTAX","message":"statement is not understood"},"request_id":1,"type":"response_error"}"#;

const ENGINE_FAULT: &str =
    r#"{"error":{"code":"ENGINE_FAULT","message":"engine failed"},"request_id":1,"type":"response_error"}"#;

const STREAM_LOST: &str =
    r#"{"error":{"code":"STREAM_LOST","message":"stream was lost"},"request_id":1,"type":"response_error"}"#;

#[test]
fn transactions_are_replied(rt: HostRuntime) -> Result<(), Fail> {
    let lines = [
        (0, TABLE, EMPTY),
        (0, Call::Autocommit, AUTOCOMMIT),
        (0, COMMIT, NO_TXN),
        (0, BEGIN, EMPTY),
        (0, Call::Autocommit, NO_AUTOCOMMIT),
        (0, BEGIN, TXN_OPEN),
        (0, COMMIT, EMPTY),
        (0, IMMEDIATE, EMPTY),
        (0, ADD_ONE, ONE_ROW),
        (0, Call::Autocommit, NO_AUTOCOMMIT),
        (0, Call::Close, CLOSED),
    ];
    let entries = entries_of(rt.alloc(), Telling::Written, NO_CALL, &lines)?;
    assert_eq!(rt; entries.as_str(), " wrote began ran closed");
    Ok(())
}

const TWO_AND_BAD: Call = Call::Sequence(
    "INSERT INTO t VALUES (1, 'a;b'); BAD; INSERT INTO t VALUES (2, 'c')",
);

#[test]
fn sequences_are_replied(rt: HostRuntime) -> Result<(), Fail> {
    let lines = [
        (0, TABLE, EMPTY),
        (0, TWO_AND_BAD, "ran"),
        (0, Call::Poll, SYNTAX),
        (0, COUNT, COUNTED),
        (0, Call::Sequence("BEGIN; ROLLBACK;"), "ran"),
        (0, COUNT, RAN_ALL),
        (0, Call::Poll, COUNTED),
    ];
    let entries = entries_of(rt.alloc(), Telling::Written, NO_CALL, &lines)?;
    assert_eq!(rt; entries.as_str(), " wrote wrote alone alone alone");
    Ok(())
}

const ROLLS_BACK: Call = Call::Batch(
    r#"{"steps":[{"stmt":{"sql":"BEGIN"}},{"condition":{"type":"ok","step":0},"stmt":{"sql":"INSERT INTO t VALUES (1, 'x')"}},{"condition":{"type":"ok","step":1},"stmt":{"sql":"COMMIT"}},{"condition":{"type":"not","cond":{"type":"ok","step":2}},"stmt":{"sql":"ROLLBACK"}}]}"#,
);

const ROLLED_BACK: &str =
    r#"{"request_id":1,"response":{"result":{"step_errors":[null,{"code":"CONSTRAINT","message":"primary key constraint failed"},null,null],"step_results":[{"affected_row_count":0,"cols":[],"last_insert_rowid":null,"rows":[]},null,null,{"affected_row_count":0,"cols":[],"last_insert_rowid":null,"rows":[]}]},"type":"batch"},"type":"response_ok"}"#;

#[test]
fn batches_roll_back(rt: HostRuntime) -> Result<(), Fail> {
    let lines = [
        (0, TABLE, EMPTY),
        (0, ADD_ONE, ONE_ROW),
        (0, ROLLS_BACK, "ran"),
        (0, Call::Poll, "ran"),
        (0, Call::Poll, "ran"),
        (0, Call::Poll, ROLLED_BACK),
    ];
    let entries = entries_of(rt.alloc(), Telling::Written, NO_CALL, &lines)?;
    assert_eq!(rt; entries.as_str(), " wrote wrote began refused rolled-back");
    Ok(())
}

const CONDITIONS: Call = Call::Batch(
    r#"{"steps":[{"condition":{"type":"is_autocommit"},"stmt":{"sql":"SELECT 1"}},{"stmt":{"sql":"BEGIN"}},{"condition":{"type":"is_autocommit"},"stmt":{"sql":"SELECT 2"}},{"condition":{"type":"and","conds":[]},"stmt":{"sql":"SELECT 3"}},{"condition":{"type":"or","conds":[]},"stmt":{"sql":"SELECT 4"}},{"stmt":{"sql":"COMMIT"}}]}"#,
);

const CONDITIONS_MET: &str =
    r#"{"request_id":1,"response":{"result":{"step_errors":[null,null,null,null,null,null],"step_results":[{"affected_row_count":0,"cols":[{"name":"1"}],"last_insert_rowid":null,"rows":[[{"type":"integer","value":"1"}]]},{"affected_row_count":0,"cols":[],"last_insert_rowid":null,"rows":[]},null,{"affected_row_count":0,"cols":[{"name":"3"}],"last_insert_rowid":null,"rows":[[{"type":"integer","value":"3"}]]},null,{"affected_row_count":0,"cols":[],"last_insert_rowid":null,"rows":[]}]},"type":"batch"},"type":"response_ok"}"#;

const SKIPPED: Call = Call::Batch(
    r#"{"steps":[{"condition":{"type":"or","conds":[]},"stmt":{"sql":"SELECT 1"}}]}"#,
);

const SKIPPED_ALL: &str =
    r#"{"request_id":1,"response":{"result":{"step_errors":[null],"step_results":[null]},"type":"batch"},"type":"response_ok"}"#;

#[test]
fn steps_are_skipped(rt: HostRuntime) -> Result<(), Fail> {
    let lines = [
        (0, CONDITIONS, "ran"),
        (0, Call::Poll, "ran"),
        (0, Call::Poll, "ran"),
        (0, Call::Poll, "ran"),
        (0, Call::Poll, CONDITIONS_MET),
        (0, SKIPPED, SKIPPED_ALL),
    ];
    let entries = entries_of(rt.alloc(), Telling::Written, NO_CALL, &lines)?;
    assert_eq!(rt; entries.as_str(), " alone began ran committed");
    Ok(())
}

const CONDITIONAL: Call = Call::Batch(
    r#"{"steps":[{"stmt":{"sql":"BEGIN IMMEDIATE","args":[],"named_args":[],"want_rows":false}},{"condition":{"type":"ok","step":0},"stmt":{"sql":"INSERT INTO t VALUES (:a, :b)","named_args":[{"name":"a","value":{"type":"integer","value":"1"}},{"name":":b","value":{"type":"text","value":"x"}}]}},{"condition":{"type":"ok","step":1},"stmt":{"sql":"COMMIT"}},{"condition":{"type":"not","cond":{"type":"ok","step":2}},"stmt":{"sql":"ROLLBACK"}}]}"#,
);

const OUTSIDE_AUTOCOMMIT: Call = Call::Batch(
    r#"{"steps":[{"stmt":{"sql":"BEGIN IMMEDIATE","args":[],"named_args":[],"want_rows":false}},{"condition":{"type":"not","cond":{"type":"is_autocommit"}},"stmt":{"sql":"INSERT INTO t VALUES (:a, :b)","named_args":[{"name":"a","value":{"type":"integer","value":"1"}},{"name":":b","value":{"type":"text","value":"x"}}]}},{"condition":{"type":"not","cond":{"type":"is_autocommit"}},"stmt":{"sql":"COMMIT"}},{"condition":{"type":"not","cond":{"type":"ok","step":2}},"stmt":{"sql":"ROLLBACK"}}]}"#,
);

const CONDITIONS_HELD: &str =
    r#"{"request_id":1,"response":{"result":{"step_errors":[null,null,null,null],"step_results":[{"affected_row_count":0,"cols":[],"last_insert_rowid":null,"rows":[]},{"affected_row_count":1,"cols":[],"last_insert_rowid":"1","rows":[]},{"affected_row_count":0,"cols":[],"last_insert_rowid":null,"rows":[]},null]},"type":"batch"},"type":"response_ok"}"#;

#[test]
fn batches_commit(rt: HostRuntime) -> Result<(), Fail> {
    for batch in [CONDITIONAL, OUTSIDE_AUTOCOMMIT] {
        let lines = [
            (0, TABLE, EMPTY),
            (0, batch, "ran"),
            (0, COUNT, "ran"),
            (0, Call::Poll, CONDITIONS_HELD),
            (0, Call::Poll, COUNTED),
        ];
        let entries = entries_of(rt.alloc(), Telling::Written, NO_CALL, &lines)?;
        assert_eq!(rt; entries.as_str(), " wrote began ran committed alone");
    }
    Ok(())
}

#[test]
fn faults_are_replied(rt: HostRuntime) -> Result<(), Fail> {
    let lines = [
        (0, TABLE, EMPTY),
        (0, IMMEDIATE, EMPTY),
        (1, ADD_TWO, "pending"),
        (0, ADD_ONE, ENGINE_FAULT),
        (0, COUNT, STREAM_LOST),
        (0, Call::Close, CLOSED),
        (1, Call::Poll, ONE_ROW),
    ];
    let entries = entries_of(rt.alloc(), Telling::Written, 3, &lines)?;
    assert_eq!(rt; entries.as_str(), " wrote began lost-unit wrote");
    Ok(())
}

// A fault is the reply of the whole request, and outside a unit the stream goes on.
#[test]
fn faults_stop_requests(rt: HostRuntime) -> Result<(), Fail> {
    for call in [TWO_AND_BAD, CONDITIONAL, CONDITIONS] {
        let lines = [
            (0, TABLE, EMPTY),
            (0, call, ENGINE_FAULT),
            (0, ADD_ONE, ONE_ROW),
        ];
        let entries = entries_of(rt.alloc(), Telling::Written, 2, &lines)?;
        assert_eq!(rt; entries.as_str(), " wrote failed wrote");
    }
    Ok(())
}

#[test]
fn writers_wait(rt: HostRuntime) -> Result<(), Fail> {
    let lines = [
        (0, TABLE, EMPTY),
        (0, IMMEDIATE, EMPTY),
        (1, ADD_TWO, "pending"),
        (0, ROLLBACK, EMPTY),
        (1, Call::Poll, ONE_ROW),
    ];
    let entries = entries_of(rt.alloc(), Telling::Written, NO_CALL, &lines)?;
    assert_eq!(rt; entries.as_str(), " wrote began rolled-back wrote");
    Ok(())
}

#[test]
fn the_turn_is_free_after_a_loss(rt: HostRuntime) -> Result<(), Fail> {
    let lines = [
        (0, TABLE, EMPTY),
        (0, IMMEDIATE, EMPTY),
        (0, ADD_ONE, ONE_ROW),
        (1, ADD_TWO, "pending"),
        (0, Call::End(Undo::Lost), "idle"),
        (1, Call::Poll, ONE_ROW),
        (1, COUNT, COUNTED),
    ];
    let entries = entries_of(rt.alloc(), Telling::Written, NO_CALL, &lines)?;
    assert_eq!(rt; entries.as_str(), " wrote began ran lost wrote alone");
    Ok(())
}
