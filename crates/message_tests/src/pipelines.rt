// Bodies and answers of pipelines: texts by the tables of the protocol.
use crate::tables::{Told, are_refused, are_told, come_back};
use hrana_value::{Decline, NoMemory, Txt};
use pipeline_body::{
    BodyFail, MAX_PIPELINE_ASKS, PipeAsk, PipelineAnswer, Replies, decode_pipeline,
    decode_pipeline_answer, encode_pipeline, encode_pipeline_answer, limits_are,
};
use std::alloc::Global;
use std::process::Abort;
use stream_requests::{Ask, Reply};

// The body that these bytes are, written again.
fn body(alloc: Global, bytes: &[u8]) -> Result<Txt, BodyFail> {
    let body = decode_pipeline(alloc, bytes)?;
    if !body.has_form() {
        return Err(BodyFail::NoMemory);
    }
    match encode_pipeline(alloc, &body) {
        Ok(text) => Ok(text),
        Err(_) => Err(BodyFail::NoMemory),
    }
}

fn answer(alloc: Global, bytes: &[u8]) -> Result<Txt, BodyFail> {
    let answer = decode_pipeline_answer(alloc, bytes)?;
    if !answer.has_form() {
        return Err(BodyFail::NoMemory);
    }
    match encode_pipeline_answer(alloc, &answer) {
        Ok(text) => Ok(text),
        Err(_) => Err(BodyFail::NoMemory),
    }
}

struct BodyTexts;

impl Told<BodyFail> for BodyTexts {
    fn told(alloc: Global, text: &str) -> Result<Txt, BodyFail> {
        body(alloc, text.as_bytes())
    }
}

struct AnswerTexts;

impl Told<BodyFail> for AnswerTexts {
    fn told(alloc: Global, text: &str) -> Result<Txt, BodyFail> {
        answer(alloc, text.as_bytes())
    }
}

// The decline of the first of two requests, of which the second is read.
fn first_declined(alloc: Global, request: &str) -> Option<Decline> {
    let Ok(text) = format!(in alloc; "{{\"requests\":[{request},{{\"type\":\"get_autocommit\"}}]}}")
    else {
        return None;
    };
    let Ok(body) = decode_pipeline(alloc, text.as_bytes()) else {
        return None;
    };
    match body.asks.as_slice() {
        [PipeAsk::Declined(decline), PipeAsk::Ask(Ask::GetAutocommit)] => Some(*decline),
        _ => None,
    }
}

// A body of so many requests that are declined, behind this start.
fn many(alloc: Global, start: &str, count: usize) -> Result<String, NoMemory> {
    let mut text = String::from_str(alloc, start)?;
    text.push_str("\"requests\":[0")?;
    for _ in 1..count {
        text.push_str(",0")?;
    }
    text.push_str("]}")?;
    Ok(text)
}

// A text of each kind of request, as it is written.
#[test]
fn bodies_come_back(rt: HostRuntime) {
    come_back::<BodyFail, BodyTexts>(
        &rt,
        rt.alloc(),
        &[
            r#"{"baton":null,"requests":[{"type":"get_autocommit"}]}"#,
            r#"{"baton":"AAAAAAAAAAEAAAAAAAAAAAAAAAAAAAAA","requests":[{"type":"get_autocommit"}]}"#,
            r#"{"baton":null,"requests":[]}"#,
            r#"{"baton":null,"requests":[{"stmt":{"sql":"CREATE TABLE t (a)"},"type":"execute"}]}"#,
            r#"{"baton":"é\n","requests":[{"stmt":{"sql":"INSERT INTO t VALUES (1)"},"type":"execute"},{"stmt":{"sql_id":-1},"type":"execute"}]}"#,
            r#"{"baton":"","requests":[{"batch":{"steps":[{"stmt":{"sql":"a"}},{"condition":{"step":0,"type":"ok"},"stmt":{"sql":"b"}}]},"type":"batch"},{"sql":"a;b","type":"sequence"},{"sql_id":8,"type":"sequence"},{"sql":"a","sql_id":2147483647,"type":"store_sql"},{"sql_id":-2147483648,"type":"close_sql"},{"type":"close"},{"type":"get_autocommit"}]}"#,
        ],
    );
}

// Members in any order, others between them, null for what is absent, and of two members of one name the later.
#[test]
fn other_bodies_are_read(rt: HostRuntime) {
    are_told::<BodyFail, BodyTexts>(
        &rt,
        rt.alloc(),
        &[
            (
                r#"{"requests":[{"type":"sequence","sql":"CREATE TABLE t (a); INSERT INTO t VALUES (1), (2), (3)"},{"type":"close"}]}"#,
                r#"{"baton":null,"requests":[{"sql":"CREATE TABLE t (a); INSERT INTO t VALUES (1), (2), (3)","type":"sequence"},{"type":"close"}]}"#,
            ),
            (
                r#" {"x":1.5,"requests":[{"type":"close","stream_id":"x"}],"baton":5,"baton":"t\u00e9"} "#,
                r#"{"baton":"té","requests":[{"type":"close"}]}"#,
            ),
        ],
    );
}

fn stand_in_their_places(rt: &impl Abort, alloc: Global, cases: &[(&str, Decline)]) {
    for (request, want) in cases {
        assert!(rt;
            first_declined(alloc, request) == Some(*want),
            "at {request}"
        );
    }
}

// Each kind of decline, the first where several stand, and what may be asked over a WebSocket alone.
#[test]
fn declined_requests_stand_in_their_places(rt: HostRuntime) {
    stand_in_their_places(
        &rt,
        rt.alloc(),
        &[
            ("5", Decline::Shape),
            ("null", Decline::Shape),
            ("{}", Decline::Shape),
            (r#"{"type":5}"#, Decline::Shape),
            (r#"{"type":"describe","sql":5}"#, Decline::Describe),
            (r#"{"type":"Close"}"#, Decline::Unknown),
            (r#"{"type":"open_stream","stream_id":1}"#, Decline::Unknown),
            (r#"{"type":"close_stream","stream_id":1}"#, Decline::Unknown),
            (
                r#"{"type":"open_cursor","batch":{"steps":[]}}"#,
                Decline::Unknown,
            ),
            (r#"{"type":"close_cursor"}"#, Decline::Unknown),
            (r#"{"type":"fetch_cursor","max_count":1}"#, Decline::Unknown),
            (r#"{"type":"execute"}"#, Decline::Shape),
            (r#"{"type":"execute","stmt":{}}"#, Decline::BothSql),
            (
                r#"{"type":"sequence","sql":"a","sql_id":1}"#,
                Decline::BothSql,
            ),
            (
                r#"{"type":"batch","batch":{"steps":[{"stmt":{"sql":"a","args":[{"type":"float"}]},"condition":{"type":"ok","step":0}}]}}"#,
                Decline::BadStep,
            ),
            (
                r#"{"type":"close_sql","sql_id":2147483648}"#,
                Decline::Range,
            ),
            (
                r#"{"type":"execute","stmt":{"sql":"a","args":[{"type":"float","value":1}]}}"#,
                Decline::Float,
            ),
        ],
    );
}

fn is_refused(alloc: Global, bytes: &[u8], want: BodyFail) -> bool {
    match body(alloc, bytes) {
        Ok(_) => false,
        Err(fail) => fail == want,
    }
}

fn all_refused(rt: &impl Abort, alloc: Global, cases: &[(&[u8], BodyFail)]) {
    for (index, (bytes, want)) in cases.iter().enumerate() {
        assert!(rt; is_refused(alloc, bytes, *want), "at {index}");
    }
}

#[test]
fn bodies_are_refused(rt: HostRuntime) {
    let cases: [(&[u8], BodyFail); 11] = [
        (b"", BodyFail::NotJson),
        (b"{\"requests\":[]", BodyFail::NotJson),
        (b"{\"requests\":[],\"x\":\"\xff\"}", BodyFail::NotJson),
        (b"{\"requests\":[1e400]}", BodyFail::NotJson),
        (b"[]", BodyFail::Shape),
        (b"null", BodyFail::Shape),
        (b"{}", BodyFail::Shape),
        (b"{\"requests\":null}", BodyFail::Shape),
        (b"{\"requests\":{}}", BodyFail::Shape),
        (b"{\"baton\":5,\"requests\":[]}", BodyFail::Shape),
        (
            b"{\"baton\":[\"a\"],\"requests\":[{\"type\":\"close\"}]}",
            BodyFail::Shape,
        ),
    ];
    all_refused(&rt, rt.alloc(), &cases);
}

// How a body of so many requests fails, if it does; nothing where memory is short.
fn fail_of(alloc: Global, start: &str, count: usize) -> Option<Option<BodyFail>> {
    let text = many(alloc, start, count).ok()?;
    match decode_pipeline(alloc, text.as_bytes()) {
        Ok(_) => Some(None),
        Err(fail) => Some(Some(fail)),
    }
}

fn all_fail(rt: &impl Abort, alloc: Global, cases: &[(&str, usize, Option<BodyFail>)]) {
    for (start, count, want) in cases {
        assert!(rt;
            fail_of(alloc, start, *count) == Some(*want),
            "{count} requests"
        );
    }
}

// Declined requests count, and what has no form is told first.
#[test]
fn too_many_requests_are_refused(rt: HostRuntime) {
    limits_are();
    all_fail(
        &rt,
        rt.alloc(),
        &[
            ("{", MAX_PIPELINE_ASKS, None),
            ("{", MAX_PIPELINE_ASKS + 1, Some(BodyFail::TooMany)),
            (
                "{\"baton\":5,",
                MAX_PIPELINE_ASKS + 1,
                Some(BodyFail::Shape),
            ),
        ],
    );
}

// A result of each kind, as it is written.
#[test]
fn answers_come_back(rt: HostRuntime) {
    come_back::<BodyFail, AnswerTexts>(
        &rt,
        rt.alloc(),
        &[
            r#"{"base_url":null,"baton":"AAAAAAAAAAEAAAAAAAAAAAAAAAAAAAAA","results":[{"response":{"is_autocommit":true,"type":"get_autocommit"},"type":"ok"}]}"#,
            r#"{"base_url":null,"baton":null,"results":[{"response":{"type":"sequence"},"type":"ok"},{"response":{"type":"close"},"type":"ok"}]}"#,
            r#"{"base_url":null,"baton":"é","results":[]}"#,
            r#"{"base_url":null,"baton":null,"results":[{"response":{"result":{"affected_row_count":0,"cols":[{"name":"COUNT(*)"}],"last_insert_rowid":null,"rows":[[{"type":"integer","value":"1"}]]},"type":"execute"},"type":"ok"}]}"#,
            r#"{"base_url":null,"baton":null,"results":[{"error":{"code":"BUSY","message":"database is locked"},"type":"error"},{"response":{"result":{"step_errors":[null,{"code":null,"message":"m"}],"step_results":[null,null]},"type":"batch"},"type":"ok"},{"response":{"type":"store_sql"},"type":"ok"},{"response":{"type":"close_sql"},"type":"ok"}]}"#,
        ],
    );
}

#[test]
fn other_answers_are_read(rt: HostRuntime) {
    are_told::<BodyFail, AnswerTexts>(
        &rt,
        rt.alloc(),
        &[
            (
                r#"{"results":[]}"#,
                r#"{"base_url":null,"baton":null,"results":[]}"#,
            ),
            (
                r#"{"results":[{"type":"error","error":{"message":"m"},"response":5}],"baton":"b","base_url":"http://h","x":{}}"#,
                r#"{"base_url":null,"baton":"b","results":[{"error":{"code":null,"message":"m"},"type":"error"}]}"#,
            ),
        ],
    );
}

// A float is declined where nothing else is wrong, also in a result before one that can be read.
#[test]
fn answers_are_refused(rt: HostRuntime) {
    are_refused::<BodyFail, AnswerTexts>(
        &rt,
        rt.alloc(),
        &[
            ("{", BodyFail::NotJson),
            ("[]", BodyFail::Shape),
            ("{}", BodyFail::Shape),
            (r#"{"baton":5,"results":[]}"#, BodyFail::Shape),
            (r#"{"base_url":5,"results":[]}"#, BodyFail::Shape),
            (r#"{"results":[5]}"#, BodyFail::Shape),
            (
                r#"{"results":[{"response":{"type":"close"}}]}"#,
                BodyFail::Shape,
            ),
            (
                r#"{"results":[{"type":"OK","response":{"type":"close"}}]}"#,
                BodyFail::Shape,
            ),
            (r#"{"results":[{"type":"ok"}]}"#, BodyFail::Shape),
            (
                r#"{"results":[{"type":"ok","response":{"type":"open_cursor"}}]}"#,
                BodyFail::Shape,
            ),
            (
                r#"{"results":[{"type":"ok","response":{"type":"describe"}}]}"#,
                BodyFail::Shape,
            ),
            (r#"{"results":[{"type":"error"}]}"#, BodyFail::Shape),
            (
                r#"{"results":[{"type":"ok","response":{"type":"execute","result":{"cols":[],"rows":[[{"type":"float"}]],"affected_row_count":0}}},{"type":"ok","response":{"type":"close"}}]}"#,
                BodyFail::Declined(Decline::Float),
            ),
            (
                r#"{"baton":5,"results":[{"type":"ok","response":{"type":"execute","result":{"cols":[],"rows":[[{"type":"float"}]],"affected_row_count":0}}}]}"#,
                BodyFail::Shape,
            ),
            (
                r#"{"results":[{"type":"ok","response":{"type":"execute","result":{"cols":[],"rows":[[{"type":"float"}]],"affected_row_count":-1}}}]}"#,
                BodyFail::Shape,
            ),
        ],
    );
}

// Whether an answer of this reply alone has a form.
fn has_form(alloc: Global, reply: Reply) -> Option<bool> {
    let mut results = Replies::new(alloc);
    results.push(reply).ok()?;
    let answer = PipelineAnswer {
        baton: None,
        results,
    };
    Some(answer.has_form())
}

// What no request of a pipeline is answered with has no form.
#[test]
fn replies_of_other_requests_are_told(rt: HostRuntime) {
    let alloc = rt.alloc();
    assert!(rt; has_form(alloc, Reply::Cursor) == Some(false));
    assert!(rt; has_form(alloc, Reply::StreamOpened) == Some(false));
    assert!(rt; has_form(alloc, Reply::CursorClosed) == Some(false));
    assert!(rt; has_form(alloc, Reply::Closed) == Some(true));
}
