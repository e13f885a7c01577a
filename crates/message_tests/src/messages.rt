// The messages of a client and of the server: texts by the tables of the protocol.
use crate::tables::{Declines, Told, are_declined, are_refused, are_told, come_back};
use hrana_value::{Decline, NoMemory, Txt};
use std::alloc::Global;
use std::process::Abort;
use ws_messages::{MsgFail, Why, decode_client, decode_server, encode_client, encode_server};

// The message of a client that these bytes are, written again.
fn client(alloc: Global, bytes: &[u8]) -> Result<Txt, MsgFail> {
    let msg = decode_client(alloc, bytes)?;
    if !msg.has_form() {
        return Err(MsgFail::NoMemory);
    }
    match encode_client(alloc, &msg) {
        Ok(text) => Ok(text),
        Err(_) => Err(MsgFail::NoMemory),
    }
}

fn server(alloc: Global, bytes: &[u8]) -> Result<Txt, MsgFail> {
    let msg = decode_server(alloc, bytes)?;
    if !msg.has_form() {
        return Err(MsgFail::NoMemory);
    }
    match encode_server(alloc, &msg) {
        Ok(text) => Ok(text),
        Err(_) => Err(MsgFail::NoMemory),
    }
}

// What stands between the first text and the last, or the whole where it doesn't stand between them.
fn between<'a>(text: &'a str, first: &str, last: &str) -> &'a str {
    let Some(rest) = text.strip_prefix(first) else {
        return text;
    };
    match rest.strip_suffix(last) {
        Some(part) => part,
        None => text,
    }
}

const REQUEST: &str = "{\"request\":";

const REQUEST_END: &str = ",\"request_id\":1,\"type\":\"request\"}";

const RESPONSE: &str = "{\"request_id\":1,\"response\":";

const RESPONSE_END: &str = ",\"type\":\"response_ok\"}";

// The request of message 1, and the message written again.
fn request(alloc: Global, text: &str) -> Result<Txt, MsgFail> {
    match format!(in alloc; "{REQUEST}{text}{REQUEST_END}") {
        Ok(message) => client(alloc, message.as_bytes()),
        Err(_) => Err(MsgFail::NoMemory),
    }
}

fn response(alloc: Global, text: &str) -> Result<Txt, MsgFail> {
    match format!(in alloc; "{RESPONSE}{text}{RESPONSE_END}") {
        Ok(message) => server(alloc, message.as_bytes()),
        Err(_) => Err(MsgFail::NoMemory),
    }
}

// The part of a message that stands between these texts.
fn part(alloc: Global, message: &Txt, first: &str, last: &str) -> Result<Txt, MsgFail> {
    match Txt::new(alloc, between(message.as_str(), first, last)) {
        Ok(part) => Ok(part),
        Err(_) => Err(MsgFail::NoMemory),
    }
}

struct ClientTexts;

impl Told<MsgFail> for ClientTexts {
    fn told(alloc: Global, text: &str) -> Result<Txt, MsgFail> {
        client(alloc, text.as_bytes())
    }
}

struct RequestTexts;

impl Told<MsgFail> for RequestTexts {
    fn told(alloc: Global, text: &str) -> Result<Txt, MsgFail> {
        part(alloc, &request(alloc, text)?, REQUEST, REQUEST_END)
    }
}

struct ServerTexts;

impl Told<MsgFail> for ServerTexts {
    fn told(alloc: Global, text: &str) -> Result<Txt, MsgFail> {
        server(alloc, text.as_bytes())
    }
}

struct ResponseTexts;

impl Told<MsgFail> for ResponseTexts {
    fn told(alloc: Global, text: &str) -> Result<Txt, MsgFail> {
        part(alloc, &response(alloc, text)?, RESPONSE, RESPONSE_END)
    }
}

// Each message here has the number 1.
impl Declines for MsgFail {
    fn declined(decline: Decline) -> MsgFail {
        MsgFail::Declined {
            request_id: 1,
            decline,
        }
    }
}

// A text between others that come so many times.
fn around(
    alloc: Global,
    count: u32,
    open: &str,
    middle: &str,
    close: &str,
) -> Result<String, NoMemory> {
    let mut text = String::new(alloc);
    for _ in 0..count {
        text.push_str(open)?;
    }
    text.push_str(middle)?;
    for _ in 0..count {
        text.push_str(close)?;
    }
    Ok(text)
}

// A text of each kind of request, as it is written.
#[test]
fn requests_come_back(rt: HostRuntime) {
    come_back::<MsgFail, RequestTexts>(
        &rt,
        rt.alloc(),
        &[
            r#"{"stream_id":-2147483648,"type":"open_stream"}"#,
            r#"{"stream_id":2147483647,"type":"close_stream"}"#,
            r#"{"stmt":{"args":[{"type":"null"},{"type":"integer","value":"-5"},{"type":"text","value":"é\n"},{"base64":"AQ==","type":"blob"}],"named_args":[{"name":":a","value":{"type":"null"}}],"sql":"a","want_rows":false},"stream_id":1,"type":"execute"}"#,
            r#"{"stmt":{"sql_id":3},"stream_id":1,"type":"execute"}"#,
            r#"{"batch":{"steps":[{"stmt":{"sql":"a"}},{"condition":{"conds":[{"step":0,"type":"ok"},{"step":0,"type":"error"},{"conds":[],"type":"or"},{"cond":{"type":"is_autocommit"},"type":"not"}],"type":"and"},"stmt":{"sql":"b"}}]},"stream_id":1,"type":"batch"}"#,
            r#"{"batch":{"steps":[]},"cursor_id":-3,"stream_id":1,"type":"open_cursor"}"#,
            r#"{"cursor_id":4,"type":"close_cursor"}"#,
            r#"{"cursor_id":4,"max_count":4294967295,"type":"fetch_cursor"}"#,
            r#"{"sql":"a;b","stream_id":1,"type":"sequence"}"#,
            r#"{"sql_id":8,"stream_id":1,"type":"sequence"}"#,
            r#"{"sql":"","sql_id":8,"type":"store_sql"}"#,
            r#"{"sql_id":7,"type":"close_sql"}"#,
            r#"{"stream_id":1,"type":"get_autocommit"}"#,
        ],
    );
}

// Members in any order, others between them, null for what is absent, and of two members of one name the later.
#[test]
fn other_texts_of_a_client_are_read(rt: HostRuntime) {
    are_told::<MsgFail, ClientTexts>(
        &rt,
        rt.alloc(),
        &[
            (r#"{"type":"hello"}"#, r#"{"jwt":null,"type":"hello"}"#),
            (
                r#" {"type" : "hello","x":[1.5], "jwt":"t\u00e9\n"} "#,
                r#"{"jwt":"té\n","type":"hello"}"#,
            ),
            (
                r#"{"type":"request","request_id":9,"request_id":-2147483648,"request":{"type":"execute","stream_id":1,"stmt":{"sql_id":3,"sql":null,"args":[{"type":"integer","value":"+5"}],"named_args":null,"want_rows":true}},"x":1.5}"#,
                r#"{"request":{"stmt":{"args":[{"type":"integer","value":"5"}],"sql_id":3},"stream_id":1,"type":"execute"},"request_id":-2147483648,"type":"request"}"#,
            ),
            (
                r#"{"type":"request","request_id":1,"request":{"type":"batch","sql":5,"stream_id":1,"batch":{"steps":[{"stmt":{"sql":"a","args":[]},"condition":null}]}}}"#,
                r#"{"request":{"batch":{"steps":[{"stmt":{"sql":"a"}}]},"stream_id":1,"type":"batch"},"request_id":1,"type":"request"}"#,
            ),
        ],
    );
}

fn violates(alloc: Global, bytes: &[u8], why: Why) -> bool {
    match client(alloc, bytes) {
        Ok(_) => false,
        Err(fail) => fail == MsgFail::Violation(why),
    }
}

fn are_violations(rt: &impl Abort, alloc: Global, cases: &[(&[u8], Why)]) {
    for (index, (bytes, why)) in cases.iter().enumerate() {
        assert!(rt; violates(alloc, bytes, *why), "at {index}");
    }
}

#[test]
fn violations_of_a_client_are_told(rt: HostRuntime) {
    let cases: [(&[u8], Why); 20] = [
        (b"", Why::NotJson),
        (b"{\"type\":\"hello\"}}", Why::NotJson),
        (b"{\"type\":\"hello\",\"jwt\":\"\\ud800\"}", Why::NotJson),
        (b"{\"type\":\"hello\",\"jwt\":\"\xff\"}", Why::NotJson),
        (b"{\"type\":\"hello\",\"x\":1e400}", Why::NotJson),
        (b"[1]", Why::NotObject),
        (b"null", Why::NotObject),
        (b"\"hello\"", Why::NotObject),
        (b"{}", Why::NoKind),
        (b"{\"type\":null}", Why::NoKind),
        (b"{\"type\":\"hello\",\"type\":\"Hello\"}", Why::UnknownKind),
        (b"{\"type\":\"hello_ok\"}", Why::UnknownKind),
        (b"{\"type\":\"hello\",\"jwt\":1}", Why::BadHello),
        (b"{\"type\":\"hello\",\"jwt\":{}}", Why::BadHello),
        (b"{\"type\":\"request\",\"request\":{}}", Why::BadRequestId),
        (
            b"{\"type\":\"request\",\"request_id\":2147483648}",
            Why::BadRequestId,
        ),
        (
            b"{\"type\":\"request\",\"request_id\":-2147483649}",
            Why::BadRequestId,
        ),
        (
            b"{\"type\":\"request\",\"request_id\":1.0}",
            Why::BadRequestId,
        ),
        (
            b"{\"type\":\"request\",\"request_id\":-0}",
            Why::BadRequestId,
        ),
        (
            b"{\"type\":\"request\",\"request_id\":\"1\"}",
            Why::BadRequestId,
        ),
    ];
    are_violations(&rt, rt.alloc(), &cases);
}

// Each kind of decline, the first where several stand, and what stands in an item before one that can be read.
#[test]
fn requests_are_declined(rt: HostRuntime) {
    are_declined::<MsgFail, RequestTexts>(
        &rt,
        rt.alloc(),
        &[
            (r#"5"#, Decline::Shape),
            (r#"{"type":5}"#, Decline::Shape),
            (
                r#"{"type":"describe","stream_id":"x","sql":5}"#,
                Decline::Describe,
            ),
            (r#"{"type":"Execute"}"#, Decline::Unknown),
            (
                r#"{"type":"hello","stmt":{"args":[{"type":"float"}]}}"#,
                Decline::Unknown,
            ),
            (r#"{"type":"open_stream"}"#, Decline::Shape),
            (
                r#"{"type":"open_stream","stream_id":2147483648}"#,
                Decline::Range,
            ),
            (
                r#"{"type":"open_stream","stream_id":18446744073709551616}"#,
                Decline::Shape,
            ),
            (r#"{"type":"execute","stream_id":1}"#, Decline::Shape),
            (
                r#"{"type":"execute","stream_id":2147483648,"stmt":{}}"#,
                Decline::BothSql,
            ),
            (
                r#"{"type":"execute","stream_id":2147483648,"stmt":{"sql":"a","args":[{"type":"float","value":1}]}}"#,
                Decline::Range,
            ),
            (
                r#"{"type":"execute","stream_id":1,"stmt":{"sql":"a","args":[{"type":"float","value":1},{"type":"null"}]}}"#,
                Decline::Float,
            ),
            (
                r#"{"type":"execute","stream_id":1,"stmt":{"sql":"a","named_args":[{"name":"a","value":{"type":"float"}},{"name":"b","value":{"type":"null"}}]}}"#,
                Decline::Float,
            ),
            (r#"{"type":"sequence","stream_id":1}"#, Decline::BothSql),
            (
                r#"{"type":"sequence","stream_id":null,"sql":"a","sql_id":1}"#,
                Decline::Shape,
            ),
            (
                r#"{"type":"store_sql","sql_id":1,"sql":null}"#,
                Decline::Shape,
            ),
            (r#"{"type":"close_sql","sql_id":"7"}"#, Decline::Shape),
            (
                r#"{"type":"close_cursor","cursor_id":null}"#,
                Decline::Shape,
            ),
            (
                r#"{"type":"fetch_cursor","cursor_id":1,"max_count":-1}"#,
                Decline::Range,
            ),
            (
                r#"{"type":"fetch_cursor","cursor_id":1,"max_count":4294967296}"#,
                Decline::Range,
            ),
            (
                r#"{"type":"open_cursor","stream_id":1,"cursor_id":1}"#,
                Decline::Shape,
            ),
            (
                r#"{"type":"batch","stream_id":1,"batch":{"steps":[{"stmt":{}},{"stmt":{"sql":"a"}}]}}"#,
                Decline::BothSql,
            ),
            (
                r#"{"type":"batch","stream_id":1,"batch":{"steps":[{"stmt":{"sql":"a"},"condition":{"type":"ok","step":0}},{"stmt":{"sql":"a"}}]}}"#,
                Decline::BadStep,
            ),
            (
                r#"{"type":"batch","stream_id":1,"batch":{"steps":[{"stmt":{"sql":"a"},"condition":{"type":"or","conds":[{"type":"xor"},{"type":"is_autocommit"}]}}]}}"#,
                Decline::Shape,
            ),
        ],
    );
}

// Whether a text is a message of a client; nothing where it fails in another way than this.
fn fits(alloc: Global, text: &str, otherwise: MsgFail) -> Option<bool> {
    match client(alloc, text.as_bytes()) {
        Ok(_) => Some(true),
        Err(fail) if fail == otherwise => Some(false),
        Err(_) => None,
    }
}

fn nested_fits(alloc: Global, levels: u32) -> Option<bool> {
    let inner = around(alloc, levels, "[", "", "]").ok()?;
    let text = format!(in alloc; "{{\"type\":\"hello\",\"x\":{inner}}}").ok()?;
    fits(alloc, text.as_str(), MsgFail::Violation(Why::NotJson))
}

fn sql_fits(alloc: Global, members: &str, pairs: u32) -> Option<bool> {
    let sql = around(alloc, pairs, "a", "", "b").ok()?;
    let text = format!(in alloc;
        "{REQUEST}{{\"type\":{members},\"sql\":\"{sql}\"}}{REQUEST_END}"
    ).ok()?;
    fits(alloc, text.as_str(), MsgFail::declined(Decline::Range))
}

fn repeated_fits(alloc: Global, part: &str) -> Option<bool> {
    let text = around(alloc, 262144, part, "", "").ok()?;
    fits(alloc, text.as_str(), MsgFail::Violation(Why::NotJson))
}

#[test]
fn limits_of_messages_are_kept(rt: HostRuntime) {
    let alloc = rt.alloc();
    assert!(rt; nested_fits(alloc, 126) == Some(true));
    assert!(rt; nested_fits(alloc, 127) == Some(false));
    assert!(rt; repeated_fits(alloc, "[") == Some(false));
    assert!(rt; repeated_fits(alloc, "\"") == Some(false));
    assert!(rt; repeated_fits(alloc, "{") == Some(false));
    assert!(rt; repeated_fits(alloc, "\\") == Some(false));
}

#[test]
fn limits_of_sql_are_kept(rt: HostRuntime) {
    let alloc = rt.alloc();
    assert!(rt; sql_fits(alloc, "\"store_sql\",\"sql_id\":1", 32768) == Some(true));
    assert!(rt; sql_fits(alloc, "\"sequence\",\"stream_id\":1", 32768) == Some(true));
    assert!(rt; sql_fits(alloc, "\"store_sql\",\"sql_id\":1", 32769) == Some(false));
    assert!(rt; sql_fits(alloc, "\"sequence\",\"stream_id\":1", 32769) == Some(false));
}

// A text of each kind of response, as it is written.
#[test]
fn responses_come_back(rt: HostRuntime) {
    come_back::<MsgFail, ResponseTexts>(
        &rt,
        rt.alloc(),
        &[
            r#"{"type":"open_stream"}"#,
            r#"{"type":"close_stream"}"#,
            r#"{"result":{"affected_row_count":18446744073709551615,"cols":[{"name":"a"},{"name":null}],"last_insert_rowid":"-1","rows":[[],[{"type":"null"}]]},"type":"execute"}"#,
            r#"{"result":{"step_errors":[null,{"code":null,"message":"m"},null],"step_results":[null,null,{"affected_row_count":0,"cols":[{"name":"a"}],"last_insert_rowid":null,"rows":[[{"type":"integer","value":"1"}],[{"type":"null"}]]}]},"type":"batch"}"#,
            r#"{"type":"open_cursor"}"#,
            r#"{"type":"close_cursor"}"#,
            r#"{"done":true,"entries":[{"cols":[{"name":"a"}],"step":0,"type":"step_begin"},{"row":[{"type":"null"}],"type":"row"},{"affected_row_count":0,"last_insert_rowid":null,"type":"step_end"},{"error":{"code":null,"message":"m"},"step":1,"type":"step_error"},{"error":{"code":null,"message":"m"},"type":"error"}],"type":"fetch_cursor"}"#,
            r#"{"type":"sequence"}"#,
            r#"{"type":"store_sql"}"#,
            r#"{"type":"close_sql"}"#,
            r#"{"is_autocommit":false,"type":"get_autocommit"}"#,
        ],
    );
}

#[test]
fn other_texts_of_the_server_are_read(rt: HostRuntime) {
    are_told::<MsgFail, ServerTexts>(
        &rt,
        rt.alloc(),
        &[
            (r#"{"type":"hello_ok","x":1}"#, r#"{"type":"hello_ok"}"#),
            (
                r#"{"type":"hello_error","error":{"message":"m"}}"#,
                r#"{"error":{"code":null,"message":"m"},"type":"hello_error"}"#,
            ),
            (
                r#"{"type":"response_error","request_id":-1,"error":{"message":"m","code":"AUTH"}}"#,
                r#"{"error":{"code":"AUTH","message":"m"},"request_id":-1,"type":"response_error"}"#,
            ),
            (
                r#"{"type":"response_ok","request_id":1,"response":{"type":"batch","result":{"step_results":[null,null],"step_errors":[null,{"message":"m"}]}}}"#,
                r#"{"request_id":1,"response":{"result":{"step_errors":[null,{"code":null,"message":"m"}],"step_results":[null,null]},"type":"batch"},"type":"response_ok"}"#,
            ),
        ],
    );
}

#[test]
fn texts_of_a_server_are_refused(rt: HostRuntime) {
    let bad = MsgFail::Violation(Why::BadReply);
    are_refused::<MsgFail, ServerTexts>(
        &rt,
        rt.alloc(),
        &[
            (r#"{"#, MsgFail::Violation(Why::NotJson)),
            (r#"[]"#, MsgFail::Violation(Why::NotObject)),
            (r#"{}"#, MsgFail::Violation(Why::NoKind)),
            (
                r#"{"type":"request"}"#,
                MsgFail::Violation(Why::UnknownKind),
            ),
            (
                r#"{"type":"response_ok"}"#,
                MsgFail::Violation(Why::BadRequestId),
            ),
            (
                r#"{"type":"response_error","request_id":2147483648}"#,
                MsgFail::Violation(Why::BadRequestId),
            ),
            (r#"{"type":"hello_error"}"#, bad),
            (r#"{"type":"hello_error","error":{"message":1}}"#, bad),
            (r#"{"type":"response_error","request_id":1}"#, bad),
        ],
    );
}

// A float is declined where nothing else is wrong, also in an item before one that can be read.
#[test]
fn responses_are_refused(rt: HostRuntime) {
    let bad = MsgFail::Violation(Why::BadReply);
    let float = MsgFail::declined(Decline::Float);
    are_refused::<MsgFail, ResponseTexts>(
        &rt,
        rt.alloc(),
        &[
            (r#"{}"#, bad),
            (r#"{"type":"describe"}"#, bad),
            (r#"{"type":"get_autocommit","is_autocommit":0}"#, bad),
            (
                r#"{"type":"execute","result":{"cols":[],"rows":[[{"type":"float"},{"type":"null"}],[]],"affected_row_count":0}}"#,
                float,
            ),
            (
                r#"{"type":"execute","result":{"cols":[],"rows":[[{"type":"float"}]]}}"#,
                bad,
            ),
            (
                r#"{"type":"execute","result":{"cols":[5,{"name":"a"}],"rows":[],"affected_row_count":0}}"#,
                bad,
            ),
            (
                r#"{"type":"batch","result":{"step_results":[{"cols":[],"rows":[[{"type":"float"}]],"affected_row_count":0},null],"step_errors":[null,null]}}"#,
                float,
            ),
            (
                r#"{"type":"batch","result":{"step_results":[null,null],"step_errors":[5,null]}}"#,
                bad,
            ),
            (
                r#"{"type":"fetch_cursor","done":false,"entries":[{"type":"row","row":[{"type":"float"}]},{"type":"row","row":[]}]}"#,
                float,
            ),
            (
                r#"{"type":"fetch_cursor","done":false,"entries":[{"type":"rows"}]}"#,
                bad,
            ),
        ],
    );
}
