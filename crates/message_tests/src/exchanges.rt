// Exchanges over HTTP: what a request is answered with before its stream is asked, and the results of a pipeline.
ghost use Rattle.std.specs.Prelude.{◌↔◌, IsTrue, All};
ghost use Rattle.pipeline_body.specs.Batons.{IsPlain};

use hrana_stmt::Code;
use hrana_value::{Bytes, NoMemory, Txt};
use http_wire::{Allow, HttpAnswer, HttpAsk, Method};
use pipeline_body::{
    Asked, Exchange, decode_pipeline, empty_answer, error_answer, read_ask, route_answer,
};
use std::alloc::Global;
use std::process::Abort;
use std::test::Fail;
use stream_requests::Reply;

fn ask_of(
    alloc: Global,
    method: Method,
    path: &str,
    body: &str,
    close: bool,
) -> Result<HttpAsk, NoMemory> {
    Ok(HttpAsk {
        method,
        path: Txt::new(alloc, path)?,
        bearer: None,
        body: Bytes::new(alloc, body.as_bytes())?,
        close,
    })
}

/// Compares an answer with its status, its method and its body.
fn compare(
    rt: &impl Abort,
    answer: &HttpAnswer,
    status: u16,
    allow: Option<Allow>,
    body: &str,
    close: bool,
) -> Result<(), Fail> {
    assert_eq!(rt; answer.body.as_slice(), body.as_bytes());
    assert_eq!(rt; answer.allow, allow);
    assert_eq!(rt; (answer.status, answer.close), (status, close));
    Ok(())
}

/// Paths and methods, and the answer that each has by these alone; 0 where its bearer and body are looked at.
const ROUTES: [(Method, &str, u16, Option<Allow>); 10] = [
    (Method::Get, "/v3", 200, None),
    (Method::Post, "/v3", 405, Some(Allow::Get)),
    (Method::Other, "/v3", 405, Some(Allow::Get)),
    (Method::Post, "/v3/pipeline", 0, None),
    (Method::Get, "/v3/pipeline", 405, Some(Allow::Post)),
    (Method::Other, "/v3/pipeline", 405, Some(Allow::Post)),
    (Method::Get, "/v3-protobuf", 404, None),
    (Method::Get, "/v3/", 404, None),
    (Method::Get, "", 404, None),
    (Method::Post, "/v3/cursor", 404, None),
];

#[test]
fn routes_are_answered(rt: HostRuntime) -> Result<(), Fail> {
    let alloc = rt.alloc();
    for (method, path, status, allow) in ROUTES {
        let ask = ask_of(alloc, method, path, "", status == 404)?;
        match route_answer(alloc, &ask) {
            Some(answer) => compare(&rt, &answer, status, allow, "", status == 404)?,
            None => assert_eq!(rt; status, 0),
        }
    }
    Ok(())
}

const NOT_LET_IN: &str = "{\"code\":\"AUTH\",\"message\":\"authentication failed\"}";

const MALFORMED: &str = "{\"code\":\"BAD_REQUEST\",\"message\":\"malformed request\"}";

/// Bodies, whether the client is let in, and the answer; 0 where the body is a pipeline's.
const BODIES: [(&str, bool, u16, &str); 6] = [
    ("{\"requests\":[]}", true, 0, ""),
    ("{\"requests\":[]}", false, 401, NOT_LET_IN),
    ("{", false, 401, NOT_LET_IN),
    ("{", true, 400, MALFORMED),
    ("{\"baton\":null}", true, 400, MALFORMED),
    ("{\"baton\":1,\"requests\":[]}", true, 400, MALFORMED),
];

fn compare_asked(
    rt: &impl Abort,
    alloc: Global,
    body: &str,
    let_in: bool,
    status: u16,
    text: &str,
) -> Result<(), Fail> {
    let ask = ask_of(alloc, Method::Post, "/v3/pipeline", body, true)?;
    match read_ask(alloc, &ask, let_in)? {
        Asked::Answered(answer) => compare(rt, &answer, status, None, text, true),
        Asked::Pipeline(_) => {
            assert_eq!(rt; status, 0);
            Ok(())
        }
    }
}

#[test]
fn bodies_are_read_of_clients_that_are_let_in(rt: HostRuntime) -> Result<(), Fail> {
    for (body, let_in, status, text) in BODIES {
        compare_asked(&rt, rt.alloc(), body, let_in, status, text)?;
    }
    Ok(())
}

#[test]
fn errors_are_bodies(rt: HostRuntime) -> Result<(), Fail> {
    let alloc = rt.alloc();
    for (status, code, text) in [
        (
            400,
            Code::BatonDead,
            "{\"code\":\"BATON_DEAD\",\"message\":\"baton is not valid\"}",
        ),
        (
            503,
            Code::NoToken,
            "{\"code\":\"NO_TOKEN\",\"message\":\"no token could be drawn\"}",
        ),
    ] {
        let answer = error_answer(alloc, status, code, false)?;
        compare(&rt, &answer, status, None, text, false)?;
    }
    let answer = empty_answer(alloc, 503, None, true);
    compare(&rt, &answer, 503, None, "", true)
}

/// A pipeline whose first and last requests are declined, with a baton and without one, and the answer once two were replied to.
const MIXED: &str =
    "{\"requests\":[{\"type\":\"sing\"},{\"type\":\"get_autocommit\"},{\"type\":\"close\"},{\"type\":\"describe\"}]}";

const RESULTS: &str =
    "[{\"error\":{\"code\":\"UNKNOWN_REQUEST\",\"message\":\"unknown request type\"},\"type\":\"error\"},{\"response\":{\"is_autocommit\":true,\"type\":\"get_autocommit\"},\"type\":\"ok\"},{\"response\":{\"type\":\"close\"},\"type\":\"ok\"},{\"error\":{\"code\":\"DESCRIBE_UNSUPPORTED\",\"message\":\"describe is not supported\"},\"type\":\"error\"}]";

/// The exchange of the pipeline, once its stream replied.
fn replied(rt: &impl Abort, alloc: Global) -> Result<Exchange, Fail> {
    let ask = ask_of(alloc, Method::Post, "/v3/pipeline", MIXED, false)?;
    let Asked::Pipeline(body) = read_ask(alloc, &ask, true)? else {
        return Err(Fail::from(NoMemory));
    };
    let begun = Exchange::begin(alloc, body.asks)?;
    let mut exchange = begun.exchange;
    assert_eq!(rt; begun.asks.as_slice().len(), 2);
    exchange.answered(alloc, Reply::Autocommit(true))?;
    assert_eq!(rt; exchange.is_over(), false);
    exchange.answered(alloc, Reply::Closed)?;
    assert_eq!(rt; exchange.is_over(), true);
    Ok(exchange)
}

#[test]
fn declined_requests_have_results_in_their_places(rt: HostRuntime) -> Result<(), Fail> {
    let alloc = rt.alloc();
    let open = replied(&rt, alloc)?.into_answer(alloc, Some(Txt::new(alloc, "B1")?), false)?;
    let text = format!(in alloc; "{{\"base_url\":null,\"baton\":\"B1\",\"results\":{RESULTS}}}")?;
    compare(&rt, &open, 200, None, text.as_str(), false)?;
    let shut = replied(&rt, alloc)?.into_answer(alloc, None, true)?;
    let text = format!(in alloc; "{{\"base_url\":null,\"baton\":null,\"results\":{RESULTS}}}")?;
    compare(&rt, &shut, 200, None, text.as_str(), true)
}

fn is_plain(byte: u8) -> bool
    ensures { IsTrue result ↔ IsPlain byte }
{
    byte >= 32 && byte <= 126 && byte != b'"' && byte != b'\\'
}

fn are_plain(text: &[u8]) -> bool
    ensures { IsTrue result ↔ All IsPlain text.now }
{
    text.iter().all(|byte| is_plain(*byte))
}

/// Whether the pipeline, whose requests are all declined, is answered so, with the baton put in the place of a blank one.
fn is_put(alloc: Global, body: &str, baton: &[u8; 32], want: &str) -> bool {
    if !are_plain(baton) {
        return false;
    }
    let Ok(body) = decode_pipeline(alloc, body.as_bytes()) else {
        return false;
    };
    let Ok(begun) = Exchange::begin(alloc, body.asks) else {
        return false;
    };
    let Ok(blank) = begun.exchange.into_blank_answer(alloc, true) else {
        return false;
    };
    let answer = blank.with_baton(baton);
    answer.status == 200 && answer.close && answer.body.as_slice() == want.as_bytes()
}

fn are_put(rt: &impl Abort, alloc: Global, rows: &[(&str, &[u8; 32], &str)]) {
    for (body, baton, want) in rows {
        assert!(rt; is_put(alloc, body, baton, want), "at {want}");
    }
}

/// Each baton is the URL-safe base64 of 24 bytes.
#[test]
fn batons_are_put_into_answers(rt: HostRuntime) {
    are_put(
        &rt,
        rt.alloc(),
        &[
            (
                "{\"requests\":[]}",
                b"AAAAAAAAAAEAAAAAAAAAAAAAAAAAAAAA",
                "{\"base_url\":null,\"baton\":\"AAAAAAAAAAEAAAAAAAAAAAAAAAAAAAAA\",\"results\":[]}",
            ),
            (
                "{\"requests\":[{\"type\":\"sing\"}]}",
                b"AAAAAAAAAAEBAgMEBQYHCP_-_fz7-vn4",
                "{\"base_url\":null,\"baton\":\"AAAAAAAAAAEBAgMEBQYHCP_-_fz7-vn4\",\"results\":[{\"error\":{\"code\":\"UNKNOWN_REQUEST\",\"message\":\"unknown request type\"},\"type\":\"error\"}]}",
            ),
        ],
    );
}
