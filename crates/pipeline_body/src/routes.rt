// Answers over HTTP, and those that a request has by its route alone.
ghost use Rattle.std.specs.Prelude.{◌≡◌, IfOk};
ghost use Rattle.pipeline_body.specs.Exchanges.{empty_answer, error_answer, route_of, home_answer, pipeline_refused, answer_on, route_answer};

use hrana_stmt::{Code, wire_error};
use hrana_value::{Bytes, NoMemory, Txt, text_of};
use http_wire::{Allow, HttpAnswer, HttpAsk, Method};
use std::alloc::Global;

/// What stands at a path.
#[derive(Clone, Copy, Debug, PartialEq, Eq)]
pub enum Route {
    Home,
    Pipeline,
    Unknown,
}

/// The bytes of a text, with no copy.
pub(crate) fn bytes_of(text: Txt) -> Bytes
    ensures { result ≡ text }
{
    Bytes::from_vec(text.into_string().into_bytes())
}

/// An answer without a body. Takes no memory.
pub fn empty_answer(alloc: Global, status: u16, allow: Option<Allow>, close: bool) -> HttpAnswer
    ensures { result ≡ empty_answer status allow close }
{
    HttpAnswer {
        status,
        allow,
        body: Bytes::from_vec(Vec::new(alloc)),
        close,
    }
}

/// An answer whose body is the error of the code.
pub fn error_answer(
    alloc: Global,
    status: u16,
    code: Code,
    close: bool,
) -> Result<HttpAnswer, NoMemory>
    ensures { IfOk result (λ answer. answer ≡ error_answer status code close) }
{
    let error = wire_error(alloc, code)?;
    let text = text_of(alloc, &error)?;
    Ok(HttpAnswer {
        status,
        allow: None,
        body: bytes_of(text),
        close,
    })
}

fn route_of(path: &str) -> Route
    ensures { result ≡ route_of path.now }
{
    if path == "/v3" {
        return Route::Home;
    }
    if path == "/v3/pipeline" {
        return Route::Pipeline;
    }
    Route::Unknown
}

fn home_answer(alloc: Global, method: Method, close: bool) -> HttpAnswer
    ensures { result ≡ home_answer method close }
{
    match method {
        Method::Get => empty_answer(alloc, 200, None, close),
        _ => empty_answer(alloc, 405, Some(Allow::Get), close),
    }
}

fn pipeline_refused(alloc: Global, method: Method, close: bool) -> Option<HttpAnswer>
    ensures { result ≡ pipeline_refused method close }
{
    match method {
        Method::Post => None,
        _ => Some(empty_answer(alloc, 405, Some(Allow::Post), close)),
    }
}

/// The answer that a request has whatever its bearer and its body are: 404 for a path that isn't known, 405 for another method than
/// the path has, and 200 for `GET /v3` (HRANA_3_SPEC, "Hrana over HTTP"). Takes no memory.
pub fn route_answer(alloc: Global, ask: &HttpAsk) -> Option<HttpAnswer>
    ensures { result ≡ route_answer ask.now }
{
    match route_of(ask.path.as_str()) {
        Route::Unknown => Some(empty_answer(alloc, 404, None, ask.close)),
        Route::Home => Some(home_answer(alloc, ask.method, ask.close)),
        Route::Pipeline => pipeline_refused(alloc, ask.method, ask.close),
    }
}
