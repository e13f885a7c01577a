// The bytes of answers.
ghost use Rattle.std.specs.Prelude.{◌≡◌, ◌≢◌, ◌++◌, OnOk, IfOk, string_bytes};
ghost use Rattle.http_wire.specs.Answers.{status_of, refusal_of, reason_of, line, status_line, length_line, challenge_line, allow_line, close_line, bytes_of_answer, accept_of, name_of, bytes_of_upgrade};

use crate::{Allow, Chosen, HttpAnswer, Key, WireFail};
use base64::engine::general_purpose::STANDARD;
use hrana_value::{Bytes, NoMemory};
use sha1::Sha1;
use std::alloc::Global;

/// What follows the key where it is hashed (RFC 6455, section 1.3).
const KEY_SUFFIX: &[u8] = b"258EAFA5-E914-47DA-95CA-C5AB0DC85B11";

/// The empty answer to a refusal, after which the connection is closed. Takes no memory.
pub fn refusal(alloc: Global, fail: &WireFail) -> HttpAnswer
    requires { fail.now ≢ WireFail.NoMemory }
    ensures { result ≡ refusal_of fail.now }
{
    let status = match fail {
        WireFail::Bad400 => 400,
        WireFail::Expect417 => 417,
        WireFail::Length411 => 411,
        WireFail::TooLarge413 => 413,
        WireFail::NoMemory => unreachable!(),
    };
    HttpAnswer {
        status,
        allow: None,
        body: Bytes::from_vec(Vec::new(alloc)),
        close: true,
    }
}

/// The reason phrase of the status.
fn reason(status: u16) -> &'static str
    ensures { result.now ≡ reason_of status }
{
    match status {
        200 => "OK",
        400 => "Bad Request",
        401 => "Unauthorized",
        404 => "Not Found",
        405 => "Method Not Allowed",
        411 => "Length Required",
        413 => "Content Too Large",
        417 => "Expectation Failed",
        503 => "Service Unavailable",
        _ => "",
    }
}

fn put(out: &mut Vec<u8>, text: &[u8]) -> Result<(), NoMemory>
    ensures { OnOk result (out.new.items ≡ out.old.items ++ text.now) }
{
    out.extend_from_slice(text)?;
    Ok(())
}

fn put_line(out: &mut Vec<u8>, text: &[u8]) -> Result<(), NoMemory>
    ensures { OnOk result (out.new.items ≡ out.old.items ++ line text.now) }
{
    put(out, text)?;
    put(out, b"\r\n")
}

#[tactic(auto, unfolding(crate::specs::Answers::status_line))]
fn put_status(alloc: Global, out: &mut Vec<u8>, status: u16) -> Result<(), NoMemory>
    ensures { OnOk result (out.new.items ≡ out.old.items ++ status_line status) }
{
    let digits = status.to_string(alloc)?;
    put(out, b"HTTP/1.1 ")?;
    put(out, digits.as_bytes())?;
    put(out, b" ")?;
    put_line(out, reason(status).as_bytes())
}

#[tactic(auto, unfolding(crate::specs::Answers::length_line))]
fn put_length(alloc: Global, out: &mut Vec<u8>, length: usize) -> Result<(), NoMemory>
    ensures { OnOk result (out.new.items ≡ out.old.items ++ length_line length) }
{
    let digits = length.to_string(alloc)?;
    put(out, b"Content-Length: ")?;
    put_line(out, digits.as_bytes())
}

fn put_challenge(out: &mut Vec<u8>, status: u16) -> Result<(), NoMemory>
    ensures { OnOk result (out.new.items ≡ out.old.items ++ challenge_line status) }
{
    if status == 401 {
        put_line(out, b"WWW-Authenticate: Bearer realm=\"hrana\"")
    } else {
        Ok(())
    }
}

fn put_allow(out: &mut Vec<u8>, allow: Option<Allow>) -> Result<(), NoMemory>
    ensures { OnOk result (out.new.items ≡ out.old.items ++ allow_line allow) }
{
    match allow {
        None => Ok(()),
        Some(Allow::Get) => put_line(out, b"Allow: GET"),
        Some(Allow::Post) => put_line(out, b"Allow: POST"),
    }
}

fn put_close(out: &mut Vec<u8>, close: bool) -> Result<(), NoMemory>
    ensures { OnOk result (out.new.items ≡ out.old.items ++ close_line close) }
{
    if close {
        put_line(out, b"Connection: close")
    } else {
        Ok(())
    }
}

/// The bytes of an answer (RFC 9112, section 4): status line, fields, an empty line and the body. A status that is never
/// given has no reason phrase.
pub fn answer_bytes(alloc: Global, answer: &HttpAnswer) -> Result<Bytes, NoMemory>
    ensures { IfOk result (λ bytes. bytes ≡ bytes_of_answer answer.now) }
{
    let mut out = Vec::new(alloc);
    put_status(alloc, &mut out, answer.status)?;
    put_line(&mut out, b"Content-Type: application/json")?;
    put_length(alloc, &mut out, answer.body.as_slice().len())?;
    put_challenge(&mut out, answer.status)?;
    put_allow(&mut out, answer.allow)?;
    put_close(&mut out, answer.close)?;
    put(&mut out, b"\r\n")?;
    put(&mut out, answer.body.as_slice())?;
    Ok(Bytes::from_vec(out))
}

/// The value of `Sec-WebSocket-Accept`.
fn accept(alloc: Global, key: &Key) -> Result<String, NoMemory>
    ensures { IfOk result (λ text. string_bytes text ≡ accept_of key.now) }
{
    let mut hasher = Sha1::new();
    hasher.update(&key.text);
    hasher.update(KEY_SUFFIX);
    Ok(STANDARD.encode(alloc, &hasher.finalize())?)
}

/// The name of the subprotocol (HRANA_3_SPEC).
fn name(chosen: &Chosen) -> &'static str
    ensures { result.now ≡ name_of chosen.now }
{
    match chosen {
        Chosen::Hrana3 => "hrana3",
    }
}

/// The bytes of the answer to an upgrade (RFC 6455, section 4.2.2).
pub fn upgrade_bytes(alloc: Global, key: &Key, chosen: &Chosen) -> Result<Bytes, NoMemory>
    ensures { IfOk result (λ bytes. bytes ≡ bytes_of_upgrade key.now chosen.now) }
{
    let accept = accept(alloc, key)?;
    let mut out = Vec::new(alloc);
    put_line(&mut out, b"HTTP/1.1 101 Switching Protocols")?;
    put_line(&mut out, b"Upgrade: websocket")?;
    put_line(&mut out, b"Connection: Upgrade")?;
    put(&mut out, b"Sec-WebSocket-Accept: ")?;
    put_line(&mut out, accept.as_bytes())?;
    put(&mut out, b"Sec-WebSocket-Protocol: ")?;
    put_line(&mut out, name(chosen).as_bytes())?;
    put(&mut out, b"\r\n")?;
    Ok(Bytes::from_vec(out))
}
