// The lines of a script.
ghost use Rattle.std.specs.Prelude.{◌≡◌, ◌<◌, ◌^◌, ◌++◌, ◌∷◌, ◌≢◌, ℕ, List, decimal, IsTrue, false, IfOk, IfErr};
ghost use Rattle.hrana_hub.specs.declared.events.Event.{Event};
ghost use Rattle.http_wire.specs.declared.asks.HttpAsk.{HttpAsk};
ghost use Rattle.hrana_serve.specs.Script.{IsAskText, IsLineOf, OneEventALine};

use crate::asks::ask_of;
use hrana_hub::Event;
use hrana_value::{Bytes, StreamNo};
use http_wire::HttpAsk;
use memchr::memchr;
use std::alloc::Global;

/// Why a line gives no event.
#[derive(Clone, Copy, Debug, PartialEq, Eq)]
pub enum LineFail {
    /// It is no line of an event.
    NoEvent,
    NoMemory,
}

fn is_same(bytes: &[u8], others: &[u8]) -> bool
    ensures same { IsTrue result → bytes.now ≡ others.now }
    ensures differs { result ≡ false → bytes.now ≢ others.now }
{
    bytes == others
}

/// The number that a text writes, without a sign or a leading zero.
fn number_of(alloc: Global, bytes: &[u8]) -> Result<u64, LineFail>
    ensures ok { IfOk result (λ n. bytes.now ≡ decimal n) }
    ensures none { IfErr result (λ err. err ≡ LineFail.NoEvent → (n : ℕ) → n < 2 ^ 64 → bytes.now ≡ decimal n → ⊥) }
{
    let Ok(text) = std::str::from_utf8(bytes) else {
        return Err(LineFail::NoEvent);
    };
    let Ok(number) = text.parse::<u64>() else {
        return Err(LineFail::NoEvent);
    };
    let Ok(written) = number.to_string(alloc) else {
        return Err(LineFail::NoMemory);
    };
    if is_same(written.as_bytes(), bytes) {
        Ok(number)
    } else {
        Err(LineFail::NoEvent)
    }
}

/// The number of a connection.
fn conn_of(alloc: Global, bytes: &[u8]) -> Result<u32, LineFail>
    ensures ok { IfOk result (λ n. bytes.now ≡ decimal n) }
    ensures none { IfErr result (λ err. err ≡ LineFail.NoEvent → (n : ℕ) → n < 2 ^ 32 → bytes.now ≡ decimal n → ⊥) }
{
    let number = number_of(alloc, bytes)?;
    match u32::try_from(number) {
        Ok(conn) => Ok(conn),
        Err(_) => Err(LineFail::NoEvent),
    }
}

/// The number of a connection, and what follows it and a space.
fn conn_and_rest(alloc: Global, bytes: &[u8]) -> Result<(u32, &[u8]), LineFail>
    ensures ok { IfOk result (λ parts. bytes.now ≡ decimal parts.0 ++ 32 ∷ parts.1.now) }
    ensures range { IfOk result (λ parts. parts.0 < 2 ^ 32) }
    ensures none { IfErr result (λ err. err ≡ LineFail.NoEvent → (conn : ℕ) (text : List ℕ) → conn < 2 ^ 32 → bytes.now ≡ decimal conn ++ 32 ∷ text → ⊥) }
{
    let Some(at) = memchr(b' ', bytes) else {
        return Err(LineFail::NoEvent);
    };
    let conn = conn_of(alloc, &bytes[..at])?;
    Ok((conn, &bytes[at + 1..]))
}

/// The number of a connection, and the text that follows it and a space.
fn text_of(alloc: Global, bytes: &[u8]) -> Result<(u32, Bytes), LineFail>
    ensures ok { IfOk result (λ parts. bytes.now ≡ decimal parts.0 ++ 32 ∷ parts.1) }
    ensures none { IfErr result (λ err. err ≡ LineFail.NoEvent → (conn : ℕ) (text : List ℕ) → conn < 2 ^ 32 → bytes.now ≡ decimal conn ++ 32 ∷ text → ⊥) }
{
    let (conn, rest) = conn_and_rest(alloc, bytes)?;
    match Bytes::new(alloc, rest) {
        Ok(text) => Ok((conn, text)),
        Err(_) => Err(LineFail::NoMemory),
    }
}

/// The number of a connection, and the request that follows it and a space.
fn exchange_of(alloc: Global, bytes: &[u8]) -> Result<(u32, HttpAsk), LineFail>
    ensures ok { IfOk result (λ parts. (text : List ℕ) × (bytes.now ≡ decimal parts.0 ++ 32 ∷ text) × IsAskText text parts.1) }
    ensures none { IfErr result (λ err. err ≡ LineFail.NoEvent → (conn : ℕ) (text : List ℕ) (ask : HttpAsk) → conn < 2 ^ 32 → bytes.now ≡ decimal conn ++ 32 ∷ text → IsAskText text ask → ⊥) }
{
    let (conn, rest) = conn_and_rest(alloc, bytes)?;
    let ask = ask_of(alloc, rest)?;
    Ok((conn, ask))
}

/// The event of a line: `@ T`, `+ C`, `> C TEXT`, `# C`, `? C METHOD PATH TOKEN BODY`, `! N` or `- C`.
pub fn event_of_line(alloc: Global, line: &[u8]) -> Result<Event, LineFail>
    ensures ok { IfOk result (λ event. IsLineOf line.now event) }
    ensures none { IfErr result (λ err. err ≡ LineFail.NoEvent → (event : Event) → IsLineOf line.now event → ⊥) }
{
    match line {
        [b'@', b' ', digits @ ..] => {
            let at = number_of(alloc, digits)?;
            Ok(Event::Moment { at })
        }
        [b'+', b' ', digits @ ..] => {
            let conn = conn_of(alloc, digits)?;
            Ok(Event::Opened { conn })
        }
        [b'>', b' ', rest @ ..] => {
            let (conn, text) = text_of(alloc, rest)?;
            Ok(Event::Text { conn, text })
        }
        [b'#', b' ', digits @ ..] => {
            let conn = conn_of(alloc, digits)?;
            Ok(Event::Binary { conn })
        }
        [b'?', b' ', rest @ ..] => {
            let (conn, ask) = exchange_of(alloc, rest)?;
            Ok(Event::Exchange { conn, ask })
        }
        [b'!', b' ', digits @ ..] => {
            let number = number_of(alloc, digits)?;
            Ok(Event::Poll {
                stream: StreamNo(number),
            })
        }
        [b'-', b' ', digits @ ..] => {
            let conn = conn_of(alloc, digits)?;
            Ok(Event::Lost { conn })
        }
        _ => Err(LineFail::NoEvent),
    }
}

/// No line stands for two events.
pub fn no_line_is_two_events()
    ensures { OneEventALine }
{}
