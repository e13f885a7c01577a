// What a head asks for.
ghost use Rattle.std.specs.Prelude.{◌≡◌, ◌≤◌, length, option_map, IsTrue, IsFalse, IfOk, codes, if◌then◌else◌};
ghost use Rattle.std.specs.Str.{all_ascii_digits, is_utf8};
ghost use Rattle.std.specs.Str.Parse.{digits_value};
ghost use Rattle.std.specs.List.{count_by};
ghost use Rattle.http_wire.specs.Fields.{first_value};
ghost use Rattle.http_wire.specs.Request.{method_of, has_bad_host, is_length, has_bad_length, body_length, is_upgrade, is_key, is_some_key, key_of, is_good_upgrade, is_bad, lacks_length, verdict_of, closes, names_bearer, bearer_in, ask_of, IsSettled};
ghost use Rattle.http_wire.specs.Head.{read_of};

use crate::fields::{
    Comparison, any_lists, any_same, each_is, first_value, has_field, is_named, same_bytes,
    same_word,
};
use crate::limits::MAX_BODY_BYTES;
use crate::{Chosen, HttpAsk, Key, Method, WireFail};
use base64::engine::general_purpose::STANDARD;
use hrana_value::{Bytes, NoMemory, Txt};
use httparse::Header;
use std::alloc::Global;
use std::str;

/// A head that was read.
#[derive(Clone, Copy)]
pub struct Head<'h, 'b> {
    pub method: &'b str,
    pub target: &'b str,
    pub minor: u8,
    pub fields: &'h [Header<'b>],
}

/// What a head comes to: its refusal, an upgrade, or a body of so many bytes to wait for.
#[derive(Clone, Copy)]
pub enum Verdict {
    Refuse(WireFail),
    Switch(Key, Chosen),
    Serve(usize),
}

pub fn method_of(name: &str) -> Method
    ensures { result ≡ method_of name.now }
{
    if same_bytes(name.as_bytes(), b"GET") {
        Method::Get
    } else if same_bytes(name.as_bytes(), b"POST") {
        Method::Post
    } else {
        Method::Other
    }
}

fn has_bad_host(head: &Head) -> bool
    ensures { result ≡ has_bad_host (read_of head.now) }
{
    let hosts = head
        .fields
        .iter()
        .filter(|field| is_named(field, "host"))
        .count();
    hosts > 1 || (head.minor == 1 && hosts == 0)
}

fn are_digits(text: &[u8]) -> bool
    ensures { result ≡ all_ascii_digits text.now }
{
    for byte in text {
        if !byte.is_ascii_digit() {
            return false;
        }
    }
    true
}

fn is_length(value: &[u8]) -> bool
    ensures { result ≡ is_length value.now }
{
    !value.is_empty() && value.len() <= 18 && are_digits(value)
}

/// The number that the digits write.
fn length_of(value: &[u8]) -> usize
    requires digits { IsTrue (all_ascii_digits value.now) }
    requires short { length value.now ≤ 18 }
    ensures { result ≡ digits_value 10 value.now }
{
    let mut number = 0;
    for digit in value {
        number = number * 10 + (*digit - b'0') as usize;
    }
    number
}

fn has_bad_length(head: &Head) -> bool
    ensures { result ≡ has_bad_length (read_of head.now) }
{
    match first_value(head.fields, "content-length") {
        None => false,
        Some(value) => !(is_length(value) && each_is(head.fields, "content-length", value)),
    }
}

fn body_length(head: &Head) -> usize
    requires { IsFalse (has_bad_length (read_of head.now)) }
    ensures { result ≡ body_length (read_of head.now) }
{
    match first_value(head.fields, "content-length") {
        None => 0,
        Some(value) => length_of(value),
    }
}

fn is_upgrade(head: &Head) -> bool
    ensures { result ≡ is_upgrade (read_of head.now) }
{
    same_bytes(head.method.as_bytes(), b"GET")
        && head.minor == 1
        && any_same(head.fields, "upgrade", b"websocket")
        && any_lists(Comparison::AnyCase, head.fields, "connection", b"upgrade")
}

/// Whether the text is the base64 of 16 bytes, with padding.
fn is_key(text: &[u8]) -> bool
    ensures { result ≡ is_key text.now }
{
    let mut bytes = [0; 24];
    text.len() == 24 && STANDARD.decode_slice(text, &mut bytes) == Ok(16)
}

fn has_key(head: &Head) -> bool
    ensures { result ≡ is_some_key (first_value (codes "sec-websocket-key") (read_of head.now).fields) }
{
    match first_value(head.fields, "sec-websocket-key") {
        None => false,
        Some(text) => is_key(text),
    }
}

fn key_of(head: &Head) -> Key
    requires { IsTrue (is_some_key (first_value (codes "sec-websocket-key") (read_of head.now).fields)) }
    ensures { result ≡ key_of (read_of head.now) }
{
    let mut text = [0; 24];
    if let Some(value) = first_value(head.fields, "sec-websocket-key") {
        text.copy_from_slice(value);
    }
    Key { text }
}

fn is_good_upgrade(head: &Head) -> bool
    ensures { result ≡ is_good_upgrade (read_of head.now) }
{
    has_field(head.fields, "sec-websocket-version")
        && each_is(head.fields, "sec-websocket-version", b"13")
        && has_key(head)
        && any_lists(
            Comparison::Exact,
            head.fields,
            "sec-websocket-protocol",
            b"hrana3",
        )
}

fn is_bad(head: &Head) -> bool
    ensures { result ≡ is_bad (read_of head.now) }
{
    has_bad_host(head) || has_bad_length(head) || (is_upgrade(head) && !is_good_upgrade(head))
}

fn lacks_length(head: &Head) -> bool
    ensures { result ≡ lacks_length (read_of head.now) }
{
    has_field(head.fields, "transfer-encoding")
        || (same_bytes(head.method.as_bytes(), b"POST")
            && !has_field(head.fields, "content-length"))
}

/// The first refusal that stands; else the upgrade, or the bytes of body to wait for.
pub fn judge(head: &Head) -> Verdict
    ensures verdict { result ≡ verdict_of (read_of head.now) }
    ensures settled { IsSettled result }
{
    if is_bad(head) {
        return Verdict::Refuse(WireFail::Bad400);
    }
    if has_field(head.fields, "expect") {
        return Verdict::Refuse(WireFail::Expect417);
    }
    if lacks_length(head) {
        return Verdict::Refuse(WireFail::Length411);
    }
    let length = body_length(head);
    if length > MAX_BODY_BYTES {
        return Verdict::Refuse(WireFail::TooLarge413);
    }
    if is_upgrade(head) {
        return Verdict::Switch(key_of(head), Chosen::Hrana3);
    }
    Verdict::Serve(length)
}

/// Whether the connection is to end with the answer.
pub fn closes(head: &Head) -> bool
    ensures { result ≡ closes (read_of head.now) }
{
    head.minor == 0 || any_lists(Comparison::AnyCase, head.fields, "connection", b"close")
}

fn names_bearer(value: &[u8]) -> bool
    ensures { result ≡ names_bearer value.now }
{
    value.len() >= 7 && same_word(&value[..7], b"bearer ")
}

fn text_of(bytes: &[u8]) -> Option<&str>
    ensures { option_map (λ text. text.now) result ≡ (if is_utf8 bytes.now then Some bytes.now else None) }
{
    match str::from_utf8(bytes) {
        Ok(text) => Some(text),
        Err(_) => None,
    }
}

fn bearer_in(value: &[u8]) -> Option<&str>
    ensures { option_map (λ text. text.now) result ≡ bearer_in (Some value.now) }
{
    if names_bearer(value) {
        text_of(&value[7..])
    } else {
        None
    }
}

/// What follows `Bearer` and one space in the first `Authorization` field.
fn bearer_of<'b>(head: &Head<'_, 'b>) -> Option<&'b str>
    ensures { option_map (λ text. text.now) result ≡ bearer_in (first_value (codes "authorization") (read_of head.now).fields) }
{
    match first_value(head.fields, "authorization") {
        None => None,
        Some(value) => bearer_in(value),
    }
}

fn kept_text(alloc: Global, text: Option<&str>) -> Result<Option<Txt>, NoMemory>
    ensures { IfOk result (λ kept. kept ≡ option_map (λ text. text.now) text.entry) }
{
    match text {
        None => Ok(None),
        Some(text) => Ok(Some(Txt::new(alloc, text)?)),
    }
}

/// The request with this head and this body.
pub fn ask_of(alloc: Global, head: &Head, body: &[u8]) -> Result<HttpAsk, NoMemory>
    ensures { IfOk result (λ ask. ask ≡ ask_of (read_of head.now) body.now) }
{
    let path = Txt::new(alloc, head.target)?;
    let bearer = kept_text(alloc, bearer_of(head))?;
    let body = Bytes::new(alloc, body)?;
    Ok(HttpAsk {
        method: method_of(head.method),
        path,
        bearer,
        body,
        close: closes(head),
    })
}
