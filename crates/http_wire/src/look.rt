// What the bytes that are held come to.
ghost use Rattle.std.specs.Prelude.{◌≡◌, ◌≤◌, length, take, IfOk};
ghost use Rattle.httparse.specs.Grammar.{HasNoRequest};
ghost use Rattle.http_wire.specs.Look.{Sees, IsHeadOf};

use crate::limits::{MAX_FIELDS, MAX_HEAD_BYTES};
use crate::verdict::{Head, Verdict, ask_of, judge};
use crate::{Chosen, HttpAsk, Key, WireFail};
use hrana_value::NoMemory;
use httparse::{EMPTY_HEADER, Request, Status};
use std::alloc::Global;

/// What the bytes come to.
#[derive(Drop)]
pub enum Look {
    /// Fewer bytes than this have nothing to be answered.
    Wait(usize),
    /// A request, and the number of its bytes.
    Found(HttpAsk, usize),
    /// The head of an upgrade, and the number of its bytes.
    Switched(Key, Chosen, usize),
    /// Never for want of memory.
    Refusal(WireFail),
}

/// The bytes that a head may take.
fn front_of(held: &[u8]) -> &[u8]
    ensures { result.now ≡ take MAX_HEAD_BYTES held.now }
{
    if held.len() <= MAX_HEAD_BYTES {
        held
    } else {
        &held[..MAX_HEAD_BYTES]
    }
}

/// What follows from the head, which was read from the first `count` bytes.
fn settle(alloc: Global, held: &[u8], count: usize, head: &Head) -> Result<Look, NoMemory>
    requires head { IsHeadOf held.now count head.now }
    requires within { count ≤ length held.now }
    requires short { count ≤ MAX_HEAD_BYTES }
    ensures { IfOk result (Sees held.now) }
{
    match judge(head) {
        Verdict::Refuse(fail) => Ok(Look::Refusal(fail)),
        Verdict::Switch(key, chosen) => Ok(Look::Switched(key, chosen, count)),
        Verdict::Serve(length) => {
            let rest = &held[count..];
            if rest.len() < length {
                return Ok(Look::Wait(count + length));
            }
            match ask_of(alloc, head, &rest[..length]) {
                Ok(ask) => Ok(Look::Found(ask, count + length)),
                Err(NoMemory) => Err(NoMemory),
            }
        }
    }
}

/// What follows from bytes whose head isn't whole.
fn without_head(held: &[u8]) -> Look
    requires { HasNoRequest (take MAX_HEAD_BYTES held.now) }
    ensures { Sees held.now result }
{
    let is_full = held.len() >= MAX_HEAD_BYTES;
    if is_full {
        return Look::Refusal(WireFail::Bad400);
    }
    Look::Wait(held.len() + 1)
}

/// Reads the head, where it is whole; its body is only counted.
pub fn look_at(alloc: Global, held: &[u8]) -> Result<Look, NoMemory>
    ensures { IfOk result (Sees held.now) }
{
    let front = front_of(held);
    let mut fields = [EMPTY_HEADER; MAX_FIELDS];
    let mut request = Request::new(&mut fields);
    match request.parse(front) {
        Ok(Status::Complete(count)) => {
            // Never so, but the parser's contract doesn't say it.
            if request.headers.len() > MAX_FIELDS {
                return Ok(Look::Refusal(WireFail::Bad400));
            }
            let head = Head {
                method: request.method.unwrap(),
                target: request.path.unwrap(),
                minor: request.version.unwrap(),
                fields: &*request.headers,
            };
            settle(alloc, held, count, &head)
        }
        Ok(Status::Partial) => Ok(without_head(held)),
        Err(_) => Ok(Look::Refusal(WireFail::Bad400)),
    }
}
