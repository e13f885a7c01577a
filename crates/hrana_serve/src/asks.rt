// The requests over HTTP that a script's lines stand for.
ghost use Rattle.std.specs.Prelude.{◌≡◌, ◌≢◌, ◌++◌, All, IfOk, IfErr, MatchOption, Option, List, ℕ, option_map, [], IsUtf8};
ghost use Rattle.http_wire.specs.declared.asks.HttpAsk.{HttpAsk};
ghost use Rattle.hrana_serve.specs.Script.{AreWords, IsAskText, behind, body_of, bearer_of, method_of};

use crate::script::LineFail;
use hrana_value::{Bytes, NoMemory, Txt};
use http_wire::{HttpAsk, Method};
use memchr::memchr;
use std::alloc::Global;

/// What stands before the first space, and what stands behind it.
fn first_word(bytes: &[u8]) -> (&[u8], Option<&[u8]>)
    ensures whole { All (λ byte. byte ≢ 32) result.0.now }
    ensures parts { bytes.now ≡ result.0.now ++ behind (option_map (λ rest. rest.now) result.1) }
{
    match memchr(b' ', bytes) {
        Some(at) => (&bytes[..at], Some(&bytes[at + 1..])),
        None => (bytes, None),
    }
}

/// The text of a word: UTF-8, and not empty.
fn word_of(bytes: &[u8]) -> Option<&str>
    ensures { MatchOption result ((bytes.now ≢ []) → IsUtf8 bytes.now → ⊥) (λ word. (word.now ≡ bytes.now) × (bytes.now ≢ []) × IsUtf8 bytes.now) }
{
    match std::str::from_utf8(bytes) {
        Ok(word) => { if word.is_empty() { None } else { Some(word) } }
        Err(_) => None,
    }
}

fn method_of(word: &str) -> Method
    ensures { result ≡ method_of word.now }
{
    match word {
        "GET" => Method::Get,
        "POST" => Method::Post,
        _ => Method::Other,
    }
}

/// `-` stands for no token.
fn bearer_of(alloc: Global, word: &str) -> Result<Option<Txt>, NoMemory>
    ensures { IfOk result (λ bearer. bearer ≡ bearer_of word.now) }
{
    match word {
        "-" => Ok(None),
        _ => Ok(Some(Txt::new(alloc, word)?)),
    }
}

/// The body, which is empty where it is missing.
fn body_of(alloc: Global, rest: Option<&[u8]>) -> Result<Bytes, NoMemory>
    ensures { IfOk result (λ body. body ≡ body_of (option_map (λ bytes. bytes.now) rest.entry)) }
{
    match rest {
        Some(bytes) => Bytes::new(alloc, bytes),
        None => Bytes::new(alloc, &[]),
    }
}

/// The words of a request, and the body behind them.
#[derive(Drop)]
struct Words<'a> {
    method: &'a str,
    path: &'a str,
    token: &'a str,
    rest: Option<&'a [u8]>,
}

/// The words, where they are there.
fn words_of(bytes: &[u8]) -> Option<Words<'_>>
    ensures { MatchOption result ((method path token : List ℕ) (rest : Option (List ℕ)) → AreWords bytes.now method path token rest → ⊥)
        (λ words. AreWords bytes.now words.method.now words.path.now words.token.now (option_map (λ rest. rest.now) words.rest)) }
{
    let (method, after) = first_word(bytes);
    let after = after?;
    let (path, last) = first_word(after);
    let last = last?;
    let (token, rest) = first_word(last);
    let method = word_of(method)?;
    let path = word_of(path)?;
    let token = word_of(token)?;
    Some(Words {
        method,
        path,
        token,
        rest,
    })
}

/// The request of these words.
fn ask_from(alloc: Global, words: &Words) -> Result<HttpAsk, NoMemory>
    ensures { IfOk result (λ ask. (text : List ℕ) → AreWords text words.now.method.now words.now.path.now words.now.token.now (option_map (λ rest. rest.now) words.now.rest) → IsAskText text ask) }
{
    Ok(HttpAsk {
        method: method_of(words.method),
        path: Txt::new(alloc, words.path)?,
        bearer: bearer_of(alloc, words.token)?,
        body: body_of(alloc, words.rest)?,
        close: false,
    })
}

/// The request of a text: `METHOD PATH TOKEN BODY`.
pub fn ask_of(alloc: Global, bytes: &[u8]) -> Result<HttpAsk, LineFail>
    ensures ok { IfOk result (IsAskText bytes.now) }
    ensures none { IfErr result (λ err. err ≡ LineFail.NoEvent → (ask : HttpAsk) → IsAskText bytes.now ask → ⊥) }
{
    let Some(words) = words_of(bytes) else {
        return Err(LineFail::NoEvent);
    };
    match ask_from(alloc, &words) {
        Ok(ask) => Ok(ask),
        Err(_) => Err(LineFail::NoMemory),
    }
}
