// Names and words, and quoted runs without their quotes.
ghost use Rattle.std.specs.Prelude.{◌≡◌, ◌==◌, ◌&&◌, ◌+◌, ◌<◌, length, slice_index, IfOk};
ghost use Rattle.keeper_dialect.specs.Tokens.{is_same_name};
ghost use Rattle.keeper_dialect.specs.Terms.{without_quotes, undoubled, unquoted};

use hrana_value::{NoMemory, Txt};
use std::alloc::Global;

/// Names and words compare without regard to ASCII case.
pub fn is_same_name(name: &str, other: &str) -> bool
    ensures { result ≡ is_same_name name.now other.now }
{
    name.eq_ignore_ascii_case(other)
}

/// A run without the quotes round it.
#[tactic(auto, unfolding(crate::specs::Terms::without_quotes))]
pub(crate) fn without_quotes<'a>(quote: u8, text: &'a str) -> &'a str
    requires { quote < 128 }
    ensures { result.now ≡ without_quotes quote text.now }
{
    let bytes = text.as_bytes();
    if bytes.len() >= 2 && bytes[0] == quote && bytes[bytes.len() - 1] == quote {
        &text[1..text.len() - 1]
    } else {
        text
    }
}

/// Whether a quote and the next byte are both the quote.
fn is_doubled(quote: u8, bytes: &[u8], at: usize) -> bool
    requires { at + 1 < length bytes.now }
    ensures { result ≡ (slice_index bytes.now at == quote && slice_index bytes.now (at + 1) == quote) }
{
    bytes[at] == quote && bytes[at + 1] == quote
}

/// A text with doubled quotes made single.
fn undoubled(alloc: Global, quote: u8, text: &str) -> Result<Txt, NoMemory>
    requires { quote < 128 }
    ensures { IfOk result (λ t. t ≡ undoubled quote text.now) }
{
    let bytes = text.as_bytes();
    let mut single = String::new(alloc);
    let mut from = 0;
    let mut at = 0;
    while at + 1 < bytes.len() {
        if is_doubled(quote, bytes, at) {
            single.push_str(&text[from..at + 1])?;
            at += 2;
            from = at;
        } else {
            at += 1;
        }
    }
    single.push_str(&text[from..])?;
    Ok(Txt::from_string(single))
}

/// What stands between quotes.
pub(crate) fn unquoted(alloc: Global, quote: u8, text: &str) -> Result<Txt, NoMemory>
    requires { quote < 128 }
    ensures { IfOk result (λ t. t ≡ unquoted quote text.now) }
{
    undoubled(alloc, quote, without_quotes(quote, text))
}
