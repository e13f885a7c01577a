// Header fields by name, and the words that a value lists.
ghost use Rattle.std.specs.Prelude.{◌≡◌, ◌<◌, ◌+◌, ◌^◌, [], ◌∷◌, length, take, drop, map, reverse, bytes_eq, option_map, IfSome, IfNone};
ghost use Rattle.std.specs.Str.{str_eq_ignore_ascii_case};
ghost use Rattle.httparse.specs.Borrowed.{header_parts};
ghost use Rattle.httparse.specs.Grammar.{skip_ows, trim_ows};
ghost use Rattle.http_wire.specs.Fields.{is_named, has_field, first_value, any_value, every_value, is_same, parts, lists};

use httparse::Header;

/// How words are compared.
#[derive(Clone, Copy)]
pub enum Comparison {
    /// Without regard to the case of ASCII letters.
    AnyCase,
    Exact,
}

/// Whether the texts are the same but for the case of ASCII letters.
pub fn same_word(text: &[u8], word: &[u8]) -> bool
    ensures { result ≡ str_eq_ignore_ascii_case text.now word.now }
{
    text.eq_ignore_ascii_case(word)
}

/// Whether the bytes are the same.
pub fn same_bytes(text: &[u8], word: &[u8]) -> bool
    ensures { result ≡ bytes_eq text.now word.now }
{
    text == word
}

fn is_same(comparison: Comparison, text: &[u8], word: &[u8]) -> bool
    ensures { result ≡ is_same comparison text.now word.now }
{
    match comparison {
        Comparison::AnyCase => same_word(text, word),
        Comparison::Exact => same_bytes(text, word),
    }
}

fn trim_start(mut text: &[u8]) -> &[u8]
    ensures { result.now ≡ skip_ows text.now }
{
    while let [first, rest @ ..] = text
        && (*first == b' ' || *first == b'\t')
    {
        text = rest;
    }
    text
}

fn trim_end(mut text: &[u8]) -> &[u8]
    ensures { result.now ≡ reverse (skip_ows (reverse text.now)) }
{
    while let [rest @ .., last] = text
        && (*last == b' ' || *last == b'\t')
    {
        text = rest;
    }
    text
}

/// The text without the blanks round it.
fn trimmed(text: &[u8]) -> &[u8]
    ensures { result.now ≡ trim_ows text.now }
{
    trim_end(trim_start(text))
}

/// Where the first part of the text ends, if others follow.
fn comma_in(text: &[u8]) -> Option<usize>
    ensures within { IfSome result (λ at. at < length text.now) }
    ensures fits { IfSome result (λ at. at + 1 < 2 ^ 64) }
    ensures some { IfSome result (λ at. parts text.now ≡ trim_ows (take at text.now) ∷ parts (drop (at + 1) text.now)) }
    ensures none { IfNone result (parts text.now ≡ trim_ows text.now ∷ []) }
{
    match text.iter().position(|b| *b == b',') {
        Some(at) => Some(at),
        None => None,
    }
}

/// Whether a part of the value is the word.
fn lists(comparison: Comparison, value: &[u8], word: &[u8]) -> bool
    ensures { result ≡ lists comparison word.now value.now }
{
    let mut rest = value;
    while let Some(comma) = comma_in(rest) {
        if is_same(comparison, trimmed(&rest[..comma]), word) {
            return true;
        }
        rest = &rest[comma + 1..];
    }
    is_same(comparison, trimmed(rest), word)
}

pub fn is_named(field: &Header, name: &str) -> bool
    ensures { result ≡ is_named name.now (header_parts field.now) }
{
    same_word(field.name.as_bytes(), name.as_bytes())
}

/// Whether a field has the name.
pub fn has_field(fields: &[Header], name: &str) -> bool
    ensures { result ≡ has_field name.now (map header_parts fields.now) }
{
    for field in fields {
        if is_named(field, name) {
            return true;
        }
    }
    false
}

/// The value of the first field of the name.
pub fn first_value<'b>(fields: &[Header<'b>], name: &str) -> Option<&'b [u8]>
    ensures { option_map (λ value. value.now) result ≡ first_value name.now (map header_parts fields.now) }
{
    for field in fields {
        if is_named(field, name) {
            return Some(field.value);
        }
    }
    None
}

/// Whether a field of the name has the value, in any case.
pub fn any_same(fields: &[Header], name: &str, word: &[u8]) -> bool
    ensures { result ≡ any_value (λ value. str_eq_ignore_ascii_case value word.now) name.now (map header_parts fields.now) }
{
    for field in fields {
        if is_named(field, name) && same_word(field.value, word) {
            return true;
        }
    }
    false
}

/// Whether a field of the name lists the word.
pub fn any_lists(comparison: Comparison, fields: &[Header], name: &str, word: &[u8]) -> bool
    ensures { result ≡ any_value (lists comparison word.now) name.now (map header_parts fields.now) }
{
    for field in fields {
        if is_named(field, name) && lists(comparison, field.value, word) {
            return true;
        }
    }
    false
}

/// Whether each field of the name has just the value.
pub fn each_is(fields: &[Header], name: &str, word: &[u8]) -> bool
    ensures { result ≡ every_value (λ value. bytes_eq value word.now) name.now (map header_parts fields.now) }
{
    for field in fields {
        if is_named(field, name) && !same_bytes(field.value, word) {
            return false;
        }
    }
    true
}
