// Integers that are written as texts, since a JSON number may be read as a float.
ghost use Rattle.std.specs.Prelude.{◌≡◌, ◌↔◌, ◌⊎◌, Err, IfOk, IfErr, IsTrue};
ghost use Rattle.std.specs.Str.Parse.{AllDigits, without_leading_sign};
ghost use Rattle.hrana_value.specs.Tree.{IsIntegerText, FitsI64, SpellsI64, Int64TextTree, Int64TextStands};
ghost use Rattle.hrana_value.specs.Declines.{Reads, TakesNoMemory};
ghost use Rattle.hrana_value.specs.Trees.{OptionalTree, OptionalStands};
ghost use Rattle.serde_json.specs.View.{view};

use crate::{Decline, ReadFail};
use serde_json::Value as Json;

fn after_sign(text: &[u8]) -> &[u8]
    ensures { result.now ≡ without_leading_sign text.now }
{
    match text.first() {
        Some(b'-') => &text[1..],
        Some(b'+') => &text[1..],
        _ => text,
    }
}

#[tactic(auto, using(std::proofs::lemmas::Str::Parse::digit_at, std::proofs::lemmas::Int::Digits::digits_more, std::proofs::lemmas::Str::digit_value_digit,))]
fn are_digits(text: &[u8]) -> bool
    ensures { IsTrue result ↔ AllDigits 10 text.now }
{
    for byte in text {
        if !byte.is_ascii_digit() {
            return false;
        }
    }
    true
}

fn is_integer_text(text: &str) -> bool
    ensures { IsTrue result ↔ IsIntegerText text.now }
{
    let digits = after_sign(text.as_bytes());
    !digits.is_empty() && are_digits(digits)
}

/// Reads an integer of 64 bits: an optional sign and decimal digits.
pub fn int64_of_text(text: &str) -> Result<i64, Decline>
    ensures ok { IfOk result (SpellsI64 text.now) }
    ensures shape { (result ≡ Err Decline.Shape) ↔ (IsIntegerText text.now → ⊥) }
    ensures range { (result ≡ Err Decline.Range) ↔ (IsIntegerText text.now × (FitsI64 text.now → ⊥)) }
    ensures kinds { IfErr result (λ d. (d ≡ Decline.Shape) ⊎ (d ≡ Decline.Range)) }
{
    if !is_integer_text(text) {
        return Err(Decline::Shape);
    }
    match text.parse::<i64>() {
        Ok(number) => Ok(number),
        Err(_) => Err(Decline::Range),
    }
}

/// Reads an integer of 64 bits from a string.
pub fn int64_text_of_json(json: &Json) -> Result<i64, ReadFail>
    ensures reads { Reads (λ z. Int64TextTree z (view json.now)) (Int64TextStands (view json.now)) result }
    ensures memory { TakesNoMemory result }
{
    let Some(text) = json.as_str() else {
        return Err(ReadFail::Declined(Decline::Shape));
    };
    Ok(int64_of_text(text)?)
}

/// The same where null stands for none.
pub fn optional_int64_text_of_json(json: &Json) -> Result<Option<i64>, ReadFail>
    ensures reads { Reads (λ o. OptionalTree Int64TextTree o (view json.now)) (OptionalStands Int64TextStands (view json.now)) result }
    ensures memory { TakesNoMemory result }
{
    if json.is_null() {
        return Ok(None);
    }
    Ok(Some(int64_text_of_json(json)?))
}
