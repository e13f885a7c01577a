// Whole numbers in JSON. What serde_json reads as a float is none, so neither are `1.0`, `-0` and 2^64.
ghost use Rattle.std.specs.Prelude.{◌≡◌, ◌↔◌, ◌⊎◌, None, Err, IfOk, IfErr, FitsSigned, IsSomeAnd};
ghost use Rattle.std.specs.Int.{w32};
ghost use Rattle.serde_json.specs.View.{view};
ghost use Rattle.hrana_value.specs.Members.{whole_of, FitsUnsigned, Int32Tree, Uint32Tree, Uint64Tree, Int32Stands, Uint32Stands, Uint64Stands};
ghost use Rattle.hrana_value.specs.Declines.{Reads, TakesNoMemory};

use crate::{Decline, ReadFail};
use serde_json::Value as Json;

/// Reads a whole number of 32 bits with a sign.
pub fn int32(json: &Json) -> Result<i32, Decline>
    ensures ok { IfOk result (λ z. Int32Tree z (view json.now)) }
    ensures shape { (result ≡ Err Decline.Shape) ↔ (whole_of (view json.now) ≡ None) }
    ensures range { (result ≡ Err Decline.Range) ↔ IsSomeAnd (whole_of (view json.now)) (λ z. FitsSigned w32 z → ⊥) }
    ensures kinds { IfErr result (λ d. (d ≡ Decline.Shape) ⊎ (d ≡ Decline.Range)) }
{
    if let Some(number) = json.as_i64() {
        return match i32::try_from(number) {
            Ok(number) => Ok(number),
            Err(_) => Err(Decline::Range),
        };
    }
    match json.as_u64() {
        Some(_) => Err(Decline::Range),
        None => Err(Decline::Shape),
    }
}

/// Reads a whole number of 32 bits without a sign.
pub fn uint32(json: &Json) -> Result<u32, Decline>
    ensures ok { IfOk result (λ n. Uint32Tree n (view json.now)) }
    ensures shape { (result ≡ Err Decline.Shape) ↔ (whole_of (view json.now) ≡ None) }
    ensures range { (result ≡ Err Decline.Range) ↔ IsSomeAnd (whole_of (view json.now)) (λ z. FitsUnsigned 32 z → ⊥) }
    ensures kinds { IfErr result (λ d. (d ≡ Decline.Shape) ⊎ (d ≡ Decline.Range)) }
{
    if let Some(number) = json.as_u64() {
        return match u32::try_from(number) {
            Ok(number) => Ok(number),
            Err(_) => Err(Decline::Range),
        };
    }
    match json.as_i64() {
        Some(_) => Err(Decline::Range),
        None => Err(Decline::Shape),
    }
}

/// Reads a whole number of 64 bits without a sign.
pub fn uint64(json: &Json) -> Result<u64, Decline>
    ensures ok { IfOk result (λ n. Uint64Tree n (view json.now)) }
    ensures shape { (result ≡ Err Decline.Shape) ↔ (whole_of (view json.now) ≡ None) }
    ensures range { (result ≡ Err Decline.Range) ↔ IsSomeAnd (whole_of (view json.now)) (λ z. FitsUnsigned 64 z → ⊥) }
    ensures kinds { IfErr result (λ d. (d ≡ Decline.Shape) ⊎ (d ≡ Decline.Range)) }
{
    if let Some(number) = json.as_u64() {
        return Ok(number);
    }
    match json.as_i64() {
        Some(_) => Err(Decline::Range),
        None => Err(Decline::Shape),
    }
}

/// The same as a part of a message.
pub fn int32_of_json(json: &Json) -> Result<i32, ReadFail>
    ensures reads { Reads (λ n. Int32Tree n (view json.now)) (Int32Stands (view json.now)) result }
    ensures memory { TakesNoMemory result }
{
    Ok(int32(json)?)
}

/// The same as a part of a message.
pub fn uint32_of_json(json: &Json) -> Result<u32, ReadFail>
    ensures reads { Reads (λ n. Uint32Tree n (view json.now)) (Uint32Stands (view json.now)) result }
    ensures memory { TakesNoMemory result }
{
    Ok(uint32(json)?)
}

/// The same as a part of a message.
pub fn uint64_of_json(json: &Json) -> Result<u64, ReadFail>
    ensures reads { Reads (λ n. Uint64Tree n (view json.now)) (Uint64Stands (view json.now)) result }
    ensures memory { TakesNoMemory result }
{
    Ok(uint64(json)?)
}
