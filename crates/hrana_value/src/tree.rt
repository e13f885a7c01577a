// Values from JSON trees.
ghost use Rattle.std.specs.Prelude.{◌≡◌, List, ℕ, IfOk, IfErr, codes, map};
ghost use Rattle.serde_json.specs.View.{view};
ghost use Rattle.base64.specs.GeneralPurpose.{encode_of, IsBytes};
ghost use Rattle.base64.specs.Engines.{standard_no_pad};
ghost use Rattle.hrana_value.specs.Base64.{SpellsBytes};
ghost use Rattle.hrana_value.specs.Declines.{Reads};
ghost use Rattle.hrana_value.specs.Members.{HasText};
ghost use Rattle.hrana_value.specs.Names.{RowsDiffer};
ghost use Rattle.hrana_value.specs.Tree.{ValueTree, ValueStands, NoTreeIsTwoValues, NoValueIsDeclined};
ghost use Rattle.hrana_value.specs.declared.failures.Decline.{Decline};

use crate::{Bytes, Decline, JsonForm, ReadFail, Txt, Value, index_of, int64_of_text, text_member};
use base64::DecodeAllocError;
use base64::engine::general_purpose::{STANDARD, STANDARD_NO_PAD};
use serde_json::Value as Json;
use std::alloc::Global;

/// The `type` of each kind of value.
pub const VALUE_KINDS: [&str; 5] = ["null", "integer", "float", "text", "blob"];

const NULL: usize = 0;

const INTEGER: usize = 1;

const FLOAT: usize = 2;

const TEXT: usize = 3;

const BLOB: usize = 4;

fn bytes_without_padding(alloc: Global, text: &str) -> Result<Bytes, ReadFail>
    ensures ok { IfOk result (λ b. IsBytes b × (text.now ≡ encode_of standard_no_pad b)) }
    ensures declined { IfErr result (λ e. (d : Decline) → e ≡ ReadFail.Declined d → (d ≡ Decline.Shape) × ((b : List ℕ) → IsBytes b → text.now ≡ encode_of standard_no_pad b → ⊥)) }
{
    match STANDARD_NO_PAD.decode(alloc, text.as_bytes()) {
        Ok(bytes) => Ok(Bytes::from_vec(bytes)),
        Err(DecodeAllocError::OutOfMemory) => Err(ReadFail::NoMemory),
        Err(DecodeAllocError::DecodeError(_)) => Err(ReadFail::Declined(Decline::Shape)),
    }
}

// The bytes of a base64 text, with or without its padding.
fn bytes_of_base64(alloc: Global, text: &str) -> Result<Bytes, ReadFail>
    ensures ok { IfOk result (SpellsBytes text.now) }
    ensures declined { IfErr result (λ e. (d : Decline) → e ≡ ReadFail.Declined d → (d ≡ Decline.Shape) × ((b : List ℕ) → SpellsBytes text.now b → ⊥)) }
{
    match STANDARD.decode(alloc, text.as_bytes()) {
        Ok(bytes) => Ok(Bytes::from_vec(bytes)),
        Err(DecodeAllocError::OutOfMemory) => Err(ReadFail::NoMemory),
        Err(DecodeAllocError::DecodeError(_)) => bytes_without_padding(alloc, text),
    }
}

fn integer_of_json(json: &Json) -> Result<Value, ReadFail>
    requires { HasText (view json.now) (codes "type") (codes "integer") }
    ensures { Reads (λ v. ValueTree v (view json.now)) (ValueStands (view json.now)) result }
{
    let Some(digits) = text_member(json, "value") else {
        return Err(ReadFail::Declined(Decline::Shape));
    };
    match int64_of_text(digits) {
        Ok(number) => Ok(Value::Integer(number)),
        Err(kind) => Err(ReadFail::Declined(kind)),
    }
}

fn text_value_of_json(alloc: Global, json: &Json) -> Result<Value, ReadFail>
    requires { HasText (view json.now) (codes "type") (codes "text") }
    ensures { Reads (λ v. ValueTree v (view json.now)) (ValueStands (view json.now)) result }
{
    let Some(text) = text_member(json, "value") else {
        return Err(ReadFail::Declined(Decline::Shape));
    };
    Ok(Value::Text(Txt::new(alloc, text)?))
}

fn blob_of_json(alloc: Global, json: &Json) -> Result<Value, ReadFail>
    requires { HasText (view json.now) (codes "type") (codes "blob") }
    ensures { Reads (λ v. ValueTree v (view json.now)) (ValueStands (view json.now)) result }
{
    let Some(text) = text_member(json, "base64") else {
        return Err(ReadFail::Declined(Decline::Shape));
    };
    Ok(Value::Blob(bytes_of_base64(alloc, text)?))
}

/// Reads a value. A blob's text is base64 (RFC 4648, section 4), with or without its padding.
pub fn value_of_json(alloc: Global, json: &Json) -> Result<Value, ReadFail>
    ensures { Reads (λ v. ValueTree v (view json.now)) (ValueStands (view json.now)) result }
{
    let Some(kind) = text_member(json, "type") else {
        return Err(ReadFail::Declined(Decline::Shape));
    };
    match index_of(&VALUE_KINDS, kind) {
        Some(NULL) => Ok(Value::Null),
        Some(INTEGER) => integer_of_json(json),
        Some(FLOAT) => Err(ReadFail::Declined(Decline::Float)),
        Some(TEXT) => text_value_of_json(alloc, json),
        Some(BLOB) => blob_of_json(alloc, json),
        _ => Err(ReadFail::Declined(Decline::Shape)),
    }
}

impl JsonForm for Value {
    ghost tree = { ValueTree };

    ghost stands = { ValueStands };

    fn of_json(alloc: Global, json: &Json) -> Result<Value, ReadFail> {
        value_of_json(alloc, json)
    }
}

/// No two kinds of value have one `type`.
pub fn value_kinds_differ()
    ensures { RowsDiffer (map (λ row. row.now) VALUE_KINDS) }
{}

/// A JSON tree is the form of at most one value.
pub fn no_tree_is_two_values()
    ensures { NoTreeIsTwoValues }
{}

/// What is the form of a value is read.
pub fn no_value_is_declined()
    ensures { NoValueIsDeclined }
{}
