// Members of a JSON object by name.
ghost use Rattle.std.specs.Prelude.{◌≡◌, option_map, ℤ, MatchOption, IsTrue, ◌↔◌};
ghost use Rattle.serde_json.specs.Data.{null};
ghost use Rattle.serde_json.specs.View.{view};
ghost use Rattle.hrana_value.specs.Members.{part_at, text_at, HasInt32, IsAbsent};

use crate::int32;
use serde_json::Value as Json;

/// The member of this name, or what is given as null where there is none: `member_or_null(json, "args", &Json::Null)`.
pub fn member_or_null<'a>(json: &'a Json, name: &str, missing: &'a Json) -> &'a Json
    requires { view missing.now ≡ null }
    ensures { view result.now ≡ part_at name.now (view json.now) }
{
    match json.get(name) {
        Some(part) => part,
        None => missing,
    }
}

/// Reads the named members of an object, each by the reader of its kind:
/// `members!(json; message = "message": text_of_json(alloc), code = "code": option_of_json(alloc))` makes two
/// variables with the two readings. A member that is missing is read as null.
#[macro_export]
macro_rules! members {
    ($json:ident; $($member:ident = $name:literal: $kind:ident($($given:expr),*)),+) => {
        $(let $member = $kind($($given,)* $crate::member_or_null($json, $name, &Json::Null));)+
    };
}

/// The text of a member, where it is a string.
pub fn text_member<'a>(json: &'a Json, name: &str) -> Option<&'a str>
    ensures { option_map (λ s. s.now) result ≡ text_at name.now (view json.now) }
{
    match json.get(name) {
        Some(part) => part.as_str(),
        None => None,
    }
}

/// The number of a member, where it is a whole number of 32 bits with a sign.
pub fn int32_member(json: &Json, name: &str) -> Option<i32>
    ensures { MatchOption result ((z : ℤ) → HasInt32 (view json.now) name.now z → ⊥) (HasInt32 (view json.now) name.now) }
{
    match int32(member_or_null(json, name, &Json::Null)) {
        Ok(number) => Some(number),
        Err(_) => None,
    }
}

/// Whether a member is missing or null.
pub fn is_absent(json: &Json, name: &str) -> bool
    ensures { IsTrue result ↔ IsAbsent (view json.now) name.now }
{
    match json.get(name) {
        Some(Json::Null) => true,
        Some(_) => false,
        None => true,
    }
}
