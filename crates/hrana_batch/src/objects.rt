// Objects of JSON trees.
ghost use Rattle.std.specs.Prelude.{◌≡◌, IfOk};
ghost use Rattle.serde_json.specs.Data.{member, no_members, object, put as put_member};
ghost use Rattle.serde_json.specs.View.{view};

use hrana_value::NoMemory;
use serde_json::{Map, Value as Json, put};
use std::alloc::Global;

/// An object of one member.
pub fn object_of_one(alloc: Global, name: &str, part: Json) -> Result<Json, NoMemory>
    ensures { IfOk result (λ json. view json ≡ object (member name.now (view part) no_members)) }
{
    let mut members = Map::new(alloc);
    put(&mut members, alloc, name, part)?;
    Ok(Json::Object(members))
}

/// An object of one member, and of another that is put into it.
pub fn object_of_two(
    alloc: Global,
    name: &str,
    part: Json,
    last: &str,
    other: Json,
) -> Result<Json, NoMemory>
    ensures { IfOk result (λ json. view json ≡ object (put_member name.now (view part) (member last.now (view other) no_members))) }
{
    let mut members = Map::new(alloc);
    put(&mut members, alloc, last, other)?;
    put(&mut members, alloc, name, part)?;
    Ok(Json::Object(members))
}
