// Arguments from JSON trees.
ghost use Rattle.hrana_value.specs.Trees.{OptionalArrayTree, OptionalArrayStands};
ghost use Rattle.std.specs.Prelude.{◌≡◌, ◌+◌, ◌≤◌, ◌<◌};
ghost use Rattle.serde_json.specs.View.{view};
ghost use Rattle.hrana_value.specs.Declines.{Reads, Only, EitherStands};
ghost use Rattle.hrana_value.specs.Members.{TextStands};
ghost use Rattle.hrana_value.specs.Tree.{ValueTree, ValueStands};
ghost use Rattle.hrana_value.specs.declared.failures.Decline.TheVariants.{Range};
ghost use Rattle.hrana_stmt.specs.Tree.{NamedArgTree, NamedArgStands, count_of, ArgumentsStand};

use crate::{MAX_ARGUMENTS, NamedArg, NamedArgs};
use hrana_value::{
    Decline, JsonForm, ReadFail, Values, both_readings, members, optional_list_of_json,
    text_of_json, value_of_json,
};
use serde_json::Value as Json;
use std::alloc::Global;

fn named_arg_of_json(alloc: Global, json: &Json) -> Result<NamedArg, ReadFail>
    ensures { Reads (λ a. NamedArgTree a (view json.now)) (NamedArgStands (view json.now)) result }
{
    members!(json; name = "name": text_of_json(alloc), value = "value": value_of_json(alloc));
    let (name, value) = both_readings(name, value)?;
    Ok(NamedArg { name, value })
}

impl JsonForm for NamedArg {
    ghost tree = { NamedArgTree };

    ghost stands = { NamedArgStands };

    fn of_json(alloc: Global, json: &Json) -> Result<NamedArg, ReadFail> {
        named_arg_of_json(alloc, json)
    }
}

fn count(json: &Json) -> usize
    ensures { result ≡ count_of (view json.now) }
{
    match json {
        Json::Array(items) => items.as_slice().len(),
        _ => 0,
    }
}

fn argument_limit(args: &Json, named: &Json) -> Result<(), ReadFail>
    ensures { Reads (λ _. count_of (view args.now) + count_of (view named.now) ≤ MAX_ARGUMENTS) (Only Range (MAX_ARGUMENTS < count_of (view args.now) + count_of (view named.now))) result }
{
    let unnamed_count = count(args);
    let named_count = count(named);
    if unnamed_count <= MAX_ARGUMENTS && named_count <= MAX_ARGUMENTS - unnamed_count {
        Ok(())
    } else {
        Err(ReadFail::Declined(Decline::Range))
    }
}

fn lists_of_json(alloc: Global, args: &Json, named: &Json) -> Result<(Values, NamedArgs), ReadFail>
    ensures { Reads (λ read. OptionalArrayTree ValueTree read.0 (view args.now) × OptionalArrayTree NamedArgTree read.1 (view named.now)) (EitherStands (OptionalArrayStands ValueStands (view args.now)) (OptionalArrayStands NamedArgStands (view named.now))) result }
{
    let args = optional_list_of_json(alloc, args);
    both_readings(args, optional_list_of_json(alloc, named))
}

/// Reads the arguments of both kinds, of which there are at most `MAX_ARGUMENTS` together.
pub fn arguments_of_json(
    alloc: Global,
    args: &Json,
    named: &Json,
) -> Result<(Values, NamedArgs), ReadFail>
    ensures { Reads (λ read. OptionalArrayTree ValueTree read.0 (view args.now) × OptionalArrayTree NamedArgTree read.1 (view named.now)) (ArgumentsStand (view args.now) (view named.now)) result }
{
    let read = lists_of_json(alloc, args, named);
    let (read, ()) = both_readings(read, argument_limit(args, named))?;
    Ok(read)
}
