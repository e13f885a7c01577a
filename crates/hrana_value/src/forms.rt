// What is read from a JSON tree, and lists of it.
ghost use Rattle.std.specs.Prelude.{List as Seq};
ghost use Rattle.serde_json.specs.Data.{Data};
ghost use Rattle.serde_json.specs.View.{view, items_view};
ghost use Rattle.hrana_value.specs.declared.failures.Decline.{Decline};
ghost use Rattle.hrana_value.specs.Declines.{Reads};
ghost use Rattle.hrana_value.specs.Trees.{ItemsTree, ItemsStand, ArrayTree, ArrayStands, OptionalArrayTree, OptionalArrayStands, OptionalTree, OptionalStands};

use crate::{Decline, List, ReadFail, with_item};
use serde_json::Value as Json;
use std::alloc::Global;

/// What is read from a JSON tree.
pub trait JsonForm: Drop {
    /// The tree is a form of the value.
    ghost tree: { Self → Data → Type 0 };

    /// A decline stands in the tree.
    ghost stands: { Data → Decline → Type 0 };

    fn of_json(alloc: Global, json: &Json) -> Result<Self, ReadFail>
        ensures { Reads (λ x. tree x (view json.now)) (stands (view json.now)) result };
}

fn items_of_json<T: JsonForm>(alloc: Global, items: &[Json]) -> Result<List<T>, ReadFail>
    ensures { Reads (λ xs. ItemsTree T.tree xs (items_view items.now)) (ItemsStand T.stands (items_view items.now)) result }
{
    let mut read = Ok(Vec::new(alloc));
    for item in items {
        read = with_item(read, T::of_json(alloc, item));
    }
    Ok(List::from_vec(read?))
}

/// Reads an array.
pub fn list_of_json<T: JsonForm>(alloc: Global, json: &Json) -> Result<List<T>, ReadFail>
    ensures { Reads (λ xs. ArrayTree T.tree xs (view json.now)) (ArrayStands T.stands (view json.now)) result }
{
    match json {
        Json::Array(items) => items_of_json(alloc, items.as_slice()),
        _ => Err(ReadFail::Declined(Decline::Shape)),
    }
}

/// Reads an array, or null for no items.
pub fn optional_list_of_json<T: JsonForm>(alloc: Global, json: &Json) -> Result<List<T>, ReadFail>
    ensures { Reads (λ xs. OptionalArrayTree T.tree xs (view json.now)) (OptionalArrayStands T.stands (view json.now)) result }
{
    match json {
        Json::Null => Ok(List::new(alloc)),
        Json::Array(items) => items_of_json(alloc, items.as_slice()),
        _ => Err(ReadFail::Declined(Decline::Shape)),
    }
}

/// Reads what may be null for none.
pub fn option_of_json<T: JsonForm>(alloc: Global, json: &Json) -> Result<Option<T>, ReadFail>
    ensures { Reads (λ o. OptionalTree T.tree o (view json.now)) (OptionalStands T.stands (view json.now)) result }
{
    if json.is_null() {
        return Ok(None);
    }
    Ok(Some(T::of_json(alloc, json)?))
}

impl<T: JsonForm> JsonForm for List<T> {
    ghost tree = { ArrayTree T.tree };

    ghost stands = { ArrayStands T.stands };

    fn of_json(alloc: Global, json: &Json) -> Result<List<T>, ReadFail> {
        list_of_json(alloc, json)
    }
}
