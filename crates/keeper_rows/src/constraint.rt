// The constraint of a key.
ghost use Rattle.std.specs.Prelude.{◌≡◌, ◌++◌};
ghost use Rattle.std.specs.Option.{option_copied};
ghost use Rattle.keeper_formulas.specs.Values.{value_at, value_or_null, is_equal};
ghost use Rattle.keeper_rows.specs.Constraint.{has_key, is_taken, breaks_key};

use crate::row::Row;
use crate::rows::TableRows;
use hrana_value::Value;
use keeper_formulas::{is_equal, is_null};

/// Whether a row has a value in a column.
pub fn is_at(place: usize, row: &Row, value: &Value) -> bool
    ensures { result ≡ is_equal (value_at row.now.values place) value.now }
{
    match row.values.as_slice().get(place) {
        Some(key) => is_equal(key, value),
        None => false,
    }
}

/// Whether a row has this key.
pub fn has_key(place: usize, rows: &[Row], value: &Value) -> bool
    ensures { result ≡ has_key place rows.now value.now }
{
    rows.iter().any(|row| is_at(place, row, value))
}

/// Whether a key is null or missing, or that of a row before these or among them.
fn is_taken(place: usize, before: &TableRows, rows: &TableRows, key: Option<&Value>) -> bool
    ensures { result ≡ is_taken place (before.now ++ rows.now) (value_or_null (option_copied key.entry)) }
{
    let Some(key) = key else {
        return true;
    };
    if is_null(key) {
        return true;
    }
    if before.has_key(place, key) {
        return true;
    }
    rows.has_key(place, key)
}

/// Whether the key of a new row is null, or that of a row before these or among them.
pub fn breaks_key(
    key: Option<usize>,
    before: &TableRows,
    rows: &TableRows,
    values: &[Value],
) -> bool
    ensures { result ≡ breaks_key key (before.now ++ rows.now) values.now }
{
    match key {
        None => false,
        Some(place) => is_taken(place, before, rows, values.get(place)),
    }
}
