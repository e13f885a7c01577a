// The keys of rows that leave an index.
ghost use Rattle.std.specs.Prelude.{◌≡◌, ◌&&◌, ℕ, cond, not, filter, None};
ghost use Rattle.hrana_value.specs.declared.value.Value.{Value as SqlValue};
ghost use Rattle.keeper_formulas.specs.Values.{value_at, is_equal};
ghost use Rattle.keeper_rows.specs.Chosen.{stays};
ghost use Rattle.keeper_rows.specs.Keys.{rowid_of_key, HasKeys, Indexes, Leaves};
ghost use Rattle.keeper_rows.specs.Spans.{Spans};

use crate::conditions::stays;
use crate::keys::KeyIndex;
use crate::row::Row;
use crate::spans::{PlaceSpan, rows_at};
use keeper_formulas::{Equation, value_at};

/// Takes the key of a row out, if a condition chooses the row.
fn remove_row(index: &mut KeyIndex, condition: &Option<Equation>, row: &Row)
    ensures removes { (key : SqlValue) → rowid_of_key index.new key ≡ cond (not (stays condition.now row.now) && is_equal (value_at row.now.values index.old.column) key) None (rowid_of_key index.old key) }
    ensures column { index.new.column ≡ index.old.column }
{
    if stays(condition, row) {
        return;
    }
    if let Some(key) = value_at(row.values.as_slice(), index.column) {
        index.remove(key);
    }
}

/// Takes the keys of the rows out that a condition chooses.
fn remove_rows(index: &mut KeyIndex, condition: &Option<Equation>, rows: &[Row])
    ensures removes { (from : ℕ) (old left : ℕ → SqlValue) → Leaves condition.now index.old.column from rows.now old left → HasKeys index.old old → HasKeys index.new left }
    ensures column { index.new.column ≡ index.old.column }
{
    for row in rows {
        remove_row(index, condition, row);
    }
}

/// The index once the rows are removed that a condition chooses among those at some places.
pub fn without_chosen(
    index: Option<KeyIndex>,
    condition: &Option<Equation>,
    rows: &[Row],
    span: PlaceSpan,
) -> Option<KeyIndex>
    requires spans { Spans condition.now span rows.now }
    requires indexes { Indexes index rows.now }
    ensures { Indexes result (filter (stays condition.now) rows.now) }
{
    let Some(mut index) = index else {
        return None;
    };
    if condition.is_none() {
        index.clear();
        return Some(index);
    }
    remove_rows(&mut index, condition, rows_at(rows, span));
    Some(index)
}
