// New keys of rows in an index. All old keys that change are taken out before the first new one is put in, so that rows may
// exchange their keys.
ghost use Rattle.std.specs.Prelude.{◌≡◌, ◌+◌, ◌<◌, ◌≤◌, ◌^◌, ℕ, length, cond, false, true, not, ◌||◌, ◌&&◌, IsTrue, None, is_some, get_or, IfOk, IfSome, Some, []};
ghost use Rattle.hrana_value.specs.declared.value.Value.{Value as SqlValue};
ghost use Rattle.keeper_formulas.specs.Values.{value_at, is_null, is_equal};
ghost use Rattle.keeper_rows.specs.declared.row.Row.{Row};
ghost use Rattle.keeper_rows.specs.Constraint.{keeps_key};
ghost use Rattle.keeper_rows.specs.Keys.{rowid_of_key, HasKeys, Indexes, stay, Moves, changed_up_to};
ghost use Rattle.keeper_rows.specs.Spans.{replaced};

use crate::keys::KeyIndex;
use crate::row::Row;
use crate::spans::{PlaceSpan, rows_at};
use hrana_value::NoMemory;
use keeper_formulas::{are_equal, value_at};
use std::alloc::Global;

/// What became of an index, and whether the new rows keep the constraint of the key. Where memory is wanting there is no
/// index any more.
#[derive(Drop)]
pub struct Rekeyed {
    pub index: Option<KeyIndex>,
    pub kept: bool,
}

/// Whether a row has another key than an old one.
fn differs(column: usize, old: &Row, new: &Row) -> bool
    ensures { result ≡ not (is_equal (value_at new.now.values column) (value_at old.now.values column)) }
{
    let old_key = value_at(old.values.as_slice(), column);
    let new_key = value_at(new.values.as_slice(), column);
    !are_equal(new_key, old_key)
}

/// Takes the old key of a row out, if the new one differs.
fn vacate_row(index: &mut KeyIndex, old: &Row, new: &Row)
    ensures vacates { (key : SqlValue) → rowid_of_key index.new key ≡ cond (not (is_equal (value_at new.now.values index.old.column) (value_at old.now.values index.old.column)) && is_equal (value_at old.now.values index.old.column) key) None (rowid_of_key index.old key) }
    ensures column { index.new.column ≡ index.old.column }
{
    if !differs(index.column, old, new) {
        return;
    }
    if let Some(key) = value_at(old.values.as_slice(), index.column) {
        index.remove(key);
    }
}

/// Takes the old keys of rows out, where the new ones differ.
fn vacate(index: &mut KeyIndex, olds: &[Row], news: &[Row])
    requires { length news.now ≡ length olds.now }
    ensures vacates { (from : ℕ) (old new : ℕ → SqlValue) → Moves index.old.column from olds.now news.now old new → HasKeys index.old old → HasKeys index.new (λ place. stay (old place) (new place)) }
    ensures column { index.new.column ≡ index.old.column }
{
    for (number, old) in olds.iter().enumerate() {
        vacate_row(index, old, &news[number]);
    }
}

/// Puts the new key of a row in, if it differs from the old one, and says whether it was free.
fn fill_row(alloc: Global, index: &mut KeyIndex, old: &Row, new: &Row) -> Result<bool, NoMemory>
    ensures free { IfOk result (λ free. free ≡ (is_equal (value_at new.now.values index.old.column) (value_at old.now.values index.old.column) || not (is_null (value_at new.now.values index.old.column) || is_some (rowid_of_key index.old (value_at new.now.values index.old.column))))) }
    ensures fills { IfOk result (λ free. IsTrue free → (key : SqlValue) → rowid_of_key index.new key ≡ cond (not (is_equal (value_at new.now.values index.old.column) (value_at old.now.values index.old.column)) && is_equal (value_at new.now.values index.old.column) key) (Some new.now.rowid) (rowid_of_key index.old key)) }
    ensures left { IfOk result (λ free. free ≡ false → index.new ≡ index.old) }
    ensures column { index.new.column ≡ index.old.column }
{
    if !differs(index.column, old, new) {
        return Ok(true);
    }
    let key = value_at(new.values.as_slice(), index.column);
    index.add(alloc, key, new.rowid)
}

/// Puts the new keys of rows in, where they differ from the old ones, and says for how many rows: it stops at the first whose
/// key is null or that of another row.
fn fill(alloc: Global, index: &mut KeyIndex, olds: &[Row], news: &[Row]) -> Result<usize, NoMemory>
    requires { length news.now ≡ length olds.now }
    ensures within { IfOk result (λ count. count ≤ length olds.now) }
    ensures fills { IfOk result (λ count. (from : ℕ) (old new : ℕ → SqlValue) → Moves index.old.column from olds.now news.now old new → HasKeys index.old (λ place. stay (old place) (new place)) → HasKeys index.new (changed_up_to (from + count) (λ place. stay (old place) (new place)) new)) }
    ensures sound { IfOk result (λ count. (from : ℕ) (old new : ℕ → SqlValue) → Moves index.old.column from olds.now news.now old new → (i : ℕ) → i < count → is_null (new (from + i)) ≡ false) }
    ensures stops { IfOk result (λ count. count < length olds.now → (from : ℕ) (old new : ℕ → SqlValue) → Moves index.old.column from olds.now news.now old new → (is_equal (new (from + count)) (old (from + count)) ≡ false) × ((is_null (new (from + count)) || is_some (rowid_of_key index.new (new (from + count)))) ≡ true)) }
    ensures column { index.new.column ≡ index.old.column }
{
    for (number, old) in olds.iter().enumerate() {
        if !fill_row(alloc, index, old, &news[number])? {
            return Ok(number);
        }
    }
    Ok(olds.len())
}

/// The index with the new keys of rows put in, if all of them are free and there is memory.
fn filled(alloc: Global, mut index: KeyIndex, olds: &[Row], news: &[Row]) -> Option<KeyIndex>
    requires { length news.now ≡ length olds.now }
    ensures fills { (from : ℕ) (old new : ℕ → SqlValue) → Moves index.column from olds.now news.now old new → HasKeys index (λ place. stay (old place) (new place)) → IfSome result (λ filled. HasKeys filled new) }
    ensures column { IfSome result (λ filled. filled.column ≡ index.column) }
{
    let Ok(count) = fill(alloc, &mut index, olds, news) else {
        return None;
    };
    if count < olds.len() {
        return None;
    }
    Some(index)
}

/// Gives the rows at some places of an index the keys of others. Where one of these breaks the constraint, the index is as it
/// was.
pub fn give_keys(
    alloc: Global,
    mut index: KeyIndex,
    rows: &[Row],
    span: PlaceSpan,
    news: &[Row],
) -> Result<Rekeyed, NoMemory>
    requires ordered { span.from ≤ span.to }
    requires within { span.to ≤ length rows.now }
    requires as_many { span.from + length news.now ≡ span.to }
    requires indexes { Indexes (Some index) rows.now }
    ensures kept { IfOk result (λ rekeyed. rekeyed.kept ≡ keeps_key (Some index.column) [] (replaced rows.now span news.now)) }
    ensures indexes { IfOk result (λ rekeyed. Indexes rekeyed.index (cond rekeyed.kept (replaced rows.now span news.now) rows.now)) }
{
    let olds = rows_at(rows, span);
    vacate(&mut index, olds, news);
    let count = fill(alloc, &mut index, olds, news)?;
    if count == news.len() {
        return Ok(Rekeyed {
            index: Some(index),
            kept: true,
        });
    }
    vacate(&mut index, &news[..count], &olds[..count]);
    Ok(Rekeyed {
        index: filled(alloc, index, news, olds),
        kept: false,
    })
}
