// The rowids of rows by their keys, so that a key is found in a time that is logarithmic in the rows. A rowid stays while rows
// before it go.
ghost use Rattle.std.specs.Prelude.{◌≡◌, ◌+◌, ◌<◌, ◌^◌, length, ℕ, ℤ, List, [], None, Some, ◌++◌, ◌||◌, not, cond, false, is_some, IsTrue, IfOk, IfSome, OnOk};
ghost use Rattle.std.specs.Option.{option_copied};
ghost use Rattle.std.specs.BTreeMap.{get};
ghost use Rattle.std.specs.Ordering.{int_cmp, int_eq};
ghost use Rattle.std.specs.Str.{bytes_eq};
ghost use Rattle.hrana_value.specs.declared.value.Value.{Value as SqlValue};
ghost use Rattle.keeper_rows.specs.Keys.{value_of_bytes, rowid_of_key, keys_at, HasKeys};
ghost use Rattle.keeper_rows.specs.Spans.{Encloses};
ghost use Rattle.keeper_rows.specs.declared.row.Row.{Row};
ghost use Rattle.keeper_rows.specs.Constraint.{keeps_key};
ghost use Rattle.keeper_formulas.specs.Values.{value_at, value_or_null, is_null, is_equal};

use crate::constraint::is_at;
use crate::row::Row;
use crate::spans::{PlaceSpan, every_place, one_place};
use hrana_value::{NoMemory, Value};
use keeper_formulas::{is_null, value_at};
use std::alloc::Global;
use std::collections::BTreeMap;

/// The rowids of rows by their keys. A key that is null has none.
#[derive(Debug, Drop)]
pub struct KeyIndex {
    /// The place of the key among the columns.
    pub column: usize,
    integers: BTreeMap<i64, u64>,
    texts: BTreeMap<Vec<u8>, u64>,
    blobs: BTreeMap<Vec<u8>, u64>,
}

/// Gives a key a value, in the place of the one that it had.
pub fn put_vec<V: Drop>(
    map: &mut BTreeMap<Vec<u8>, V>,
    key: Vec<u8>,
    value: V,
) -> Result<(), NoMemory>
    ensures { OnOk result ((bytes : List ℕ) → value_of_bytes map.new bytes ≡ cond (bytes_eq key.items bytes) (Some value) (value_of_bytes map.old bytes)) }
{
    map.insert(key, value)?;
    Ok(())
}

fn copy_bytes(alloc: Global, bytes: &[u8]) -> Result<Vec<u8>, NoMemory>
    ensures { IfOk result (λ copy. copy.items ≡ bytes.now) }
{
    let mut copy = Vec::new(alloc);
    copy.extend_from_slice(bytes)?;
    Ok(copy)
}

fn put_bytes(
    alloc: Global,
    map: &mut BTreeMap<Vec<u8>, u64>,
    key: &[u8],
    rowid: u64,
) -> Result<(), NoMemory>
    ensures { OnOk result ((bytes : List ℕ) → value_of_bytes map.new bytes ≡ cond (bytes_eq key.now bytes) (Some rowid) (value_of_bytes map.old bytes)) }
{
    put_vec(map, copy_bytes(alloc, key)?, rowid)
}

fn put_integer(map: &mut BTreeMap<i64, u64>, key: i64, rowid: u64) -> Result<(), NoMemory>
    ensures { OnOk result ((number : ℤ) → get int_cmp map.new number ≡ cond (int_eq key number) (Some rowid) (get int_cmp map.old number)) }
{
    map.insert(key, rowid)?;
    Ok(())
}

fn remove_integer(map: &mut BTreeMap<i64, u64>, key: i64)
    ensures { (number : ℤ) → get int_cmp map.new number ≡ cond (int_eq key number) None (get int_cmp map.old number) }
{
    map.remove(&key);
}

fn remove_bytes(map: &mut BTreeMap<Vec<u8>, u64>, key: &[u8])
    ensures { (bytes : List ℕ) → value_of_bytes map.new bytes ≡ cond (bytes_eq key.now bytes) None (value_of_bytes map.old bytes) }
{
    map.remove(key);
}

impl KeyIndex {
    /// The index of no rows, by a column.
    pub fn new(alloc: Global, column: usize) -> KeyIndex
        ensures keys { HasKeys result (keys_at result.column []) }
        ensures column { result.column ≡ column }
    {
        KeyIndex {
            column,
            integers: BTreeMap::new(alloc),
            texts: BTreeMap::new(alloc),
            blobs: BTreeMap::new(alloc),
        }
    }

    /// The rowid of the row with a key.
    pub fn get(&self, key: &Value) -> Option<u64>
        ensures { result ≡ rowid_of_key self.now key.now }
    {
        match key {
            Value::Null => None,
            Value::Integer(number) => self.integers.get(number).copied(),
            Value::Text(text) => self.texts.get(text.as_str().as_bytes()).copied(),
            Value::Blob(bytes) => self.blobs.get(bytes.as_slice()).copied(),
        }
    }

    /// Gives a key its row's rowid, in the place of the one that it had.
    fn put(&mut self, alloc: Global, key: &Value, rowid: u64) -> Result<(), NoMemory>
        ensures puts { OnOk result ((value : SqlValue) → rowid_of_key self.new value ≡ cond (is_equal key.now value) (Some rowid) (rowid_of_key self.old value)) }
        ensures column { self.new.column ≡ self.old.column }
    {
        match key {
            Value::Null => Ok(()),
            Value::Integer(number) => put_integer(&mut self.integers, *number, rowid),
            Value::Text(text) => {
                put_bytes(alloc, &mut self.texts, text.as_str().as_bytes(), rowid)
            }
            Value::Blob(bytes) => put_bytes(alloc, &mut self.blobs, bytes.as_slice(), rowid),
        }
    }

    /// Gives a key its row's rowid, if it isn't null and has none, and says whether. Else nothing changes.
    pub fn add(&mut self, alloc: Global, key: Option<&Value>, rowid: u64) -> Result<bool, NoMemory>
        ensures added { IfOk result (λ added. added ≡ not (is_null (value_or_null (option_copied key.entry)) || is_some (rowid_of_key self.old (value_or_null (option_copied key.entry))))) }
        ensures puts { IfOk result (λ added. IsTrue added → (value : SqlValue) → rowid_of_key self.new value ≡ cond (is_equal (value_or_null (option_copied key.entry)) value) (Some rowid) (rowid_of_key self.old value)) }
        ensures left { IfOk result (λ added. added ≡ false → self.new ≡ self.old) }
        ensures column { self.new.column ≡ self.old.column }
    {
        let Some(key) = key else {
            return Ok(false);
        };
        if is_null(key) || self.get(key).is_some() {
            return Ok(false);
        }
        self.put(alloc, key, rowid)?;
        Ok(true)
    }

    /// Takes a key out.
    pub fn remove(&mut self, key: &Value)
        ensures removes { (value : SqlValue) → rowid_of_key self.new value ≡ cond (is_equal key.now value) None (rowid_of_key self.old value) }
        ensures column { self.new.column ≡ self.old.column }
    {
        match key {
            Value::Null => {}
            Value::Integer(number) => remove_integer(&mut self.integers, *number),
            Value::Text(text) => remove_bytes(&mut self.texts, text.as_str().as_bytes()),
            Value::Blob(bytes) => remove_bytes(&mut self.blobs, bytes.as_slice()),
        }
    }

    /// Takes all keys out.
    pub fn clear(&mut self)
        ensures keys { HasKeys self.new (keys_at self.new.column []) }
        ensures column { self.new.column ≡ self.old.column }
    {
        self.integers.clear();
        self.texts.clear();
        self.blobs.clear();
    }

    /// Adds rows behind others, and says whether none breaks the key of those before it. It stops at one that does.
    pub fn add_rows(&mut self, alloc: Global, rows: &[Row]) -> Result<bool, NoMemory>
        ensures kept { IfOk result (λ kept. (before : List Row) → HasKeys self.old (keys_at self.old.column before) → kept ≡ keeps_key (Some self.old.column) before rows.now) }
        ensures keys { IfOk result (λ kept. IsTrue kept → (before : List Row) → HasKeys self.old (keys_at self.old.column before) → HasKeys self.new (keys_at self.old.column (before ++ rows.now))) }
        ensures column { self.new.column ≡ self.old.column }
    {
        for row in rows {
            let key = value_at(row.values.as_slice(), self.column);
            if !self.add(alloc, key, row.rowid)? {
                return Ok(false);
            }
        }
        Ok(true)
    }

    /// The index of rows by a column, if no row breaks the key of those before it.
    pub fn of_rows(alloc: Global, column: usize, rows: &[Row]) -> Result<Option<KeyIndex>, NoMemory>
        ensures kept { IfOk result (λ found. is_some found ≡ keeps_key (Some column) [] rows.now) }
        ensures keys { IfOk result (λ found. IfSome found (λ index. HasKeys index (keys_at column rows.now))) }
        ensures column { IfOk result (λ found. IfSome found (λ index. index.column ≡ column)) }
    {
        let mut index = KeyIndex::new(alloc, column);
        if index.add_rows(alloc, rows)? {
            Ok(Some(index))
        } else {
            Ok(None)
        }
    }
}

/// The place of a rowid, where the rows stand in the order of their rowids.
fn place_of_rowid(rows: &[Row], rowid: u64) -> Option<usize>
    ensures { IfSome result (λ place. place < length rows.now) }
{
    rows.binary_search_by_key(&rowid, |row| row.rowid).ok()
}

/// Whether the row at a place has a key.
fn is_keyed(rows: &[Row], column: usize, place: usize, key: &Value) -> bool
    requires { place < length rows.now }
    ensures { result ≡ is_equal (keys_at column rows.now place) key.now }
{
    is_at(column, &rows[place], key)
}

/// The place of the row with a key, or no place. Rows stand in the order of their rowids; where they didn't, all places are
/// answered.
pub fn span_with_key(rows: &[Row], index: &KeyIndex, key: &Value) -> PlaceSpan
    requires { HasKeys index.now (keys_at index.now.column rows.now) }
    ensures { Encloses (λ row. is_equal (value_at row.values index.now.column) key.now) result rows.now }
{
    let Some(rowid) = index.get(key) else {
        return PlaceSpan { from: 0, to: 0 };
    };
    let Some(place) = place_of_rowid(rows, rowid) else {
        return every_place(rows);
    };
    if is_keyed(rows, index.column, place, key) {
        one_place(rows, place)
    } else {
        every_place(rows)
    }
}
