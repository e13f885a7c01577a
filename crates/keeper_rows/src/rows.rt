// The rows of a table, with an index of their keys.
ghost use Rattle.std.specs.Prelude.{◌≡◌, ◌+◌, ◌<◌, ◌≤◌, ◌^◌, Bool, true, false, length, List, [], ◌∷◌, ◌++◌, slice_range, take, drop, Some, IsTrue, OnOk, OnErr, IfOk, filter};
ghost use Rattle.keeper_formulas.specs.declared.formulas.Picture.{Picture};
ghost use Rattle.keeper_rows.specs.declared.row.Row.{Row};
ghost use Rattle.keeper_rows.specs.declared.spans.PlaceSpan.{PlaceSpan};
ghost use Rattle.keeper_rows.specs.Keys.{Indexes, HasKeys, keys_at};
ghost use Rattle.keeper_rows.specs.Constraint.{has_key, keeps_key};
ghost use Rattle.keeper_rows.specs.Spans.{Spans, replaced};
ghost use Rattle.keeper_rows.specs.Chosen.{stays, shown_rows, chosen_count};

use crate::conditions::{constant_of, stays, sum_of_constants};
use crate::constraint::has_key;
use crate::keys::{KeyIndex, span_with_key};
use crate::leaving::without_chosen;
use crate::rekeying::give_keys;
use crate::row::Row;
use crate::spans::{PlaceSpan, every_place, rows_at};
use hrana_value::{NoMemory, Value};
use keeper_formulas::Equation;
use std::alloc::Global;
use std::marker::Model;

/// The rows of a table, in the order of their rowids, with an index of their keys where there is a key. Where memory was
/// wanting the index is left out, and a key is searched for row by row.
#[derive(Debug, Drop)]
pub struct TableRows {
    items: Vec<Row>,
    index: Option<KeyIndex>,
}

impl Model for TableRows {
    ghost use Rattle.std.specs.Prelude.{List};
    ghost use Rattle.keeper_rows.specs.declared.row.Row.{Row};
    ghost use Rattle.keeper_rows.specs.Keys.{Indexes};

    ghost Value = { List Row };

    ghost view = { λ rows. rows.items.items };

    ghost invariant = { λ rows. Indexes rows.index rows.items.items };
}

fn retain_rows(rows: &mut Vec<Row>, condition: &Option<Equation>)
    ensures { rows.new.items ≡ filter (stays condition.now) rows.old.items }
{
    rows.retain(|row| stays(condition, row));
}

/// Removes the row at the one place that a condition may choose, if it does.
fn remove_only(rows: &mut Vec<Row>, condition: &Option<Equation>, span: PlaceSpan)
    requires spans { Spans condition.now span rows.old.items }
    requires one { span.from + 1 ≡ span.to }
    ensures { rows.new.items ≡ filter (stays condition.now) rows.old.items }
{
    if !stays(condition, &rows[span.from]) {
        rows.remove(span.from);
    }
}

/// Removes the rows that a condition chooses among those at some places.
fn remove_within(rows: &mut Vec<Row>, condition: &Option<Equation>, span: PlaceSpan)
    requires { Spans condition.now span rows.old.items }
    ensures { rows.new.items ≡ filter (stays condition.now) rows.old.items }
{
    if span.to - span.from == 1 {
        remove_only(rows, condition, span);
    } else {
        retain_rows(rows, condition);
    }
}

/// An index of no rows, if there is a key.
fn index_of_none(alloc: Global, key: Option<usize>) -> Option<KeyIndex>
    ensures { Indexes result [] }
{
    match key {
        Some(column) => Some(KeyIndex::new(alloc, column)),
        None => None,
    }
}

/// An index of rows; none where one of them breaks the key of those before it, or memory is wanting.
fn index_of(alloc: Global, column: usize, rows: &[Row]) -> Option<KeyIndex>
    ensures { Indexes result rows.now }
{
    match KeyIndex::of_rows(alloc, column, rows) {
        Ok(found) => found,
        Err(_) => None,
    }
}

/// An index with more rows; none where one of them breaks the key, or memory is wanting.
fn grown_index(alloc: Global, index: Option<KeyIndex>, rows: &[Row]) -> Option<KeyIndex>
    ensures { (before : List Row) → Indexes index before → Indexes result (before ++ rows.now) }
{
    let Some(mut index) = index else {
        return None;
    };
    match index.add_rows(alloc, rows) {
        Ok(true) => Some(index),
        _ => None,
    }
}

/// The place of the row that a condition may choose, where it says what the key is, else all places.
fn span_of(rows: &[Row], index: &KeyIndex, condition: &Option<Equation>) -> PlaceSpan
    requires { HasKeys index.now (keys_at index.now.column rows.now) }
    ensures { Spans condition.now result rows.now }
{
    if let Some(key) = constant_of(index.column, condition) {
        return span_with_key(rows, index, key);
    }
    match sum_of_constants(index.column, condition) {
        Some(key) => span_with_key(rows, index, &key),
        None => every_place(rows),
    }
}

/// Exchanges the rows at some places for others.
fn exchange(rows: &mut Vec<Row>, span: PlaceSpan, news: &mut Vec<Row>)
    requires ordered { span.from ≤ span.to }
    requires within { span.to ≤ length rows.old.items }
    requires as_many { span.from + length news.old.items ≡ span.to }
    ensures put { rows.new.items ≡ replaced rows.old.items span news.old.items }
    ensures taken { news.new.items ≡ slice_range rows.old.items span.from span.to }
{
    rows[span.from..span.to].swap_with_slice(news.as_mut_slice());
}

impl TableRows {
    /// No rows, with an index if there is a key.
    pub fn new(alloc: Global, key: Option<usize>) -> TableRows
        ensures { result ≡ [] }
    {
        TableRows {
            items: Vec::new(alloc),
            index: index_of_none(alloc, key),
        }
    }

    pub fn as_slice(&self) -> &[Row]
        ensures { result.now ≡ self.now }
    {
        self.items.as_slice()
    }

    pub fn into_vec(self) -> Vec<Row>
        ensures { result.items ≡ self }
    {
        self.items
    }

    /// Makes an index for the key, if there is none. Where memory is wanting there is none afterwards either.
    pub fn index_by(&mut self, alloc: Global, key: Option<usize>)
        ensures { self.new ≡ self.old }
    {
        let Some(column) = key else {
            return;
        };
        if self.index.is_some() {
            return;
        }
        self.index = index_of(alloc, column, self.items.as_slice());
    }

    /// Whether a row has this key.
    pub fn has_key(&self, column: usize, key: &Value) -> bool
        ensures { result ≡ has_key column self.now key.now }
    {
        match &self.index {
            Some(index) => {
                if index.column == column {
                    index.get(key).is_some()
                } else {
                    has_key(column, self.items.as_slice(), key)
                }
            }
            None => has_key(column, self.items.as_slice(), key),
        }
    }

    /// The places that a condition may choose: that of the row with the key, where the condition says that the key equals an
    /// expression that names no column, else all.
    pub fn span_of(&self, condition: &Option<Equation>) -> PlaceSpan
        ensures { Spans condition.now result self.now }
    {
        match &self.index {
            Some(index) => span_of(self.items.as_slice(), index, condition),
            None => every_place(self.items.as_slice()),
        }
    }

    /// The rows that a condition may choose.
    pub fn candidates(&self, condition: &Option<Equation>) -> &[Row]
        ensures shown { (picture : Picture) → shown_rows picture condition.now result.now ≡ shown_rows picture condition.now self.now }
        ensures count { chosen_count condition.now result.now ≡ chosen_count condition.now self.now }
    {
        rows_at(self.items.as_slice(), self.span_of(condition))
    }

    /// Puts rows in the place of those at some places, if none breaks the key of those before it then, and says whether.
    pub fn replace(
        &mut self,
        alloc: Global,
        key: Option<usize>,
        span: PlaceSpan,
        mut news: Vec<Row>,
    ) -> Result<bool, NoMemory>
        requires ordered { span.from ≤ span.to }
        requires within { span.to ≤ length self.old }
        requires as_many { span.from + length news.items ≡ span.to }
        ensures kept { IfOk result (λ kept. kept ≡ keeps_key key [] (replaced self.old span news.items)) }
        ensures put { IfOk result (λ kept. IsTrue kept → self.new ≡ replaced self.old span news.items) }
        ensures left { IfOk result (λ kept. kept ≡ false → self.new ≡ self.old) }
        ensures err { OnErr result (self.new ≡ self.old) }
    {
        let Some(column) = key else {
            self.index = None;
            exchange(&mut self.items, span, &mut news);
            return Ok(true);
        };
        let Some(index) = self.index.take() else {
            return self.replace_anew(alloc, column, span, news);
        };
        if index.column == column {
            self.replace_indexed(alloc, index, span, news)
        } else {
            self.replace_anew(alloc, column, span, news)
        }
    }

    /// The same, with an index of the rows.
    fn replace_indexed(
        &mut self,
        alloc: Global,
        index: KeyIndex,
        span: PlaceSpan,
        mut news: Vec<Row>,
    ) -> Result<bool, NoMemory>
        requires ordered { span.from ≤ span.to }
        requires within { span.to ≤ length self.old }
        requires as_many { span.from + length news.items ≡ span.to }
        requires indexes { Indexes (Some index) self.old }
        ensures kept { IfOk result (λ kept. kept ≡ keeps_key (Some index.column) [] (replaced self.old span news.items)) }
        ensures put { IfOk result (λ kept. IsTrue kept → self.new ≡ replaced self.old span news.items) }
        ensures left { IfOk result (λ kept. kept ≡ false → self.new ≡ self.old) }
        ensures err { OnErr result (self.new ≡ self.old) }
    {
        self.index = None;
        let rekeyed = give_keys(alloc, index, self.items.as_slice(), span, news.as_slice())?;
        if !rekeyed.kept {
            self.index = rekeyed.index;
            return Ok(false);
        }
        exchange(&mut self.items, span, &mut news);
        self.index = rekeyed.index;
        Ok(true)
    }

    /// The same, with an index that is made anew.
    fn replace_anew(
        &mut self,
        alloc: Global,
        column: usize,
        span: PlaceSpan,
        mut news: Vec<Row>,
    ) -> Result<bool, NoMemory>
        requires ordered { span.from ≤ span.to }
        requires within { span.to ≤ length self.old }
        requires as_many { span.from + length news.items ≡ span.to }
        ensures kept { IfOk result (λ kept. kept ≡ keeps_key (Some column) [] (replaced self.old span news.items)) }
        ensures put { IfOk result (λ kept. IsTrue kept → self.new ≡ replaced self.old span news.items) }
        ensures left { IfOk result (λ kept. kept ≡ false → self.new ≡ self.old) }
        ensures err { OnErr result (self.new ≡ self.old) }
    {
        self.index = None;
        exchange(&mut self.items, span, &mut news);
        match KeyIndex::of_rows(alloc, column, self.items.as_slice()) {
            Ok(Some(index)) => {
                self.index = Some(index);
                Ok(true)
            }
            Ok(None) => {
                exchange(&mut self.items, span, &mut news);
                Ok(false)
            }
            Err(fail) => {
                exchange(&mut self.items, span, &mut news);
                Err(fail)
            }
        }
    }

    /// Puts a row at the end. What is refused is dropped.
    pub fn push(&mut self, alloc: Global, row: Row) -> Result<(), NoMemory>
        ensures ok { OnOk result (self.new ≡ self.old ++ row ∷ []) }
        ensures err { OnErr result (self.new ≡ self.old) }
    {
        let mut rows = Vec::new(alloc);
        rows.push(row)?;
        self.append(alloc, rows)
    }

    /// Puts rows at the end: all of them, or none.
    pub fn append(&mut self, alloc: Global, mut rows: Vec<Row>) -> Result<(), NoMemory>
        ensures ok { OnOk result (self.new ≡ self.old ++ rows.items) }
        ensures err { OnErr result (self.new ≡ self.old) }
    {
        let index = grown_index(alloc, self.index.take(), rows.as_slice());
        self.items.append(&mut rows)?;
        self.index = index;
        Ok(())
    }

    /// Removes the rows that a condition chooses.
    pub fn remove_chosen(&mut self, condition: &Option<Equation>)
        ensures { self.new ≡ filter (stays condition.now) self.old }
    {
        let span = self.span_of(condition);
        self.index = without_chosen(self.index.take(), condition, self.items.as_slice(), span);
        remove_within(&mut self.items, condition, span);
    }

    /// A copy, with an index of its own if there is one.
    pub fn copy(&self, alloc: Global) -> Result<TableRows, NoMemory>
        ensures { IfOk result (λ copy. copy ≡ self.now) }
    {
        let mut copies = Vec::new(alloc);
        for row in self.as_slice() {
            copies.push(row.copy(alloc)?)?;
        }
        let index = match &self.index {
            Some(index) => index_of(alloc, index.column, copies.as_slice()),
            None => None,
        };
        Ok(TableRows {
            items: copies,
            index,
        })
    }
}
