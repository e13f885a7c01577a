// `SELECT`.
ghost use Rattle.std.specs.Prelude.{◌≡◌, ◌≤◌, ◌<◌, ◌+◌, ◌^◌, ◌∷◌, [], Ok, pos, map, IfOk, MatchOption};
ghost use Rattle.engine_core.specs.Results.{value_size, values_size};
ghost use Rattle.hrana_value.specs.declared.value.Value.TheVariants.{Integer};
ghost use Rattle.engine_core.specs.Results.{IsSmall};
ghost use Rattle.keeper_formulas.specs.Each.{Gives, each};
ghost use Rattle.keeper_formulas.specs.Formulas.{formula_of, formula_value};
ghost use Rattle.memory_keeper.specs.Tables.{picture_of, names_of, fits, select, named};
ghost use Rattle.keeper_rows.specs.Chosen.{shown_values, row_shown, shown_rows, chosen_rows};

use engine_core::{MAX_RESULT_BYTES, MAX_ROWS};
use hrana_stmt::{Col, Cols, Rows, StmtResult};
use hrana_value::{NoMemory, Txt, Value, Values};
use keeper_dialect::{ColExpr, Item, Shown};
use keeper_formulas::{
    Equation, Fail, Formula, Picture, Refusal, condition_of, formula_value, resolve_each,
};
use keeper_rows::{Row, TableRows, chosen_count, is_chosen};
use std::alloc::Global;

fn picture_of(
    alloc: Global,
    columns: &[Txt],
    bound: &[Value],
    shown: &Shown,
) -> Result<Picture, Fail>
    ensures { Gives (picture_of columns.now bound.now shown.now) result }
{
    match shown {
        Shown::All => Ok(Picture::All),
        Shown::Count { .. } => Ok(Picture::Count),
        Shown::List(items) => {
            Ok(Picture::List(resolve_each(alloc, columns, bound, items.as_slice())?))
        }
    }
}

fn list_values(alloc: Global, row: &[Value], formulas: &[Formula]) -> Result<Values, Fail>
    ensures { Gives (each (formula_value row.now) formulas.now) result }
{
    let mut values = Values::new(alloc);
    for formula in formulas {
        values.push(formula_value(alloc, row, formula)?)?;
    }
    Ok(values)
}

fn shown_values(alloc: Global, picture: &Picture, row: &Values) -> Result<Values, Fail>
    ensures { Gives (shown_values picture.now row.now) result }
{
    match picture {
        Picture::All => Ok(row.copy(alloc)?),
        Picture::Count => Ok(Values::new(alloc)),
        Picture::List(formulas) => list_values(alloc, row.as_slice(), formulas.as_slice()),
    }
}

/// What is shown of a row, if it is chosen.
fn row_shown(
    alloc: Global,
    picture: &Picture,
    condition: &Option<Equation>,
    row: &Row,
) -> Result<Option<Values>, Fail>
    ensures { Gives (row_shown picture.now condition.now row.now) result }
{
    if is_chosen(condition, row)? {
        Ok(Some(shown_values(alloc, picture, &row.values)?))
    } else {
        Ok(None)
    }
}

fn chosen_rows(
    alloc: Global,
    picture: &Picture,
    condition: &Option<Equation>,
    rows: &[Row],
) -> Result<Rows, Fail>
    ensures { Gives (chosen_rows picture.now condition.now rows.now) result }
{
    let mut shown = Rows::new(alloc);
    for row in rows {
        match row_shown(alloc, picture, condition, row)? {
            Some(values) => shown.push(values)?,
            None => {}
        }
    }
    Ok(shown)
}

fn count_rows(alloc: Global, count: usize) -> Result<Rows, NoMemory>
    requires { count < 2 ^ 63 }
    ensures { IfOk result (λ rows. rows ≡ (Integer (pos count) ∷ []) ∷ []) }
{
    let mut values = Values::new(alloc);
    values.push(Value::Integer(count as i64))?;
    let mut rows = Rows::new(alloc);
    rows.push(values)?;
    Ok(rows)
}

fn shown_rows(
    alloc: Global,
    picture: &Picture,
    condition: &Option<Equation>,
    rows: &[Row],
) -> Result<Rows, Fail>
    ensures { Gives (shown_rows picture.now condition.now rows.now) result }
{
    match picture {
        Picture::Count => Ok(count_rows(alloc, chosen_count(condition, rows)?)?),
        _ => chosen_rows(alloc, picture, condition, rows),
    }
}

fn size_of_value(value: &Value) -> usize
    ensures size { result ≡ value_size value.now }
    ensures small { result ≤ 2 ^ 63 + 8 }
{
    match value {
        Value::Null => 8,
        Value::Integer(_) => 8,
        Value::Text(text) => 8 + text.as_str().len(),
        Value::Blob(bytes) => 8 + bytes.as_slice().len(),
    }
}

/// How much is left of a size behind a row, if it fits.
fn size_left(left: usize, row: &[Value]) -> Option<usize>
    ensures { MatchOption result (left < values_size row.now) (λ rest. rest + values_size row.now ≡ left) }
{
    let mut rest = left;
    for value in row {
        let size = size_of_value(value);
        if rest < size {
            return None;
        }
        rest -= size;
    }
    Some(rest)
}

/// Whether rows are a result that may be given.
fn fits(rows: &[Values]) -> bool
    ensures { result ≡ fits rows.now }
{
    if rows.len() > MAX_ROWS {
        return false;
    }
    let mut left = MAX_RESULT_BYTES;
    for row in rows {
        let Some(rest) = size_left(left, row.as_slice()) else {
            return false;
        };
        left = rest;
    }
    true
}

fn named(alloc: Global, name: &Txt) -> Result<Col, NoMemory>
    ensures { IfOk result (λ col. col ≡ named name.now) }
{
    Ok(Col {
        name: Some(name.copy(alloc)?),
    })
}

fn cols_of_names(alloc: Global, names: &[Txt]) -> Result<Cols, NoMemory>
    ensures { IfOk result (λ cols. cols ≡ map named names.now) }
{
    let mut cols = Cols::new(alloc);
    for name in names {
        cols.push(named(alloc, name)?)?;
    }
    Ok(cols)
}

fn cols_of_items(alloc: Global, items: &[Item]) -> Result<Cols, NoMemory>
    ensures { IfOk result (λ cols. cols ≡ map named (map (λ item. item.text) items.now)) }
{
    let mut cols = Cols::new(alloc);
    for item in items {
        cols.push(named(alloc, &item.text)?)?;
    }
    Ok(cols)
}

fn cols_of(alloc: Global, columns: &[Txt], shown: &Shown) -> Result<Cols, NoMemory>
    ensures { IfOk result (λ cols. cols ≡ map named (names_of columns.now shown.now)) }
{
    match shown {
        Shown::All => cols_of_names(alloc, columns),
        Shown::Count { text } => {
            let mut cols = Cols::new(alloc);
            cols.push(named(alloc, text)?)?;
            Ok(cols)
        }
        Shown::List(items) => cols_of_items(alloc, items.as_slice()),
    }
}

/// Runs a `SELECT` on rows of these columns.
pub fn select(
    alloc: Global,
    columns: &[Txt],
    rows: &TableRows,
    shown: &Shown,
    wanted: &Option<ColExpr>,
    bound: &[Value],
) -> Result<StmtResult, Fail>
    ensures gives { Gives (select columns.now rows.now shown.now wanted.now bound.now) result }
    ensures small { IfOk result IsSmall }
{
    let picture = picture_of(alloc, columns, bound, shown)?;
    let condition = condition_of(alloc, columns, bound, wanted)?;
    let given = shown_rows(alloc, &picture, &condition, rows.candidates(&condition))?;
    if !fits(given.as_slice()) {
        return Err(Fail::Refused(Refusal::ResultTooLarge));
    }
    let cols = cols_of(alloc, columns, shown)?;
    Ok(StmtResult {
        cols,
        rows: given,
        affected: 0,
        last_rowid: None,
    })
}
