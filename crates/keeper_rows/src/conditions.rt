// Which rows a condition chooses.
ghost use Rattle.std.specs.Prelude.{◌≡◌, ◌≤◌, length, Ok, IfOk, IfSome};
ghost use Rattle.keeper_rows.specs.declared.row.Row.{Row};
ghost use Rattle.keeper_formulas.specs.Values.{value_at, is_equal};
ghost use Rattle.keeper_rows.specs.Chosen.{is_chosen, stays, chosen_count};

use crate::row::Row;
use hrana_value::Value;
use keeper_formulas::{Equation, Operand, Refusal, constant_sum, is_met, names_no_column};

/// Whether a row is chosen.
pub fn is_chosen(condition: &Option<Equation>, row: &Row) -> Result<bool, Refusal>
    ensures { result ≡ is_chosen condition.now row.now }
{
    match condition {
        None => Ok(true),
        Some(condition) => is_met(row.values.as_slice(), condition),
    }
}

/// Whether a row isn't chosen.
pub fn stays(condition: &Option<Equation>, row: &Row) -> bool
    ensures { result ≡ stays condition.now row.now }
{
    match is_chosen(condition, row) {
        Ok(chosen) => !chosen,
        Err(_) => true,
    }
}

/// The constant that the column at a place has to be equal to where a condition chooses a row, if the condition is of that form.
pub fn constant_of(place: usize, condition: &Option<Equation>) -> Option<&Value>
    ensures { IfSome result (λ value. (row : Row) → is_chosen condition.now row ≡ Ok (is_equal (value_at row.values place) value.now)) }
{
    let Some(equation) = condition else {
        return None;
    };
    if equation.place != place {
        return None;
    }
    match (equation.formula.rest.as_slice(), &equation.formula.first) {
        ([], Operand::Constant(value)) => Some(value),
        _ => None,
    }
}

/// The same of the value of an expression with an operator that names no column and has a value.
pub fn sum_of_constants(place: usize, condition: &Option<Equation>) -> Option<Value>
    ensures { IfSome result (λ value. (row : Row) → is_chosen condition.now row ≡ Ok (is_equal (value_at row.values place) value)) }
{
    let Some(equation) = condition else {
        return None;
    };
    if equation.place != place || !names_no_column(&equation.formula) {
        return None;
    }
    match constant_sum(&equation.formula) {
        Some(Ok(value)) => Some(value),
        _ => None,
    }
}

/// How many rows are chosen.
pub fn chosen_count(condition: &Option<Equation>, rows: &[Row]) -> Result<usize, Refusal>
    ensures count { result ≡ chosen_count condition.now rows.now }
    ensures within { IfOk result (λ count. count ≤ length rows.now) }
{
    let mut count = 0;
    for row in rows {
        if is_chosen(condition, row)? {
            count += 1;
        }
    }
    Ok(count)
}
