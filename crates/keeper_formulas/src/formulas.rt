// Expressions whose names and parameters are resolved, and their values on a row.
ghost use Rattle.std.specs.Prelude.{◌≡◌, [], ◌∷◌, length, IfOk, IfSome, IfNone};
ghost use Rattle.std.specs.List.{list_all};
ghost use Rattle.std.specs.Option.{option_copied};
ghost use Rattle.keeper_formulas.specs.Each.{Gives, map_ok};
ghost use Rattle.keeper_formulas.specs.Values.{value_at, value_or_null, sum_of, is_equal};
ghost use Rattle.keeper_formulas.specs.Formulas.{is_constant, names_no_column, operand_value, sums, formula_value, is_met};

use crate::fail::{Fail, Refusal};
use crate::values::{copy_or_null, is_equal, sum_of};
use hrana_value::{List, NoMemory, Value};
use std::alloc::Global;

/// What a term stands for: one value on all rows, or the value of the column at a place.
#[derive(Debug, Drop)]
pub enum Operand {
    Constant(Value),
    Column(usize),
}

/// An operand that is added, or with `minus` taken away.
#[derive(Debug, Drop)]
pub struct Addend {
    pub minus: bool,
    pub operand: Operand,
}

/// What is added to an operand.
pub type Addends = List<Addend>;

/// Expressions.
pub type Formulas = List<Formula>;

/// Places with expressions.
pub type Equations = List<Equation>;

/// An expression: an operand, and what is added to it from the left.
#[derive(Debug, Drop)]
pub struct Formula {
    pub first: Operand,
    pub rest: Addends,
}

/// A column's place with an expression: what a `WHERE` compares, what a `SET` sets, or where a tuple's value goes.
#[derive(Debug, Drop)]
pub struct Equation {
    pub place: usize,
    pub formula: Formula,
}

/// What a `SELECT` shows of a row.
#[derive(Debug, Drop)]
pub enum Picture {
    List(Formulas),
    All,
    Count,
}

/// The value at a place, if there is one.
pub fn value_at(values: &[Value], place: usize) -> Option<&Value>
    ensures { value_or_null (option_copied result) ≡ value_at values.now place }
{
    values.get(place)
}

/// The operand's value on a row, if it has one.
pub fn operand_value<'a>(row: &'a [Value], operand: &'a Operand) -> Option<&'a Value>
    ensures { value_or_null (option_copied result) ≡ operand_value row.now operand.now }
{
    match operand {
        Operand::Constant(value) => Some(value),
        Operand::Column(place) => value_at(row, *place),
    }
}

/// Whether two values that may be missing are equal. One that is missing is null.
pub fn are_equal(left: Option<&Value>, right: Option<&Value>) -> bool
    ensures { result ≡ is_equal (value_or_null (option_copied left.entry)) (value_or_null (option_copied right.entry)) }
{
    match (left, right) {
        (Some(left), Some(right)) => is_equal(left, right),
        _ => false,
    }
}

fn add(row: &[Value], sum: Option<&Value>, addend: &Addend) -> Result<Value, Refusal>
    ensures { result ≡ sum_of addend.now.minus (value_or_null (option_copied sum.entry)) (operand_value row.now addend.now.operand) }
{
    match (sum, operand_value(row, &addend.operand)) {
        (Some(left), Some(right)) => sum_of(addend.minus, left, right),
        _ => Ok(Value::Null),
    }
}

/// The value of an expression with an operator on a row.
pub fn sum_on_row(
    row: &[Value],
    first: &Operand,
    second: &Addend,
    rest: &[Addend],
) -> Result<Value, Refusal>
    ensures { result ≡ sums row.now (operand_value row.now first.now) (second.now ∷ rest.now) }
{
    let mut sum = add(row, operand_value(row, first), second)?;
    for addend in rest {
        sum = add(row, Some(&sum), addend)?;
    }
    Ok(sum)
}

/// The value of an expression on a row.
pub fn formula_value(alloc: Global, row: &[Value], formula: &Formula) -> Result<Value, Fail>
    ensures { Gives (formula_value row.now formula.now) result }
{
    match formula.rest.as_slice() {
        [] => Ok(copy_or_null(alloc, operand_value(row, &formula.first))?),
        [addend, rest @ ..] => Ok(sum_on_row(row, &formula.first, addend, rest)?),
    }
}

fn is_constant(operand: &Operand) -> bool
    ensures { result ≡ is_constant operand.now }
{
    match operand {
        Operand::Constant(_) => true,
        Operand::Column(_) => false,
    }
}

fn are_constant(addends: &[Addend]) -> bool
    ensures { result ≡ list_all (λ addend. is_constant addend.operand) addends.now }
{
    addends.iter().all(|addend| is_constant(&addend.operand))
}

/// Whether an expression has one value on all rows.
pub fn names_no_column(formula: &Formula) -> bool
    ensures { result ≡ names_no_column formula.now }
{
    is_constant(&formula.first) && are_constant(formula.rest.as_slice())
}

/// The value of an expression with an operator on a row of no columns.
pub fn constant_sum(formula: &Formula) -> Option<Result<Value, Refusal>>
    ensures value { IfSome result (λ value. value ≡ formula_value [] formula.now) }
    ensures single { IfNone result (length formula.now.rest ≡ 0) }
{
    match formula.rest.as_slice() {
        [] => None,
        [second, rest @ ..] => Some(sum_on_row(&[], &formula.first, second, rest)),
    }
}

fn equals_sum(left: Option<&Value>, sum: Result<Value, Refusal>) -> Result<bool, Refusal>
    ensures { result ≡ map_ok (is_equal (value_or_null (option_copied left.entry))) sum }
{
    let sum = sum?;
    Ok(are_equal(left, Some(&sum)))
}

/// Whether the column equals the expression on the row.
pub fn is_met(row: &[Value], equation: &Equation) -> Result<bool, Refusal>
    ensures { result ≡ is_met row.now equation.now }
{
    let left = value_at(row, equation.place);
    let first = &equation.formula.first;
    match equation.formula.rest.as_slice() {
        [] => Ok(are_equal(left, operand_value(row, first))),
        [second, rest @ ..] => equals_sum(left, sum_on_row(row, first, second, rest)),
    }
}
