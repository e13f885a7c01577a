// Values of rows and of parameters, their sums and their equality.
ghost use Rattle.std.specs.Prelude.{◌≡◌, IfOk, unwrap_or};
ghost use Rattle.std.specs.Option.{option_copied};
ghost use Rattle.std.specs.Int.{w64};
ghost use Rattle.keeper_formulas.specs.Values.{value_at, value_or_null, sum_of, within_i64, is_equal, is_null};
ghost use Rattle.hrana_value.specs.declared.value.Value.TheVariants.{Integer};

use crate::fail::Refusal;
use hrana_value::{NoMemory, Value};
use std::alloc::Global;

/// A copy of a value, or null where there is none.
pub fn copy_or_null(alloc: Global, value: Option<&Value>) -> Result<Value, NoMemory>
    ensures { IfOk result (λ copy. copy ≡ value_or_null (option_copied value.entry)) }
{
    match value {
        Some(value) => value.copy(alloc),
        None => Ok(Value::Null),
    }
}

pub fn is_null(value: &Value) -> bool
    ensures { result ≡ is_null value.now }
{
    match value {
        Value::Null => true,
        _ => false,
    }
}

/// Whether two values are of one kind and the same. Null equals nothing.
pub fn is_equal(left: &Value, right: &Value) -> bool
    ensures { result ≡ is_equal left.now right.now }
{
    match (left, right) {
        (Value::Integer(left), Value::Integer(right)) => *left == *right,
        (Value::Text(left), Value::Text(right)) => left.as_str() == right.as_str(),
        (Value::Blob(left), Value::Blob(right)) => left.as_slice() == right.as_slice(),
        _ => false,
    }
}

pub fn sum_of_integers(minus: bool, left: i64, right: i64) -> Result<Value, Refusal>
    ensures { result ≡ sum_of minus (Integer left) (Integer right) }
{
    let sum = if minus {
        left.checked_sub(right)
    } else {
        left.checked_add(right)
    };
    match sum {
        Some(sum) => Ok(Value::Integer(sum)),
        None => Err(Refusal::Overflow),
    }
}

/// `left + right`, or `left - right`.
pub fn sum_of(minus: bool, left: &Value, right: &Value) -> Result<Value, Refusal>
    ensures { result ≡ sum_of minus left.now right.now }
{
    match (left, right) {
        (Value::Null, _) => Ok(Value::Null),
        (_, Value::Null) => Ok(Value::Null),
        (Value::Integer(left), Value::Integer(right)) => sum_of_integers(minus, *left, *right),
        _ => Err(Refusal::BadType),
    }
}
