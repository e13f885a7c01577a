//! Values of rows, and the expressions of the dialect on a table's columns: names become places, parameters values.
#![tactic(auto)]

mod fail;
mod formulas;
mod resolve;
mod values;

pub use fail::{Fail, Refusal, code_of};
pub use formulas::{
    Addend, Addends, Equation, Equations, Formula, Formulas, Operand, Picture, are_equal,
    constant_sum, formula_value, is_met, names_no_column, value_at,
};
pub use resolve::{Resolve, condition_of, place_of, resolve_each};
pub use values::{copy_or_null, is_equal, is_null};
