// Names become places, parameters values.
ghost use Rattle.std.specs.Prelude.{◌≡◌, ◌-◌, ℕ, List as Seq, Result, IfOk};
ghost use Rattle.hrana_value.specs.declared.value.Value.{Value as SqlValue};
ghost use Rattle.keeper_formulas.specs.declared.fail.Refusal.{Refusal};
ghost use Rattle.keeper_formulas.specs.Each.{Gives, each};
ghost use Rattle.keeper_formulas.specs.Values.{value_at};
ghost use Rattle.keeper_formulas.specs.Formulas.{place_of, known, operand_of, addend_of, formula_of, equation_of, condition_of};

use crate::fail::{Fail, Refusal};
use crate::formulas::{Addend, Equation, Formula, Operand};
use crate::values::copy_or_null;
use hrana_value::{List, NoMemory, Txt, Value};
use keeper_dialect::{Add, ColExpr, Expr, Item, Term, is_same_name};
use std::alloc::Global;

fn place_among(columns: &[Txt], name: &str) -> Option<usize>
    ensures { result ≡ place_of columns.now name.now }
{
    columns
        .iter()
        .position(|column| is_same_name(column.as_str(), name))
}

/// The place of a column of this name.
pub fn place_of(columns: &[Txt], name: &str) -> Result<usize, Refusal>
    ensures { result ≡ known (place_of columns.now name.now) }
{
    match place_among(columns, name) {
        Some(place) => Ok(place),
        None => Err(Refusal::NoColumn),
    }
}

fn parameter_value(alloc: Global, bound: &[Value], number: u16) -> Result<Value, NoMemory>
    ensures { IfOk result (λ value. value ≡ value_at bound.now (number - 1)) }
{
    copy_or_null(alloc, bound.get((number as usize).saturating_sub(1)))
}

fn operand_of(alloc: Global, columns: &[Txt], bound: &[Value], term: &Term) -> Result<Operand, Fail>
    ensures { Gives (operand_of columns.now bound.now term.now) result }
{
    match term {
        Term::Number(number) => Ok(Operand::Constant(Value::Integer(*number))),
        Term::Text(text) => Ok(Operand::Constant(Value::Text(text.copy(alloc)?))),
        Term::Blob(bytes) => Ok(Operand::Constant(Value::Blob(bytes.copy(alloc)?))),
        Term::Null => Ok(Operand::Constant(Value::Null)),
        Term::Param(number) => Ok(Operand::Constant(parameter_value(alloc, bound, *number)?)),
        Term::Name(name) => Ok(Operand::Column(place_of(columns, name.as_str())?)),
    }
}

/// What stands for a part of a query once names are places of columns and parameters values.
pub trait Resolve<Source>: Drop {
    ghost meant: { Seq (Seq ℕ) → Seq SqlValue → Source → Result Self Refusal };

    fn resolve(
        alloc: Global,
        columns: &[Txt],
        bound: &[Value],
        source: &Source,
    ) -> Result<Self, Fail>
        ensures { Gives (meant columns.now bound.now source.now) result };
}

/// What stands for each of some parts, or the first refusal.
pub fn resolve_each<Source, T: Resolve<Source>>(
    alloc: Global,
    columns: &[Txt],
    bound: &[Value],
    sources: &[Source],
) -> Result<List<T>, Fail>
    ensures { Gives (each (T.meant columns.now bound.now) sources.now) result }
{
    let mut resolved = List::new(alloc);
    for source in sources {
        resolved.push(T::resolve(alloc, columns, bound, source)?)?;
    }
    Ok(resolved)
}

impl Resolve<Add> for Addend {
    ghost meant = { addend_of };

    fn resolve(alloc: Global, columns: &[Txt], bound: &[Value], add: &Add) -> Result<Addend, Fail> {
        let operand = operand_of(alloc, columns, bound, &add.term)?;
        Ok(Addend {
            minus: add.minus,
            operand,
        })
    }
}

impl Resolve<Expr> for Formula {
    ghost meant = { formula_of };

    fn resolve(
        alloc: Global,
        columns: &[Txt],
        bound: &[Value],
        expr: &Expr,
    ) -> Result<Formula, Fail> {
        let first = operand_of(alloc, columns, bound, &expr.first)?;
        let rest = resolve_each(alloc, columns, bound, expr.rest.as_slice())?;
        Ok(Formula { first, rest })
    }
}

impl Resolve<Item> for Formula {
    ghost meant = { λ columns bound item. formula_of columns bound item.expr };

    fn resolve(
        alloc: Global,
        columns: &[Txt],
        bound: &[Value],
        item: &Item,
    ) -> Result<Formula, Fail> {
        Formula::resolve(alloc, columns, bound, &item.expr)
    }
}

impl Resolve<ColExpr> for Equation {
    ghost meant = { equation_of };

    fn resolve(
        alloc: Global,
        columns: &[Txt],
        bound: &[Value],
        set: &ColExpr,
    ) -> Result<Equation, Fail> {
        let place = place_of(columns, set.column.as_str())?;
        let formula = Formula::resolve(alloc, columns, bound, &set.expr)?;
        Ok(Equation { place, formula })
    }
}

pub fn condition_of(
    alloc: Global,
    columns: &[Txt],
    bound: &[Value],
    filter: &Option<ColExpr>,
) -> Result<Option<Equation>, Fail>
    ensures { Gives (condition_of columns.now bound.now filter.now) result }
{
    match filter {
        None => Ok(None),
        Some(filter) => Ok(Some(Equation::resolve(alloc, columns, bound, filter)?)),
    }
}
