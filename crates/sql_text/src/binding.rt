// The values that arguments give the parameters of a text.
ghost use Rattle.std.specs.Prelude.{◌≡◌, ◌<◌, ◌≤◌, ◌+◌, ◌-◌, ℕ, List, [], None, length, is_some, slice_index_or, slice_get, IfOk, IfErr, IfSome, OnOk};
ghost use Rattle.std.specs.Bool.{OnTrue};
ghost use Rattle.std.specs.Option.{option_or, option_copied};
ghost use Rattle.std.specs.List.{list_all};
ghost use Rattle.hrana_stmt.specs.declared.statements.NamedArg.{NamedArg};
ghost use Rattle.sql_text.specs.Parameters.{has_number, greatest};
ghost use Rattle.sql_text.specs.Binding.{number_met, first_missing, values_of, or_missing, bound_values, bound_read, parameters_of, bound, AnswersAs, ValueAs, HasLast};

use crate::limits::MAX_PARAMETERS;
use crate::parameter_table::PLACES;
use crate::parameters::Parameters;
use crate::pieces::is_prefix;
use crate::scan::{ScanFail, scan_pieces};
use hrana_stmt::NamedArg;
use hrana_value::{NoMemory, Value, Values};
use std::alloc::Global;

/// Why arguments weren't bound.
#[derive(Clone, Copy, Debug, PartialEq, Eq)]
pub enum BindFail {
    /// The quote or comment that starts at this byte has no end.
    Unclosed { at: usize },
    /// A parameter's number would be 0 or above the most.
    BadNumber,
    /// There are more positional arguments than numbers, or a named argument meets no parameter.
    Unexpected,
    /// This number occurs and has no value, and no lower one does.
    Missing(u16),
    NoMemory,
}

impl From<NoMemory> for BindFail {
    ghost use Rattle.std.specs.Prelude.{◌≡◌};
    ghost use Rattle.sql_text.specs.declared.binding.BindFail.TheVariants.{NoMemory as OutOfMemory};

    ghost from_gives = { λ _ e. e ≡ OutOfMemory };

    fn from(_: NoMemory) -> Self {
        BindFail::NoMemory
    }
}

/// The number of the parameter that a named argument meets.
fn number_met(parameters: &Parameters, name: &[u8]) -> Option<u16>
    ensures number { result ≡ number_met parameters.now name.now }
    ensures small { IfSome result (λ n. n ≤ MAX_PARAMETERS) }
{
    if !name.is_empty() && is_prefix(name[0]) {
        return parameters.number_of_name(name[0], &name[1..]);
    }
    if let Some(number) = parameters.number_of_name(b':', name) {
        return Some(number);
    }
    if let Some(number) = parameters.number_of_name(b'@', name) {
        return Some(number);
    }
    parameters.number_of_name(b'$', name)
}

/// Notes for each number the value of the last named argument that meets it. Says whether each argument meets one.
fn note_named<'a>(
    parameters: &Parameters,
    named: &'a [NamedArg],
    table: &mut [Option<&'a Value>],
) -> bool
    requires room { length table.old ≡ MAX_PARAMETERS + 1 }
    requires empty { (n : ℕ) → n ≤ MAX_PARAMETERS → slice_index_or table.old n None ≡ None }
    ensures all_meet { result ≡ list_all (λ arg. is_some (number_met parameters.now arg.name)) named.now }
    ensures last { OnTrue result (HasLast parameters.now named.now table.new) }
{
    for arg in named {
        let Some(number) = number_met(parameters, arg.name.as_str().as_bytes()) else {
            return false;
        };
        table[usize::from(number)] = Some(&arg.value);
    }
    true
}

/// The value of one number, where it has one, or null where the number doesn't occur.
fn value_of(
    alloc: Global,
    parameters: &Parameters,
    given: Option<&Value>,
    number: u16,
) -> Result<Value, BindFail>
    requires { number ≤ MAX_PARAMETERS }
    ensures { ValueAs (option_copied given.entry) (has_number parameters.now number) number result }
{
    match given {
        Some(value) => Ok(value.copy(alloc)?),
        None => {
            if parameters.has_number(number) {
                Err(BindFail::Missing(number))
            } else {
                Ok(Value::Null)
            }
        }
    }
}

/// What a table gives a number, or else its positional argument.
fn value_given<'a>(
    table: &[Option<&'a Value>],
    args: &'a [Value],
    number: usize,
) -> Option<&'a Value>
    requires some { 0 < number }
    ensures { option_copied result ≡ option_or (option_copied (slice_index_or table.now number None)) (slice_get args.now (number - 1)) }
{
    match table.get(number) {
        Some(Some(value)) => Some(value),
        _ => args.get(number - 1),
    }
}

/// No values yet, and room for so many.
fn room_for(alloc: Global, count: u16) -> Result<Values, NoMemory>
    ensures { IfOk result (λ values. values ≡ []) }
{
    Ok(Values::from_vec(Vec::with_capacity(alloc, usize::from(count))?))
}

/// The values of numbered parameters, where a table has by number what named arguments gave.
fn values_by(
    alloc: Global,
    parameters: &Parameters,
    args: &[Value],
    table: &[Option<&Value>],
) -> Result<Values, BindFail>
    ensures { (named : List NamedArg) → HasLast parameters.now named table.now → AnswersAs result (or_missing (first_missing parameters.now args.now named) (values_of parameters.now args.now named)) }
{
    let most = parameters.greatest();
    let mut values = room_for(alloc, most)?;
    for number in 1..most + 1 {
        let given = value_given(table, args, usize::from(number));
        values.push(value_of(alloc, parameters, given, number)?)?;
    }
    Ok(values)
}

/// The values of numbered parameters, with named arguments and no more positional ones than there are numbers.
fn bind_named(
    alloc: Global,
    parameters: &Parameters,
    args: &[Value],
    named: &[NamedArg],
) -> Result<Values, BindFail>
    requires { length args.now ≤ greatest parameters.now }
    ensures { AnswersAs result (bound_values parameters.now args.now named.now) }
{
    let mut table: [Option<&Value>; PLACES] = [None; PLACES];
    if !note_named(parameters, named, &mut table) {
        return Err(BindFail::Unexpected);
    }
    values_by(alloc, parameters, args, &table)
}

/// The values of numbered parameters. A table is made only for named arguments.
fn bind_numbered(
    alloc: Global,
    parameters: &Parameters,
    args: &[Value],
    named: &[NamedArg],
) -> Result<Values, BindFail>
    ensures { AnswersAs result (bound_values parameters.now args.now named.now) }
{
    if args.len() > usize::from(parameters.greatest()) {
        return Err(BindFail::Unexpected);
    }
    if named.is_empty() {
        values_by(alloc, parameters, args, &[])
    } else {
        bind_named(alloc, parameters, args, named)
    }
}

/// The values of the parameters of a text that was read.
pub(crate) fn bind_scanned(
    alloc: Global,
    fit: bool,
    parameters: &Parameters,
    args: &[Value],
    named: &[NamedArg],
) -> Result<Values, BindFail>
    ensures { AnswersAs result (bound_read fit parameters.now args.now named.now) }
{
    if fit {
        bind_numbered(alloc, parameters, args, named)
    } else {
        Err(BindFail::BadNumber)
    }
}

/// The values of a text's parameters, one for each number up to the greatest. A parameter may have its value by its
/// number or by its name.
pub fn bind(
    alloc: Global,
    sql: &str,
    args: &[Value],
    named: &[NamedArg],
) -> Result<Values, BindFail>
    ensures exact { AnswersAs result (bound sql.now args.now named.now) }
    ensures count { IfOk result (λ values. length values ≡ greatest (parameters_of sql.now)) }
{
    let mut parameters = Parameters::new(alloc);
    match scan_pieces(sql.as_bytes(), &mut parameters) {
        Ok(scan) => bind_scanned(alloc, scan.fit, &parameters, args, named),
        Err(ScanFail::Unclosed { at }) => Err(BindFail::Unclosed { at }),
        Err(ScanFail::NoMemory) => Err(BindFail::NoMemory),
    }
}
