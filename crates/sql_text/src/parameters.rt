// The parameters of a text, numbered in its order.
ghost use Rattle.std.specs.Prelude.{◌≡◌, ◌+◌, ◌<◌, ◌≤◌, ◌∷◌, [], ◌↔◌, List, min, length, IfOk, IfSome, IsTrue, OnOk, OnErr};
ghost use Rattle.std.specs.Bool.{OnTrue};
ghost use Rattle.sql_text.specs.Parameters.{Numbered, greatest, has_number, number_of_name, digits_value, number_taken, with_parameter, with_number, fits, number_within, with_fitting, unnamed};

use crate::limits::MAX_PARAMETERS;
use crate::parameter_table::ParameterTable;
use hrana_value::NoMemory;
use std::alloc::Global;
use std::marker::Model;

/// The parameters of a text so far. Most texts have none but `?`, and need no table: memory is taken for one at the
/// first parameter that isn't a `?`.
#[derive(Drop)]
pub struct Parameters<'a> {
    alloc: Global,
    /// How many there are, where there is no table: each is a `?`.
    unnamed: u16,
    table: Option<Box<ParameterTable<'a>>>,
}

impl<'a> Model for Parameters<'a> {
    ghost use Rattle.std.specs.Prelude.{◌≤◌, List};
    ghost use Rattle.sql_text.specs.declared.limits.TheConstants.{MAX_PARAMETERS};
    ghost use Rattle.sql_text.specs.Parameters.{Numbered, listed};

    ghost Value = { List Numbered };

    ghost view = { λ p. listed p.unnamed p.table };

    ghost invariant = { λ p. p.unnamed ≤ MAX_PARAMETERS };
}

/// The value of decimal digits, or one past the most where it is greater.
fn digits_value(digits: &[u8]) -> u16
    ensures { result ≡ min (digits_value 0 digits.now) (MAX_PARAMETERS + 1) }
{
    let mut value: u16 = 0;
    for digit in digits {
        value = value * 10 + u16::from(digit.saturating_sub(b'0'));
        if value > MAX_PARAMETERS {
            return MAX_PARAMETERS + 1;
        }
    }
    value
}

/// Whether a parameter is a `?` and nothing else.
fn is_unnamed(text: &[u8]) -> bool
    ensures { IsTrue result ↔ text.now ≡ 63 ∷ [] }
{
    text == b"?".as_slice()
}

/// A table of so many `?`, with a parameter more unless its number came before.
fn table_with<'a>(
    alloc: Global,
    count: u16,
    number: u16,
    text: &'a [u8],
) -> Result<Box<ParameterTable<'a>>, NoMemory>
    requires few { count ≤ MAX_PARAMETERS }
    requires small { number ≤ MAX_PARAMETERS }
    requires some { 0 < length text.now }
    ensures { IfOk result (λ table. table.value ≡ with_number (unnamed count) number text.now) }
{
    let mut table = ParameterTable::of_unnamed(count);
    table.add(number, text);
    Ok(Box::new(alloc, table)?)
}

impl<'a> Parameters<'a> {
    pub fn new(alloc: Global) -> Self
        ensures { result ≡ [] }
    {
        Parameters {
            alloc,
            unnamed: 0,
            table: None,
        }
    }

    /// The greatest number, 0 where there is none.
    pub(crate) fn greatest(&self) -> u16
        ensures greatest { result ≡ greatest self.now }
        ensures small { result ≤ MAX_PARAMETERS }
    {
        match &self.table {
            Some(table) => table.greatest(),
            None => self.unnamed,
        }
    }

    pub(crate) fn has_number(&self, number: u16) -> bool
        requires { number ≤ MAX_PARAMETERS }
        ensures { result ≡ has_number self.now number }
    {
        match &self.table {
            Some(table) => table.has_number(number),
            None => 0 < number && number <= self.unnamed,
        }
    }

    /// The number of a name behind a sign.
    pub(crate) fn number_of_name(&self, prefix: u8, name: &[u8]) -> Option<u16>
        requires { prefix ≡ 63 → ⊥ }
        ensures number { result ≡ number_of_name prefix name.now self.now }
        ensures small { IfSome result (λ n. n ≤ MAX_PARAMETERS) }
    {
        match &self.table {
            Some(table) => table.number_of_name(prefix, name),
            None => None,
        }
    }

    /// The number that a parameter takes after these, or one past the most where it is greater.
    fn number_taken(&self, text: &[u8]) -> u16
        requires some { 0 < length text.now }
        ensures { result ≡ min (number_taken self.now text.now) (MAX_PARAMETERS + 1) }
    {
        let prefix = text[0];
        let name = &text[1..];
        if prefix != b'?' {
            return match self.number_of_name(prefix, name) {
                Some(number) => number,
                None => self.greatest() + 1,
            };
        }
        if name.is_empty() {
            self.greatest() + 1
        } else {
            digits_value(name)
        }
    }

    /// Adds a parameter, unless its number came before.
    fn add(&mut self, number: u16, text: &'a [u8]) -> Result<(), NoMemory>
        requires small { number ≤ MAX_PARAMETERS }
        requires some { 0 < length text.now }
        ensures ok { OnOk result (self.new ≡ with_number self.old number text.now) }
        ensures err { OnErr result (self.new ≡ self.old) }
    {
        match &mut self.table {
            Some(table) => table.add(number, text),
            None => {
                if number == self.unnamed + 1 && is_unnamed(text) {
                    self.unnamed = number;
                } else {
                    let table = table_with(self.alloc, self.unnamed, number, text)?;
                    self.table = Some(table);
                }
            }
        }
        Ok(())
    }
}

/// The number of the next parameter. It is taken, unless its number isn't from 1 to the most.
pub fn next_parameter<'a>(
    parameters: &mut Parameters<'a>,
    text: &'a [u8],
) -> Result<Option<u16>, NoMemory>
    requires some { 0 < length text.now }
    ensures number { IfOk result (λ number. number ≡ number_within (number_taken parameters.old text.now)) }
    ensures taken { OnOk result (parameters.new ≡ with_fitting parameters.old text.now) }
    ensures err { OnErr result (parameters.new ≡ parameters.old) }
{
    let number = parameters.number_taken(text);
    if number == 0 || number > MAX_PARAMETERS {
        return Ok(None);
    }
    parameters.add(number, text)?;
    Ok(Some(number))
}

/// Takes the next parameter, unless its number doesn't fit.
pub(crate) fn take_next<'a>(
    parameters: &mut Parameters<'a>,
    text: &'a [u8],
) -> Result<bool, NoMemory>
    requires some { 0 < length text.now }
    ensures fits { IfOk result (λ fit. fit ≡ fits (number_taken parameters.old text.now)) }
    ensures taken { IfOk result (λ fit. OnTrue fit (parameters.new ≡ with_parameter parameters.old text.now)) }
{
    Ok(next_parameter(parameters, text)?.is_some())
}
