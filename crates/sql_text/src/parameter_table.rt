// Parameters in a table by their numbers.
ghost use Rattle.std.specs.Prelude.{◌≡◌, ◌<◌, ◌≤◌, [], List, length, IfSome};
ghost use Rattle.sql_text.specs.Parameters.{Numbered, greatest, has_number, number_of_name, is_name, with_number, table_from, texts_of, unnamed, IsKept};

use crate::limits::MAX_PARAMETERS;
use std::marker::Model;

/// A place for each number, and one for 0.
pub(crate) const PLACES: usize = MAX_PARAMETERS as usize + 1;

/// The parameters of a text so far, by number.
#[derive(Drop)]
pub(crate) struct ParameterTable<'a> {
    /// By number, the text that came first with it, or nothing.
    texts: [&'a [u8]; PLACES],
    greatest: u16,
    /// Whether any may have a name.
    are_named: bool,
}

impl<'a> Model for ParameterTable<'a> {
    ghost Value = { List Numbered };

    ghost view = { λ p. table_from 0 (texts_of p.texts) };

    ghost invariant = { λ p. IsKept p.greatest p.are_named (texts_of p.texts) };
}

/// Whether a text, perhaps an empty one, is this name behind this sign.
fn is_name(prefix: u8, name: &[u8], text: &[u8]) -> bool
    ensures { result ≡ is_name prefix name.now text.now }
{
    !text.is_empty() && text[0] == prefix && &text[1..] == name
}

impl<'a> ParameterTable<'a> {
    fn new() -> Self
        ensures { result ≡ [] }
    {
        ParameterTable {
            texts: [&[]; PLACES],
            greatest: 0,
            are_named: false,
        }
    }

    /// The greatest number, 0 where there is none.
    pub(crate) fn greatest(&self) -> u16
        ensures greatest { result ≡ greatest self.now }
        ensures small { result ≤ MAX_PARAMETERS }
    {
        self.greatest
    }

    pub(crate) fn has_number(&self, number: u16) -> bool
        requires { number ≤ MAX_PARAMETERS }
        ensures { result ≡ has_number self.now number }
    {
        !self.texts[usize::from(number)].is_empty()
    }

    /// The number of a name behind a sign.
    pub(crate) fn number_of_name(&self, prefix: u8, name: &[u8]) -> Option<u16>
        requires { prefix ≡ 63 → ⊥ }
        ensures number { result ≡ number_of_name prefix name.now self.now }
        ensures small { IfSome result (λ n. n ≤ MAX_PARAMETERS) }
    {
        if !self.are_named {
            return None;
        }
        for number in 0..self.greatest + 1 {
            if is_name(prefix, name, self.texts[usize::from(number)]) {
                return Some(number);
            }
        }
        None
    }

    /// So many parameters without a name or a number of their own.
    pub(crate) fn of_unnamed(count: u16) -> Self
        requires { count ≤ MAX_PARAMETERS }
        ensures { result ≡ unnamed count }
    {
        let mut table = ParameterTable::new();
        for number in 1..count + 1 {
            table.add(number, b"?");
        }
        table
    }

    /// Adds a parameter, unless its number came before.
    pub(crate) fn add(&mut self, number: u16, text: &'a [u8])
        requires small { number ≤ MAX_PARAMETERS }
        requires some { 0 < length text.now }
        ensures { self.new ≡ with_number self.old number text.now }
    {
        let place = usize::from(number);
        if self.texts[place].is_empty() {
            self.texts[place] = text;
            self.greatest = self.greatest.max(number);
            self.are_named = self.are_named | (text[0] != b'?');
        }
    }
}
