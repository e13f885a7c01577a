// Names, terms and expressions.
ghost use Rattle.std.specs.Prelude.{◌≡◌, ◌+◌, ◌^◌, min, codes, IfOk, IfErr};
ghost use Rattle.sql_text.specs.Parameters.{digits_value};
ghost use Rattle.keeper_dialect.specs.Reading.{symbol_at, text_at, StopsAs};
ghost use Rattle.keeper_dialect.specs.Terms.{name_of, name_at, signed, number_of, number_at, is_text, digits_behind, word_term_at, other_term_of, other_term_at, unsigned_term_by, term_at, add_at, adds_at, expr_at, col_expr_at};

use crate::names::{is_same_name, unquoted, without_quotes};
use crate::query::{Add, Adds, ColExpr, DialectFail, Expr, Term};
use crate::reader::Reader;
use crate::tokens::{Keyword, Symbol};
use hex::FromHexError;
use hrana_value::{Bytes, NoMemory, Txt};
use std::alloc::Global;

/// The number of values of an i64 from 0 on.
const HALF: u128 = 0x8000_0000_0000_0000;

/// The value of decimal digits, or 2^63 + 1 where it is greater.
fn digits_value(digits: &[u8]) -> u128
    ensures { result ≡ min (digits_value 0 digits.now) (2 ^ 63 + 1) }
{
    let mut value: u128 = 0;
    for digit in digits {
        value = value * 10 + u128::from(digit.saturating_sub(b'0'));
        if value > HALF {
            return HALF + 1;
        }
    }
    value
}

/// A number with its sign, if it is an i64.
fn signed(minus: bool, value: u128) -> Option<i64>
    ensures { result ≡ signed minus value }
{
    if minus {
        if value > HALF {
            None
        } else if value == 0 {
            Some(0)
        } else {
            Some(-1 - (value - 1) as i64)
        }
    } else if value < HALF {
        Some(value as i64)
    } else {
        None
    }
}

fn is_text(symbol: Symbol) -> bool
    ensures { result ≡ is_text symbol }
{
    match symbol {
        Symbol::Text => true,
        _ => false,
    }
}

impl<'a> Reader<'a> {
    /// The name that the next token is.
    fn name_of(&self, alloc: Global) -> Result<Option<Txt>, NoMemory>
        ensures { IfOk result (λ name. name ≡ name_of (symbol_at self.now) (text_at self.now)) }
    {
        match self.symbol() {
            Symbol::Word => Ok(Some(Txt::new(alloc, self.text())?)),
            Symbol::QuotedName => Ok(Some(unquoted(alloc, b'"', self.text())?)),
            _ => Ok(None),
        }
    }

    #[tactic(auto, unfolding(crate::specs::Terms::name_at))]
    pub(crate) fn name(&mut self, alloc: Global) -> Result<Txt, DialectFail>
        ensures read { IfOk result (λ x. name_at self.old ≡ Ok (x, self.new)) }
        ensures stops { IfErr result (StopsAs (name_at self.old)) }
    {
        let Some(name) = self.name_of(alloc)? else {
            return Err(self.stop());
        };
        self.step();
        Ok(name)
    }

    /// The number that the next token is.
    fn number_of(&self, minus: bool) -> Option<Term>
        ensures { result ≡ number_of minus (symbol_at self.now) (text_at self.now) }
    {
        match self.symbol() {
            Symbol::Number => match signed(minus, digits_value(self.text().as_bytes())) {
                Some(number) => Some(Term::Number(number)),
                None => None,
            },
            _ => None,
        }
    }

    /// A number, behind a minus or not.
    #[tactic(auto, unfolding(crate::specs::Terms::number_at))]
    fn number(&mut self, minus: bool) -> Result<Term, DialectFail>
        ensures read { IfOk result (λ x. number_at minus self.old ≡ Ok (x, self.new)) }
        ensures stops { IfErr result (StopsAs (number_at minus self.old)) }
    {
        let Some(number) = self.number_of(minus) else {
            return Err(self.stop());
        };
        self.step();
        Ok(number)
    }

    /// The bytes of a run of hexadecimal digits that follows at once.
    fn digits_behind(&self, alloc: Global) -> Result<Option<Bytes>, NoMemory>
        ensures { IfOk result (λ bytes. bytes ≡ digits_behind self.now) }
    {
        if !is_text(self.symbol()) || !self.before().is_empty() {
            return Ok(None);
        }
        match hex::decode(alloc, without_quotes(39, self.text())) {
            Ok(bytes) => Ok(Some(Bytes::from_vec(bytes))),
            Err(FromHexError::OutOfMemory) => Err(NoMemory),
            Err(_) => Ok(None),
        }
    }

    /// A blob, or a name that isn't quoted.
    #[tactic(auto, unfolding(crate::specs::Terms::word_term_at))]
    fn word_term(&mut self, alloc: Global) -> Result<Term, DialectFail>
        ensures read { IfOk result (λ x. word_term_at self.old ≡ Ok (x, self.new)) }
        ensures stops { IfErr result (StopsAs (word_term_at self.old)) }
    {
        let word = self.text();
        self.step();
        if is_same_name(word, "X") {
            if let Some(bytes) = self.digits_behind(alloc)? {
                self.step();
                return Ok(Term::Blob(bytes));
            }
        }
        Ok(Term::Name(Txt::new(alloc, word)?))
    }

    /// The term of one token that is neither a word nor a number.
    fn other_term_of(&self, alloc: Global) -> Result<Option<Term>, NoMemory>
        ensures { IfOk result (λ term. term ≡ other_term_of (symbol_at self.now) (text_at self.now)) }
    {
        match self.symbol() {
            Symbol::Keyword(Keyword::Null) => Ok(Some(Term::Null)),
            Symbol::QuotedName => Ok(Some(Term::Name(unquoted(alloc, b'"', self.text())?))),
            Symbol::Text => Ok(Some(Term::Text(unquoted(alloc, 39, self.text())?))),
            Symbol::Parameter(number) => Ok(Some(Term::Param(number))),
            _ => Ok(None),
        }
    }

    #[tactic(auto, unfolding(crate::specs::Terms::other_term_at))]
    fn other_term(&mut self, alloc: Global) -> Result<Term, DialectFail>
        ensures read { IfOk result (λ x. other_term_at self.old ≡ Ok (x, self.new)) }
        ensures stops { IfErr result (StopsAs (other_term_at self.old)) }
    {
        let Some(term) = self.other_term_of(alloc)? else {
            return Err(self.stop());
        };
        self.step();
        Ok(term)
    }

    fn unsigned_term(&mut self, alloc: Global) -> Result<Term, DialectFail>
        ensures read { IfOk result (λ x. unsigned_term_by (symbol_at self.old) self.old ≡ Ok (x, self.new)) }
        ensures stops { IfErr result (StopsAs (unsigned_term_by (symbol_at self.old) self.old)) }
    {
        match self.symbol() {
            Symbol::Word => self.word_term(alloc),
            Symbol::Number => self.number(false),
            _ => self.other_term(alloc),
        }
    }

    #[tactic(auto, unfolding(crate::specs::Terms::term_at))]
    pub(crate) fn term(&mut self, alloc: Global) -> Result<Term, DialectFail>
        ensures read { IfOk result (λ x. term_at self.old ≡ Ok (x, self.new)) }
        ensures stops { IfErr result (StopsAs (term_at self.old)) }
    {
        if self.takes(b'-') {
            return self.number(true);
        }
        self.unsigned_term(alloc)
    }
}
