// The tokens that are left, and what stands at their front.
ghost use Rattle.std.specs.Prelude.{◌≡◌, drop, IfOk, IfErr, if◌then◌else◌};
ghost use Rattle.keeper_dialect.specs.Tokens.{view, views};
ghost use Rattle.keeper_dialect.specs.Lists.{front};
ghost use Rattle.keeper_dialect.specs.Reading.{symbol_at, text_at, before_at, place_at, rank_of, is_keyword, is_sign, keyword_at, sign_at, StopsAs};

use crate::query::DialectFail;
use crate::tokens::{Keyword, Symbol, Token};
use std::marker::Model;

/// Reads tokens from the front. Contracts see it as the tokens that are left.
#[derive(Drop)]
pub(crate) struct Reader<'a> {
    rest: &'a [Token<'a>],
}

impl<'a> Model for Reader<'a> {
    ghost use Rattle.std.specs.Prelude.{List};
    ghost use Rattle.keeper_dialect.specs.Tokens.{Token as Seen, views};

    ghost Value = { List Seen };

    ghost view = { λ r. views r.rest.now };
}

impl<'a> Reader<'a> {
    pub(crate) fn new(tokens: &'a [Token<'a>]) -> Reader<'a>
        ensures { result ≡ views tokens.now }
    {
        Reader { rest: tokens }
    }

    pub(crate) fn symbol(&self) -> Symbol
        ensures { result ≡ symbol_at self.now }
    {
        match self.rest.first() {
            Some(token) => token.symbol,
            None => Symbol::End,
        }
    }

    pub(crate) fn text(&self) -> &'a str
        ensures { result.now ≡ text_at self.now }
    {
        match self.rest.first() {
            Some(token) => token.text,
            None => "",
        }
    }

    /// The blanks and comments before the next token.
    pub(crate) fn before(&self) -> &'a str
        ensures { result.now ≡ before_at self.now }
    {
        match self.rest.first() {
            Some(token) => token.before,
            None => "",
        }
    }

    /// The refusal of the next token.
    pub(crate) fn stop(&self) -> DialectFail
        ensures { result ≡ DialectFail.Syntax (place_at self.now) }
    {
        match self.rest.first() {
            Some(token) => DialectFail::Syntax { at: token.start },
            None => DialectFail::Syntax { at: 0 },
        }
    }

    /// Passes the next token.
    pub(crate) fn step(&mut self)
        ensures { self.new ≡ drop 1 self.old }
    {
        if !self.rest.is_empty() {
            self.rest = &self.rest[1..];
        }
    }

    pub(crate) fn is_keyword(&self, keyword: Keyword) -> bool
        ensures { result ≡ is_keyword keyword (symbol_at self.now) }
    {
        match self.symbol() {
            Symbol::Keyword(found) => found.rank() == keyword.rank(),
            _ => false,
        }
    }

    pub(crate) fn is_sign(&self, sign: u8) -> bool
        ensures { result ≡ is_sign sign (symbol_at self.now) }
    {
        match self.symbol() {
            Symbol::Sign(found) => found == sign,
            _ => false,
        }
    }

    /// Passes a reserved word.
    #[tactic(auto, unfolding(crate::specs::Reading::keyword_at))]
    pub(crate) fn keyword(&mut self, keyword: Keyword) -> Result<(), DialectFail>
        ensures read { IfOk result (λ x. keyword_at keyword self.old ≡ Ok (x, self.new)) }
        ensures stops { IfErr result (StopsAs (keyword_at keyword self.old)) }
    {
        if !self.is_keyword(keyword) {
            return Err(self.stop());
        }
        self.step();
        Ok(())
    }

    /// Passes a sign.
    #[tactic(auto, unfolding(crate::specs::Reading::sign_at))]
    pub(crate) fn sign(&mut self, sign: u8) -> Result<(), DialectFail>
        ensures read { IfOk result (λ x. sign_at sign self.old ≡ Ok (x, self.new)) }
        ensures stops { IfErr result (StopsAs (sign_at sign self.old)) }
    {
        if !self.is_sign(sign) {
            return Err(self.stop());
        }
        self.step();
        Ok(())
    }

    /// Passes a sign, if it stands.
    pub(crate) fn takes(&mut self, sign: u8) -> bool
        ensures found { result ≡ is_sign sign (symbol_at self.old) }
        ensures left { self.new ≡ (if result then drop 1 self.old else self.old) }
    {
        if !self.is_sign(sign) {
            return false;
        }
        self.step();
        true
    }

    /// Passes a reserved word, if it stands.
    pub(crate) fn takes_keyword(&mut self, keyword: Keyword) -> bool
        ensures found { result ≡ is_keyword keyword (symbol_at self.old) }
        ensures left { self.new ≡ (if result then drop 1 self.old else self.old) }
    {
        if !self.is_keyword(keyword) {
            return false;
        }
        self.step();
        true
    }

    /// The tokens that are left.
    pub(crate) fn rest(&self) -> &'a [Token<'a>]
        ensures { views result.now ≡ self.now }
    {
        self.rest
    }

    /// The tokens before those that are left, of tokens that these are the last of.
    pub(crate) fn behind(&self, tokens: &'a [Token<'a>]) -> &'a [Token<'a>]
        ensures { views result.now ≡ front (views tokens.now) self.now }
    {
        &tokens[..tokens.len().saturating_sub(self.rest.len())]
    }
}
