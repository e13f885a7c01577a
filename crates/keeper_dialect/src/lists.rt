// The lists of the dialect: columns, names, tuples, settings and what is shown.
ghost use Rattle.std.specs.Prelude.{◌≡◌, ◌++◌, ◌||◌, ℕ, List, Bool, false, string_bytes, drop, length, OnOk, IfOk, IfErr};
ghost use Rattle.keeper_dialect.specs.Reading.{symbol_at, StopsAs};
ghost use Rattle.keeper_dialect.specs.Tokens.{is_same_name, view, views};
ghost use Rattle.keeper_dialect.specs.Terms.{expr_at};
ghost use Rattle.keeper_dialect.specs.Lists.{is_col, is_among, is_set, has_key, new_name_at, tuple_at, set_at, source_of_token, source_text, item_at, after_type, key_at, col_name_at, col_def_at};
ghost use Rattle.keeper_dialect.specs.Taken.{is_taken};

use crate::limits::MAX_COLUMNS;
use crate::names::is_same_name;
use crate::parts::Part;
use crate::query::{ColDef, ColExpr, DialectFail, Expr, Exprs, Item};
use crate::reader::Reader;
use crate::taken::Taken;
use crate::tokens::{Keyword, Symbol, Token};
use hrana_value::{NoMemory, Txt};
use std::alloc::Global;

fn is_col(cols: &[ColDef], name: &str) -> bool
    ensures { result ≡ is_col cols.now name.now }
{
    cols.iter().any(|col| is_same_name(col.name.as_str(), name))
}

fn has_key(cols: &[ColDef]) -> bool
    ensures { result ≡ has_key cols.now }
{
    cols.iter().any(|col| col.key)
}

/// Adds a token to a source text, with the blanks and comments before it.
fn push_source(source: &mut String, token: &Token) -> Result<(), NoMemory>
    ensures { OnOk result (string_bytes source.new ≡ string_bytes source.old ++ source_of_token (view token.now)) }
{
    source.push_str(token.before)?;
    source.push_str(token.text)?;
    Ok(())
}

/// The source text from the first token to the last.
pub(crate) fn source_text(alloc: Global, tokens: &[Token]) -> Result<Txt, NoMemory>
    ensures { IfOk result (λ text. text ≡ source_text (views tokens.now)) }
{
    if tokens.is_empty() {
        return Txt::new(alloc, "");
    }
    let mut source = String::from_str(alloc, tokens[0].text)?;
    for token in &tokens[1..] {
        push_source(&mut source, token)?;
    }
    Ok(Txt::from_string(source))
}

impl<'a> Reader<'a> {
    /// A name that isn't taken, which then is.
    #[tactic(auto, unfolding(crate::specs::Lists::new_name_at, crate::specs::Reading::and_then))]
    fn new_name(&mut self, alloc: Global, taken: &mut Taken) -> Result<Txt, DialectFail>
        ensures read { IfOk result (λ x. new_name_at (is_taken taken.old) self.old ≡ Ok (x, self.new)) }
        ensures stops { IfErr result (StopsAs (new_name_at (is_taken taken.old) self.old)) }
        ensures takes { IfOk result (λ x. (name : List ℕ) → is_taken taken.new name ≡ (is_same_name x name || is_taken taken.old name)) }
    {
        let stop = self.stop();
        let name = self.name(alloc)?;
        if !taken.take(alloc, name.as_str())? {
            return Err(stop);
        }
        Ok(name)
    }

    /// Passes the name of a type, if one stands.
    fn pass_type(&mut self)
        ensures { self.new ≡ after_type (symbol_at self.old) self.old }
    {
        match self.symbol() {
            Symbol::Word => self.step(),
            _ => {}
        }
    }

    /// Whether `PRIMARY KEY` stands, which mustn't come a second time.
    #[tactic(auto, unfolding(crate::specs::Lists::key_at, crate::specs::Reading::and_then))]
    fn key(&mut self, had: bool) -> Result<bool, DialectFail>
        ensures read { IfOk result (λ x. key_at had self.old ≡ Ok (x, self.new)) }
        ensures stops { IfErr result (StopsAs (key_at had self.old)) }
    {
        if !self.is_keyword(Keyword::Primary) {
            return Ok(false);
        }
        if had {
            return Err(self.stop());
        }
        self.step();
        self.keyword(Keyword::Key)?;
        Ok(true)
    }

    /// The name of a column, of which a table has at most `MAX_COLUMNS`, no two the same.
    #[tactic(auto, unfolding(crate::specs::Lists::col_name_at, crate::specs::Lists::new_name_at, crate::specs::Reading::and_then))]
    fn col_name(&mut self, alloc: Global, cols: &[ColDef]) -> Result<Txt, DialectFail>
        ensures read { IfOk result (λ x. col_name_at cols.now self.old ≡ Ok (x, self.new)) }
        ensures stops { IfErr result (StopsAs (col_name_at cols.now self.old)) }
    {
        let stop = self.stop();
        if cols.len() >= MAX_COLUMNS {
            return Err(stop);
        }
        let name = self.name(alloc)?;
        if is_col(cols, name.as_str()) {
            return Err(stop);
        }
        Ok(name)
    }
}

/// A name that none before it is.
impl Part for Txt {
    ghost read_at = { λ done. new_name_at (is_among done) };

    ghost is_taken_by = { is_among };

    fn read(
        reader: &mut Reader<'_>,
        alloc: Global,
        taken: &mut Taken,
        _: &[Txt],
    ) -> Result<Txt, DialectFail> {
        reader.new_name(alloc, taken)
    }
}

impl Part for Expr {
    ghost read_at = { λ _. expr_at };

    ghost is_taken_by = { λ _ _. false };

    fn read(
        reader: &mut Reader<'_>,
        alloc: Global,
        _: &mut Taken,
        _: &[Expr],
    ) -> Result<Expr, DialectFail> {
        reader.expr(alloc)
    }
}

/// A tuple: expressions in brackets.
impl Part for Exprs {
    ghost read_at = { λ _. tuple_at };

    ghost is_taken_by = { λ _ _. false };

    #[tactic(auto, using(crate::proofs::PartLemmas::exprs_shrink), unfolding(crate::specs::Lists::tuple_at, crate::specs::Lists::exprs_at))]
    fn read(
        reader: &mut Reader<'_>,
        alloc: Global,
        _: &mut Taken,
        _: &[Exprs],
    ) -> Result<Exprs, DialectFail> {
        reader.bracketed(alloc)
    }
}

/// A setting of a column that none before it sets.
impl Part for ColExpr {
    ghost read_at = { set_at };

    ghost is_taken_by = { is_set };

    #[tactic(auto, unfolding(crate::specs::Lists::setting_at, crate::specs::Reading::and_then))]
    fn read(
        reader: &mut Reader<'_>,
        alloc: Global,
        taken: &mut Taken,
        _: &[ColExpr],
    ) -> Result<ColExpr, DialectFail> {
        let column = reader.new_name(alloc, taken)?;
        reader.sign(b'=')?;
        let expr = reader.expr(alloc)?;
        Ok(ColExpr { column, expr })
    }
}

/// An expression with its source text.
impl Part for Item {
    ghost read_at = { λ _. item_at };

    ghost is_taken_by = { λ _ _. false };

    #[tactic(auto, unfolding(crate::specs::Lists::item_at, crate::specs::Reading::and_then))]
    fn read(
        reader: &mut Reader<'_>,
        alloc: Global,
        _: &mut Taken,
        _: &[Item],
    ) -> Result<Item, DialectFail> {
        let start = reader.rest();
        let expr = reader.expr(alloc)?;
        let text = source_text(alloc, reader.behind(start))?;
        Ok(Item { text, expr })
    }
}

/// A column, by those before it.
impl Part for ColDef {
    ghost read_at = { col_def_at };

    ghost is_taken_by = { λ _ _. false };

    #[tactic(auto, unfolding(crate::specs::Lists::col_def_at, crate::specs::Reading::and_then))]
    fn read(
        reader: &mut Reader<'_>,
        alloc: Global,
        _: &mut Taken,
        cols: &[ColDef],
    ) -> Result<ColDef, DialectFail> {
        let name = reader.col_name(alloc, cols)?;
        reader.pass_type();
        let key = reader.key(has_key(cols))?;
        Ok(ColDef { name, key })
    }
}
