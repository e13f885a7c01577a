// The tokens of a text: its pieces that are neither blank nor comment, and where the text ends.
ghost use Rattle.std.specs.Prelude.{◌≡◌, ◌<◌, ◌≤◌, [], IfOk, OnOk, length, slice_index, slice_range};
ghost use Rattle.std.specs.Str.{IsCharBoundary};
ghost use Rattle.keeper_dialect.specs.Reading.{rank_of};
ghost use Rattle.keeper_dialect.specs.Tokens.{early_keyword, late_keyword, or_keyword, keyword_or_word, symbol_of_word, symbol_of_run, parameter_or_stray, symbol_of, seen_after, is_passed, token_of, tokens_of, end_token, view, views};

use crate::names::is_same_name;
use hrana_value::NoMemory;
use sql_text::{Parameters, PieceKind, PlacedPiece, next_parameter, piece_at};
use std::alloc::Global;

/// The words that are reserved.
#[derive(Clone, Copy)]
pub(crate) enum Keyword {
    Count,
    Create,
    Delete,
    From,
    Insert,
    Into,
    Key,
    Null,
    Primary,
    Select,
    Set,
    Table,
    Update,
    Values,
    Where,
}

impl Keyword {
    pub(crate) fn rank(self) -> u8
        ensures { result ≡ rank_of self }
    {
        match self {
            Keyword::Count => 0,
            Keyword::Create => 1,
            Keyword::Delete => 2,
            Keyword::From => 3,
            Keyword::Insert => 4,
            Keyword::Into => 5,
            Keyword::Key => 6,
            Keyword::Null => 7,
            Keyword::Primary => 8,
            Keyword::Select => 9,
            Keyword::Set => 10,
            Keyword::Table => 11,
            Keyword::Update => 12,
            Keyword::Values => 13,
            Keyword::Where => 14,
        }
    }
}

/// What a token is.
#[derive(Clone, Copy)]
pub(crate) enum Symbol {
    Keyword(Keyword),
    /// A word that isn't reserved.
    Word,
    /// A run between `"`.
    QuotedName,
    /// A run between `'`.
    Text,
    Number,
    /// A parameter whose number is from 1 to 256.
    Parameter(u16),
    Sign(u8),
    /// A piece that no statement has: one that isn't closed, another quote, or a parameter whose number doesn't fit.
    Stray,
    /// The end of the text.
    End,
}

/// A piece that is neither blank nor comment, with the blanks and comments before it.
#[derive(Clone, Copy)]
pub(crate) struct Token<'a> {
    pub(crate) symbol: Symbol,
    pub(crate) before: &'a str,
    pub(crate) text: &'a str,
    /// Where the piece starts in the text.
    pub(crate) start: usize,
}

#[tactic(auto, unfolding(crate::specs::Tokens::early_keyword))]
fn early_keyword(word: &str) -> Option<Keyword>
    ensures { result ≡ early_keyword word.now }
{
    if is_same_name(word, "COUNT") {
        Some(Keyword::Count)
    } else if is_same_name(word, "CREATE") {
        Some(Keyword::Create)
    } else if is_same_name(word, "DELETE") {
        Some(Keyword::Delete)
    } else if is_same_name(word, "FROM") {
        Some(Keyword::From)
    } else if is_same_name(word, "INSERT") {
        Some(Keyword::Insert)
    } else if is_same_name(word, "INTO") {
        Some(Keyword::Into)
    } else if is_same_name(word, "KEY") {
        Some(Keyword::Key)
    } else if is_same_name(word, "NULL") {
        Some(Keyword::Null)
    } else {
        None
    }
}

#[tactic(auto, unfolding(crate::specs::Tokens::late_keyword))]
fn late_keyword(word: &str) -> Option<Keyword>
    ensures { result ≡ late_keyword word.now }
{
    if is_same_name(word, "PRIMARY") {
        Some(Keyword::Primary)
    } else if is_same_name(word, "SELECT") {
        Some(Keyword::Select)
    } else if is_same_name(word, "SET") {
        Some(Keyword::Set)
    } else if is_same_name(word, "TABLE") {
        Some(Keyword::Table)
    } else if is_same_name(word, "UPDATE") {
        Some(Keyword::Update)
    } else if is_same_name(word, "VALUES") {
        Some(Keyword::Values)
    } else if is_same_name(word, "WHERE") {
        Some(Keyword::Where)
    } else {
        None
    }
}

/// A reserved word, or another.
fn symbol_of_word(word: &str) -> Symbol
    ensures { result ≡ symbol_of_word word.now }
{
    match early_keyword(word).or(late_keyword(word)) {
        Some(keyword) => Symbol::Keyword(keyword),
        None => Symbol::Word,
    }
}

/// A run between quotes, by its first byte.
fn symbol_of_run(quote: u8) -> Symbol
    ensures { result ≡ symbol_of_run quote }
{
    if quote == b'"' {
        Symbol::QuotedName
    } else if quote == 39 {
        Symbol::Text
    } else {
        Symbol::Stray
    }
}

/// A parameter, if its number fits.
fn parameter_or_stray(number: Option<u16>) -> Symbol
    ensures { result ≡ parameter_or_stray number }
{
    match number {
        Some(number) => Symbol::Parameter(number),
        None => Symbol::Stray,
    }
}

/// What a piece is. A parameter takes its number.
fn symbol_of<'a>(
    seen: &mut Parameters<'a>,
    kind: PieceKind,
    text: &'a str,
) -> Result<Symbol, NoMemory>
    requires some { 0 < length text.now }
    ensures symbol { IfOk result (λ symbol. symbol ≡ symbol_of seen.old kind text.now) }
    ensures seen { OnOk result (seen.new ≡ seen_after seen.old kind text.now) }
{
    match kind {
        PieceKind::Quoted => Ok(symbol_of_run(text.as_bytes()[0])),
        PieceKind::Parameter => Ok(parameter_or_stray(next_parameter(seen, text.as_bytes())?)),
        PieceKind::Word => Ok(symbol_of_word(text)),
        PieceKind::Number => Ok(Symbol::Number),
        PieceKind::Sign(sign) => Ok(Symbol::Sign(sign)),
        PieceKind::Blank | PieceKind::Comment | PieceKind::Unclosed => Ok(Symbol::Stray),
    }
}

fn is_passed(kind: PieceKind) -> bool
    ensures { result ≡ is_passed kind }
{
    match kind {
        PieceKind::Blank | PieceKind::Comment => true,
        _ => false,
    }
}

/// The token of a piece that stands from `at` to its end. The blanks and comments before it start at `from`.
fn token_of<'a>(
    sql: &'a str,
    seen: &mut Parameters<'a>,
    from: usize,
    at: usize,
    piece: PlacedPiece,
) -> Result<Token<'a>, NoMemory>
    requires before { from ≤ at }
    requires some { at < piece.end }
    requires within { piece.end ≤ length sql.now }
    requires starts { IsCharBoundary sql.now from }
    requires between { IsCharBoundary sql.now at }
    requires ends { IsCharBoundary sql.now piece.end }
    ensures token { IfOk result (λ token. view token ≡ token_of seen.old (slice_range sql.now from at) at piece.kind (slice_range sql.now at piece.end)) }
    ensures seen { OnOk result (seen.new ≡ seen_after seen.old piece.kind (slice_range sql.now at piece.end)) }
{
    let text = &sql[at..piece.end];
    Ok(Token {
        symbol: symbol_of(seen, piece.kind, text)?,
        before: &sql[from..at],
        text,
        start: at,
    })
}

/// The tokens of a text.
pub(crate) fn tokens_of<'a>(alloc: Global, sql: &'a str) -> Result<Vec<Token<'a>>, NoMemory>
    ensures { IfOk result (λ tokens. views tokens.items ≡ tokens_of sql.now) }
{
    let text = sql.as_bytes();
    let mut tokens = Vec::new(alloc);
    let mut seen = Parameters::new(alloc);
    let mut from = 0;
    let mut at = 0;
    while at < text.len() {
        let piece = piece_at(text, at);
        if !is_passed(piece.kind) {
            let token = token_of(sql, &mut seen, from, at, piece)?;
            tokens.push(token)?;
            from = piece.end;
        }
        at = piece.end;
    }
    tokens.push(Token {
        symbol: Symbol::End,
        before: &sql[from..at],
        text: "",
        start: at,
    })?;
    Ok(tokens)
}
