// The classes of statements, and the words that decide them.
ghost use Rattle.std.specs.Prelude.{◌≡◌};
ghost use Rattle.sql_text.specs.Class.{is_word, transaction_keyword, statement_keyword, or_keyword, keyword_of};
ghost use Rattle.sql_text.specs.Words.{role_of};

use crate::pieces::PieceKind;

/// How a transaction begins.
#[derive(Clone, Copy, Debug, PartialEq, Eq)]
pub enum Mode {
    Deferred,
    Immediate,
}

/// What a text does, by its first statement.
#[derive(Clone, Copy, Debug, PartialEq, Eq)]
pub enum Class {
    Begin(Mode),
    Commit,
    Rollback,
    Savepoint,
    Barred,
    Read,
    Write,
    Empty,
}

/// The words that decide a class.
#[derive(Clone, Copy)]
pub(crate) enum Keyword {
    Begin,
    Deferred,
    Immediate,
    Exclusive,
    Transaction,
    Readonly,
    Commit,
    End,
    Rollback,
    To,
    Savepoint,
    Release,
    Pragma,
    Attach,
    Detach,
    Vacuum,
    Select,
    Values,
    With,
    Other,
}

/// What a piece does to a statement.
#[derive(Clone, Copy)]
pub(crate) enum Role {
    Skipped,
    Cuts,
    Stands,
}

fn is_word(word: &[u8], name: &str) -> bool
    ensures { result ≡ is_word word.now name.now }
{
    word.eq_ignore_ascii_case(name.as_bytes())
}

#[tactic(auto, unfolding(crate::specs::Class::transaction_keyword))]
fn transaction_keyword(word: &[u8]) -> Keyword
    ensures { result ≡ transaction_keyword word.now }
{
    if is_word(word, "BEGIN") {
        Keyword::Begin
    } else if is_word(word, "DEFERRED") {
        Keyword::Deferred
    } else if is_word(word, "IMMEDIATE") {
        Keyword::Immediate
    } else if is_word(word, "EXCLUSIVE") {
        Keyword::Exclusive
    } else if is_word(word, "TRANSACTION") {
        Keyword::Transaction
    } else if is_word(word, "READONLY") {
        Keyword::Readonly
    } else if is_word(word, "COMMIT") {
        Keyword::Commit
    } else if is_word(word, "END") {
        Keyword::End
    } else if is_word(word, "ROLLBACK") {
        Keyword::Rollback
    } else if is_word(word, "TO") {
        Keyword::To
    } else if is_word(word, "SAVEPOINT") {
        Keyword::Savepoint
    } else if is_word(word, "RELEASE") {
        Keyword::Release
    } else {
        Keyword::Other
    }
}

#[tactic(auto, unfolding(crate::specs::Class::statement_keyword))]
fn statement_keyword(word: &[u8]) -> Keyword
    ensures { result ≡ statement_keyword word.now }
{
    if is_word(word, "PRAGMA") {
        Keyword::Pragma
    } else if is_word(word, "ATTACH") {
        Keyword::Attach
    } else if is_word(word, "DETACH") {
        Keyword::Detach
    } else if is_word(word, "VACUUM") {
        Keyword::Vacuum
    } else if is_word(word, "SELECT") {
        Keyword::Select
    } else if is_word(word, "VALUES") {
        Keyword::Values
    } else if is_word(word, "WITH") {
        Keyword::With
    } else {
        Keyword::Other
    }
}

fn or_keyword(first: Keyword, other: Keyword) -> Keyword
    ensures { result ≡ or_keyword first other }
{
    match first {
        Keyword::Other => other,
        _ => first,
    }
}

pub(crate) fn keyword_of(kind: PieceKind, bytes: &[u8]) -> Keyword
    ensures { result ≡ keyword_of kind bytes.now }
{
    match kind {
        PieceKind::Word => or_keyword(transaction_keyword(bytes), statement_keyword(bytes)),
        _ => Keyword::Other,
    }
}

pub(crate) fn role_of(kind: PieceKind) -> Role
    ensures { result ≡ role_of kind }
{
    match kind {
        PieceKind::Blank => Role::Skipped,
        PieceKind::Comment => Role::Skipped,
        PieceKind::Unclosed => Role::Skipped,
        PieceKind::Sign(sign) => {
            if sign == b';' {
                Role::Cuts
            } else {
                Role::Stands
            }
        }
        _ => Role::Stands,
    }
}
