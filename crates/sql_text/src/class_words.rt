// The class of a part, word by word.
ghost use Rattle.std.specs.Prelude.{◌≡◌, List, [], ◌∷◌};
ghost use Rattle.sql_text.specs.declared.class.Keyword.{Keyword};
ghost use Rattle.sql_text.specs.Class.{keyword_of, class_of_words};
ghost use Rattle.sql_text.specs.Found.{class_with};

use crate::class::{Class, Keyword, Mode, keyword_of};
use crate::pieces::PieceKind;

/// What the words of a part so far leave open of its class.
#[derive(Clone, Copy)]
pub(crate) enum ClassSoFar {
    /// `BEGIN`
    Begun,
    /// `BEGIN TRANSACTION`
    TransactionBegun,
    /// It has this class, where nothing follows but perhaps `TRANSACTION`.
    PerhapsTransaction(Class),
    /// It has this class, where nothing follows.
    Alone(Class),
    /// `ROLLBACK`
    Rolled,
    /// `ROLLBACK TRANSACTION`
    TransactionRolled,
    Settled(Class),
}

/// What the first word of a part leaves open.
fn first_word(word: Keyword) -> ClassSoFar
    ensures { (later : List Keyword) → class_with result later ≡ class_of_words (word ∷ later) }
{
    match word {
        Keyword::Begin => ClassSoFar::Begun,
        Keyword::Commit => ClassSoFar::PerhapsTransaction(Class::Commit),
        Keyword::End => ClassSoFar::PerhapsTransaction(Class::Commit),
        Keyword::Rollback => ClassSoFar::Rolled,
        Keyword::Savepoint => ClassSoFar::Settled(Class::Savepoint),
        Keyword::Release => ClassSoFar::Settled(Class::Savepoint),
        Keyword::Pragma => ClassSoFar::Settled(Class::Barred),
        Keyword::Attach => ClassSoFar::Settled(Class::Barred),
        Keyword::Detach => ClassSoFar::Settled(Class::Barred),
        Keyword::Vacuum => ClassSoFar::Settled(Class::Barred),
        Keyword::Select => ClassSoFar::Settled(Class::Read),
        Keyword::Values => ClassSoFar::Settled(Class::Read),
        Keyword::With => ClassSoFar::Settled(Class::Read),
        _ => ClassSoFar::Settled(Class::Write),
    }
}

/// What a word behind `BEGIN` leaves open.
fn word_begun(word: Keyword) -> ClassSoFar
    ensures { (later : List Keyword) → class_with result later ≡ class_with ClassSoFar.Begun (word ∷ later) }
{
    match word {
        Keyword::Transaction => ClassSoFar::TransactionBegun,
        Keyword::Deferred => ClassSoFar::PerhapsTransaction(Class::Begin(Mode::Deferred)),
        Keyword::Immediate => ClassSoFar::PerhapsTransaction(Class::Begin(Mode::Immediate)),
        Keyword::Exclusive => ClassSoFar::PerhapsTransaction(Class::Begin(Mode::Immediate)),
        _ => ClassSoFar::Settled(Class::Barred),
    }
}

/// What a word behind `ROLLBACK` leaves open.
fn word_rolled(word: Keyword) -> ClassSoFar
    ensures { (later : List Keyword) → class_with result later ≡ class_with ClassSoFar.Rolled (word ∷ later) }
{
    match word {
        Keyword::Transaction => ClassSoFar::TransactionRolled,
        Keyword::To => ClassSoFar::Settled(Class::Savepoint),
        _ => ClassSoFar::Settled(Class::Barred),
    }
}

/// What one word more leaves open.
fn with_word(so_far: ClassSoFar, word: Keyword) -> ClassSoFar
    ensures { (later : List Keyword) → class_with result later ≡ class_with so_far (word ∷ later) }
{
    match (so_far, word) {
        (ClassSoFar::Begun, _) => word_begun(word),
        (ClassSoFar::TransactionBegun, Keyword::Readonly) => {
            ClassSoFar::Alone(Class::Begin(Mode::Deferred))
        }
        (ClassSoFar::PerhapsTransaction(class), Keyword::Transaction) => ClassSoFar::Alone(class),
        (ClassSoFar::Rolled, _) => word_rolled(word),
        (ClassSoFar::TransactionRolled, Keyword::To) => ClassSoFar::Settled(Class::Savepoint),
        (ClassSoFar::Settled(class), _) => ClassSoFar::Settled(class),
        _ => ClassSoFar::Settled(Class::Barred),
    }
}

/// What the first piece of a part leaves open.
pub(crate) fn first_piece_read(kind: PieceKind, bytes: &[u8]) -> ClassSoFar
    ensures { (later : List Keyword) → class_with result later ≡ class_of_words (keyword_of kind bytes.now ∷ later) }
{
    first_word(keyword_of(kind, bytes))
}

/// What one piece more of a part leaves open. A settled class is left as it is, whatever the piece.
pub(crate) fn next_piece_read(so_far: ClassSoFar, kind: PieceKind, bytes: &[u8]) -> ClassSoFar
    ensures { (later : List Keyword) → class_with result later ≡ class_with so_far (keyword_of kind bytes.now ∷ later) }
{
    match so_far {
        ClassSoFar::Settled(_) => so_far,
        _ => with_word(so_far, keyword_of(kind, bytes)),
    }
}

/// The class of a part that ends here.
pub(crate) fn class_here(so_far: ClassSoFar) -> Class
    ensures { result ≡ class_with so_far [] }
{
    match so_far {
        ClassSoFar::Begun => Class::Begin(Mode::Deferred),
        ClassSoFar::TransactionBegun => Class::Begin(Mode::Deferred),
        ClassSoFar::PerhapsTransaction(class) => class,
        ClassSoFar::Alone(class) => class,
        ClassSoFar::Rolled => Class::Rollback,
        ClassSoFar::TransactionRolled => Class::Rollback,
        ClassSoFar::Settled(class) => class,
    }
}
