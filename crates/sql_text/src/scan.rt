// What the pieces of a text say of its statements and parameters, in one pass.
ghost use Rattle.std.specs.Prelude.{◌≡◌, ◌+◌, ℕ, List, [], ◌∷◌, Some, length, IfOk, IfErr, IfSome};
ghost use Rattle.sql_text.specs.declared.spans.Span.{Span};
ghost use Rattle.sql_text.specs.declared.class.Class.{Class};
ghost use Rattle.sql_text.specs.declared.class.Role.TheVariants.{Stands};
ghost use Rattle.sql_text.specs.Words.{role_of};
ghost use Rattle.sql_text.specs.Spans.{Placed, unclosed_at};
ghost use Rattle.sql_text.specs.Parameters.{is_parameter};
ghost use Rattle.sql_text.specs.Class.{class_of_text};
ghost use Rattle.sql_text.specs.Found.{ended, Gives, Takes, IsScanOf};

use crate::class::{Class, Role, role_of};
use crate::class_words::{ClassSoFar, class_here, first_piece_read, next_piece_read};
use crate::parameters::{Parameters, take_next};
use crate::pieces::{PieceKind, PlacedPiece, piece_at};
use crate::spans::{Span, is_unclosed};
use hrana_value::NoMemory;

/// The statements of a text so far.
#[derive(Clone, Copy)]
pub(crate) enum Found {
    Nothing,
    /// The first goes on, perhaps.
    Open(Span, ClassSoFar),
    /// The first has ended, and nothing stands behind it.
    One(Span, Class),
    /// There are two or more. The first has this class.
    Many(Class),
}

/// What the pieces of a text say, all of which are closed.
#[derive(Clone, Copy)]
pub(crate) struct Scan {
    pub(crate) found: Found,
    /// Whether the numbers of all parameters are from 1 to the most.
    pub(crate) fit: bool,
}

/// Why a text wasn't read.
#[derive(Clone, Copy, Debug)]
pub(crate) enum ScanFail {
    /// The quote or comment that starts at this byte has no end.
    Unclosed { at: usize },
    /// For a table of parameters.
    NoMemory,
}

impl From<NoMemory> for ScanFail {
    ghost use Rattle.std.specs.Prelude.{◌≡◌};
    ghost use Rattle.sql_text.specs.declared.scan.ScanFail.TheVariants.{NoMemory as OutOfMemory};

    ghost from_gives = { λ _ e. e ≡ OutOfMemory };

    fn from(_: NoMemory) -> Self {
        ScanFail::NoMemory
    }
}

fn is_parameter(kind: PieceKind) -> bool
    ensures { result ≡ is_parameter kind }
{
    matches!(kind, PieceKind::Parameter)
}

/// What a `;` leaves.
fn ended(found: Found) -> Found
    ensures { result ≡ ended found }
{
    match found {
        Found::Open(span, so_far) => Found::One(span, class_here(so_far)),
        _ => found,
    }
}

/// What a piece leaves that stands in a part.
fn with_standing(found: Found, start: usize, piece: PlacedPiece, bytes: &[u8]) -> Found
    requires stands { role_of piece.kind ≡ Stands }
    requires ends { piece.end ≡ start + length bytes.now }
    ensures { Takes found piece.kind bytes.now start result }
{
    match found {
        Found::Nothing => {
            let end = piece.end;
            Found::Open(Span { start, end }, first_piece_read(piece.kind, bytes))
        }
        Found::Open(span, so_far) => {
            let start = span.start;
            let end = piece.end;
            Found::Open(
                Span { start, end },
                next_piece_read(so_far, piece.kind, bytes),
            )
        }
        Found::One(_, class) => Found::Many(class),
        Found::Many(class) => Found::Many(class),
    }
}

/// What one piece more leaves.
fn with_piece(found: Found, start: usize, piece: PlacedPiece, bytes: &[u8]) -> Found
    requires { piece.end ≡ start + length bytes.now }
    ensures { Takes found piece.kind bytes.now start result }
{
    match role_of(piece.kind) {
        Role::Skipped => found,
        Role::Cuts => ended(found),
        Role::Stands => with_standing(found, start, piece, bytes),
    }
}

/// Reads the statements and the parameters of a text.
pub(crate) fn scan_pieces<'a>(
    text: &'a [u8],
    parameters: &mut Parameters<'a>,
) -> Result<Scan, ScanFail>
    requires empty { parameters.old ≡ [] }
    ensures ok { IfOk result (λ scan. IsScanOf text.now scan parameters.new) }
    ensures unclosed { IfErr result (λ fail. (at : ℕ) → fail ≡ ScanFail.Unclosed at → unclosed_at text.now ≡ Some at) }
{
    let mut found = Found::Nothing;
    let mut fit = true;
    let mut at = 0;
    while at < text.len() {
        let piece = piece_at(text, at);
        if is_unclosed(piece.kind) {
            return Err(ScanFail::Unclosed { at });
        }
        let bytes = &text[at..piece.end];
        found = with_piece(found, at, piece, bytes);
        if fit && is_parameter(piece.kind) {
            fit = take_next(parameters, bytes)?;
        }
        at = piece.end;
    }
    Ok(Scan { found, fit })
}

/// The class of the first statement, where the pieces to come can't change it.
fn class_known(found: Found) -> Option<Class>
    ensures { (spans : List Span) (class : Class) (later : List Placed) → Gives found spans class later → IfSome result (λ known. class ≡ known) }
{
    match found {
        Found::Open(_, ClassSoFar::Settled(class)) => Some(class),
        Found::One(_, class) => Some(class),
        Found::Many(class) => Some(class),
        _ => None,
    }
}

/// The class of the first statement of a text that ends here.
fn class_at_end(found: Found) -> Class
    ensures { (spans : List Span) (class : Class) → Gives found spans class [] → class ≡ result }
{
    match found {
        Found::Nothing => Class::Empty,
        Found::Open(_, so_far) => class_here(so_far),
        Found::One(_, class) => class,
        Found::Many(class) => class,
    }
}

/// The class of a text. It takes no memory.
pub fn class_of(sql: &str) -> Class
    ensures { result ≡ class_of_text sql.now }
{
    let text = sql.as_bytes();
    let mut found = Found::Nothing;
    let mut at = 0;
    while at < text.len() {
        let piece = piece_at(text, at);
        found = with_piece(found, at, piece, &text[at..piece.end]);
        if let Some(class) = class_known(found) {
            return class;
        }
        at = piece.end;
    }
    class_at_end(found)
}
