// The statements of a text, as spans.
ghost use Rattle.std.specs.Prelude.{◌≡◌, ◌++◌, ℕ, None, Some, length, All, IfOk, IfErr, OnOk, OnErr};
ghost use Rattle.sql_text.specs.Spans.{spans_of, unclosed_at, AreInOrder, grown, closed_span, is_unclosed, EachPieceIsItsSlice, StandsBetween};

use crate::class::{Role, role_of};
use crate::pieces::{PieceKind, piece_at};
use hrana_value::NoMemory;
use std::alloc::Global;

/// A statement of a text, from its first byte to the byte before `end`.
#[derive(Clone, Copy, Debug, PartialEq, Eq)]
pub struct Span {
    pub start: usize,
    pub end: usize,
}

/// Why a text wasn't split.
#[derive(Clone, Copy, Debug, PartialEq, Eq)]
pub enum SplitFail {
    /// The quote or comment that starts at this byte has no end.
    Unclosed { at: usize },
    NoMemory,
}

impl From<NoMemory> for SplitFail {
    ghost use Rattle.std.specs.Prelude.{◌≡◌};
    ghost use Rattle.sql_text.specs.declared.spans.SplitFail.TheVariants.{NoMemory as OutOfMemory};

    ghost from_gives = { λ _ e. e ≡ OutOfMemory };

    fn from(_: NoMemory) -> Self {
        SplitFail::NoMemory
    }
}

pub(crate) fn is_unclosed(kind: PieceKind) -> bool
    ensures { result ≡ is_unclosed kind }
{
    matches!(kind, PieceKind::Unclosed)
}

/// What stood open, made longer by a piece.
fn grown(current: Option<Span>, start: usize, end: usize) -> Span
    ensures { result ≡ grown current start end }
{
    match current {
        None => Span { start, end },
        Some(span) => Span {
            start: span.start,
            end,
        },
    }
}

/// Adds the span that stood open.
fn close(spans: &mut Vec<Span>, current: Option<Span>) -> Result<(), NoMemory>
    ensures ok { OnOk result (spans.new.items ≡ spans.old.items ++ closed_span current) }
{
    if let Some(span) = current {
        spans.push(span)?;
    }
    Ok(())
}

/// The spans of the statements of a text. A statement runs from its first piece to its last that is neither blank
/// nor comment; a part of nothing else is none. Memory is taken for the spans alone.
pub fn split(alloc: Global, sql: &str) -> Result<Vec<Span>, SplitFail>
    ensures spans { IfOk result (λ spans. spans.items ≡ spans_of sql.now) }
    ensures in_order { IfOk result (λ spans. AreInOrder 0 (length sql.now) spans.items) }
    ensures between { IfOk result (λ spans. All (StandsBetween sql.now) spans.items) }
    ensures closed { IfOk result (λ _. unclosed_at sql.now ≡ None) }
    ensures unclosed { IfErr result (λ fail. (at : ℕ) → fail ≡ SplitFail.Unclosed at → unclosed_at sql.now ≡ Some at) }
{
    let text = sql.as_bytes();
    let mut spans: Vec<Span> = Vec::new(alloc);
    let mut current: Option<Span> = None;
    let mut at = 0;
    while at < text.len() {
        let piece = piece_at(text, at);
        if is_unclosed(piece.kind) {
            return Err(SplitFail::Unclosed { at });
        }
        match role_of(piece.kind) {
            Role::Skipped => {}
            Role::Cuts => {
                close(&mut spans, current)?;
                current = None;
            }
            Role::Stands => {
                current = Some(grown(current, at, piece.end));
            }
        }
        at = piece.end;
    }
    close(&mut spans, current)?;
    Ok(spans)
}

/// Each piece is the slice of its text from its place to its end.
pub fn each_piece_is_its_slice()
    ensures { EachPieceIsItsSlice }
{}
