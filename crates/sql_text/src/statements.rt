// The one statement of a text.
ghost use Rattle.std.specs.Prelude.{◌≡◌, ℕ, Some, IfOk, IfErr};
ghost use Rattle.sql_text.specs.Class.{class_of_text};
ghost use Rattle.sql_text.specs.Spans.{spans_of, unclosed_at};
ghost use Rattle.sql_text.specs.Statements.{IsStatementOf, HasNoStatement, HasManyStatements, EachRunHasItsPieces, EachStatementReadsAsItsText};

use crate::spans::{SplitFail, split};
use std::alloc::Global;

/// Why a text hasn't one statement.
#[derive(Clone, Copy, Debug, PartialEq, Eq)]
pub enum StatementFail {
    /// The quote or comment that starts at this byte has no end.
    Unclosed { at: usize },
    /// Nothing but blanks, comments and semicolons.
    Empty,
    /// Two statements or more.
    Many,
    NoMemory,
}

impl From<SplitFail> for StatementFail {
    ghost use Rattle.std.specs.Prelude.{◌≡◌};
    ghost use Rattle.sql_text.specs.Statements.{from_split};

    ghost from_gives = { λ split e. e ≡ from_split split };

    fn from(fail: SplitFail) -> Self {
        match fail {
            SplitFail::Unclosed { at } => StatementFail::Unclosed { at },
            SplitFail::NoMemory => StatementFail::NoMemory,
        }
    }
}

/// Closed pieces that stand side by side in a text, cut out of it and read alone, are the same pieces.
pub fn each_run_has_its_pieces()
    ensures { EachRunHasItsPieces }
{}

/// The one statement of a text, read alone, is its own one statement, and has the class of the text and the values of
/// its parameters.
pub fn each_statement_reads_as_its_text()
    ensures { EachStatementReadsAsItsText }
{}

/// The text of the one statement of a text, from its first piece to its last that is neither blank nor comment.
/// Memory is taken for the spans alone.
pub fn statement_of(alloc: Global, sql: &str) -> Result<&str, StatementFail>
    ensures statement { IfOk result (λ statement. IsStatementOf sql.now statement.now) }
    ensures class { IfOk result (λ statement. class_of_text statement.now ≡ class_of_text sql.now) }
    ensures unclosed { IfErr result (λ fail. (at : ℕ) → fail ≡ StatementFail.Unclosed at → unclosed_at sql.now ≡ Some at) }
    ensures empty { IfErr result (λ fail. fail ≡ StatementFail.Empty → HasNoStatement sql.now) }
    ensures many { IfErr result (λ fail. fail ≡ StatementFail.Many → HasManyStatements sql.now) }
{
    let spans = split(alloc, sql)?;
    match spans.as_slice() {
        [] => Err(StatementFail::Empty),
        [span] => Ok(&sql[span.start..span.end]),
        _ => Err(StatementFail::Many),
    }
}
