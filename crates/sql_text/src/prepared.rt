// The one statement of a text with its class and values, by one pass over its pieces.
ghost use Rattle.std.specs.Prelude.{◌≡◌, ℕ, List, [], ◌∷◌, None, Result, IfOk, slice_range};
ghost use Rattle.hrana_value.specs.declared.value.Value.{Value};
ghost use Rattle.sql_text.specs.declared.class.Class.{Class};
ghost use Rattle.sql_text.specs.declared.spans.Span.{Span};
ghost use Rattle.sql_text.specs.declared.binding.BindFail.{BindFail};
ghost use Rattle.sql_text.specs.Class.{class_of_text};
ghost use Rattle.sql_text.specs.Spans.{spans_of};
ghost use Rattle.sql_text.specs.Binding.{AnswersAs};
ghost use Rattle.sql_text.specs.Found.{Gives};
ghost use Rattle.sql_text.specs.Statements.{IsStatementOf};
ghost use Rattle.sql_text.specs.Prepared.{class_refused, with_values, prepared_of, PreparesAs, IsFoundAs};

use crate::binding::{BindFail, bind_scanned};
use crate::class::Class;
use crate::class_words::class_here;
use crate::parameters::Parameters;
use crate::scan::{Found, ScanFail, scan_pieces};
use crate::spans::Span;
use hrana_stmt::NamedArg;
use hrana_value::{NoMemory, Txt, Value, Values};
use std::alloc::Global;

/// A statement that may be run: its text, its class and the values of its parameters.
#[derive(Debug, Drop)]
pub struct Prepared {
    pub sql: Txt,
    pub class: Class,
    pub values: Values,
}

/// Why a text with its arguments wasn't prepared. The first of these that stands is told.
#[derive(Clone, Copy, Debug, PartialEq, Eq)]
pub enum PrepareFail {
    /// The quote or comment that starts at this byte has no end.
    Unclosed { at: usize },
    /// Nothing but blanks, comments and semicolons.
    Empty,
    /// Two statements or more.
    Many,
    /// The statement is of savepoints.
    Savepoint,
    /// The statement's class is `Barred`.
    Barred,
    /// The arguments don't match the parameters.
    Args,
    NoMemory,
}

impl From<BindFail> for PrepareFail {
    ghost use Rattle.std.specs.Prelude.{◌≡◌};
    ghost use Rattle.sql_text.specs.Prepared.{from_bind};

    ghost from_gives = { λ fail e. e ≡ from_bind fail };

    fn from(fail: BindFail) -> Self {
        match fail {
            BindFail::NoMemory => PrepareFail::NoMemory,
            _ => PrepareFail::Args,
        }
    }
}

impl From<NoMemory> for PrepareFail {
    ghost use Rattle.std.specs.Prelude.{◌≡◌};
    ghost use Rattle.sql_text.specs.declared.prepared.PrepareFail.TheVariants.{NoMemory as OutOfMemory};

    ghost from_gives = { λ _ e. e ≡ OutOfMemory };

    fn from(_: NoMemory) -> Self {
        PrepareFail::NoMemory
    }
}

/// Where the one statement of a text stands, and its class.
#[derive(Clone, Copy)]
struct Statement {
    span: Span,
    class: Class,
}

/// The one statement, where all pieces were read.
fn one_found(found: Found) -> Result<Statement, PrepareFail>
    ensures { (spans : List Span) (class : Class) → Gives found spans class [] → IsFoundAs spans class result }
{
    match found {
        Found::Nothing => Err(PrepareFail::Empty),
        Found::Open(span, so_far) => {
            let class = class_here(so_far);
            Ok(Statement { span, class })
        }
        Found::One(span, class) => Ok(Statement { span, class }),
        Found::Many(_) => Err(PrepareFail::Many),
    }
}

/// Why a statement of this class isn't run.
fn class_refused(class: Class) -> Option<PrepareFail>
    ensures { result ≡ class_refused class }
{
    match class {
        Class::Savepoint => Some(PrepareFail::Savepoint),
        Class::Barred => Some(PrepareFail::Barred),
        Class::Empty => Some(PrepareFail::Empty),
        _ => None,
    }
}

/// What stands at the one span of a text.
fn text_at<'a>(sql: &'a str, span: Span) -> &'a str
    requires { spans_of sql.now ≡ span ∷ [] }
    ensures { result.now ≡ slice_range sql.now span.start span.end }
{
    &sql[span.start..span.end]
}

/// A statement with its values, or why there are none.
fn with_values(
    alloc: Global,
    text: &str,
    class: Class,
    values: Result<Values, BindFail>,
) -> Result<Prepared, PrepareFail>
    ensures { (bound : Result (List Value) BindFail) → AnswersAs values bound → PreparesAs result (with_values text.now class bound) }
{
    let values = values?;
    let sql = Txt::new(alloc, text)?;
    Ok(Prepared { sql, class, values })
}

/// The one statement of a text, with its class and a value for each of its parameters. The text is cut into pieces once.
/// Memory is taken for the statement's text and its values, and for a table where a parameter isn't a `?`.
pub fn prepare(
    alloc: Global,
    sql: &str,
    args: &[Value],
    named: &[NamedArg],
) -> Result<Prepared, PrepareFail>
    ensures exact { PreparesAs result (prepared_of sql.now args.now named.now) }
    ensures statement { IfOk result (λ prepared. IsStatementOf sql.now prepared.sql) }
    ensures classed { IfOk result (λ prepared. prepared.class ≡ class_of_text prepared.sql) }
    ensures passed { IfOk result (λ prepared. class_refused prepared.class ≡ None) }
{
    let mut parameters = Parameters::new(alloc);
    let scan = match scan_pieces(sql.as_bytes(), &mut parameters) {
        Ok(scan) => scan,
        Err(ScanFail::Unclosed { at }) => return Err(PrepareFail::Unclosed { at }),
        Err(ScanFail::NoMemory) => return Err(PrepareFail::NoMemory),
    };
    let Statement { span, class } = match one_found(scan.found) {
        Ok(statement) => statement,
        Err(fail) => return Err(fail),
    };
    if let Some(fail) = class_refused(class) {
        return Err(fail);
    }
    let values = bind_scanned(alloc, scan.fit, &parameters, args, named);
    with_values(alloc, text_at(sql, span), class, values)
}
