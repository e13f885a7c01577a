// Why a statement isn't run.
ghost use Rattle.std.specs.Prelude.{◌≡◌};
ghost use Rattle.keeper_formulas.specs.Refusals.{code_of};

use hrana_stmt::Code;
use hrana_value::NoMemory;
use std::alloc::AllocFailed;

/// Why a statement is refused.
#[derive(Clone, Copy, Debug, PartialEq, Eq)]
pub enum Refusal {
    /// The text is no query of the dialect.
    Syntax,
    NoTable,
    NoColumn,
    TableExists,
    Constraint,
    /// A side of `+` or `-` is a text or a blob.
    BadType,
    /// A sum or a rowid is too large.
    Overflow,
    ResultTooLarge,
}

/// The code that a refusal is answered with.
pub fn code_of(refusal: Refusal) -> Code
    ensures { result ≡ code_of refusal }
{
    match refusal {
        Refusal::Syntax => Code::Syntax,
        Refusal::NoTable => Code::NoTable,
        Refusal::NoColumn => Code::NoColumn,
        Refusal::TableExists => Code::TableExists,
        Refusal::Constraint => Code::Constraint,
        Refusal::BadType => Code::BadType,
        Refusal::Overflow => Code::Overflow,
        Refusal::ResultTooLarge => Code::ResultTooLarge,
    }
}

/// Why a statement, or a part of one, gave no result.
#[derive(Clone, Copy, Debug, PartialEq, Eq)]
pub enum Fail {
    Refused(Refusal),
    NoMemory,
}

impl From<NoMemory> for Fail {
    ghost use Rattle.keeper_formulas.specs.declared.fail.Fail.TheVariants as fail;

    ghost from_gives = { λ _ e. e ≡ fail.NoMemory };

    fn from(_: NoMemory) -> Fail {
        Fail::NoMemory
    }
}

impl<T: Drop> From<AllocFailed<T>> for Fail {
    ghost use Rattle.keeper_formulas.specs.declared.fail.Fail.TheVariants as fail;

    ghost from_gives = { λ _ e. e ≡ fail.NoMemory };

    fn from(_: AllocFailed<T>) -> Fail {
        Fail::NoMemory
    }
}

impl From<Refusal> for Fail {
    ghost use Rattle.keeper_formulas.specs.declared.fail.Fail.TheVariants as fail;

    ghost from_gives = { λ refusal e. e ≡ fail.Refused refusal };

    fn from(refusal: Refusal) -> Fail {
        Fail::Refused(refusal)
    }
}
