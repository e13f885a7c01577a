// The queries of the dialect.
ghost use Rattle.std.specs.Prelude.{◌≡◌};

use hrana_value::{Bytes, List, NoMemory, Txt};
use thiserror::Error;

/// Why a text is no query.
#[derive(Clone, Copy, Debug, PartialEq, Eq, Error)]
pub enum DialectFail {
    /// The byte where the first piece starts that can't follow those before it, or the length of the text where more
    /// is needed.
    #[error("the text is no query: it stops at byte {at}")]
    Syntax { at: usize },
    #[error("memory ran out")]
    NoMemory,
}

impl From<NoMemory> for DialectFail {
    ghost use Rattle.std.specs.Prelude.{◌≡◌};
    ghost use Rattle.keeper_dialect.specs.declared.query.DialectFail.TheVariants.{NoMemory as OutOfMemory};

    ghost from_gives = { λ _ e. e ≡ OutOfMemory };

    fn from(_: NoMemory) -> Self {
        DialectFail::NoMemory
    }
}

/// The smallest part of an expression. A number has its sign in it, and a parameter is from 1 to 256.
#[derive(Debug, Drop)]
pub enum Term {
    Number(i64),
    Text(Txt),
    Blob(Bytes),
    Null,
    Param(u16),
    Name(Txt),
}

/// The operators of an expression with their terms, from the left.
pub type Adds = List<Add>;

/// The columns of a table.
pub type ColDefs = List<ColDef>;

/// Names as they were declared.
pub type NameList = List<Txt>;

/// A tuple: one expression a column.
pub type Exprs = List<Expr>;

/// The tuples of an insert.
pub type Tuples = List<Exprs>;

/// What an update sets.
pub type ColExprs = List<ColExpr>;

/// What a select shows.
pub type Items = List<Item>;

/// A term that is added, or with `minus` taken away.
#[derive(Debug, Drop)]
pub struct Add {
    pub minus: bool,
    pub term: Term,
}

/// A term, and what is added to it from the left.
#[derive(Debug, Drop)]
pub struct Expr {
    pub first: Term,
    pub rest: Adds,
}

/// A column of a `CREATE TABLE`.
#[derive(Debug, Drop)]
pub struct ColDef {
    pub name: Txt,
    /// Whether it is the primary key.
    pub key: bool,
}

/// A column and an expression: what a `WHERE` compares, or what an `UPDATE` sets.
#[derive(Debug, Drop)]
pub struct ColExpr {
    pub column: Txt,
    pub expr: Expr,
}

/// An expression that a `SELECT` shows, and its source text, which names the column of the answer.
#[derive(Debug, Drop)]
pub struct Item {
    pub text: Txt,
    pub expr: Expr,
}

/// What a `SELECT` shows.
#[derive(Debug, Drop)]
pub enum Shown {
    List(Items),
    /// `*`
    All,
    /// `COUNT(*)`, with its source text.
    Count { text: Txt },
}

/// A statement of the dialect. Names stand as they were written, without quotes.
#[derive(Debug, Drop)]
pub enum Query {
    Create {
        table: Txt,
        cols: ColDefs,
    },
    Insert {
        table: Txt,
        names: Option<NameList>,
        tuples: Tuples,
    },
    Select {
        shown: Shown,
        table: Option<Txt>,
        filter: Option<ColExpr>,
    },
    Update {
        table: Txt,
        sets: ColExprs,
        filter: Option<ColExpr>,
    },
    Delete {
        table: Txt,
        filter: Option<ColExpr>,
    },
}
