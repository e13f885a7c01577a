use hrana_value::{List, Txt, Value, Values};

/// What a statement runs: its text, or the number of a stored text.
#[derive(Debug, Drop)]
pub enum SqlRef {
    Text(Txt),
    Id(i32),
}

/// An argument for a parameter with a name. The name may stand with the parameter's prefix or without it.
#[derive(Debug, Drop)]
pub struct NamedArg {
    pub name: Txt,
    pub value: Value,
}

/// A list of named arguments.
pub type NamedArgs = List<NamedArg>;

/// A statement with its arguments.
#[derive(Debug, Drop)]
pub struct Stmt {
    pub sql: SqlRef,
    pub args: Values,
    pub named: NamedArgs,
    /// Whether the rows of the result are to be sent.
    pub want_rows: bool,
}
