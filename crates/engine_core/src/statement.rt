// A statement as an engine is given it.
ghost use Rattle.std.specs.Prelude.{◌≡◌};
ghost use Rattle.sql_text.specs.Class.{class_of_text};

use hrana_value::{Txt, Values};
use sql_text::Class;

/// A statement with a value for each of its parameters. Its class is that of its text.
#[derive(Debug, Drop)]
pub struct BoundStmt {
    pub sql: Txt,
    pub class: Class,
    pub values: Values,
    pub ghost classed: { class ≡ class_of_text sql },
}
