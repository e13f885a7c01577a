//! SQL texts: the pieces that a text is cut into, its statements, the class of a statement, and the values that
//! arguments give its parameters.
#![tactic(auto)]

mod binding;
mod class;
mod class_words;
mod limits;
mod parameter_table;
mod parameters;
mod pieces;
mod prepared;
mod scan;
mod spans;
mod statements;

pub use binding::{BindFail, bind};
pub use class::{Class, Mode};
pub use limits::{MAX_PARAMETERS, limits_are};
pub use parameters::{Parameters, next_parameter};
pub use pieces::{
    Piece, PieceKind, PlacedPiece, each_text_has_one_list_of_pieces, first_piece, piece_at,
};
pub use prepared::{PrepareFail, Prepared, prepare};
pub use scan::class_of;
pub use spans::{Span, SplitFail, each_piece_is_its_slice, split};
pub use statements::{
    StatementFail, each_run_has_its_pieces, each_statement_reads_as_its_text, statement_of,
};
