//! The rows of a table: which of them a condition chooses, the constraint of their key, and an index by it.
#![tactic(auto)]

mod conditions;
mod constraint;
mod keys;
mod leaving;
mod rekeying;
mod row;
mod rows;
mod spans;

pub use conditions::{chosen_count, is_chosen};
pub use constraint::breaks_key;
pub use keys::put_vec;
pub use row::Row;
pub use rows::TableRows;
pub use spans::{PlaceSpan, rows_at};
