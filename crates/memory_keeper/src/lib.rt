//! The SQL engine in memory: tables of values, and the statements of its dialect.
#![tactic(auto)]

mod create;
mod delete;
mod execute;
mod insert;
mod keeper;
mod laws;
mod names;
mod queries;
mod rows;
mod select;
mod tables;
mod update;

pub use keeper::MemoryKeeper;
pub use laws::class_refuses_nothing;
pub use tables::{Database, Table};
