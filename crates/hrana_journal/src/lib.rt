//! Journals: one in memory, and one that writes each entry as a line of JSON.
#![tactic(auto)]

mod entry_text;
mod line_journal;
mod memory_journal;

pub use entry_text::line_of;
pub use line_journal::LineJournal;
pub use memory_journal::MemoryJournal;
