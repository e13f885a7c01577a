// Copies of entries and of what they hold.
use crate::{Answer, BoundStmt, Entry};
use hrana_value::{Duplicate, NoMemory};
use std::alloc::Global;

impl Duplicate for BoundStmt {
    fn copy(&self, alloc: Global) -> Result<BoundStmt, NoMemory> {
        Ok(BoundStmt {
            sql: self.sql.copy(alloc)?,
            class: self.class,
            values: self.values.copy(alloc)?,
        })
    }
}

impl Duplicate for Answer {
    fn copy(&self, alloc: Global) -> Result<Answer, NoMemory> {
        match self {
            Answer::Gave(given) => Ok(Answer::Gave(given.copy(alloc)?)),
            Answer::Refused(code) => Ok(Answer::Refused(*code)),
        }
    }
}

impl Duplicate for Entry {
    fn copy(&self, alloc: Global) -> Result<Entry, NoMemory> {
        match self {
            Entry::Alone {
                stream,
                stmt,
                answer,
                wrote,
            } => Ok(Entry::Alone {
                stream: *stream,
                stmt: stmt.copy(alloc)?,
                answer: answer.copy(alloc)?,
                wrote: *wrote,
            }),
            Entry::Began { unit, stream } => Ok(Entry::Began {
                unit: *unit,
                stream: *stream,
            }),
            Entry::Ran { unit, stmt, answer } => Ok(Entry::Ran {
                unit: *unit,
                stmt: stmt.copy(alloc)?,
                answer: answer.copy(alloc)?,
            }),
            Entry::Denied { unit, deny } => Ok(Entry::Denied {
                unit: *unit,
                deny: *deny,
            }),
            Entry::Ended { unit, how } => Ok(Entry::Ended {
                unit: *unit,
                how: *how,
            }),
            Entry::Failed {
                stream,
                unit,
                cause,
            } => Ok(Entry::Failed {
                stream: *stream,
                unit: *unit,
                cause: *cause,
            }),
        }
    }
}
