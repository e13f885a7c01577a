//! Tests of streams over one engine and one table of turns, as tables. What the contracts say is proved where it stands, so
//! these are of what no clause says: that polls succeed where there is memory, replies as they are written, and what goes on
//! after a failure.
#![tactic(auto)]

pub mod desk;
#[cfg(test)]
mod playing;
#[cfg(test)]
mod replies;
#[cfg(test)]
mod streams;
#[cfg(test)]
mod texts;
