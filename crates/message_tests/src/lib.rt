//! Tests of the public calls that read and write messages, values, SQL texts and HTTP, as tables. What the contracts say is
//! proved where it stands, so these are of what no clause says: that calls succeed where there is memory, and texts that
//! come from outside.
#![tactic(auto)]

#[cfg(test)]
mod batches;
#[cfg(test)]
mod exchanges;
#[cfg(test)]
mod messages;
#[cfg(test)]
mod pipelines;
#[cfg(test)]
mod requests;
#[cfg(test)]
mod sql_texts;
#[cfg(test)]
mod statements;
#[cfg(test)]
mod tables;
#[cfg(test)]
mod values;
#[cfg(test)]
mod wire;
