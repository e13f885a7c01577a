//! Tests of journals and of the program, as tables. What the contracts say is proved where it stands, so these are of what
//! no clause says: that calls succeed where there is memory, texts that come from outside, and what goes on after a
//! failure.
#![tactic(auto)]

#[cfg(test)]
mod exchanges;
#[cfg(test)]
mod hub;
#[cfg(test)]
mod journal;
#[cfg(test)]
mod moments;
#[cfg(test)]
mod played;
#[cfg(test)]
mod replay;
