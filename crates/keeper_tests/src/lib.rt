//! Tests of the public calls of engines, keepers, batons, fronts and the table of turns, as tables. What the contracts say is proved
//! where it stands, so these are of what no clause says: that calls succeed where there is memory, texts that come from
//! outside, and what goes on after a failure.
#![tactic(auto)]

#[cfg(test)]
mod batons;
#[cfg(test)]
mod dialect;
#[cfg(test)]
mod fronts;
#[cfg(test)]
mod keeper;
#[cfg(test)]
mod outside;
#[cfg(test)]
mod turns;
