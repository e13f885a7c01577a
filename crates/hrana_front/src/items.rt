// What a front in memory is to give.
use crate::Took;
use hrana_value::List;

/// What a front in memory is to give, by `accept` or by `take` on a connection.
#[derive(Drop)]
pub enum FrontItem {
    /// The next connection.
    New,
    Take(u32, Took),
    Stop,
}

/// A list of items.
pub type FrontItems = List<FrontItem>;
