// The calls of a front.
use crate::{Accepted, FrontFail, Put, Took};
use hrana_value::Txt;
use http_wire::Outs;

/// A call of a front with its answer: `listen` with its address, `take` with the connection, `put` with its outs.
#[derive(Drop)]
pub enum FrontCall {
    Listen(Txt, Result<(), FrontFail>),
    Accept(Result<Accepted, FrontFail>),
    Take(u32, Took),
    Put(Outs, Put),
}
