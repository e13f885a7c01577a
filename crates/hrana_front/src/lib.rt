//! The trait of a front, by which connections come in and outs go out, what stands for it in memory, and a front over
//! sockets.
#![tactic(auto)]

mod calls;
mod copies;
mod door;
mod ends;
mod front;
mod items;
mod leaving;
mod line;
mod memory_front;
mod owed;
mod pace;
mod peer;
mod peers;
mod plain;
mod socket_front;
mod socket_limits;
mod sockets;
mod unsent;
mod waiting;
mod web;

pub use calls::FrontCall;
pub use front::{Accepted, Front, FrontFail, Put, Took};
pub use hrana_value::NoMemory;
pub use items::{FrontItem, FrontItems};
pub use memory_front::MemoryFront;
pub use socket_front::SocketFront;
pub use socket_limits::{
    BUSY_TURNS, LEAVING_MS, MAX_LEAVING, MAX_MESSAGE_BYTES, MAX_UNSENT_BYTES,
    SHORT_WAIT_MICROSECONDS, WAIT_MICROSECONDS, socket_limits_are,
};
