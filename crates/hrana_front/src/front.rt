// A front: connections come in by it, and outs go out.
ghost use Rattle.std.specs.Prelude.{◌≡◌, ◌≢◌, ◌≤◌, ℕ, List, Option, IfOk};
ghost use Rattle.engine_core.specs.Causes.{Rose};
ghost use Rattle.http_wire.specs.declared.outs.Outs.{Outs};
ghost use Rattle.hrana_front.specs.Front.{listen_call, accept_call, take_call, put_call, with_call, given_after, IsNext, with_put};
ghost use Rattle.hrana_front.specs.declared.calls.FrontCall.{FrontCall};

use crate::NoMemory;
use hrana_value::Bytes;
use http_wire::{HttpAsk, Outs, WireFail};

/// Why a front didn't listen or accept.
#[derive(Clone, Copy, Debug, PartialEq, Eq)]
pub enum FrontFail {
    /// The front broke, or has no number for one more connection.
    Failed,
    NoMemory,
}

impl From<NoMemory> for FrontFail {
    ghost use Rattle.hrana_front.specs.declared.front.FrontFail.TheVariants as fail;

    ghost from_gives = { λ _ e. e ≡ fail.NoMemory };

    fn from(_: NoMemory) -> Self {
        FrontFail::NoMemory
    }
}

/// What a front has accepted.
#[derive(Clone, Copy, Debug, PartialEq, Eq)]
pub enum Accepted {
    /// A connection, by its number. Numbers rise from 1.
    New(u32),
    NotYet,
    /// The run is to end.
    Stop,
}

/// What came in on a connection.
#[derive(Drop)]
pub enum Took {
    /// The connection was upgraded to WebSocket.
    Opened,
    /// A message of text.
    Text(Bytes),
    /// A message of bytes.
    Binary,
    /// A request.
    Exchange(HttpAsk),
    /// What came is refused, and is to be answered so.
    Refused(WireFail),
    NotYet,
    /// The connection is gone.
    Gone,
}

/// What became of an out.
#[derive(Clone, Copy, Debug, PartialEq, Eq)]
pub enum Put {
    Sent,
    /// The connection is gone.
    Gone,
}

pub trait Front {
    /// The calls so far with their answers, where the front tells them. A call that had no memory isn't among them.
    ghost told: { Self → Option (List FrontCall) };

    /// How many connections it has given.
    ghost given: { Self → ℕ };

    /// The outs that were put, where the front tells them, also those whose connection was gone.
    ghost puts: { Self → Option (List Outs) };

    /// How often it has failed.
    ghost faults: { Self → ℕ };

    /// Listens at an address.
    fn listen(&mut self, addr: &str) -> Result<(), FrontFail>
        ensures told { told self.new ≡ with_call (told self.old) (listen_call addr.now result) }
        ensures given { given self.new ≡ given self.old }
        ensures puts { puts self.new ≡ puts self.old }
        ensures failed { result ≡ Err FrontFail.Failed → Rose (faults self.old) (faults self.new) }
        ensures later { faults self.old ≤ faults self.new };

    /// Accepts the next connection, where there is one.
    fn accept(&mut self) -> Result<Accepted, FrontFail>
        ensures told { told self.new ≡ with_call (told self.old) (accept_call result) }
        ensures next { IfOk result (IsNext (given self.old)) }
        ensures given { given self.new ≡ given_after (given self.old) result }
        ensures puts { puts self.new ≡ puts self.old }
        ensures failed { result ≡ Err FrontFail.Failed → Rose (faults self.old) (faults self.new) }
        ensures later { faults self.old ≤ faults self.new };

    /// Takes what came in next on a connection.
    fn take(&mut self, conn: u32) -> Result<Took, NoMemory>
        ensures told { told self.new ≡ with_call (told self.old) (take_call conn result) }
        ensures given { given self.new ≡ given self.old }
        ensures puts { puts self.new ≡ puts self.old }
        ensures refused { result ≢ Ok (Took.Refused WireFail.NoMemory) }
        ensures gone { result ≡ Ok Took.Gone → Rose (faults self.old) (faults self.new) }
        ensures later { faults self.old ≤ faults self.new };

    /// Sends what an event gave on its connection.
    fn put(&mut self, outs: Outs) -> Result<Put, NoMemory>
        ensures told { told self.new ≡ with_call (told self.old) (put_call outs result) }
        ensures given { given self.new ≡ given self.old }
        ensures puts { puts self.new ≡ with_put (puts self.old) outs result }
        ensures gone { result ≡ Ok Put.Gone → Rose (faults self.old) (faults self.new) }
        ensures later { faults self.old ≤ faults self.new };
}
