// When a front over sockets waits.

use crate::socket_limits::{BUSY_TURNS, SHORT_WAIT_MICROSECONDS, WAIT_MICROSECONDS};

/// How long a turn waits for something to come in.
#[derive(Clone, Copy, Debug, PartialEq, Eq)]
pub enum Wait {
    AtOnce,
    Short,
    Long,
}

impl Wait {
    ghost use Rattle.std.specs.Prelude.{◌≡◌};
    ghost use Rattle.hrana_front.specs.Pace.{microseconds_of};

    pub fn microseconds(self) -> u64
        ensures { result ≡ microseconds_of self }
    {
        match self {
            Wait::AtOnce => 0,
            Wait::Short => SHORT_WAIT_MICROSECONDS,
            Wait::Long => WAIT_MICROSECONDS,
        }
    }
}

/// The turns of the loop above, as its calls show them: one begins with a call of `accept`, or with a `take` on a number
/// not above that of the turn's last `take`.
#[derive(Clone, Copy)]
pub struct Pace {
    /// The connection of the turn's last `take`, 0 before the first.
    pub last: u32,
    /// Whether the turn brought something.
    pub brought: bool,
    /// How many turns before this one, in a row, brought nothing. It isn't counted beyond `BUSY_TURNS`.
    pub idle: u32,
}

impl Pace {
    ghost use Rattle.std.specs.Prelude.{◌≡◌, ◌≤◌, ◌∷◌, [], List, Bool, nat_le, true};
    ghost use Rattle.hrana_front.specs.Pace.{Counts, quiet_turns, pace_at_first, turn_begun, wait_of};

    #[tactic(auto, unfolding(crate::specs::Pace::quiet_turns))]
    pub fn new() -> Pace
        ensures at_first { result ≡ pace_at_first }
        ensures counts { Counts result [] }
    {
        Pace {
            last: 0,
            brought: true,
            idle: 0,
        }
    }

    /// Whether a `take` on a connection begins a turn.
    pub fn begins_with(&self, conn: u32) -> bool
        ensures { result ≡ nat_le conn self.now.last }
    {
        conn <= self.last
    }

    /// Begins a turn.
    #[tactic(auto, unfolding(crate::specs::Pace::quiet_turns))]
    pub fn begin(&mut self)
        ensures begun { self.new ≡ turn_begun self.old }
        ensures counts { (turns : List Bool) → Counts self.old turns → Counts self.new (self.old.brought ∷ turns) }
    {
        self.idle = if self.brought {
            0
        } else if self.idle < BUSY_TURNS {
            self.idle + 1
        } else {
            BUSY_TURNS
        };
        self.brought = false;
        self.last = 0;
    }

    /// Notes a `take`.
    pub fn note_take(&mut self, conn: u32)
        ensures { self.new ≡ record self.old { last = conn } }
    {
        self.last = conn;
    }

    /// Notes that a call brought something.
    pub fn note_brought(&mut self)
        ensures { self.new ≡ record self.old { brought = true } }
    {
        self.brought = true;
    }

    /// How long the turn that began waits, where something is unanswered or where something has come that wasn't taken yet.
    pub fn wait(&self, unanswered: bool, ready: bool) -> Wait
        ensures wait { result ≡ wait_of self.now unanswered ready }
        ensures short { (turns : List Bool) → Counts self.now turns → result ≡ Wait.Short → BUSY_TURNS ≤ quiet_turns turns }
    {
        if !unanswered && !ready {
            Wait::Long
        } else if self.idle < BUSY_TURNS {
            Wait::AtOnce
        } else {
            Wait::Short
        }
    }
}
