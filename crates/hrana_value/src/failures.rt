// Why a call could not do its work.
ghost use Rattle.std.specs.Prelude.{◌≡◌};
ghost use Rattle.hrana_value.specs.Declines.{rank_of, earlier_of};

use std::alloc::{AllocError, AllocFailed};

/// Want of memory.
#[derive(Clone, Copy, Debug, PartialEq, Eq)]
pub struct NoMemory;

impl From<AllocError> for NoMemory {
    fn from(_: AllocError) -> Self {
        NoMemory
    }
}

impl<T: Drop> From<AllocFailed<T>> for NoMemory {
    fn from(_: AllocFailed<T>) -> Self {
        NoMemory
    }
}

/// Why a request is declined. Where several kinds stand in one request, the first in this order is answered.
#[derive(Clone, Copy, Debug, PartialEq, Eq)]
pub enum Decline {
    /// The request has another `type`.
    Unknown,
    /// The request is a `describe`.
    Describe,
    /// A needed member is missing, or a member has another form.
    Shape,
    /// A statement or a sequence has both `sql` and `sql_id`, or neither.
    BothSql,
    /// A condition names a step that isn't earlier.
    BadStep,
    /// A number doesn't fit its kind, or a limit is passed.
    Range,
    /// A value is a float.
    Float,
}

impl Decline {
    fn rank(self) -> u8
        ensures { result ≡ rank_of self }
    {
        match self {
            Decline::Unknown => 0,
            Decline::Describe => 1,
            Decline::Shape => 2,
            Decline::BothSql => 3,
            Decline::BadStep => 4,
            Decline::Range => 5,
            Decline::Float => 6,
        }
    }
}

/// Why a JSON tree could not be read.
#[derive(Clone, Copy, Debug, PartialEq, Eq)]
pub enum ReadFail {
    Declined(Decline),
    NoMemory,
}

impl ReadFail {
    /// The failure of a message of which two parts failed: want of memory, or else the earlier kind of decline.
    pub fn earlier(self, other: ReadFail) -> ReadFail
        ensures { result ≡ earlier_of self other }
    {
        match (self, other) {
            (ReadFail::Declined(first), ReadFail::Declined(second)) => {
                if second.rank() < first.rank() {
                    other
                } else {
                    self
                }
            }
            (ReadFail::NoMemory, _) => ReadFail::NoMemory,
            (_, ReadFail::NoMemory) => ReadFail::NoMemory,
        }
    }
}

impl From<NoMemory> for ReadFail {
    ghost use Rattle.std.specs.Prelude.{◌≡◌};
    ghost use Rattle.hrana_value.specs.declared.failures.ReadFail.TheVariants.{NoMemory as OutOfMemory};

    ghost from_gives = { λ _ e. e ≡ OutOfMemory };

    fn from(_: NoMemory) -> Self {
        ReadFail::NoMemory
    }
}

impl From<Decline> for ReadFail {
    ghost use Rattle.std.specs.Prelude.{◌≡◌};
    ghost use Rattle.hrana_value.specs.declared.failures.ReadFail.TheVariants.{Declined};

    ghost from_gives = { λ kind e. e ≡ Declined kind };

    fn from(kind: Decline) -> Self {
        ReadFail::Declined(kind)
    }
}
