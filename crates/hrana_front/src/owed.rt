// How many answers a connection waits for.
ghost use Rattle.std.specs.Prelude.{◌≡◌, ◌-◌};
ghost use Rattle.hrana_front.specs.Owed.{awaits_answer, owed_after_take};

use crate::Took;

/// Whether what came in is answered by an out.
pub fn awaits_answer(took: &Took) -> bool
    ensures { result ≡ awaits_answer took.now }
{
    match took {
        Took::Text(_) | Took::Binary | Took::Exchange(_) | Took::Refused(_) => true,
        Took::Opened | Took::NotYet | Took::Gone => false,
    }
}

/// The answers that a connection waits for after a `take`. The count stays at its last value once it is there.
pub fn owed_after_take(owed: u32, took: &Took) -> u32
    ensures { result ≡ owed_after_take owed took.now }
{
    if awaits_answer(took) && owed < u32::MAX {
        owed + 1
    } else {
        owed
    }
}

/// The answers that a connection waits for after a `put`, each of which answers one thing.
pub fn owed_after_put(owed: u32) -> u32
    ensures { result ≡ owed - 1 }
{
    owed.saturating_sub(1)
}
