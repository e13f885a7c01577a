// When a condition holds.
ghost use Rattle.std.specs.Prelude.{◌≡◌, ◌<◌, length, slice_get, map};
ghost use Rattle.std.specs.List.{list_all, list_any};
ghost use Rattle.hrana_batch.specs.Conditions.{holds_on, NamesBelow, AllNameBelow, is_done, is_failed};

use crate::{Cond, Outcome};

fn is_done_at(outcomes: &[Outcome], step: u32) -> bool
    requires { step < length outcomes.now }
    ensures { result ≡ is_done (slice_get outcomes.now step) }
{
    matches!(&outcomes[step as usize], Outcome::Done(_))
}

fn is_failed_at(outcomes: &[Outcome], step: u32) -> bool
    requires { step < length outcomes.now }
    ensures { result ≡ is_failed (slice_get outcomes.now step) }
{
    matches!(&outcomes[step as usize], Outcome::Failed(_))
}

/// Whether a condition holds, after these outcomes. `auto` is whether the session is in autocommit. Takes no memory.
#[cycle(holds)]
pub fn holds(cond: &Cond, outcomes: &[Outcome], auto: bool) -> bool
    requires { NamesBelow (length outcomes.now) cond.now }
    ensures { result ≡ holds_on outcomes.now auto cond.now }
{
    match cond {
        Cond::StepOk(step) => is_done_at(outcomes, *step),
        Cond::StepError(step) => is_failed_at(outcomes, *step),
        Cond::Not(part) => !holds(part.get(), outcomes, auto),
        Cond::All(parts) => all_hold(parts.as_slice(), outcomes, auto),
        Cond::Any(parts) => any_holds(parts.as_slice(), outcomes, auto),
        Cond::Autocommit => auto,
    }
}

#[cycle(holds)]
fn all_hold(parts: &[Cond], outcomes: &[Outcome], auto: bool) -> bool
    requires { AllNameBelow (length outcomes.now) parts.now }
    ensures { result ≡ list_all (λ b. b) (map (holds_on outcomes.now auto) parts.now) }
{
    for part in parts {
        if !holds(part, outcomes, auto) {
            return false;
        }
    }
    true
}

#[cycle(holds)]
fn any_holds(parts: &[Cond], outcomes: &[Outcome], auto: bool) -> bool
    requires { AllNameBelow (length outcomes.now) parts.now }
    ensures { result ≡ list_any (λ b. b) (map (holds_on outcomes.now auto) parts.now) }
{
    for part in parts {
        if holds(part, outcomes, auto) {
            return true;
        }
    }
    false
}
