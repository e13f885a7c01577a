// The number of a step that a condition names.
ghost use Rattle.serde_json.specs.View.{view};
ghost use Rattle.hrana_value.specs.Declines.{Reads};
ghost use Rattle.hrana_value.specs.Members.{Uint32Tree};
ghost use Rattle.hrana_batch.specs.Tree.{StepNumberStands};

use hrana_value::{Decline, ReadFail};
use serde_json::Value as Json;

/// Reads the number of a step before `step`. What is no such number is `BadStep`, unless it is negative.
pub fn step_number_of_json(step: usize, json: &Json) -> Result<u32, ReadFail>
    ensures { Reads (λ n. Uint32Tree n (view json.now)) (StepNumberStands step (view json.now)) result }
{
    let Some(number) = json.as_u64() else {
        return match json.as_i64() {
            Some(_) => Err(ReadFail::Declined(Decline::Range)),
            None => Err(ReadFail::Declined(Decline::Shape)),
        };
    };
    if number >= step as u64 {
        return Err(ReadFail::Declined(Decline::BadStep));
    }
    match u32::try_from(number) {
        Ok(number) => Ok(number),
        Err(_) => Err(ReadFail::Declined(Decline::BadStep)),
    }
}
