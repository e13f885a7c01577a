// Tokens in memory.
ghost use Rattle.std.specs.Prelude.{◌≡◌, Some, IfOk, []};

use crate::{Failed, ListedCalls, NoMemory, Tokens};
use std::alloc::Global;

/// Tokens in memory, each word of which is 0, with a list of the calls that fail, counted from 1.
#[derive(Drop)]
pub struct CountTokens {
    listed: ListedCalls,
}

impl CountTokens {
    ghost use Rattle.engine_core.specs.Listed.{token_calls};

    pub fn new(alloc: Global, fail_at: &[u64]) -> Result<CountTokens, NoMemory>
        ensures drawn { IfOk result (λ t. ⟦<CountTokens as Tokens>⟧.drawn t ≡ Some []) }
        ensures calls { IfOk result (λ t. token_calls t ≡ record { fail_at = fail_at.now; calls = 0 }) }
    {
        Ok(CountTokens {
            listed: ListedCalls::new(alloc, fail_at)?,
        })
    }
}

impl Tokens for CountTokens {
    ghost use Rattle.std.specs.Prelude.{◌∷◌, OnOk, is_err};
    ghost use Rattle.engine_core.specs.Causes.{HasCause};
    ghost use Rattle.engine_core.specs.Draws.{token_draws, TellsDraw};
    ghost use Rattle.engine_core.specs.Listed.{token_calls, token_faults, FailsAsListed};

    ghost drawn = { λ t. Some (token_draws t) };

    ghost faults = { token_faults };

    /// Fails exactly at the listed calls.
    fn words(&mut self) -> Result<[u64; 2], Failed>
        ensures draw { TellsDraw (Some (token_draws self.old)) (Some (token_draws self.new)) result }
        ensures cause { HasCause (token_faults self.old) (token_faults self.new) result }
        ensures listed { FailsAsListed (token_calls self.old) (token_calls self.new) (is_err result) }
        ensures zeros { IfOk result (λ words. words ≡ 0 ∷ 0 ∷ []) }
        ensures no_fault { OnOk result (token_faults self.new ≡ token_faults self.old) }
    {
        if self.listed.fails() {
            return Err(Failed);
        }
        Ok([0, 0])
    }
}
