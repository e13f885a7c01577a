// The calls of an object in memory that fail.
ghost use Rattle.std.specs.Prelude.{◌≡◌, ◌↔◌, ◌≤◌, IfOk, IsTrue, false};
ghost use Rattle.engine_core.specs.Causes.{Rose};
ghost use Rattle.engine_core.specs.Listed.{calls_of, faults_of, FailsAsListed};

use hrana_value::NoMemory;
use std::alloc::Global;

/// The calls of an object in memory that fail, by their numbers, counted from 1, and how many calls and faults there
/// were.
#[derive(Drop)]
pub struct ListedCalls {
    fail_at: Vec<u64>,
    calls: u64,
    faults: u64,
}

impl ListedCalls {
    pub fn new(alloc: Global, fail_at: &[u64]) -> Result<ListedCalls, NoMemory>
        ensures { IfOk result (λ l. calls_of l ≡ record { fail_at = fail_at.now; calls = 0 }) }
    {
        Ok(ListedCalls {
            fail_at: fail_at.to_vec(alloc)?,
            calls: 0,
            faults: 0,
        })
    }

    /// Counts a call, and says whether it is one of those that fail. Such a call is a fault.
    pub fn fails(&mut self) -> bool
        ensures calls { FailsAsListed (calls_of self.old) (calls_of self.new) result }
        ensures later { faults_of self.old ≤ faults_of self.new }
        ensures rose { IsTrue result → Rose (faults_of self.old) (faults_of self.new) }
        ensures same { result ≡ false → faults_of self.new ≡ faults_of self.old }
    {
        self.calls = self.calls.saturating_add(1);
        let fails = self.fail_at.contains(&self.calls);
        if fails {
            self.faults = self.faults.saturating_add(1);
        }
        fails
    }
}
