//! Which calls of a source or a sink in memory fail.
ghost use Rattle.std.specs.Prelude.{◌≡◌, ◌↔◌, ◌≤◌, ◌<◌, ◌-◌, ◌^◌, if◌then◌else◌, IsTrue, Contains};
ghost use Rattle.t1_io.specs.Plan.{fresh_plan, next_call, plan_after_ok, plan_after_failed};

use std::marker::Model;

/// The numbers of the calls that fail, counted from 1, the calls so far, and the faults so far.
#[derive(Drop)]
pub(crate) struct Plan {
    fails: Vec<u32>,
    calls: u64,
    faults: u64,
}

impl Model for Plan {
    ghost use Rattle.std.specs.Prelude.{◌<◌, ◌^◌};
    ghost use Rattle.t1_io.specs.Plan.{Planned};

    ghost Value = { Planned };

    ghost view = { λ p. record { fails = p.fails.items; calls = p.calls; faults = p.faults } };

    ghost invariant = { λ p. p.faults < 2 ^ 64 };
}

impl Plan {
    /// The plan before the first call.
    pub(crate) fn new(fails: Vec<u32>) -> Plan
        ensures { result ≡ fresh_plan fails.items }
    {
        Plan {
            fails,
            calls: 0,
            faults: 0,
        }
    }

    /// Counts one more call, and its fault where the call is named. Says whether the call fails.
    pub(crate) fn next_fails(&mut self) -> bool
        ensures named { IsTrue result ↔ Contains self.old.fails (next_call self.old.calls) }
        ensures after { self.new ≡ (if result then plan_after_failed self.old else plan_after_ok self.old) }
        ensures past { 2 ^ 32 - 1 ≤ self.old.calls → ¬ IsTrue result }
        ensures later { self.old.faults ≤ self.new.faults }
        ensures fits { self.new.faults < 2 ^ 64 }
    {
        self.calls = self.calls.saturating_add(1);
        let number = self.calls;
        let fails = self.fails.iter().any(|&call| u64::from(call) == number);
        if fails {
            self.faults = self.faults.saturating_add(1);
        }
        fails
    }
}
