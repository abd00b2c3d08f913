//! Which calls are to fail, and how many have failed.
ghost use Rattle.std.specs.Prelude.{◌≡◌, ◌↔◌, ◌+◌, IsTrue, true, false};
ghost use Rattle.walter_faults.specs.Schedules.{planned, NextFails, AddsCall};

use crate::ghost_count::GhostCount;
use std::marker::Model;

/// Which calls fail: those whose numbers are listed, counted from 1. And how many have failed.
#[derive(Drop)]
pub struct Schedule {
    failing: Vec<u64>,
    made: u64,
    faults: GhostCount,
}

impl Model for Schedule {
    ghost use Rattle.std.specs.Prelude.{◌<◌, ◌^◌, All};
    ghost use Rattle.walter_faults.specs.Schedules.{Schedule};

    ghost Value = { Schedule };

    ghost view = { λ s. record { failing = s.failing.items; made = s.made; faults = s.faults.count } };

    ghost invariant = { λ s. All (λ n. n < 2 ^ 64) s.failing.items };
}

impl Schedule {
    /// No call was made yet.
    pub fn new(failing: Vec<u64>) -> Schedule
        ensures { result ≡ planned failing.items }
    {
        Schedule {
            failing,
            made: 0,
            faults: GhostCount::zero(),
        }
    }

    /// Plans anew: the calls are counted from now on. The faults stay.
    pub fn plan(&mut self, failing: Vec<u64>)
        ensures { self.new ≡ record (planned failing.items) { faults = self.old.faults } }
    {
        self.failing = failing;
        self.made = 0;
    }

    /// Counts a call, and answers whether it is to fail. Then its fault is counted too.
    pub fn fails(&mut self) -> bool
        ensures fails { IsTrue result ↔ NextFails self.old }
        ensures calls { AddsCall self.old self.new }
        ensures faultless { result ≡ false → self.new.faults ≡ self.old.faults }
        ensures cause { result ≡ true → self.new.faults ≡ self.old.faults + 1 }
    {
        let Some(number) = self.made.checked_add(1) else {
            return false;
        };
        self.made = number;
        let fails = self.failing.contains(&number);
        if fails {
            self.add_fault();
        }
        fails
    }

    /// Counts a fault of a call that was not to fail.
    pub fn add_fault(&mut self)
        ensures { self.new ≡ record self.old { faults = self.old.faults + 1 } }
    {
        self.faults = self.faults.next();
    }
}
