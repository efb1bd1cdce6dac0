//! The calls of one kind, and which of them are to fail.

ghost use Rattle.std.specs.Prelude.{◌≡◌, ◌≤◌, OnOk, OnErr};
ghost use Rattle.shelf_io.specs.Counts.{no_calls, fails_next, passed, failed, failing_too};

use std::alloc::Global;
use std::marker::Model;
use ucd_points::{ListOf, Memory};

/// How many calls were made, the numbers of those that fail, counted from 1, and how many failed.
#[derive(Drop)]
pub struct CallPlan {
    made: u64,
    failing: ListOf<u32>,
    faults: u64,
}

impl Model for CallPlan {
    ghost use Rattle.shelf_io.specs.Counts.{Calls};

    ghost Value = { Calls };

    ghost view = { λ p. record { made = p.made; failing = p.failing; faults = p.faults } };
}

impl CallPlan {
    /// No call was made, and none is to fail.
    pub fn new(alloc: Global) -> CallPlan
        ensures { result ≡ no_calls }
    {
        CallPlan {
            made: 0,
            failing: ListOf::new(alloc),
            faults: 0,
        }
    }

    /// Whether the next call is to fail.
    pub fn fails_next(&self) -> bool
        ensures { result ≡ fails_next self.now }
    {
        let next = self.made.saturating_add(1);
        self.failing
            .as_slice()
            .iter()
            .any(|nth| u64::from(*nth) == next)
    }

    /// Counts a call that did not fail.
    pub fn count_success(&mut self)
        ensures { self.new ≡ passed self.old }
    {
        self.made = self.made.saturating_add(1);
    }

    /// Counts a call that failed.
    pub fn count_failure(&mut self)
        ensures counted { self.new ≡ failed self.old }
        ensures faults_never_fall { self.old.faults ≤ self.new.faults }
    {
        self.made = self.made.saturating_add(1);
        self.faults = self.faults.saturating_add(1);
    }

    /// Makes the nth call fail as well, counted from 1.
    ///
    /// - `Memory`: memory ran out. Nothing changes.
    pub fn fail_at(&mut self, nth: u32) -> Result<(), Memory>
        ensures ok { OnOk result (self.new ≡ failing_too nth self.old) }
        ensures err { OnErr result (self.new ≡ self.old) }
    {
        self.failing.push(nth)
    }
}
