//! Sets of policies.

ghost use Rattle.std.specs.Prelude.{◌≡◌, ◌≢◌, false};
ghost use Rattle.std.specs.Bool.{Decides};
ghost use Rattle.stability_policies.specs.BrokenStretches.{has_policy};
ghost use Rattle.stability_policies.specs.Policies.{place_of_policy};
ghost use Rattle.stability_policies.specs.declared.policy.Policy.{Policy as PolicyValue};

use crate::policy::Policy;

/// A set of policies.
#[derive(Clone, Copy)]
pub struct PolicySet {
    /// Whether the policy at each place is in the set.
    holds: [bool; 20],
}

impl PolicySet {
    /// The empty set.
    pub fn none() -> PolicySet
        ensures { (policy : PolicyValue) → has_policy result policy ≡ false }
    {
        PolicySet { holds: [false; 20] }
    }

    /// The set with a policy put in or taken out. The others stay.
    pub fn with(self, policy: Policy, on: bool) -> PolicySet
        ensures put { has_policy result policy ≡ on }
        ensures rest { (other : PolicyValue) → place_of_policy other ≢ place_of_policy policy
            → has_policy result other ≡ has_policy self other }
    {
        let mut holds = self.holds;
        holds[policy.place()] = on;
        PolicySet { holds }
    }

    /// Whether a policy is in the set.
    pub fn has(self, policy: Policy) -> bool
        ensures { result ≡ has_policy self policy }
    {
        self.holds[policy.place()]
    }

    /// Whether no policy is in the set.
    pub fn is_empty(self) -> bool
        ensures { Decides result ((policy : PolicyValue) → has_policy self policy ≡ false) }
    {
        !self.holds.contains(&true)
    }
}
