//! Stretches of code points that break policies.

ghost use Rattle.std.specs.Prelude.{◌≡◌, ◌++◌, OnOk};
ghost use Rattle.stability_policies.specs.BrokenStretches.{points_in, points_of};
ghost use Rattle.stability_policies.specs.declared.policy.Policy.{Policy as PolicyValue};

use crate::policy_set::PolicySet;
use ucd_model::{ListOf, Memory, Span};

/// Code points that follow one another, and the policies that each of them breaks.
#[derive(Clone, Copy)]
pub struct BrokenStretch {
    /// The code points.
    pub span: Span,
    /// The policies.
    pub policies: PolicySet,
}

/// Stretches of code points that break policies.
pub type BrokenStretches = ListOf<BrokenStretch>;

/// Puts a stretch, if its code points break a policy.
///
/// - `Memory`: memory ran out.
#[tactic(auto, using(crate::proofs::StretchLemmas::points_push))]
pub fn put_stretch(stretch: BrokenStretch, into: &mut BrokenStretches) -> Result<(), Memory>
    ensures { OnOk result ((policy : PolicyValue)
        → points_of policy into.new ≡ points_of policy into.old ++ points_in policy stretch) }
{
    if stretch.policies.is_empty() {
        return Ok(());
    }
    into.push(stretch)
}
