//! What normalisation forms rest on. UAX #15, section 3.

ghost use Rattle.std.specs.Prelude.{◌≡◌, ◌||◌, not};
ghost use Rattle.std.specs.Str.{bytes_eq};
ghost use Rattle.ucd_facts.specs.Shown.{shown_facts};
ghost use Rattle.stability_policies.specs.BrokenStretches.{has_policy};
ghost use Rattle.stability_policies.specs.CaselessLists.{folding_of};
ghost use Rattle.stability_policies.specs.StableForms.{all_kept};
ghost use Rattle.stability_policies.specs.declared.policy.Policy.TheVariants.{P01, P03, P04, P05};

use crate::caseless::has_same_folding;
use crate::policy::Policy;
use crate::policy_set::PolicySet;
use ucd_model::{FactsRef, Point};

/// Whether none of P01, P03, P04 and P05 is among the policies that a code point breaks, and its own full folding stays, if
/// it was assigned. If all code points are so, each form of what was assigned stays, and so does its folding.
pub fn keeps_forms(policies: PolicySet, c: Point, a: &FactsRef<'_>, b: &FactsRef<'_>) -> bool
    ensures { result ≡ all_kept (has_policy policies P01) (has_policy policies P03)
        (has_policy policies P04) (has_policy policies P05)
        (not (shown_facts a.now).assigned
        || bytes_eq (folding_of c (shown_facts a.now)) (folding_of c (shown_facts b.now))) }
{
    let lost = policies.has(Policy::P01);
    let other_class = policies.has(Policy::P03);
    let other_mapping = policies.has(Policy::P04);
    let other_composite = policies.has(Policy::P05);
    let same_folding = keeps_folding(c, a, b);
    !lost && !other_class && !other_mapping && !other_composite && same_folding
}

/// Whether the full folding of a code point stays, if it was assigned.
fn keeps_folding(c: Point, a: &FactsRef<'_>, b: &FactsRef<'_>) -> bool
    ensures { result ≡ (not (shown_facts a.now).assigned
        || bytes_eq (folding_of c (shown_facts a.now)) (folding_of c (shown_facts b.now))) }
{
    !a.assigned || has_same_folding(c, a, b)
}
