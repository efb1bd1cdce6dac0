//! The stretches of code points that break a policy.

ghost use Rattle.std.specs.Prelude.{◌≡◌, ◌≢◌, ◌≤◌, ◌++◌, IfOk, OnOk};
ghost use Rattle.std.specs.Bool.{Decides};
ghost use Rattle.ucd_points.specs.Limits.{point_count};
ghost use Rattle.ucd_model.specs.Records.{record_at};
ghost use Rattle.stability_policies.specs.BrokenStretches.{AreOthers, AreStretches, IsAlikeTo, KeepAllForms, breaking, broken_to, points_of};
ghost use Rattle.stability_policies.specs.StableForms.{IsRooted, keeps_forms};
ghost use Rattle.stability_policies.specs.declared.policy.Policy.{Policy as PolicyValue};
ghost use Rattle.stability_policies.specs.declared.policy.Policy.TheVariants.{P10};

use crate::broken_stretch::{BrokenStretch, BrokenStretches, put_stretch};
use crate::caseless::changes_caseless;
use crate::form_tests::keeps_forms;
use crate::policy::Policy;
use crate::policy_set::PolicySet;
use crate::testing::broken_policies_except_caseless;
use std::alloc::Global;
use ucd_facts::UniformFacts;
use ucd_model::{Kind, Memory, Point, Records, Span};

/// The stretches of code points that break a policy of code points.
#[derive(Drop)]
pub struct Stretches {
    /// Those that break P10.
    pub foldings: BrokenStretches,
    /// Those that break other policies.
    pub others: BrokenStretches,
}

/// The stretches of code points that break a policy other than P10.
#[derive(Drop)]
pub struct OtherStretches {
    /// The stretches.
    pub stretches: BrokenStretches,
    /// Whether each code point keeps what forms rest on.
    pub keep_forms: bool,
}

/// The stretches of code points that break a policy of code points. Each policy looks once at each stretch. P10 looks at no
/// stretch, and no form is made, if each code point keeps what forms rest on: then none breaks P10.
///
/// - `Memory`: memory ran out.
pub fn broken_stretches<O: Records + UniformFacts, N: Records + UniformFacts>(
    alloc: Global,
    old: &O,
    new: &N,
) -> Result<Stretches, Memory>
    requires old { O.record_of old.now ≡ record_at (O.facts_of old.now) }
    requires new { N.record_of new.now ≡ record_at (N.facts_of new.now) }
    requires rooted { IsRooted (O.facts_of old.now) (N.facts_of new.now) }
    ensures { IfOk result (AreStretches (O.facts_of old.now) (N.facts_of new.now)) }
{
    let found = stretches_except_caseless(alloc, old, new)?;
    let foldings = if found.keep_forms {
        BrokenStretches::new(alloc)
    } else {
        stretches_changing_caseless(alloc, old, new)?
    };
    Ok(Stretches {
        foldings,
        others: found.stretches,
    })
}

/// The stretches that break a policy other than P10. No form is made.
///
/// - `Memory`: memory ran out.
fn stretches_except_caseless<O: Records + UniformFacts, N: Records + UniformFacts>(
    alloc: Global,
    old: &O,
    new: &N,
) -> Result<OtherStretches, Memory>
    requires old { O.record_of old.now ≡ record_at (O.facts_of old.now) }
    requires new { N.record_of new.now ≡ record_at (N.facts_of new.now) }
    ensures others { IfOk result (λ found. AreOthers (O.facts_of old.now)
        (N.facts_of new.now) point_count found.stretches) }
    ensures forms { IfOk result (λ found. Decides found.keep_forms
        (KeepAllForms (O.facts_of old.now) (N.facts_of new.now) point_count)) }
{
    let mut stretches = BrokenStretches::new(alloc);
    let mut keep_forms = true;
    let mut number = 0;
    'points: while number < Point::COUNT {
        let c = Point::at(number);
        let last = last_alike(old, new, c);
        keep_forms &= put_stretch_and_test_forms(alloc, old, new, c, last, &mut stretches)?;
        number = last.number() + 1;
    }
    Ok(OtherStretches {
        stretches,
        keep_forms,
    })
}

/// Puts the stretch from a code point to `last` with the policies other than P10 that it breaks, if it breaks one. The answer
/// is whether the code point keeps what forms rest on.
///
/// - `Memory`: memory ran out.
fn put_stretch_and_test_forms<O: Records + UniformFacts, N: Records + UniformFacts>(
    alloc: Global,
    old: &O,
    new: &N,
    c: Point,
    last: Point,
    into: &mut BrokenStretches,
) -> Result<bool, Memory>
    requires old { O.record_of old.now ≡ record_at (O.facts_of old.now) }
    requires new { N.record_of new.now ≡ record_at (N.facts_of new.now) }
    requires ordered { c ≤ last }
    ensures put { OnOk result ((policy : PolicyValue) → policy ≢ P10
        → points_of policy into.new ≡ points_of policy into.old
        ++ broken_to policy (O.facts_of old.now) (N.facts_of new.now) c last) }
    ensures keeps { IfOk result (λ keeps. keeps
        ≡ keeps_forms (O.facts_of old.now) (N.facts_of new.now) c) }
{
    let a = old.facts(c);
    let b = new.facts(c);
    let policies = broken_policies_except_caseless(alloc, old, new, c, &a, &b)?;
    let span = Span { lo: c, hi: last };
    put_stretch(BrokenStretch { span, policies }, into)?;
    Ok(keeps_forms(policies, c, &a, &b))
}

/// The stretches that break P10.
///
/// - `Memory`: memory ran out.
fn stretches_changing_caseless<O: UniformFacts, N: UniformFacts>(
    alloc: Global,
    old: &O,
    new: &N,
) -> Result<BrokenStretches, Memory>
    ensures { IfOk result (λ stretches. points_of P10 stretches
        ≡ breaking P10 (O.facts_of old.now) (N.facts_of new.now) point_count) }
{
    let mut stretches = BrokenStretches::new(alloc);
    let mut number = 0;
    'points: while number < Point::COUNT {
        let c = Point::at(number);
        let last = last_alike(old, new, c);
        put_if_caseless_changes(alloc, old, new, c, last, &mut stretches)?;
        number = last.number() + 1;
    }
    Ok(stretches)
}

/// Puts the stretch from a code point to `last`, if it breaks P10.
///
/// - `Memory`: memory ran out.
fn put_if_caseless_changes<O: UniformFacts, N: UniformFacts>(
    alloc: Global,
    old: &O,
    new: &N,
    c: Point,
    last: Point,
    into: &mut BrokenStretches,
) -> Result<(), Memory>
    requires ordered { c ≤ last }
    ensures { OnOk result (points_of P10 into.new ≡ points_of P10 into.old
        ++ broken_to P10 (O.facts_of old.now) (N.facts_of new.now) c last) }
{
    let broken = changes_caseless(alloc, old, new, c, &old.facts(c), &new.facts(c))?;
    let span = Span { lo: c, hi: last };
    let policies = PolicySet::none().with(Policy::P10, broken);
    put_stretch(BrokenStretch { span, policies }, into)
}

/// A code point up to which all from `c` on break the policies that `c` breaks, and keep what `c` keeps; `c` itself if
/// it has a decomposition mapping.
fn last_alike<O: UniformFacts, N: UniformFacts>(old: &O, new: &N, c: Point) -> Point
    ensures from { c ≤ result }
    ensures alike { IsAlikeTo (O.facts_of old.now) (N.facts_of new.now) c result }
{
    if !matches!(old.kind(c), Kind::Plain) || !matches!(new.kind(c), Kind::Plain) {
        return c;
    }
    let before = old.last_uniform(c);
    let after = new.last_uniform(c);
    if before.number() < after.number() {
        before
    } else {
        after
    }
}
