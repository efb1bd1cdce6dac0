//! The report of the breaks of all policies.

ghost use Rattle.std.specs.Prelude.{◌≡◌, ◌++◌, IfOk, OnOk};
ghost use Rattle.ucd_facts.specs.Facts.{facts};
ghost use Rattle.ucd_points.specs.declared.files.SourceFile.TheVariants.{PropertyAliases, PropertyValueAliases};
ghost use Rattle.stability_policies.specs.BrokenStretches.{AreStretches};
ghost use Rattle.stability_policies.specs.Reports.{breaks_of, lost_in, report};
ghost use Rattle.release_rows.specs.Releases.{rows_now};
ghost use Rattle.stability_policies.specs.Views.{Belongs, IsValid};

use crate::alias_rows::put_lost_aliases;
use crate::breaks::Breaks;
use crate::names::put_renamed;
use crate::point_breaks::put_points;
use crate::policy::Policy;
use crate::sieving::{Stretches, broken_stretches};
use release_rows::Release;
use std::alloc::Global;
use ucd_facts::UniformFacts;
use ucd_model::{Memory, Records, SourceFile};

/// All breaks of the stability policies by a new release against an old one: by policy, then by code point; for P17 by
/// file, then by line. What is uniform from code point to code point is looked at once.
/// Unicode Character Encoding Stability Policies.
///
/// - `Memory`: memory ran out.
pub fn report<O: Records + UniformFacts, N: Records + UniformFacts>(
    alloc: Global,
    old: &O,
    old_rows: &Release,
    new: &N,
    new_rows: &Release,
) -> Result<Breaks, Memory>
    requires old { Belongs (O.facts_of old.now) (O.record_of old.now) old_rows.now }
    requires new { Belongs (N.facts_of new.now) (N.record_of new.now) new_rows.now }
    requires valid_old { IsValid old_rows.now }
    ensures { IfOk result (λ breaks. breaks ≡ report old_rows.now new_rows.now) }
{
    let stretches = broken_stretches(alloc, old, new)?;
    let mut breaks = Breaks::new(alloc);
    'policies: for policy in Policy::all() {
        put_breaks(alloc, *policy, old_rows, new_rows, &stretches, &mut breaks)?;
    }
    Ok(breaks)
}

/// Puts the breaks of a policy.
///
/// - `Memory`: memory ran out.
fn put_breaks(
    alloc: Global,
    policy: Policy,
    old: &Release,
    new: &Release,
    stretches: &Stretches,
    into: &mut Breaks,
) -> Result<(), Memory>
    requires { AreStretches (facts (rows_now old.now)) (facts (rows_now new.now)) stretches.now }
    ensures { OnOk result (into.new ≡ into.old ++ breaks_of policy old.now new.now) }
{
    match policy {
        Policy::P02 => put_renamed(alloc, old, new, into),
        Policy::P17 => put_lost_names(alloc, old, new, into),
        Policy::P10 => put_points(policy, stretches.foldings.as_slice(), into),
        _ => put_points(policy, stretches.others.as_slice(), into),
    }
}

/// Puts the breaks of P17, file by file.
///
/// - `Memory`: memory ran out.
fn put_lost_names(
    alloc: Global,
    old: &Release,
    new: &Release,
    into: &mut Breaks,
) -> Result<(), Memory>
    ensures { OnOk result (into.new ≡ into.old
        ++ (lost_in PropertyAliases old.now new.now
        ++ lost_in PropertyValueAliases old.now new.now)) }
{
    put_lost_aliases(alloc, SourceFile::PropertyAliases, old, new, into)?;
    put_lost_aliases(alloc, SourceFile::PropertyValueAliases, old, new, into)
}
