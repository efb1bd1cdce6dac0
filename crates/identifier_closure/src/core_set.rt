//! The core properties of a code point, together.

ghost use Rattle.std.specs.Prelude.{◌≡◌, ◌+◌};
ghost use Rattle.identifier_closure.specs.CoreSets.{HasBelow, core_given};
ghost use Rattle.ucd_facts.specs.Sets.{has_core, core_place};
ghost use Rattle.ucd_facts.specs.Shown.{shown_facts};
ghost use Rattle.ucd_facts.specs.declared.property.Core.{Core};

use crate::predicates::{ToldByForms, has_core_property};
use ucd_model::{Core, CoreSet, FactsRef, Point};

/// The core properties of a code point with these facts, whose forms have these consequences. UAX #44, section 5.3.
/// They are put in one by one, in the order of `Core`, so that each call knows its property.
#[tactic(auto, using(crate::proofs::CoreSteps::all_below))]
pub fn core_set(c: Point, facts: &FactsRef<'_>, told: ToldByForms) -> CoreSet
    ensures { (core : Core) → has_core result core
        ≡ core_given c (shown_facts facts.now) told core }
{
    let set = CoreSet::none();
    let set = with_core(set, Core::Math, c, facts, told);
    let set = with_core(set, Core::Alphabetic, c, facts, told);
    let set = with_core(set, Core::Lowercase, c, facts, told);
    let set = with_core(set, Core::Uppercase, c, facts, told);
    let set = with_core(set, Core::Cased, c, facts, told);
    let set = with_core(set, Core::CaseIgnorable, c, facts, told);
    let set = with_core(set, Core::ChangesWhenLowercased, c, facts, told);
    let set = with_core(set, Core::ChangesWhenUppercased, c, facts, told);
    let set = with_core(set, Core::ChangesWhenTitlecased, c, facts, told);
    let set = with_core(set, Core::ChangesWhenCasefolded, c, facts, told);
    let set = with_core(set, Core::ChangesWhenCasemapped, c, facts, told);
    let set = with_core(set, Core::IdStart, c, facts, told);
    let set = with_core(set, Core::IdContinue, c, facts, told);
    let set = with_core(set, Core::XidStart, c, facts, told);
    let set = with_core(set, Core::XidContinue, c, facts, told);
    let set = with_core(set, Core::DefaultIgnorableCodePoint, c, facts, told);
    let set = with_core(set, Core::GraphemeExtend, c, facts, told);
    let set = with_core(set, Core::GraphemeBase, c, facts, told);
    with_core(set, Core::GraphemeLink, c, facts, told)
}

/// The set with a property put in, if the code point has it. Those before it are in the set already.
fn with_core(set: CoreSet, core: Core, c: Point, facts: &FactsRef<'_>, told: ToldByForms) -> CoreSet
    requires { HasBelow set (core_place core) (core_given c (shown_facts facts.now) told) }
    ensures { HasBelow result (core_place core + 1) (core_given c (shown_facts facts.now) told) }
{
    set.with(core, has_core_property(core, c, facts, told))
}
