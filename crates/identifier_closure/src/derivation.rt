//! The derivation of a code point.

ghost use Rattle.std.specs.Prelude.{◌≡◌, ◌+◌, [], ◌∷◌, Ok, None, false};
ghost use Rattle.ucd_model.specs.FoldRounds.{casefold_image};
ghost use Rattle.ucd_model.specs.Records.{kept_record, record_at, derived};
ghost use Rattle.ucd_model.specs.Validity.{lacks_a_row};
ghost use Rattle.ucd_facts.specs.Shown.{shown_facts};
ghost use Rattle.ucd_facts.specs.declared.folding.Folding.TheVariants.{Full, Simple};
ghost use Rattle.identifier_closure.specs.Derived.{RecordAnswers};
ghost use Rattle.identifier_closure.specs.PointForms.{expansion_rule, TellForms};

use crate::casefolds::{Casefolds, casefolds_of};
use crate::composed_checks::composed_checks;
use crate::composites::is_hidden_composite;
use crate::core_set::core_set;
use crate::identifiers::closure_of;
use crate::missing_rows::some_mapping_lacks_row;
use crate::point_forms::{FormsRef, forms_of};
use crate::predicates::ToldByForms;
use quick_checks::{is_fully_excluded, quick_decomposed};
use std::alloc::Global;
use std::sync::ledger::Ledger;
use ucd_model::{Bad, FactView, FactsRef, FormStop, Image, Kind, Point, Record, Steps};

/// Derives a code point: its record alone, in one step, which is counted even if an error comes. UAX #44, section 5.3.
///
/// - `Bad(rule)`: the code point breaks a rule of a valid release, and `rule`, V1 to V5, is the first that it breaks.
/// - `Memory`: memory ran out.
pub fn derive_record<W: FactView, L: Ledger>(
    alloc: Global,
    view: &W,
    c: Point,
    steps: &mut Steps<L>,
) -> Result<Record, FormStop>
    ensures value { RecordAnswers result (derived (W.facts_of view.now) c) }
    ensures step { steps.new ≡ steps.old + 1 }
{
    steps.tick();
    record_or_rule(alloc, view, c)
}

/// The record of a code point, or the first rule that it breaks. If it has no mapping, its forms are itself, and no
/// memory is taken for them.
#[tactic(auto, using(crate::specs::RuleProofs::by_missing_row, crate::proofs::RecordLemmas::stopped))]
fn record_or_rule<W: FactView>(alloc: Global, view: &W, c: Point) -> Result<Record, FormStop>
    ensures { RecordAnswers result (derived (W.facts_of view.now) c) }
{
    let facts = view.facts(c);
    if some_mapping_lacks_row(view, c, &facts) {
        return Err(FormStop::Bad(Bad::V1));
    }
    if let Kind::Plain = facts.kind {
        let alone = [c];
        let forms = FormsRef::of_unmapped(view, &alone);
        return record_with_forms(alloc, view, c, &facts, forms);
    }
    match forms_of(alloc, view, c) {
        Ok(forms) => record_with_forms(alloc, view, c, &facts, forms.as_ref()),
        Err(stop) => Err(stop),
    }
}

/// The record of a code point that breaks none of the rules V1 to V3, with its facts and its forms; or the first rule
/// that it breaks.
#[tactic(auto, using(crate::proofs::RecordLemmas::hidden_stop, crate::proofs::RecordLemmas::folding_stop))]
fn record_with_forms<W: FactView>(
    alloc: Global,
    view: &W,
    c: Point,
    facts: &FactsRef<'_>,
    forms: FormsRef<'_>,
) -> Result<Record, FormStop>
    requires facts { shown_facts facts.now ≡ W.facts_of view.now c }
    requires forms { TellForms (W.facts_of view.now) c forms.changes forms.nfc.now forms.nfkc.now }
    requires rows { lacks_a_row (W.facts_of view.now) c ≡ false }
    requires expansions { expansion_rule (W.facts_of view.now) c ≡ None }
    ensures { RecordAnswers result (derived (W.facts_of view.now) c) }
{
    if is_hidden_composite(view, c, facts, forms.nfc) {
        return Err(FormStop::Bad(Bad::V4));
    }
    match casefolds_of(alloc, view, c, facts, forms.nfkc) {
        Ok(found) => Ok(record_of(view, c, facts, forms, found)),
        Err(stop) => Err(stop),
    }
}

/// The record of a code point with its facts, its forms and its foldings under NFKC.
fn record_of<W: FactView>(
    view: &W,
    c: Point,
    facts: &FactsRef<'_>,
    forms: FormsRef<'_>,
    found: Casefolds,
) -> Record
    requires facts { shown_facts facts.now ≡ W.facts_of view.now c }
    requires forms { TellForms (W.facts_of view.now) c forms.changes forms.nfc.now forms.nfkc.now }
    requires full { casefold_image Full (W.facts_of view.now) c ≡ Ok found.full }
    requires simple { casefold_image Simple (W.facts_of view.now) c ≡ Ok found.simple }
    ensures { kept_record result ≡ record_at (W.facts_of view.now) c }
{
    let closed = closure_of(view, c, facts, forms.nfkc);
    let told = ToldByForms {
        changes: forms.changes,
        xid_start: closed.start,
        xid_continue: closed.continues,
    };
    let checks = composed_checks(view, c, forms);
    let changes_casefold = match &found.full {
        Image::Same => false,
        Image::To(_) => true,
    };
    Record {
        category: facts.category,
        class: facts.class,
        kind: facts.kind,
        core: core_set(c, facts, told),
        exclusion: is_fully_excluded(view, c, facts),
        nfd: quick_decomposed(facts.kind, false),
        nfc: checks.nfc,
        nfkd: quick_decomposed(facts.kind, true),
        nfkc: checks.nfkc,
        casefold: found.full,
        simple_casefold: found.simple,
        changes_casefold,
    }
}
