//! The forms of a code point alone.

ghost use Rattle.std.specs.Prelude.{◌≡◌, Ok, Err, true, false};
ghost use Rattle.std.specs.List.{list_any};
ghost use Rattle.std.specs.Option.{option_map};
ghost use Rattle.ucd_facts.specs.Expansion.{expansion};
ghost use Rattle.identifier_closure.specs.PointForms.{AreChanges, ExpansionsAnswer, FormsAnswer, StopsBy, composed_form, form_kc};
ghost use Rattle.ucd_facts.specs.Expansion.{is_compat};

use case_derivation::{Changes, changes_when};
use decomposition::expand;
use normalisation::{compose, order};
use std::alloc::Global;
use ucd_model::{Bad, FactView, FormStop, Point, Points};

/// Normalisation Forms C and KC of a code point alone, and what its Normalisation Form D tells. UAX #15, section 1.2.
#[derive(Drop)]
pub struct Forms {
    /// Which mappings change its Normalisation Form D.
    pub changes: Changes,
    /// Normalisation Form C.
    pub nfc: Points,
    /// Normalisation Form KC; `None` if it is Normalisation Form C, since both expansions are the same.
    pub nfkc: Option<Points>,
}

/// Normalisation Forms C and KC of a code point alone, as slices, and what its Normalisation Form D tells. UAX #15, section 1.2.
#[derive(Clone, Copy)]
pub struct FormsRef<'a> {
    /// Which mappings change Normalisation Form D.
    pub changes: Changes,
    /// Normalisation Form C.
    pub nfc: &'a [Point],
    /// Normalisation Form KC.
    pub nfkc: &'a [Point],
}

impl Forms {
    /// The forms as slices.
    pub fn as_ref(&self) -> FormsRef<'_>
        ensures changes { result.changes ≡ self.now.changes }
        ensures nfc { result.nfc.now ≡ self.now.nfc }
        ensures nfkc { result.nfkc.now ≡ form_kc self.now }
    {
        FormsRef {
            changes: self.changes,
            nfc: self.nfc.as_slice(),
            nfkc: self.form_kc(),
        }
    }

    /// Normalisation Form KC.
    fn form_kc(&self) -> &[Point]
        ensures { result.now ≡ form_kc self.now }
    {
        match &self.nfkc {
            Some(points) => points.as_slice(),
            None => self.nfc.as_slice(),
        }
    }
}

impl<'a> FormsRef<'a> {
    /// One list for all forms: that of a code point without a mapping.
    pub fn of_unmapped<W: FactView>(view: &W, points: &'a [Point]) -> FormsRef<'a>
        ensures changes { AreChanges (W.facts_of view.now) points.now result.changes }
        ensures nfc { result.nfc.now ≡ points.now }
        ensures nfkc { result.nfkc.now ≡ points.now }
    {
        FormsRef {
            changes: changes_when(view, points),
            nfc: points,
            nfkc: points,
        }
    }
}

/// Both expansions of a code point; `compat` is `None` if the compatibility expansion is the canonical one.
#[derive(Drop)]
struct Expansions {
    canonical: Points,
    compat: Option<Points>,
}

/// The forms of a code point alone. UAX #15, section 1.2. If both expansions are the same list, it is put in order and
/// composed once, in its place.
///
/// - `Bad(V2)`: one of its expansions needs a chain of eight mappings or more, or one without end.
/// - `Bad(V3)`: none does, and one has more than 64 code points.
/// - `Memory`: memory ran out.
#[tactic(auto, using(crate::proofs::FormLemmas::forms_tell))]
pub fn forms_of<W: FactView>(alloc: Global, view: &W, c: Point) -> Result<Forms, FormStop>
    ensures { FormsAnswer (W.facts_of view.now) c result }
{
    let Expansions {
        canonical: mut points,
        compat,
    } = both_expansions(alloc, view, c)?;
    order(view, &mut points);
    let changes = changes_when(view, points.as_slice());
    compose(view, &mut points);
    let nfkc = composed_form(view, compat);
    Ok(Forms {
        changes,
        nfc: points,
        nfkc,
    })
}

/// A list, if there is one, in canonical order and composed. It takes no memory.
fn composed_form<W: FactView>(view: &W, points: Option<Points>) -> Option<Points>
    ensures { result ≡ option_map (composed_form (W.facts_of view.now)) points }
{
    let mut points = points?;
    order(view, &mut points);
    compose(view, &mut points);
    Some(points)
}

/// Both expansions of a code point, or the first rule that they break.
fn both_expansions<W: FactView>(alloc: Global, view: &W, c: Point) -> Result<Expansions, FormStop>
    ensures { ExpansionsAnswer (W.facts_of view.now) c result }
{
    match expand(alloc, view, false, c) {
        Ok(canonical) => with_compat(alloc, view, c, canonical),
        Err(FormStop::Bad(rule)) => Err(first_rule(alloc, view, c, rule)),
        Err(FormStop::Memory) => Err(FormStop::Memory),
    }
}

/// Both expansions of a code point with this canonical expansion, or the first rule that they break. If no member of the
/// canonical expansion has a compatibility mapping, the other expansion is the same, and is not made.
#[tactic(auto, using(crate::proofs::FormLemmas::both_expanded, crate::proofs::FormLemmas::compat_rule))]
fn with_compat<W: FactView>(
    alloc: Global,
    view: &W,
    c: Point,
    canonical: Points,
) -> Result<Expansions, FormStop>
    requires { expansion (W.facts_of view.now) false c ≡ Ok canonical }
    ensures { ExpansionsAnswer (W.facts_of view.now) c result }
{
    if !has_compat(view, canonical.as_slice()) {
        return Ok(Expansions {
            canonical,
            compat: None,
        });
    }
    let compat = expand(alloc, view, true, c)?;
    Ok(Expansions {
        canonical,
        compat: Some(compat),
    })
}

/// Whether one of these code points has a compatibility mapping.
fn has_compat<W: FactView>(view: &W, points: &[Point]) -> bool
    ensures { result ≡ list_any (λ x. is_compat (W.facts_of view.now x).kind) points.now }
{
    'members: for member in points {
        if view.kind(*member).is_compat() {
            return true;
        }
    }
    false
}

/// The first rule that the expansions of a code point break. The canonical one breaks this rule.
fn first_rule<W: FactView>(alloc: Global, view: &W, c: Point, rule: Bad) -> FormStop
    requires { expansion (W.facts_of view.now) false c ≡ Err rule }
    ensures { StopsBy (W.facts_of view.now) c result }
{
    match expand(alloc, view, true, c) {
        Err(FormStop::Bad(Bad::V2)) => FormStop::Bad(Bad::V2),
        Err(FormStop::Memory) => FormStop::Memory,
        _ => FormStop::Bad(rule),
    }
}
