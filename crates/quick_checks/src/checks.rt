//! The quick checks of the normalisation forms.

ghost use Rattle.std.specs.Prelude.{◌≡◌, [], ◌∷◌};
ghost use Rattle.ucd_facts.specs.Expansion.{FormAnswers};
ghost use Rattle.ucd_model.specs.QuickChecks.{quick_composed, quick};
ghost use Rattle.quick_checks.specs.Checks.{quick_decomposed, decomposed_check, composed_check};

use decomposition::expand;
use normalisation::{nfc, nfkc};
use std::alloc::Global;
use ucd_model::{FactView, Form, FormStop, Kind, Point, Quick};

/// The quick check of a code point. UAX #15, section 9. It takes no memory if the code point has no mapping that the
/// form undoes.
///
/// - `Bad(rule)`: the code point alone does not have the form, and `rule`, V2 or V3, is the one that its expansion
///   breaks.
/// - `Memory`: memory ran out.
pub fn quick<W: FactView>(alloc: Global, view: &W, form: Form, c: Point) -> Result<Quick, FormStop>
    ensures { FormAnswers result (quick (W.facts_of view.now) form c) }
{
    match form {
        Form::Nfd => decomposed_check(alloc, view, false, c),
        Form::Nfkd => decomposed_check(alloc, view, true, c),
        Form::Nfc => composed_check(alloc, view, false, c),
        Form::Nfkc => composed_check(alloc, view, true, c),
    }
}

/// NFD_Quick_Check of a code point with a mapping of this kind, or NFKD_Quick_Check if `compat` holds: `No` exactly
/// if the form undoes the mapping. UAX #15, section 9.
pub fn quick_decomposed(kind: Kind, compat: bool) -> Quick
    ensures { result ≡ quick_decomposed kind compat }
{
    if kind.counts(compat) {
        Quick::No
    } else {
        Quick::Yes
    }
}

/// NFC_Quick_Check of a code point if `composed` is its Normalisation Form C alone, and NFKC_Quick_Check if it is
/// its Normalisation Form KC. UAX #15, section 9.
pub fn quick_composed<W: FactView>(view: &W, c: Point, composed: &[Point]) -> Quick
    ensures { result ≡ quick_composed (W.facts_of view.now) c composed.now }
{
    if !matches!(composed, [only] if *only == c) {
        Quick::No
    } else if view.second(c) {
        Quick::Maybe
    } else {
        Quick::Yes
    }
}

/// The quick check of the decomposition, canonical, or compatibility if `compat` holds.
fn decomposed_check<W: FactView>(
    alloc: Global,
    view: &W,
    compat: bool,
    c: Point,
) -> Result<Quick, FormStop>
    ensures { FormAnswers result (decomposed_check (W.facts_of view.now) compat c) }
{
    let kind = view.kind(c);
    if kind.counts(compat) {
        // the list itself is not looked at, only whether there is one
        expand(alloc, view, compat, c)?;
    }
    Ok(quick_decomposed(kind, compat))
}

/// The quick check of the composed decomposition, canonical, or compatibility if `compat` holds.
fn composed_check<W: FactView>(
    alloc: Global,
    view: &W,
    compat: bool,
    c: Point,
) -> Result<Quick, FormStop>
    ensures { FormAnswers result (composed_check (W.facts_of view.now) compat c) }
{
    if !view.kind(c).counts(compat) {
        return Ok(quick_composed(view, c, &[c]));
    }
    let composed = if compat {
        nfkc(alloc, view, &[c])?
    } else {
        nfc(alloc, view, &[c])?
    };
    Ok(quick_composed(view, c, composed.as_slice()))
}
