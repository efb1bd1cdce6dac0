//! What changes when a list is mapped.

ghost use Rattle.std.specs.Prelude.{◌≡◌, ◌||◌, not};
ghost use Rattle.std.specs.List.{list_any};
ghost use Rattle.ucd_model.specs.Casing.{lower, upper, fold, lowers, uppers, titles, folds, casemaps};
ghost use Rattle.ucd_facts.specs.Predicates.{cased};
ghost use Rattle.case_derivation.specs.Matching.{matches};
ghost use Rattle.case_derivation.specs.Steps.{titled};

use crate::cased;
use crate::matching::{Unmatched, all_unmatched, is_mismatch, unmatched_after};
use ucd_model::{FactView, Point};

/// Which mappings change a list. The Unicode Standard, section 3.13, D139 to D143.
#[derive(Clone, Copy, Debug, PartialEq, Eq)]
pub struct Changes {
    /// The mapping to lower case.
    pub lowered: bool,
    /// The mapping to upper case.
    pub uppered: bool,
    /// The mapping to title case.
    pub titled: bool,
    /// The folding.
    pub folded: bool,
    /// One of the mappings to lower, upper and title case.
    pub mapped: bool,
}

/// Which mappings change a list. Those that change the canonical decomposition of a code point tell its properties
/// Changes_When_Lowercased, Changes_When_Uppercased, Changes_When_Titlecased, Changes_When_Casefolded and
/// Changes_When_Casemapped: UAX #44, section 5.3; The Unicode Standard, section 3.13, D139 to D143.
///
/// It takes no memory: each image is matched with the list in place, and nothing is matched, nor the facts of a member as a
/// whole asked for, before the first member that a mapping changes.
pub fn changes_when<W: FactView>(view: &W, nfd: &[Point]) -> Changes
    ensures lowered { result.lowered ≡ lowers (W.facts_of view.now) nfd.now }
    ensures uppered { result.uppered ≡ uppers (W.facts_of view.now) nfd.now }
    ensures titled { result.titled ≡ titles (W.facts_of view.now) nfd.now }
    ensures folded { result.folded ≡ folds (W.facts_of view.now) nfd.now }
    ensures mapped { result.mapped ≡ casemaps (W.facts_of view.now) nfd.now }
{
    'unmapped: for (at, c) in nfd.iter().enumerate() {
        if !view.is_unchanged_by_casing(*c) {
            let begun = has_cased(view, &nfd[..at]);
            let left = unmatched_after(all_unmatched(&nfd[at..], begun), *c, &view.facts(*c));
            return changes_after(view, left, &nfd[at + 1..]);
        }
    }
    Changes {
        lowered: false,
        uppered: false,
        titled: false,
        folded: false,
        mapped: false,
    }
}

/// Whether a list has a Cased member.
fn has_cased<W: FactView>(view: &W, s: &[Point]) -> bool
    ensures { result ≡ list_any (λ x. cased (W.facts_of view.now x)) s.now }
{
    'members: for c in s {
        if cased(view, *c) {
            return true;
        }
    }
    false
}

/// What is changed once the members in `s` are mapped too.
fn changes_after<W: FactView>(view: &W, left: Unmatched<'_>, s: &[Point]) -> Changes
    ensures lowered { result.lowered
        ≡ not (matches left.entry.lowered (lower (W.facts_of view.now) s.now)) }
    ensures uppered { result.uppered
        ≡ not (matches left.entry.uppered (upper (W.facts_of view.now) s.now)) }
    ensures titled { result.titled
        ≡ not (matches left.entry.titled (titled (W.facts_of view.now) left.entry.begun s.now)) }
    ensures folded { result.folded
        ≡ not (matches left.entry.folded (fold (W.facts_of view.now) s.now)) }
    ensures mapped { result.mapped ≡ (result.lowered || (result.uppered || result.titled)) }
{
    let mut left = left;
    'members: for c in s {
        left = unmatched_after(left, *c, &view.facts(*c));
    }
    let lowered = is_mismatch(left.lowered);
    let uppered = is_mismatch(left.uppered);
    let titled = is_mismatch(left.titled);
    Changes {
        lowered,
        uppered,
        titled,
        folded: is_mismatch(left.folded),
        mapped: lowered || uppered || titled,
    }
}
