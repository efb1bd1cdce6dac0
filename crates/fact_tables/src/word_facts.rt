//! Reading the facts that a word and a rest keep.

ghost use Rattle.std.specs.Prelude.{◌≡◌};
ghost use Rattle.ucd_facts.specs.Shown.{shown_facts};
ghost use Rattle.fact_tables.specs.KeptFacts.{kept_at};
ghost use Rattle.fact_tables.specs.Rest.{bare_rest};

use crate::images::{first_nonempty, first_point_or, folding, full_image, simple_folding};
use crate::packed_mappings::PackedMappings;
use crate::word::{
    category_of, class_of, flags_of, is_assigned, is_excluded, is_mid_word, kind_of,
};
use ucd_facts::{FactsRef, Point};

/// The facts of a code point by its word and its rest.
pub fn facts_of_word(c: Point, word: u64, rest: &PackedMappings) -> FactsRef<'_>
    ensures { shown_facts result ≡ kept_at c word rest.now }
{
    match rest.bare_mapping() {
        Some(mapping) => facts_of_bare_word(c, word, mapping),
        None => facts_of_word_and_mappings(c, word, rest),
    }
}

/// The facts of a code point by its word and its decomposition mapping, if it has no more than that mapping. So it is for
/// most code points. Nothing is looked up.
#[tactic(auto, using(crate::proofs::PlainLemmas::itself))]
fn facts_of_bare_word(c: Point, word: u64, mapping: &[Point]) -> FactsRef<'_>
    ensures { shown_facts result ≡ kept_at c word (bare_rest mapping.now) }
{
    FactsRef {
        assigned: is_assigned(word),
        category: category_of(word),
        class: class_of(word),
        kind: kind_of(word),
        mapping,
        simple_upper: c,
        simple_lower: c,
        simple_title: c,
        simple_fold: c,
        upper: None,
        lower: None,
        title: None,
        fold: None,
        flags: flags_of(word),
        mid_word: is_mid_word(word),
        excluded: is_excluded(word),
    }
}

/// The facts of a code point by its word and its rest, whatever mappings it has.
fn facts_of_word_and_mappings(c: Point, word: u64, rest: &PackedMappings) -> FactsRef<'_>
    ensures { shown_facts result ≡ kept_at c word rest.now }
{
    let upper = rest.upper();
    let lower = rest.lower();
    let title = first_nonempty(rest.title(), upper);
    FactsRef {
        assigned: is_assigned(word),
        category: category_of(word),
        class: class_of(word),
        kind: kind_of(word),
        mapping: rest.mapping(),
        simple_upper: first_point_or(c, upper),
        simple_lower: first_point_or(c, lower),
        simple_title: first_point_or(c, title),
        simple_fold: simple_folding(c, rest.simple_folding(), rest.common_folding()),
        upper: full_image(c, rest.full_upper(), upper),
        lower: full_image(c, rest.full_lower(), lower),
        title: full_image(c, rest.full_title(), title),
        fold: folding(c, rest.full_folding(), rest.common_folding()),
        flags: flags_of(word),
        mid_word: is_mid_word(word),
        excluded: is_excluded(word),
    }
}
