//! Policies on what the rows say of a code point by itself.

ghost use Rattle.std.specs.Prelude.{◌≡◌, ◌&&◌, ◌||◌, not, ◌==◌};
ghost use Rattle.ucd_facts.specs.Shown.{shown_facts};
ghost use Rattle.ucd_facts.specs.declared.category.Category.TheVariants.{Cc, Cs, Co};
ghost use Rattle.ucd_facts.specs.declared.property.Flag.TheVariants.{NoncharacterCodePoint, PatternSyntax, PatternWhiteSpace};
ghost use Rattle.stability_policies.specs.Policies.{in_one, is_mark, is_of_category, same_mapping, sort_of};

use ucd_model::{Category, FactsRef, Flag, Kind};

/// P01: assigned in old and not in new.
pub fn loses_its_row(old: &FactsRef<'_>, new: &FactsRef<'_>) -> bool
    ensures { result ≡ ((shown_facts old.now).assigned && not (shown_facts new.now).assigned) }
{
    old.assigned && !new.assigned
}

/// P03: assigned in both, with different classes.
pub fn changes_class(old: &FactsRef<'_>, new: &FactsRef<'_>) -> bool
    ensures { result ≡ ((shown_facts old.now).assigned && ((shown_facts new.now).assigned
        && not ((shown_facts old.now).class == (shown_facts new.now).class))) }
{
    old.assigned && new.assigned && old.class != new.class
}

/// P04: assigned in both, with different mappings, or with mappings of different sorts.
pub fn changes_mapping(old: &FactsRef<'_>, new: &FactsRef<'_>) -> bool
    ensures { result ≡ ((shown_facts old.now).assigned && ((shown_facts new.now).assigned
        && not (same_mapping (shown_facts old.now) (shown_facts new.now)))) }
{
    old.assigned && new.assigned && !has_same_mapping(old, new)
}

/// Whether the decomposition mappings are the same, tags aside.
fn has_same_mapping(old: &FactsRef<'_>, new: &FactsRef<'_>) -> bool
    ensures { result ≡ same_mapping (shown_facts old.now) (shown_facts new.now) }
{
    mapping_sort(old.kind) == mapping_sort(new.kind) && old.mapping == new.mapping
}

/// The sort of a mapping: none, canonical, or a compatibility mapping with any tag.
fn mapping_sort(kind: Kind) -> u8
    ensures { result ≡ sort_of kind }
{
    match kind {
        Kind::Plain => 0,
        Kind::Canonical => 1,
        Kind::Compat(_) => 2,
    }
}

/// P13: the category Cc in exactly one.
pub fn changes_control(old: &FactsRef<'_>, new: &FactsRef<'_>) -> bool
    ensures { result ≡ in_one (is_of_category Cc (shown_facts old.now))
        (is_of_category Cc (shown_facts new.now)) }
{
    is_exactly_one(
        is_of_category(old, Category::Cc),
        is_of_category(new, Category::Cc),
    )
}

/// P14: the category Cs in exactly one, or Co in exactly one.
pub fn changes_surrogate_or_private(old: &FactsRef<'_>, new: &FactsRef<'_>) -> bool
    ensures { result ≡ (in_one (is_of_category Cs (shown_facts old.now))
        (is_of_category Cs (shown_facts new.now))
        || in_one (is_of_category Co (shown_facts old.now))
        (is_of_category Co (shown_facts new.now))) }
{
    is_exactly_one(
        is_of_category(old, Category::Cs),
        is_of_category(new, Category::Cs),
    ) || is_exactly_one(
        is_of_category(old, Category::Co),
        is_of_category(new, Category::Co),
    )
}

/// P15: Noncharacter_Code_Point in exactly one.
pub fn changes_noncharacter(old: &FactsRef<'_>, new: &FactsRef<'_>) -> bool
    ensures { result ≡ in_one ((shown_facts old.now).flag NoncharacterCodePoint)
        ((shown_facts new.now).flag NoncharacterCodePoint) }
{
    is_exactly_one(
        old.flags.has(Flag::NoncharacterCodePoint),
        new.flags.has(Flag::NoncharacterCodePoint),
    )
}

/// P16: Pattern_Syntax in exactly one, or Pattern_White_Space in exactly one.
pub fn changes_pattern(old: &FactsRef<'_>, new: &FactsRef<'_>) -> bool
    ensures { result ≡ (in_one ((shown_facts old.now).flag PatternSyntax)
        ((shown_facts new.now).flag PatternSyntax)
        || in_one ((shown_facts old.now).flag PatternWhiteSpace)
        ((shown_facts new.now).flag PatternWhiteSpace)) }
{
    is_exactly_one(
        old.flags.has(Flag::PatternSyntax),
        new.flags.has(Flag::PatternSyntax),
    ) || is_exactly_one(
        old.flags.has(Flag::PatternWhiteSpace),
        new.flags.has(Flag::PatternWhiteSpace),
    )
}

/// P20: a class other than 0, and no mark.
pub fn has_class_without_mark(facts: &FactsRef<'_>) -> bool
    ensures { result ≡ (not ((shown_facts facts.now).class == 0)
        && not (is_mark (shown_facts facts.now))) }
{
    facts.class != 0 && !is_mark(facts)
}

fn is_mark(facts: &FactsRef<'_>) -> bool
    ensures { result ≡ is_mark (shown_facts facts.now) }
{
    matches!(facts.category, Category::Mn | Category::Mc | Category::Me)
}

fn is_of_category(facts: &FactsRef<'_>, category: Category) -> bool
    ensures { result ≡ is_of_category category (shown_facts facts.now) }
{
    facts.category.place() == category.place()
}

/// Whether exactly one of the two holds.
fn is_exactly_one(a: bool, b: bool) -> bool
    ensures { result ≡ in_one a b }
{
    a != b
}
