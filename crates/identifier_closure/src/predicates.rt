//! Core properties of one code point. UAX #44, section 5.3.

ghost use Rattle.std.specs.Prelude.{◌≡◌, [], ◌∷◌};
ghost use Rattle.ucd_facts.specs.declared.category.Category.TheVariants.{Lu, Ll, Lt, Lm, Lo, Nl};
ghost use Rattle.identifier_closure.specs.CoreSets.{core_given};
ghost use Rattle.ucd_facts.specs.Facts.{Facts};
ghost use Rattle.ucd_facts.specs.Sets.{has_flag};
ghost use Rattle.ucd_facts.specs.Shown.{shown_facts};
ghost use Rattle.ucd_facts.specs.Predicates.{is_one_of, math, alphabetic, in_pattern, id_start, id_continue, grapheme_extend, grapheme_base, grapheme_link};

use case_derivation::{Changes, is_case_ignorable, is_cased, is_lowercase, is_uppercase};
use fold_rounds::is_default_ignorable;
use ucd_model::{Category, Core, FactsRef, Flag, Flags, Point};

/// What follows from the forms of a code point alone. UAX #44, section 5.3; UAX #31, section 5.1.
#[derive(Clone, Copy)]
pub struct ToldByForms {
    /// Which mappings change its Normalisation Form D.
    pub changes: Changes,
    /// XID_Start.
    pub xid_start: bool,
    /// XID_Continue.
    pub xid_continue: bool,
}

/// Whether a code point with these facts, whose forms have these consequences, has the property. UAX #44, section 5.3.
pub fn has_core_property(core: Core, c: Point, facts: &FactsRef<'_>, told: ToldByForms) -> bool
    ensures { result ≡ core_given c (shown_facts facts.now) told core }
{
    match core {
        Core::Math => is_math(facts),
        Core::Alphabetic => is_alphabetic(facts),
        Core::Lowercase => is_lowercase(facts),
        Core::Uppercase => is_uppercase(facts),
        Core::Cased => is_cased(facts),
        Core::CaseIgnorable => is_case_ignorable(facts),
        Core::ChangesWhenLowercased => told.changes.lowered,
        Core::ChangesWhenUppercased => told.changes.uppered,
        Core::ChangesWhenTitlecased => told.changes.titled,
        Core::ChangesWhenCasefolded => told.changes.folded,
        Core::ChangesWhenCasemapped => told.changes.mapped,
        Core::IdStart => is_id_start(facts),
        Core::IdContinue => is_id_continue(facts),
        Core::XidStart => told.xid_start,
        Core::XidContinue => told.xid_continue,
        Core::DefaultIgnorableCodePoint => is_default_ignorable(c, facts),
        Core::GraphemeExtend => is_grapheme_extend(facts),
        Core::GraphemeBase => is_grapheme_base(facts),
        Core::GraphemeLink => facts.class == 9,
    }
}

fn is_math(facts: &FactsRef<'_>) -> bool
    ensures { result ≡ math (shown_facts facts.now) }
{
    matches!(facts.category, Category::Sm) || facts.flags.has(Flag::OtherMath)
}

fn is_alphabetic(facts: &FactsRef<'_>) -> bool
    ensures { result ≡ alphabetic (shown_facts facts.now) }
{
    is_lowercase(facts)
        || is_uppercase(facts)
        || matches!(
            facts.category,
            Category::Lt | Category::Lm | Category::Lo | Category::Nl
        )
        || facts.flags.has(Flag::OtherAlphabetic)
}

/// Whether a code point with these properties is kept for the syntax of patterns. UAX #31, section 4.
fn is_pattern_syntax_or_space(flags: Flags) -> bool
    ensures { (G : Facts) → G.flag ≡ has_flag flags → result ≡ in_pattern G }
{
    flags.has(Flag::PatternSyntax) || flags.has(Flag::PatternWhiteSpace)
}

/// Whether a code point with these facts has ID_Start. UAX #31, section 2, table 2.
pub fn is_id_start(facts: &FactsRef<'_>) -> bool
    ensures { result ≡ id_start (shown_facts facts.now) }
{
    is_id_start_by(facts.category, facts.flags)
}

/// Whether a code point with this category and these properties has ID_Start. UAX #31, section 2, table 2.
pub fn is_id_start_by(category: Category, flags: Flags) -> bool
    ensures { (G : Facts) → G.category ≡ category → G.flag ≡ has_flag flags → result ≡ id_start G }
{
    (is_letter_or_letter_number(category) || flags.has(Flag::OtherIdStart))
        && !is_pattern_syntax_or_space(flags)
}

/// Whether the category is that of a letter or of a letter number.
fn is_letter_or_letter_number(category: Category) -> bool
    ensures { result ≡ is_one_of (Lu ∷ Ll ∷ Lt ∷ Lm ∷ Lo ∷ Nl ∷ []) category }
{
    matches!(
        category,
        Category::Lu | Category::Ll | Category::Lt | Category::Lm | Category::Lo | Category::Nl
    )
}

/// Whether a code point with these facts has ID_Continue. UAX #31, section 2, table 2.
pub fn is_id_continue(facts: &FactsRef<'_>) -> bool
    ensures { result ≡ id_continue (shown_facts facts.now) }
{
    is_id_continue_by(facts.category, facts.flags)
}

/// Whether a code point with this category and these properties has ID_Continue. UAX #31, section 2, table 2.
pub fn is_id_continue_by(category: Category, flags: Flags) -> bool
    ensures { (G : Facts) → G.category ≡ category → G.flag ≡ has_flag flags
        → result ≡ id_continue G }
{
    let continues = matches!(
        category,
        Category::Mn | Category::Mc | Category::Nd | Category::Pc
    );
    (is_id_start_by(category, flags) || continues || flags.has(Flag::OtherIdContinue))
        && !is_pattern_syntax_or_space(flags)
}

fn is_grapheme_extend(facts: &FactsRef<'_>) -> bool
    ensures { result ≡ grapheme_extend (shown_facts facts.now) }
{
    matches!(facts.category, Category::Me | Category::Mn)
        || facts.flags.has(Flag::OtherGraphemeExtend)
}

fn is_grapheme_base(facts: &FactsRef<'_>) -> bool
    ensures { result ≡ grapheme_base (shown_facts facts.now) }
{
    let other = matches!(
        facts.category,
        Category::Cc
            | Category::Cf
            | Category::Cs
            | Category::Co
            | Category::Cn
            | Category::Zl
            | Category::Zp
    );
    !other && !is_grapheme_extend(facts)
}
