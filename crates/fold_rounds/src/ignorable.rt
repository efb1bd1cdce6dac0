//! Code points that are ignored by default.

ghost use Rattle.std.specs.Prelude.{◌≡◌};
ghost use Rattle.ucd_facts.specs.Facts.{Facts};
ghost use Rattle.ucd_model.specs.FoldRounds.{drop_ignorable};
ghost use Rattle.ucd_facts.specs.Predicates.{is_visible_format, default_ignorable};
ghost use Rattle.ucd_facts.specs.Sets.{has_flag};
ghost use Rattle.ucd_facts.specs.Shown.{shown_facts};

use ucd_model::{Category, FactView, FactsRef, Flag, Flags, Point, Points};

/// Whether a code point is a Default_Ignorable_Code_Point. UAX #44, section 5.3, table 9.
pub fn default_ignorable<W: FactView>(view: &W, c: Point) -> bool
    ensures { result ≡ default_ignorable c (W.facts_of view.now c) }
{
    is_ignorable_by(c, view.category(c), view.flags(c))
}

/// Whether a code point with these facts is a Default_Ignorable_Code_Point. UAX #44, section 5.3, table 9.
pub fn is_default_ignorable(c: Point, facts: &FactsRef<'_>) -> bool
    ensures { result ≡ default_ignorable c (shown_facts facts.now) }
{
    is_ignorable_by(c, facts.category, facts.flags)
}

/// Whether a code point with this category and these properties is a Default_Ignorable_Code_Point. UAX #44, section 5.3, table 9.
fn is_ignorable_by(c: Point, category: Category, flags: Flags) -> bool
    ensures { (G : Facts) → G.category ≡ category → G.flag ≡ has_flag flags
        → result ≡ default_ignorable c G }
{
    let ignored = matches!(category, Category::Cf)
        || flags.has(Flag::OtherDefaultIgnorableCodePoint)
        || flags.has(Flag::VariationSelector);
    let shown = is_visible_format(c)
        || flags.has(Flag::WhiteSpace)
        || flags.has(Flag::PrependedConcatenationMark);
    ignored && !shown
}

/// Whether a format character is shown: the interlinear annotation characters, and the format characters of Egyptian
/// hieroglyphs. UAX #44, section 5.3, table 9.
pub fn is_visible_format(c: Point) -> bool
    ensures { result ≡ is_visible_format c }
{
    matches!(c.number(), 0xFFF9..=0xFFFB | 0x13430..=0x1343F)
}

/// Takes the Default_Ignorable_Code_Points out of a list, in place. It takes no memory. UAX #44, section 5.3, table 9.
pub fn drop_ignorable<W: FactView>(view: &W, s: &mut Points)
    ensures { s.new ≡ drop_ignorable (W.facts_of view.now) s.old }
{
    let mut kept = 0;
    'points: for at in 0..s.len() {
        let x = s.as_slice()[at];
        if !default_ignorable(view, x) {
            s.replace(kept, x);
            kept += 1;
        }
    }
    s.truncate(kept);
}
