//! Whether the facts of two code points are equal.

ghost use Rattle.std.specs.Prelude.{◌≡◌, IsTrue};
ghost use Rattle.std.specs.Bool.{Decides};
ghost use Rattle.ucd_facts.specs.Sets.{has_flag};
ghost use Rattle.ucd_facts.specs.Shown.{image_shown, shown_facts};
ghost use Rattle.ucd_facts.specs.declared.property.Flag.{Flag};

use crate::view::FactsRef;
use ucd_points::Point;

/// Whether two views show equal facts: of one code point before and after an edit, say. It takes no memory.
#[tactic(auto, using(crate::proofs::FactLemmas::shown_alike))]
pub fn same_facts(a: &FactsRef<'_>, b: &FactsRef<'_>) -> bool
    ensures { Decides result (shown_facts a.now ≡ shown_facts b.now) }
{
    has_same_classification(a, b)
        && has_same_mapping(a, b)
        && has_same_simple(a, b)
        && has_same_images(a, b)
        && has_same_flags(a, b)
        && has_same_other_flags(a, b)
}

/// Whether two views show the same category, class and kind, and whether both points have a row.
fn has_same_classification(a: &FactsRef<'_>, b: &FactsRef<'_>) -> bool
    ensures assigned { IsTrue result → a.now.assigned ≡ b.now.assigned }
    ensures category { IsTrue result → a.now.category ≡ b.now.category }
    ensures class { IsTrue result → a.now.class ≡ b.now.class }
    ensures kind { IsTrue result → a.now.kind ≡ b.now.kind }
    ensures same { shown_facts a.now ≡ shown_facts b.now → IsTrue result }
{
    a.assigned == b.assigned && a.category == b.category && a.class == b.class && a.kind == b.kind
}

/// Whether two views show the same decomposition mapping.
fn has_same_mapping(a: &FactsRef<'_>, b: &FactsRef<'_>) -> bool
    ensures mapping { IsTrue result → a.now.mapping.now ≡ b.now.mapping.now }
    ensures same { shown_facts a.now ≡ shown_facts b.now → IsTrue result }
{
    a.mapping == b.mapping
}

/// Whether two views show the same simple case mappings and folding.
fn has_same_simple(a: &FactsRef<'_>, b: &FactsRef<'_>) -> bool
    ensures upper { IsTrue result → a.now.simple_upper ≡ b.now.simple_upper }
    ensures lower { IsTrue result → a.now.simple_lower ≡ b.now.simple_lower }
    ensures title { IsTrue result → a.now.simple_title ≡ b.now.simple_title }
    ensures fold { IsTrue result → a.now.simple_fold ≡ b.now.simple_fold }
    ensures same { shown_facts a.now ≡ shown_facts b.now → IsTrue result }
{
    a.simple_upper == b.simple_upper
        && a.simple_lower == b.simple_lower
        && a.simple_title == b.simple_title
        && a.simple_fold == b.simple_fold
}

/// Whether two views show the same full case mappings and folding.
fn has_same_images(a: &FactsRef<'_>, b: &FactsRef<'_>) -> bool
    ensures upper { IsTrue result → image_shown a.now.upper ≡ image_shown b.now.upper }
    ensures lower { IsTrue result → image_shown a.now.lower ≡ image_shown b.now.lower }
    ensures title { IsTrue result → image_shown a.now.title ≡ image_shown b.now.title }
    ensures fold { IsTrue result → image_shown a.now.fold ≡ image_shown b.now.fold }
    ensures same { shown_facts a.now ≡ shown_facts b.now → IsTrue result }
{
    is_same_image(&a.upper, &b.upper)
        && is_same_image(&a.lower, &b.lower)
        && is_same_image(&a.title, &b.title)
        && is_same_image(&a.fold, &b.fold)
}

/// Whether two images that views show are equal.
fn is_same_image(a: &Option<&[Point]>, b: &Option<&[Point]>) -> bool
    ensures equal { IsTrue result → image_shown a.now ≡ image_shown b.now }
    ensures same { image_shown a.now ≡ image_shown b.now → IsTrue result }
{
    match (a, b) {
        (None, None) => true,
        (Some(a), Some(b)) => *a == *b,
        _ => false,
    }
}

/// Whether two views show the same properties of PropList.txt.
fn has_same_flags(a: &FactsRef<'_>, b: &FactsRef<'_>) -> bool
    ensures flags { IsTrue result → (flag : Flag)
        → has_flag a.now.flags flag ≡ has_flag b.now.flags flag }
    ensures same { shown_facts a.now ≡ shown_facts b.now → IsTrue result }
{
    a.flags.is_same(b.flags)
}

/// Whether two views show the same of the other marks: in the middle of a word, and excluded from composition.
fn has_same_other_flags(a: &FactsRef<'_>, b: &FactsRef<'_>) -> bool
    ensures mid_word { IsTrue result → a.now.mid_word ≡ b.now.mid_word }
    ensures excluded { IsTrue result → a.now.excluded ≡ b.now.excluded }
    ensures same { shown_facts a.now ≡ shown_facts b.now → IsTrue result }
{
    a.mid_word == b.mid_word && a.excluded == b.excluded
}
