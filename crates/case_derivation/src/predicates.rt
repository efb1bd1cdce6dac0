//! Which code points have case, and which are passed over around them.

ghost use Rattle.std.specs.Prelude.{◌≡◌};
ghost use Rattle.ucd_facts.specs.Shown.{shown_facts};
ghost use Rattle.ucd_facts.specs.Predicates.{lowercase, uppercase, cased, case_ignorable};

use ucd_model::{Category, FactView, FactsRef, Flag, Point};

/// Whether a code point is Cased. The Unicode Standard, section 3.13, D135.
pub fn cased<W: FactView>(view: &W, c: Point) -> bool
    ensures { result ≡ cased (W.facts_of view.now c) }
{
    is_cased(&view.facts(c))
}

/// Whether a code point is Case_Ignorable. The Unicode Standard, section 3.13, D136.
pub fn case_ignorable<W: FactView>(view: &W, c: Point) -> bool
    ensures { result ≡ case_ignorable (W.facts_of view.now c) }
{
    is_case_ignorable(&view.facts(c))
}

/// Whether a code point with these facts is Lowercase. UAX #44, section 5.3.
pub fn is_lowercase(facts: &FactsRef<'_>) -> bool
    ensures { result ≡ lowercase (shown_facts facts.now) }
{
    matches!(facts.category, Category::Ll) || facts.flags.has(Flag::OtherLowercase)
}

/// Whether a code point with these facts is Uppercase. UAX #44, section 5.3.
pub fn is_uppercase(facts: &FactsRef<'_>) -> bool
    ensures { result ≡ uppercase (shown_facts facts.now) }
{
    matches!(facts.category, Category::Lu) || facts.flags.has(Flag::OtherUppercase)
}

/// Whether a code point with these facts is Cased. The Unicode Standard, section 3.13, D135.
pub fn is_cased(facts: &FactsRef<'_>) -> bool
    ensures { result ≡ cased (shown_facts facts.now) }
{
    is_lowercase(facts) || is_uppercase(facts) || matches!(facts.category, Category::Lt)
}

/// Whether a code point with these facts is Case_Ignorable. The Unicode Standard, section 3.13, D136.
pub fn is_case_ignorable(facts: &FactsRef<'_>) -> bool
    ensures { result ≡ case_ignorable (shown_facts facts.now) }
{
    facts.mid_word
        || matches!(
            facts.category,
            Category::Mn | Category::Me | Category::Cf | Category::Lm | Category::Sk
        )
}
