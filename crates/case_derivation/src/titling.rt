//! The title of a list.

ghost use Rattle.std.specs.Prelude.{◌≡◌, IfOk};
ghost use Rattle.ucd_model.specs.Casing.{title};
ghost use Rattle.ucd_facts.specs.Shown.{image_shown, shown_facts};
ghost use Rattle.case_derivation.specs.Steps.{title_image};

use crate::is_cased;
use crate::mapping::put_image;
use std::alloc::Global;
use ucd_model::{FactView, FactsRef, Memory, Point, Points};

/// The title of a list that is one word: the members before the first Cased one stay, that one has its full title case
/// mapping, and each later member its full lower case mapping, without context.
/// The Unicode Standard, section 3.13, toTitlecase.
///
/// - `Memory`: memory ran out.
pub fn title<W: FactView>(alloc: Global, view: &W, s: &[Point]) -> Result<Points, Memory>
    ensures { IfOk result (λ points. points ≡ title (W.facts_of view.now) s.now) }
{
    let mut points = Points::new(alloc);
    let mut begun = false;
    'members: for c in s {
        let facts = view.facts(*c);
        put_image(*c, title_image(begun, &facts), &mut points)?;
        begun = begun || is_cased(&facts);
    }
    Ok(points)
}

/// The image in a title of a code point with these facts; the title has begun if a Cased code point stands before
/// it.
pub(crate) fn title_image<'a>(begun: bool, facts: &FactsRef<'a>) -> Option<&'a [Point]>
    ensures { image_shown result ≡ title_image begun (shown_facts facts.now) }
{
    if begun {
        facts.lower
    } else if is_cased(facts) {
        facts.title
    } else {
        None
    }
}
