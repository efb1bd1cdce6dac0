//! The quick checks of the composed forms of a code point, together.

ghost use Rattle.std.specs.Prelude.{◌≡◌};
ghost use Rattle.std.specs.Str.{bytes_eq};
ghost use Rattle.ucd_model.specs.QuickChecks.{quick_composed};

use crate::point_forms::FormsRef;
use quick_checks::quick_composed;
use ucd_model::{FactView, Point, Quick};

/// The quick checks of the composed forms. UAX #15, section 9.
#[derive(Clone, Copy)]
pub struct ComposedChecks {
    /// NFC_Quick_Check.
    pub nfc: Quick,
    /// NFKC_Quick_Check.
    pub nfkc: Quick,
}

/// The quick checks of the composed forms of a code point. If both forms are the same list, one question tells both.
/// UAX #15, section 9.
#[tactic(auto, using(crate::proofs::RecordLemmas::same_check))]
pub fn composed_checks<W: FactView>(view: &W, c: Point, forms: FormsRef<'_>) -> ComposedChecks
    ensures nfc { result.nfc ≡ quick_composed (W.facts_of view.now) c forms.entry.nfc.now }
    ensures nfkc { result.nfkc ≡ quick_composed (W.facts_of view.now) c forms.entry.nfkc.now }
{
    let nfc = quick_composed(view, c, forms.nfc);
    if is_same(forms.nfkc, forms.nfc) {
        return ComposedChecks { nfc, nfkc: nfc };
    }
    ComposedChecks {
        nfc,
        nfkc: quick_composed(view, c, forms.nfkc),
    }
}

/// Whether two lists are the same.
fn is_same(a: &[Point], b: &[Point]) -> bool
    ensures { result ≡ bytes_eq a.now b.now }
{
    a == b
}
