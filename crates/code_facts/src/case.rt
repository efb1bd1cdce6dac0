//! The images of code points that CaseFolding.txt and SpecialCasing.txt give.

ghost use Rattle.std.specs.Prelude.{◌≡◌, ℕ, ◌==◌};
ghost use Rattle.ucd_facts.specs.Facts.{status_place};
ghost use Rattle.ucd_facts.specs.declared.row.Row.{Row};
ghost use Rattle.source_rows.specs.RowRefs.{casing_in, fold_in, row_in};
ghost use Rattle.code_facts.specs.Found.{given_to, image_of_row};

use source_rows::{CasingText, FoldText, Mapping, RowRef};
use ucd_facts::{FoldStatus, Point};

/// What an image is of: a folding of a status, or a casing without conditions.
#[derive(Clone, Copy)]
pub enum Case {
    /// The folding of this status.
    Fold(FoldStatus),
    /// The full mapping to lower case.
    Lower,
    /// The full mapping to title case.
    Title,
    /// The full mapping to upper case.
    Upper,
}

impl Case {
    /// The code point and the image that a row gives it; `None` if the row gives none of this case.
    pub fn image<'a>(self, row: &RowRef<'a>) -> Option<(Point, Mapping<'a>)>
        ensures { (c : ℕ) → given_to c result ≡ image_of_row self c (row_in row.now) }
    {
        match row {
            RowRef::Fold(row) => self.folding(row),
            RowRef::Casing(row) => self.casing(row),
            _ => None,
        }
    }

    /// The image that a row of CaseFolding.txt gives.
    fn folding<'a>(self, row: &FoldText<'a>) -> Option<(Point, Mapping<'a>)>
        ensures { (c : ℕ) → given_to c result ≡ image_of_row self c (Row.Fold (fold_in row.now)) }
    {
        match self {
            Case::Fold(status) if same_status(row.status, status) => {
                Some((row.code, row.mapping.duplicate()))
            }
            _ => None,
        }
    }

    /// The image that a row of SpecialCasing.txt gives, if it has no conditions.
    fn casing<'a>(self, row: &CasingText<'a>) -> Option<(Point, Mapping<'a>)>
        ensures { (c : ℕ) → given_to c result
            ≡ image_of_row self c (Row.Casing (casing_in row.now)) }
    {
        if !row.conditions.is_empty() {
            return None;
        }
        match self {
            Case::Fold(_) => None,
            Case::Lower => Some((row.code, row.lower.duplicate())),
            Case::Title => Some((row.code, row.title.duplicate())),
            Case::Upper => Some((row.code, row.upper.duplicate())),
        }
    }
}

/// Whether two statuses are the same.
fn same_status(a: FoldStatus, b: FoldStatus) -> bool
    ensures { result ≡ (status_place a == status_place b) }
{
    a as u8 == b as u8
}
