//! The five columns of a case, as they stand in its line.

ghost use Rattle.std.specs.Prelude.{◌≡◌, IfOk};
ghost use Rattle.ucd_points.specs.Fields.{fields};
ghost use Rattle.ucd_points.specs.declared.files.SourceFile.TheVariants.{PropList};
ghost use Rattle.norm_conformance.specs.Cases.{case_of};
ghost use Rattle.norm_conformance.specs.Lines.{columns_by, columns_in, is_end, points_in};

use crate::case::Case;
use crate::stop::CaseRule;
use source_rows::{Mapping, nonempty_mapping_of};
use std::alloc::Global;
use ucd_lines::{Fields, fields};
use ucd_model::{Memory, SourceFile};

/// The columns of a case: source; NFC; NFD; NFKC; NFKD.
#[derive(Drop)]
pub struct Columns<'a> {
    /// The source.
    pub c1: Mapping<'a>,
    /// Its Normalisation Form C.
    pub c2: Mapping<'a>,
    /// Its Normalisation Form D.
    pub c3: Mapping<'a>,
    /// Its Normalisation Form KC.
    pub c4: Mapping<'a>,
    /// Its Normalisation Form KD.
    pub c5: Mapping<'a>,
}

impl<'a> Columns<'a> {
    /// The case with these columns.
    ///
    /// - `Memory`: memory ran out.
    pub fn case(self, alloc: Global, line: u32, part: u8) -> Result<Case, Memory>
        ensures { IfOk result (λ case. case ≡ case_of line part self.entry) }
    {
        let Columns { c1, c2, c3, c4, c5 } = self;
        Ok(Case {
            line,
            part,
            c1: c1.copied(alloc)?,
            c2: c2.copied(alloc)?,
            c3: c3.copied(alloc)?,
            c4: c4.copied(alloc)?,
            c5: c5.copied(alloc)?,
        })
    }
}

/// The columns of a line. UAX #44, section 4.2.
///
/// - `N1`: there are not five fields, or five fields and an empty one.
/// - `N2`: one of the five is not one to 64 code points.
pub fn columns_of(content: &[u8]) -> Result<Columns<'_>, CaseRule>
    ensures { result ≡ columns_in (fields PropList content.now) }
{
    let mut left = fields(SourceFile::PropList, content);
    let Some(f1) = left.next() else {
        return Err(CaseRule::N1);
    };
    let Some(f2) = left.next() else {
        return Err(CaseRule::N1);
    };
    let Some(f3) = left.next() else {
        return Err(CaseRule::N1);
    };
    let Some(f4) = left.next() else {
        return Err(CaseRule::N1);
    };
    let Some(f5) = left.next() else {
        return Err(CaseRule::N1);
    };
    if !has_no_more_fields(left) {
        return Err(CaseRule::N1);
    }
    five_columns(f1, f2, f3, f4, f5)
}

/// Whether nothing is left, or one empty field.
fn has_no_more_fields(mut left: Fields<'_>) -> bool
    ensures { result ≡ is_end left.entry }
{
    match left.next() {
        None => true,
        Some(field) => field.is_empty() && left.next().is_none(),
    }
}

/// The columns that five fields spell.
fn five_columns<'a>(
    f1: &'a [u8],
    f2: &'a [u8],
    f3: &'a [u8],
    f4: &'a [u8],
    f5: &'a [u8],
) -> Result<Columns<'a>, CaseRule>
    ensures { result ≡ columns_by (points_in f1.now) (points_in f2.now) (points_in f3.now)
        (points_in f4.now) (points_in f5.now) }
{
    let (Some(c1), Some(c2), Some(c3), Some(c4), Some(c5)) = (
        nonempty_mapping_of(f1),
        nonempty_mapping_of(f2),
        nonempty_mapping_of(f3),
        nonempty_mapping_of(f4),
        nonempty_mapping_of(f5),
    ) else {
        return Err(CaseRule::N2);
    };
    Ok(Columns { c1, c2, c3, c4, c5 })
}
