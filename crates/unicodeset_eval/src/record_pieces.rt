//! Pieces of records that tests do not tell apart.

ghost use Rattle.std.specs.Prelude.{◌≡◌, ℕ, IfOk, IsTrue};
ghost use Rattle.ucd_model.specs.Cuts.{IsCut};
ghost use Rattle.ucd_model.specs.Records.{kept_record};
ghost use Rattle.ucd_points.specs.Limits.{point_count};
ghost use Rattle.unicodeset_eval.specs.RecordPieces.{AreCut, ArePiecesOf, unfolded, values_record};

use crate::pieces_again::put_alike;
use std::alloc::Global;
use ucd_model::{
    Category, CoreSet, Kind, Memory, Point, Quick, Record, Records, Span, point_count,
};

/// The values of the properties that tests ask for: those of a record but its NFKC_Casefold.
#[derive(Clone, Copy)]
pub(crate) struct PropertyValues {
    pub(crate) category: Category,
    pub(crate) class: u8,
    pub(crate) kind: Kind,
    pub(crate) core: CoreSet,
    pub(crate) exclusion: bool,
    pub(crate) nfd: Quick,
    pub(crate) nfc: Quick,
    pub(crate) nfkd: Quick,
    pub(crate) nfkc: Quick,
    pub(crate) changes_casefold: bool,
}

/// Code points that follow one another, with records that no test tells apart.
#[derive(Clone, Copy)]
pub(crate) struct RecordRun {
    /// The number of the first one.
    pub(crate) first: u32,
    /// The values of each of them.
    pub(crate) values: PropertyValues,
}

/// All code points, cut into pieces of records that no test tells apart, with the values that tests ask for. They stay while the
/// records do.
#[derive(Drop)]
pub struct RecordPieces {
    pub(crate) pieces: Vec<RecordRun>,
}

impl RecordPieces {
    /// The pieces of a bench, by spans of equal records that follow one another over all code points, as
    /// [`equal_record_spans`](ucd_model::equal_record_spans) gives them. Each record is looked up once. Spans next to each other whose records
    /// differ in nothing that tests ask for are one piece.
    ///
    /// - `Memory`: memory ran out.
    pub fn of<B: Records>(alloc: Global, bench: &B, spans: &[Span]) -> Result<RecordPieces, Memory>
        requires { IsCut (B.record_of bench.now) 0 point_count spans.now }
        ensures { IfOk result (λ pieces. ArePiecesOf pieces (B.record_of bench.now)) }
    {
        let pieces = pieces_of(alloc, bench, spans)?;
        Ok(RecordPieces { pieces })
    }
}

/// The values of a record.
pub(crate) fn values_of(shown: &Record) -> PropertyValues
    ensures { values_record result ≡ unfolded (kept_record shown.now) }
{
    PropertyValues {
        category: shown.category,
        class: shown.class,
        kind: shown.kind,
        core: shown.core,
        exclusion: shown.exclusion,
        nfd: shown.nfd,
        nfc: shown.nfc,
        nfkd: shown.nfkd,
        nfkc: shown.nfkc,
        changes_casefold: shown.changes_casefold,
    }
}

/// Whether no test tells the records with these values apart.
fn are_same(a: &PropertyValues, b: &PropertyValues) -> bool
    ensures { IsTrue result → values_record a.now ≡ values_record b.now }
{
    have_same_row_and_core(a, b) && have_same_checks(a, b)
}

/// Whether what the row of UnicodeData.txt says and the core properties are the same.
fn have_same_row_and_core(a: &PropertyValues, b: &PropertyValues) -> bool
    ensures category { IsTrue result → a.now.category ≡ b.now.category }
    ensures class { IsTrue result → a.now.class ≡ b.now.class }
    ensures kind { IsTrue result → a.now.kind ≡ b.now.kind }
    ensures core { IsTrue result → a.now.core ≡ b.now.core }
{
    a.category == b.category && a.class == b.class && a.kind == b.kind && a.core.is_same(b.core)
}

/// Whether the exclusion, the quick checks and what changes under NFKC_Casefold are the same.
fn have_same_checks(a: &PropertyValues, b: &PropertyValues) -> bool
    ensures exclusion { IsTrue result → a.now.exclusion ≡ b.now.exclusion }
    ensures nfd { IsTrue result → a.now.nfd ≡ b.now.nfd }
    ensures nfc { IsTrue result → a.now.nfc ≡ b.now.nfc }
    ensures nfkd { IsTrue result → a.now.nfkd ≡ b.now.nfkd }
    ensures nfkc { IsTrue result → a.now.nfkc ≡ b.now.nfkc }
    ensures changes { IsTrue result → a.now.changes_casefold ≡ b.now.changes_casefold }
{
    a.exclusion == b.exclusion
        && a.nfd == b.nfd
        && a.nfc == b.nfc
        && a.nfkd == b.nfkd
        && a.nfkc == b.nfkc
        && a.changes_casefold == b.changes_casefold
}

/// The pieces of spans of equal records, of which neighbours that no test tells apart are joined. Each record is looked up once.
///
/// - `Memory`: memory ran out.
fn pieces_of<B: Records>(alloc: Global, bench: &B, spans: &[Span]) -> Result<Vec<RecordRun>, Memory>
    requires { IsCut (B.record_of bench.now) 0 point_count spans.now }
    ensures { IfOk result (λ pieces. AreCut (B.record_of bench.now) pieces.items) }
{
    let mut pieces = Vec::new(alloc);
    let mut begun = 0;
    let mut values = values_of(bench.record(Point::at(0)));
    let mut left = spans;
    'spans: while let Some((span, behind)) = left.split_first() {
        let here = values_of(bench.record(span.lo));
        if !are_same(&values, &here) {
            put_alike(begun, span.first(), values, &mut pieces)?;
            begun = span.first();
            values = here;
        }
        left = behind;
    }
    put_alike(begun, point_count(), values, &mut pieces)?;
    pieces.shrink_to_fit();
    Ok(pieces)
}
