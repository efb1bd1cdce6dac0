//! What is derived for each code point.

ghost use Rattle.std.specs.Prelude.{◌≡◌, ℕ, IsTrue};
ghost use Rattle.std.specs.Bool.{Decides};
ghost use Rattle.ucd_model.specs.Records.{Record, kept_record};

use ucd_facts::{Category, CoreSet, Image, Kind, Quick};
use ucd_points::Point;

/// The derived properties of a code point. UAX #44, section 5.3.
#[derive(Debug, Drop)]
pub struct Record {
    /// General_Category.
    pub category: Category,
    /// Canonical_Combining_Class, from 0 to 254.
    pub class: u8,
    /// Decomposition_Type; `Plain` if there is no mapping.
    pub kind: Kind,
    /// The core properties that the code point has.
    pub core: CoreSet,
    /// Full_Composition_Exclusion.
    pub exclusion: bool,
    /// NFD_Quick_Check.
    pub nfd: Quick,
    /// NFC_Quick_Check.
    pub nfc: Quick,
    /// NFKD_Quick_Check.
    pub nfkd: Quick,
    /// NFKC_Quick_Check.
    pub nfkc: Quick,
    /// Changes_When_NFKC_Casefolded.
    pub changes_casefold: bool,
    /// NFKC_Casefold; `Same` if it is the point itself alone.
    pub casefold: Image,
    /// NFKC_Simple_Casefold; `Same` if it is the point itself alone.
    pub simple_casefold: Image,
}

impl Record {
    /// Whether two records are equal.
    #[tactic(auto, using(crate::proofs::RecordLemmas::same_fields))]
    pub fn is_same(&self, other: &Record) -> bool
        ensures equal { IsTrue result → self.now ≡ other.now }
        ensures same { self.now ≡ other.now → IsTrue result }
        ensures told { Decides result (kept_record self.now ≡ kept_record other.now) }
    {
        has_same_core(self, other)
            && has_same_classification(self, other)
            && has_same_checks(self, other)
            && has_same_folding(self, other)
    }
}

/// Whether two records are equal in what the row of UnicodeData.txt says.
fn has_same_classification(a: &Record, b: &Record) -> bool
    ensures category { IsTrue result → a.now.category ≡ b.now.category }
    ensures class { IsTrue result → a.now.class ≡ b.now.class }
    ensures kind { IsTrue result → a.now.kind ≡ b.now.kind }
    ensures same { kept_record a.now ≡ kept_record b.now → IsTrue result }
{
    a.category == b.category && a.class == b.class && a.kind == b.kind
}

/// Whether two records have the same core properties.
fn has_same_core(a: &Record, b: &Record) -> bool
    ensures core { IsTrue result → a.now.core ≡ b.now.core }
    ensures same { kept_record a.now ≡ kept_record b.now → IsTrue result }
{
    a.core.is_same(b.core)
}

/// Whether two records are equal in the exclusion and the quick checks.
fn has_same_checks(a: &Record, b: &Record) -> bool
    ensures exclusion { IsTrue result → a.now.exclusion ≡ b.now.exclusion }
    ensures nfd { IsTrue result → a.now.nfd ≡ b.now.nfd }
    ensures nfc { IsTrue result → a.now.nfc ≡ b.now.nfc }
    ensures nfkd { IsTrue result → a.now.nfkd ≡ b.now.nfkd }
    ensures nfkc { IsTrue result → a.now.nfkc ≡ b.now.nfkc }
    ensures same { kept_record a.now ≡ kept_record b.now → IsTrue result }
{
    a.exclusion == b.exclusion
        && a.nfd == b.nfd
        && a.nfc == b.nfc
        && a.nfkd == b.nfkd
        && a.nfkc == b.nfkc
}

/// Whether two records are equal in the case foldings under NFKC.
fn has_same_folding(a: &Record, b: &Record) -> bool
    ensures casefold { IsTrue result → a.now.casefold ≡ b.now.casefold }
    ensures simple { IsTrue result → a.now.simple_casefold ≡ b.now.simple_casefold }
    ensures changes { IsTrue result → a.now.changes_casefold ≡ b.now.changes_casefold }
    ensures same { kept_record a.now ≡ kept_record b.now → IsTrue result }
{
    a.changes_casefold == b.changes_casefold
        && a.casefold.is_same(&b.casefold)
        && a.simple_casefold.is_same(&b.simple_casefold)
}

/// The records of all code points, as they are now. No call takes memory.
pub trait Records {
    // the record of each code point
    ghost record_of: { Self → ℕ → Record };

    /// The record of a code point.
    fn record(&self, c: Point) -> &Record
        ensures { kept_record result.now ≡ record_of self.now c };
}
