//! The sections of the derived files.

ghost use Rattle.std.specs.Prelude.{◌≡◌, ◌≤◌, ◌<◌, ℕ, IsTrue, OnOk, length, map, slice_index_or};
ghost use Rattle.std.specs.Borrow.{Bor};
ghost use Rattle.ucd_model.specs.DerivedFiles.{file_sections};
ghost use Rattle.ucd_model.specs.Labels.{Label};
ghost use Rattle.ucd_model.specs.Records.{Record as RecordValue, kept_record};
ghost use Rattle.ucd_model.specs.declared.records.Record.{Record as Kept};
ghost use Rattle.derived_writer.specs.Listings.{listing_section, listings_of, check_value, shown_label, TellsSame};

use crate::names::quick_check_name;
use crate::values::{set_binary, set_casefold, set_category, set_class, set_kind, set_quick};
use label_runs::LabelText;
use std::alloc::Global;
use ucd_model::{Core, DerivedFile, Form, Memory, Quick, Record};

/// A property whose values are listed in a section. UAX #44, section 5.3.
#[derive(Clone, Copy, Debug, PartialEq, Eq)]
pub enum Listing {
    /// A core property.
    Core(Core),
    /// General_Category.
    Category,
    /// Canonical_Combining_Class.
    Class,
    /// Decomposition_Type.
    Decomposition,
    /// Full_Composition_Exclusion.
    Exclusion,
    /// The quick check of a form.
    Quick(Form),
    /// NFKC_Casefold.
    Casefold,
    /// NFKC_Simple_Casefold.
    SimpleCasefold,
    /// Changes_When_NFKC_Casefolded.
    ChangesCasefold,
}

/// The sections of DerivedCoreProperties.txt.
const CORE_LISTINGS: [Listing; 19] = [
    Listing::Core(Core::Math),
    Listing::Core(Core::Alphabetic),
    Listing::Core(Core::Lowercase),
    Listing::Core(Core::Uppercase),
    Listing::Core(Core::Cased),
    Listing::Core(Core::CaseIgnorable),
    Listing::Core(Core::ChangesWhenLowercased),
    Listing::Core(Core::ChangesWhenUppercased),
    Listing::Core(Core::ChangesWhenTitlecased),
    Listing::Core(Core::ChangesWhenCasefolded),
    Listing::Core(Core::ChangesWhenCasemapped),
    Listing::Core(Core::IdStart),
    Listing::Core(Core::IdContinue),
    Listing::Core(Core::XidStart),
    Listing::Core(Core::XidContinue),
    Listing::Core(Core::DefaultIgnorableCodePoint),
    Listing::Core(Core::GraphemeExtend),
    Listing::Core(Core::GraphemeBase),
    Listing::Core(Core::GraphemeLink),
];

/// The sections of DerivedNormalizationProps.txt.
const NORMALIZATION_LISTINGS: [Listing; 8] = [
    Listing::Exclusion,
    Listing::Quick(Form::Nfd),
    Listing::Quick(Form::Nfc),
    Listing::Quick(Form::Nfkd),
    Listing::Quick(Form::Nfkc),
    Listing::Casefold,
    Listing::SimpleCasefold,
    Listing::ChangesCasefold,
];

/// The sections of a file, in order.
pub fn file_listings(file: DerivedFile) -> &'static [Listing]
    ensures listings { result.now ≡ listings_of file }
    ensures sections { map listing_section result.now ≡ file_sections file }
{
    match file {
        DerivedFile::CoreProperties => &CORE_LISTINGS,
        DerivedFile::NormalizationProps => &NORMALIZATION_LISTINGS,
        DerivedFile::GeneralCategory => &[Listing::Category],
        DerivedFile::CombiningClass => &[Listing::Class],
        DerivedFile::DecompositionType => &[Listing::Decomposition],
    }
}

impl Listing {
    /// The name of the section.
    pub fn name(self) -> &'static [u8]
        ensures { result.now ≡ (listing_section self).name }
    {
        match self {
            Listing::Core(core) => core.name(),
            Listing::Category => b"General_Category",
            Listing::Class => b"Canonical_Combining_Class",
            Listing::Decomposition => b"Decomposition_Type",
            Listing::Exclusion => b"Full_Composition_Exclusion",
            Listing::Quick(form) => quick_check_name(form),
            Listing::Casefold => b"NFKC_CF",
            Listing::SimpleCasefold => b"NFKC_SCF",
            Listing::ChangesCasefold => b"Changes_When_NFKC_Casefolded",
        }
    }

    /// Makes `label` the label of a record in this section.
    ///
    /// - `Memory`: memory ran out. Nothing is then known of the label.
    pub fn set_label(
        self,
        alloc: Global,
        shown: &Record,
        label: &mut LabelText,
    ) -> Result<(), Memory>
        ensures { OnOk result (label.new ≡ (listing_section self).label (kept_record shown.now)) }
    {
        match self {
            Listing::Core(core) => set_binary(core.name(), shown.core.has(core), label),
            Listing::Category => set_category(shown.category, label),
            Listing::Class => set_class(alloc, shown.class, label),
            Listing::Decomposition => set_kind(shown.kind, label),
            Listing::Exclusion => set_binary(self.name(), shown.exclusion, label),
            Listing::Quick(form) => set_quick(quick_check_name(form), quick(form, shown), label),
            Listing::Casefold => set_casefold(self.name(), &shown.casefold, label),
            Listing::SimpleCasefold => set_casefold(self.name(), &shown.simple_casefold, label),
            Listing::ChangesCasefold => set_binary(self.name(), shown.changes_casefold, label),
        }
    }

    /// The place after the records from the one at `at` on that have its label, as far as equal values tell.
    pub fn end_of_same(self, records: &[&Record], at: usize) -> usize
        requires { at < length records.now }
        ensures from { at < result }
        ensures within { result ≤ length records.now }
        ensures same { (k : ℕ) (kept : Bor Kept) → at ≤ k → k < result
            → shown_label self (slice_index_or records.now k kept)
            ≡ shown_label self (slice_index_or records.now at kept) }
    {
        match self {
            Listing::Core(core) => end_by(records, at, |a, b| a.core.has(core) == b.core.has(core)),
            _ => end_by(records, at, |a, b| self.is_same(a, b)),
        }
    }

    /// Whether two records have one value in this section, and so one label.
    fn is_same(self, a: &Record, b: &Record) -> bool
        ensures { IsTrue result → (listing_section self).label (kept_record a.now)
            ≡ (listing_section self).label (kept_record b.now) }
    {
        match self {
            Listing::Core(core) => a.core.has(core) == b.core.has(core),
            Listing::Category => a.category == b.category,
            Listing::Class => a.class == b.class,
            Listing::Decomposition => a.kind == b.kind,
            Listing::Exclusion => a.exclusion == b.exclusion,
            Listing::Quick(form) => quick(form, a) == quick(form, b),
            Listing::Casefold => a.casefold.is_same(&b.casefold),
            Listing::SimpleCasefold => a.simple_casefold.is_same(&b.simple_casefold),
            Listing::ChangesCasefold => a.changes_casefold == b.changes_casefold,
        }
    }
}

/// The place after the records from the one at `at` on that are the same as it, as far as `is_same` tells. Most sections are of
/// core properties: these have a loop of their own, which does not ask at each record what the section lists.
fn end_by<F: Fn(&Record, &Record) -> bool>(records: &[&Record], at: usize, is_same: F) -> usize
    requires inside { at < length records.now }
    requires callable { F.IsAlwaysCallable is_same }
    ensures from { at < result }
    ensures within { result ≤ length records.now }
    ensures same { (f : RecordValue → Label) → TellsSame (F.post is_same) f
        → (k : ℕ) (kept : Bor Kept) → at ≤ k → k < result
        → f (kept_record (slice_index_or records.now k kept).now)
        ≡ f (kept_record (slice_index_or records.now at kept).now) }
{
    let first = records[at];
    let mut end = at + 1;
    'records: while end < records.len() && is_same(first, records[end]) {
        end += 1;
    }
    end
}

/// The quick check of a form.
fn quick(form: Form, shown: &Record) -> Quick
    ensures { result ≡ check_value form (kept_record shown.now) }
{
    match form {
        Form::Nfd => shown.nfd,
        Form::Nfc => shown.nfc,
        Form::Nfkd => shown.nfkd,
        Form::Nfkc => shown.nfkc,
    }
}
