//! Records of a few spans, for tests.

ghost use Rattle.std.specs.Prelude.{◌≡◌};
ghost use Rattle.ucd_facts.specs.Facts.{within};
ghost use Rattle.derivation_tests.specs.Samples.{sample_record};

use crate::facts::{point, points};
use std::alloc::Global;
use ucd_model::{
    Category, CoreSet, Image, Kind, ListOf, Memory, Point, Quick, Record, Records, Span,
};

/// Records of a few spans. If two cover a code point, the first one counts; all other code points have the default.
#[derive(Drop)]
pub struct Sample {
    entries: ListOf<(Span, Record)>,
    rest: Record,
}

impl Records for Sample {
    ghost record_of = { λ s. sample_record s.entries s.rest };

    fn record(&self, c: Point) -> &Record {
        'entries: for entry in self.entries.as_slice() {
            if covers(entry.0, c) {
                return &entry.1;
            }
        }
        &self.rest
    }
}

fn covers(span: Span, c: Point) -> bool
    ensures { result ≡ within c span }
{
    span.first() <= c.number() && c.number() <= span.last()
}

/// A record with nothing but a category.
pub fn plain(category: Category) -> Record {
    Record {
        category,
        class: 0,
        kind: Kind::Plain,
        core: CoreSet::none(),
        exclusion: false,
        nfd: Quick::Yes,
        nfc: Quick::Yes,
        nfkd: Quick::Yes,
        nfkc: Quick::Yes,
        casefold: Image::Same,
        simple_casefold: Image::Same,
        changes_casefold: false,
    }
}

/// A record with nothing but a category and a decomposition type.
pub fn with_kind(category: Category, kind: Kind) -> Record {
    let mut record = plain(category);
    record.kind = kind;
    record
}

/// The record of a mark with this combining class.
pub fn with_class(class: u8) -> Record {
    let mut record = plain(Category::Mn);
    record.class = class;
    record
}

/// The record of a point that is folded into these, by either folding.
///
/// - `Memory`: memory ran out.
pub fn with_folding(alloc: Global, category: Category, numbers: &[u32]) -> Result<Record, Memory> {
    let full = points(alloc, numbers)?;
    let simple = points(alloc, numbers)?;
    let mut record = plain(category);
    record.casefold = Image::To(full);
    record.simple_casefold = Image::To(simple);
    record.changes_casefold = true;
    Ok(record)
}

/// A record with the answers of the quick checks: those of NFD and NFC, and those of NFKD and NFKC.
pub fn with_checks(
    mut record: Record,
    canonical: (Quick, Quick),
    compatible: (Quick, Quick),
) -> Record {
    record.nfd = canonical.0;
    record.nfc = canonical.1;
    record.nfkd = compatible.0;
    record.nfkc = compatible.1;
    record
}

/// The record of a point that is excluded from composition and in no form.
pub fn excluded(record: Record) -> Record {
    let no = (Quick::No, Quick::No);
    let mut record = with_checks(record, no, no);
    record.exclusion = true;
    record
}

/// The span from one number to another: if it is less, that of the first number alone.
pub fn span(lo: u32, hi: u32) -> Span {
    match Span::new(point(lo), point(hi)) {
        Some(span) => span,
        None => Span::one(point(lo)),
    }
}

impl Sample {
    /// No entries: all code points have the default.
    pub fn new(alloc: Global) -> Sample {
        Sample {
            entries: ListOf::new(alloc),
            rest: plain(Category::Cn),
        }
    }

    /// Puts an entry behind the others.
    ///
    /// - `Memory`: memory ran out.
    pub fn put(&mut self, span: Span, record: Record) -> Result<(), Memory> {
        self.entries.push((span, record))
    }
}
