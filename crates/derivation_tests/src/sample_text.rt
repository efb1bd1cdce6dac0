//! Samples that are made of spans, and the text of a file over one.

use crate::sample::{
    Sample, excluded, plain, span, with_checks, with_class, with_folding, with_kind,
};
use derived_writer::file_text;
use std::alloc::Global;
use ucd_model::{Category, DerivedFile, Kind, Memory, Quick, Record, Records};

/// A span with its category and the kind of its mappings.
pub type Mapped = (u32, u32, Category, Kind);

/// A span of marks with their combining class.
pub type Marks = (u32, u32, u8);

/// Whether code points are in the forms: those of NFD and NFC, and those of NFKD and NFKC; or no form, since they are
/// excluded from composition.
#[derive(Clone, Copy)]
pub enum Forms {
    All,
    Canonical,
    Mark,
    Excluded,
}

/// A span with its category, what it is folded to, if that is not itself, and its forms.
pub type Normal = (u32, u32, Category, Option<&'static [u32]>, Forms);

/// Whether a file over a sample of these spans has this text.
pub fn has_text(alloc: Global, spans: &[Normal], file: DerivedFile, wanted: &[u8]) -> bool {
    match sample_of(alloc, spans) {
        Ok(bench) => is_text(alloc, &bench, file, wanted),
        Err(Memory) => false,
    }
}

fn sample_of(alloc: Global, spans: &[Normal]) -> Result<Sample, Memory> {
    let mut bench = Sample::new(alloc);
    put_normal(alloc, &mut bench, spans)?;
    Ok(bench)
}

fn is_text<B: Records>(alloc: Global, bench: &B, file: DerivedFile, wanted: &[u8]) -> bool {
    match file_text(alloc, bench, file) {
        Ok(text) => text.as_slice() == wanted,
        Err(Memory) => false,
    }
}

/// Puts each of these spans into a sample.
pub fn put_mapped(bench: &mut Sample, spans: &[Mapped]) -> Result<(), Memory> {
    for (lo, hi, category, kind) in spans {
        bench.put(span(*lo, *hi), with_kind(*category, *kind))?;
    }
    Ok(())
}

/// Puts each of these spans of marks into a sample.
pub fn put_marks(bench: &mut Sample, spans: &[Marks]) -> Result<(), Memory> {
    for (lo, hi, class) in spans {
        bench.put(span(*lo, *hi), with_class(*class))?;
    }
    Ok(())
}

/// A record with the answers of the quick checks.
fn with_forms(record: Record, forms: Forms) -> Record {
    let (yes, no, maybe) = (Quick::Yes, Quick::No, Quick::Maybe);
    match forms {
        Forms::All => record,
        Forms::Canonical => with_checks(record, (yes, yes), (no, no)),
        Forms::Mark => with_checks(record, (yes, maybe), (yes, maybe)),
        Forms::Excluded => excluded(record),
    }
}

/// The record of a category and a folding.
fn folded(alloc: Global, category: Category, to: Option<&[u32]>) -> Result<Record, Memory> {
    match to {
        Some(points) => with_folding(alloc, category, points),
        None => Ok(plain(category)),
    }
}

fn put_normal(alloc: Global, bench: &mut Sample, spans: &[Normal]) -> Result<(), Memory> {
    for (lo, hi, category, to, forms) in spans {
        let record = folded(alloc, *category, *to)?;
        bench.put(span(*lo, *hi), with_forms(record, *forms))?;
    }
    Ok(())
}
