//! What the summary of `make` counts.

ghost use Rattle.std.specs.Prelude.{◌≡◌, ℕ, ◌≤◌, IfOk, is_some};
ghost use Rattle.edit_session.specs.Benches.{bench_record};
ghost use Rattle.ucd_model.specs.DerivedFiles.{casefold_listing};
ghost use Rattle.ucd_model.specs.Records.{kept_record};
ghost use Rattle.ucdshop_jobs.specs.Making.{casefolds, data_rows};

use edit_session::Bench;
use point_stretches::count_passing;
use ucd_model::{Image, Memory, Point, Record, Records, SourceFile};

/// How many rows UnicodeData.txt has on a bench.
///
/// - `Memory`: there are 2^64 or more.
#[tactic(auto, using(crate::proofs::MakingLemmas::numbered_count))]
pub fn count_data_rows(bench: &Bench) -> Result<usize, Memory>
    ensures { IfOk result (λ count. count ≡ data_rows bench.now.current) }
{
    let mut rows = bench.release().rows(SourceFile::UnicodeData);
    let mut count: usize = 0;
    'rows: while let Some(_row) = rows.next() {
        let Some(more) = count.checked_add(1) else {
            return Err(Memory);
        };
        count = more;
    }
    Ok(count)
}

/// How many code points the section NFKC_CF lists over the release of a bench: it looks once at each stretch of equal records.
pub fn count_casefolds(bench: &Bench) -> usize
    ensures { result ≡ casefolds bench.now.current }
{
    let last_of = |c: Point|
        ensures from { c ≤ result }
        ensures same { (k : ℕ) → c ≤ k → k ≤ result
            → bench_record bench.entry.now k ≡ bench_record bench.entry.now c }
    { bench.last_alike(c) };
    count_passing(last_of, |c| is_casefold_listed(bench.record(c))) as usize
}

/// Whether the section NFKC_CF lists a code point with this record.
fn is_casefold_listed(shown: &Record) -> bool
    ensures { result ≡ is_some (casefold_listing.label (kept_record shown.now)) }
{
    match &shown.casefold {
        Image::Same => false,
        Image::To(_) => true,
    }
}
