//! The sets of all tests, made once and asked for one by one.

ghost use Rattle.std.specs.Prelude.{◌≡◌, ℕ, Bool, ◌&&◌, ◌<◌, nat_lt, IfOk};
ghost use Rattle.property_aliases.specs.declared.property.Test.{Test as TestValue};
ghost use Rattle.ucd_facts.specs.Facts.{facts};
ghost use Rattle.ucd_points.specs.Limits.{point_count};
ghost use Rattle.release_rows.specs.Releases.{rows_now};
ghost use Rattle.unicodeset_eval.specs.Edges.{has, holds};
ghost use Rattle.unicodeset_eval.specs.Found.{AreRowSets, has_at};
ghost use Rattle.unicodeset_eval.specs.Indexes.{index_holds};
ghost use Rattle.unicodeset_eval.specs.RecordPieces.{ArePiecesOf};
ghost use Rattle.unicodeset_eval.specs.Tests.{same_truth, test_holds};

use crate::assigned::assigned_have_categories;
use crate::index::SetIndex;
use crate::point_set::PointSet;
use crate::record_pieces::RecordPieces;
use crate::row_sets::RowSets;
use crate::test_sets::TestSets;
use property_aliases::Test;
use release_rows::Release;
use std::alloc::Global;
use ucd_model::{Memory, Records, point_count};
use unicodeset_parser::Join;

/// How the set of all code points is joined to those of a value, to give these if they are wanted, or else the others.
fn join_for(wanted: bool) -> Join
    ensures { (a b : Bool) → holds result a b ≡ (a && same_truth wanted b) }
{
    if wanted { Join::Meet } else { Join::Minus }
}

/// The set of all code points.
///
/// - `Memory`: memory ran out.
fn all_points(alloc: Global) -> Result<PointSet, Memory>
    ensures { IfOk result (λ set. (c : ℕ) → has set c ≡ nat_lt c point_count) }
{
    let set = PointSet::before(alloc, point_count())?;
    Ok(set)
}

/// The code points below 80.
///
/// - `Memory`: memory ran out.
fn ascii(alloc: Global) -> Result<PointSet, Memory>
    ensures { IfOk result (λ set. (c : ℕ) → has set c ≡ (nat_lt c point_count && nat_lt c 0x80)) }
{
    let set = PointSet::before(alloc, 0x80)?;
    Ok(set)
}

/// The code points of the set with a number, or the others. A number that is not used has no code points.
///
/// - `Memory`: memory ran out.
pub(crate) fn numbered_set(
    alloc: Global,
    sets: &[PointSet],
    number: u64,
    wanted: bool,
) -> Result<PointSet, Memory>
    ensures { IfOk result (λ set. (c : ℕ)
        → has set c ≡ (nat_lt c point_count && same_truth wanted (has_at sets.now number c))) }
{
    let all = all_points(alloc)?;
    let index = number as usize;
    if index < sets.len() {
        let set = PointSet::joined(alloc, join_for(wanted), &all, &sets[index])?;
        return Ok(set);
    }
    let none = PointSet::empty(alloc);
    let set = PointSet::joined(alloc, join_for(wanted), &all, &none)?;
    Ok(set)
}

impl<'b, B: Records> SetIndex<'b, B> {
    /// The sets of all tests by the rows of a release now, and by what is derived from them: `pieces` are the pieces of
    /// equal records of the bench, and `rows` the sets that the rows give. It takes no memory.
    pub fn of(
        bench: &'b B,
        pieces: &'b RecordPieces,
        release: &Release,
        rows: &'b RowSets,
    ) -> SetIndex<'b, B>
        requires pieces { ArePiecesOf pieces.now (B.record_of bench.now) }
        requires rows { AreRowSets rows.now (rows_now release.now) }
        requires categories { (c : ℕ) → c < point_count
            → (B.record_of bench.now c).category ≡ (facts (rows_now release.now) c).category }
        ensures { (test : TestValue) (c : ℕ)
            → index_holds B.record_of result test c
            ≡ (nat_lt c point_count
            && test_holds (B.record_of bench.now) (rows_now release.now) test c) }
    {
        assigned_have_categories(release);
        SetIndex {
            bench,
            pieces: pieces.pieces.as_slice(),
            rows,
        }
    }
}

impl<'b, B: Records> TestSets for SetIndex<'b, B> {
    ghost holds = { index_holds B.record_of };

    fn set_of(&self, alloc: Global, test: Test) -> Result<PointSet, Memory> {
        match test {
            Test::Any => all_points(alloc),
            Test::Ascii => ascii(alloc),
            Test::Script(number) => numbered_set(alloc, self.rows.scripts.as_slice(), number, true),
            Test::WordBreak(number) => {
                numbered_set(alloc, self.rows.breaks.as_slice(), number, true)
            }
            Test::Listed(number, wanted) => {
                numbered_set(alloc, self.rows.listed.as_slice(), number, wanted)
            }
            _ => self.set_of_derived_test(alloc, test),
        }
    }
}
