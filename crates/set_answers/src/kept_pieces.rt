//! The pieces of equal records that are kept from one run of questions to the next.

ghost use Rattle.std.specs.Prelude.{◌≡◌, ◌<◌, ℕ, IsSome, Some, None, true, false, OnOk, IfOk};
ghost use Rattle.number_sets.specs.Keys.{has};
ghost use Rattle.set_answers.specs.KeptPieces.{AreKept, HasPieces, has_pieces};
ghost use Rattle.ucd_model.specs.Cuts.{IsCut};
ghost use Rattle.ucd_model.specs.Records.{Record};
ghost use Rattle.ucd_model.specs.Sameness.{is_in};
ghost use Rattle.ucd_points.specs.Limits.{point_count};

use number_sets::KeySet;
use std::alloc::Global;
use ucd_model::{Memory, Point, Records, Span};
use unicodeset_eval::RecordPieces;

/// After so many changes of records the pieces are made anew: each change can cut a piece in three.
const MOST: usize = 8192;

/// The pieces of equal records as they were last made, if they were, and the code points whose records changed since: only these
/// are looked up again.
#[derive(Drop)]
pub struct KeptPieces {
    pieces: Option<RecordPieces>,
    /// The code points whose records changed since the pieces were made.
    changed: KeySet,
    /// How many changes there were since the pieces were made of all records.
    noted: usize,
}

/// Puts code points into a set of their numbers.
///
/// - `Memory`: memory ran out. Some may be put.
fn put_points(numbers: &mut KeySet, points: &[Point]) -> Result<(), Memory>
    ensures grows { (c : ℕ) → has numbers.old c ≡ true → has numbers.new c ≡ true }
    ensures put { OnOk result ((c : ℕ) → is_in points.now c ≡ true → has numbers.new c ≡ true) }
{
    let mut left = points;
    'points: while let Some((point, behind)) = left.split_first() {
        put_point(numbers, *point)?;
        left = behind;
    }
    Ok(())
}

/// Puts a code point into a set of numbers.
///
/// - `Memory`: memory ran out.
fn put_point(numbers: &mut KeySet, point: Point) -> Result<(), Memory>
    ensures grows { (c : ℕ) → has numbers.old c ≡ true → has numbers.new c ≡ true }
    ensures put { OnOk result (has numbers.new point ≡ true) }
{
    numbers.insert(u64::from(point.number()))?;
    Ok(())
}

impl KeptPieces {
    /// None yet. It takes no memory.
    pub fn nothing(alloc: Global) -> KeptPieces
        ensures { result.pieces ≡ None }
    {
        KeptPieces {
            pieces: None,
            changed: KeySet::new(alloc),
            noted: 0,
        }
    }

    /// Notes that the records of these code points are others, and no others. After many, or if there is no memory for them, the
    /// pieces are let go of.
    pub fn note(&mut self, alloc: Global, changed: &[Point])
        ensures { (R S : ℕ → Record) → AreKept self.old R
            → ((c : ℕ) → c < point_count → is_in changed.now c ≡ false → R c ≡ S c)
            → AreKept self.new S }
    {
        if self.pieces.is_none() {
            return;
        }
        self.noted = self.noted.saturating_add(changed.len());
        if self.noted > MOST || put_points(&mut self.changed, changed).is_err() {
            *self = KeptPieces::nothing(alloc);
        }
    }

    /// Makes the pieces that are kept those of the records of a bench, and answers whether there were some. Only the records that
    /// changed are looked up.
    ///
    /// - `Memory`: memory ran out. None are kept then.
    pub fn renew_if_kept<B: Records>(&mut self, alloc: Global, bench: &B) -> Result<bool, Memory>
        requires { AreKept self.old (B.record_of bench.now) }
        ensures kept { AreKept self.new (B.record_of bench.now) }
        ensures some { IfOk result (λ some. some ≡ has_pieces self.old) }
        ensures renewed { IfOk result (λ some. some ≡ true
            → HasPieces self.new (B.record_of bench.now)) }
    {
        match self.pieces.take() {
            Some(pieces) => {
                let pieces = pieces.renewed(alloc, bench, &self.changed)?;
                self.put_up_to_date(alloc, pieces);
                Ok(true)
            }
            None => Ok(false),
        }
    }

    /// Makes pieces of the records of a bench, by spans of equal records that follow one another over all code points. Each record
    /// is looked up once.
    ///
    /// - `Memory`: memory ran out. What was kept is kept then.
    pub fn make<B: Records>(
        &mut self,
        alloc: Global,
        bench: &B,
        spans: &[Span],
    ) -> Result<(), Memory>
        requires kept { AreKept self.old (B.record_of bench.now) }
        requires spans { IsCut (B.record_of bench.now) 0 point_count spans.now }
        ensures kept { AreKept self.new (B.record_of bench.now) }
        ensures made { OnOk result (HasPieces self.new (B.record_of bench.now)) }
    {
        let pieces = RecordPieces::of(alloc, bench, spans)?;
        self.noted = 0;
        self.put_up_to_date(alloc, pieces);
        Ok(())
    }

    /// Keeps pieces that were just made.
    fn put_up_to_date(&mut self, alloc: Global, pieces: RecordPieces)
        ensures pieces { self.new.pieces ≡ Some pieces }
        ensures changed { (c : ℕ) → has self.new.changed c ≡ false }
    {
        self.pieces = Some(pieces);
        self.changed = KeySet::new(alloc);
    }

    /// The pieces that are kept.
    pub fn pieces(&self) -> &RecordPieces
        requires { IsSome self.now.pieces }
        ensures { self.now.pieces ≡ Some result.now }
    {
        match &self.pieces {
            Some(pieces) => pieces,
            None => unreachable!(),
        }
    }
}
