//! Pieces of equal records again, after the records of some code points changed.

ghost use Rattle.std.specs.Prelude.{◌≡◌, ◌+◌, ◌<◌, ◌≤◌, ℕ, IfOk, OnOk};
ghost use Rattle.number_sets.specs.Keys.{has};
ghost use Rattle.ucd_model.specs.Records.{Record};
ghost use Rattle.unicodeset_eval.specs.PiecesAgain.{AreLeft, ArePiecesBut, IsAlikeBut, IsAlikeIn, NoneBefore, end_before};
ghost use Rattle.unicodeset_eval.specs.RecordPieces.{AreCut, AreCutTo, ArePiecesOf};

use crate::record_pieces::{PropertyValues, RecordPieces, RecordRun, values_of};
use number_sets::KeySet;
use std::alloc::Global;
use ucd_model::{Memory, Point, Records, point_count};

impl RecordPieces {
    /// The pieces of a bench, if these are those of records that differ from its records at the `changed` code points alone. Only
    /// the records of these are looked up; each is a piece of its own then, and cuts the one that it stands in.
    ///
    /// - `Memory`: memory ran out.
    pub fn renewed<B: Records>(
        self,
        alloc: Global,
        bench: &B,
        changed: &KeySet,
    ) -> Result<RecordPieces, Memory>
        requires { ArePiecesBut self (has changed.now) (B.record_of bench.now) }
        ensures { IfOk result (λ pieces. ArePiecesOf pieces (B.record_of bench.now)) }
    {
        let pieces = pieces_again(alloc, bench, self.pieces.as_slice(), changed)?;
        Ok(RecordPieces { pieces })
    }
}

/// The pieces of a bench, made from those of records that differ from its records at the `changed` code points alone. Only
/// the records of these are looked up; each is a piece of its own then, and cuts the one that it stands in.
///
/// - `Memory`: memory ran out.
fn pieces_again<B: Records>(
    alloc: Global,
    bench: &B,
    pieces: &[RecordRun],
    changed: &KeySet,
) -> Result<Vec<RecordRun>, Memory>
    requires { AreLeft (B.record_of bench.now) (has changed.now) 0 pieces.now }
    ensures { IfOk result (λ made. AreCut (B.record_of bench.now) made.items) }
{
    let mut made = Vec::with_capacity(alloc, pieces.len())?;
    let mut left = pieces;
    let mut next = next_changed(changed, 0);
    'pieces: while let Some((piece, behind)) = left.split_first() {
        let end = end_before(behind);
        next = put_renewed_piece(bench, piece, end, changed, next, &mut made)?;
        left = behind;
    }
    Ok(made)
}

/// Where the piece before these ends: one past its last code point.
fn end_before(behind: &[RecordRun]) -> u32
    ensures { result ≡ end_before behind.now }
{
    match behind {
        [next, ..] => next.first,
        [] => point_count(),
    }
}

/// A code point from `start` on before which none changed, or 110000.
fn next_changed(changed: &KeySet, start: u32) -> u32
    requires { start ≤ 1114112 }
    ensures { NoneBefore (has changed.now) start result }
{
    match changed.next(u64::from(start)) {
        Some(number) if number < u64::from(point_count()) => number as u32,
        _ => point_count(),
    }
}

/// Puts the code points of a piece behind those before it, in pieces. `next` is the next code point that changed; the answer is
/// the next one behind the piece.
///
/// - `Memory`: memory ran out. Some may be put.
fn put_renewed_piece<B: Records>(
    bench: &B,
    piece: &RecordRun,
    end: u32,
    changed: &KeySet,
    next: u32,
    made: &mut Vec<RecordRun>,
) -> Result<u32, Memory>
    requires ordered { piece.now.first ≤ end }
    requires within { end ≤ 1114112 }
    requires alike { IsAlikeBut (B.record_of bench.now)
        (has changed.now) piece.now.first end piece.now.values }
    requires next { NoneBefore (has changed.now) piece.now.first next }
    requires before { AreCutTo (B.record_of bench.now) piece.now.first made.old.items }
    ensures put { OnOk result (AreCutTo (B.record_of bench.now) end made.new.items) }
    ensures next { IfOk result (λ behind. NoneBefore (has changed.now) end behind) }
{
    let mut from = piece.first;
    let mut point = next;
    'points: while point < end {
        put_alike(from, point, piece.values, made)?;
        put_changed(bench, point, made)?;
        from = point + 1;
        point = next_changed(changed, from);
    }
    put_alike(from, end, piece.values, made)?;
    Ok(point)
}

/// Puts the code points from `from` to before `end`, all of which have these values, as one piece, if there are some.
///
/// - `Memory`: memory ran out. The pieces stay as they were.
pub(crate) fn put_alike(
    from: u32,
    end: u32,
    values: PropertyValues,
    made: &mut Vec<RecordRun>,
) -> Result<(), Memory>
    requires { from ≤ end }
    ensures { OnOk result ((R : ℕ → Record) → IsAlikeIn R from end values
        → AreCutTo R from made.old.items → AreCutTo R end made.new.items) }
{
    if from < end {
        made.push(RecordRun {
            first: from,
            values,
        })?;
    }
    Ok(())
}

/// Puts a code point as a piece, with the values of its record.
fn put_changed<B: Records>(bench: &B, point: u32, made: &mut Vec<RecordRun>) -> Result<(), Memory>
    requires inside { point < 1114112 }
    requires before { AreCutTo (B.record_of bench.now) point made.old.items }
    ensures { OnOk result (AreCutTo (B.record_of bench.now) (point + 1) made.new.items) }
{
    let values = values_of(bench.record(Point::at(point)));
    made.push(RecordRun {
        first: point,
        values,
    })?;
    Ok(())
}
