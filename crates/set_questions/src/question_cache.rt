//! What is kept from one run of questions to the next.

ghost use Rattle.std.specs.Prelude.{◌≡◌, List, OnOk, Ok};
ghost use Rattle.edit_session.specs.Benches.{bench_record};
ghost use Rattle.edit_session.specs.Groups.{AppliesAs, group_answer};
ghost use Rattle.edit_session.specs.declared.accepted.Accepted.{Accepted};
ghost use Rattle.release_rows.specs.FileItems.{FileItem};
ghost use Rattle.release_rows.specs.Releases.{ReleaseItems};
ghost use Rattle.set_answers.specs.KeptPieces.{AreKept, HasPieces};
ghost use Rattle.set_questions.specs.QuestionCache.{IsFilled, IsKept};

use edit_session::Bench;
use release_rows::Op;
use set_answers::{KeptNames, KeptPieces};
use std::alloc::Global;
use ucd_model::{Memory, Point};

/// What answers questions on the release of a bench. Contracts see the items of its files.
pub type Asking<'b> = set_answers::Asking<'b, Bench>;

/// What questions need of a bench, as it was last made, and what changed since: only that is made again. It is what names mean, the
/// sets of rows, and the pieces of equal records.
#[derive(Drop)]
pub struct QuestionCache {
    names: KeptNames,
    pieces: KeptPieces,
}

/// Makes the pieces that are kept those of a bench.
///
/// - `Memory`: memory ran out. None are kept then.
fn fill_pieces(alloc: Global, kept: &mut KeptPieces, bench: &Bench) -> Result<(), Memory>
    requires { AreKept kept.old (bench_record bench.now) }
    ensures kept { AreKept kept.new (bench_record bench.now) }
    ensures filled { OnOk result (HasPieces kept.new (bench_record bench.now)) }
{
    if kept.renew_if_kept(alloc, bench)? {
        return Ok(());
    }
    let spans = bench.equal_record_spans(alloc)?;
    kept.make(alloc, bench, spans.as_slice())
}

impl QuestionCache {
    /// Nothing yet. It takes no memory.
    pub fn nothing(alloc: Global) -> QuestionCache
        ensures { (files : List (List FileItem)) → IsKept result files }
    {
        QuestionCache {
            names: KeptNames::nothing(),
            pieces: KeptPieces::nothing(alloc),
        }
    }

    /// Notes a group that was carried out, and the code points whose records it changed.
    pub fn note(&mut self, alloc: Global, group: &[Op], changed: &[Point])
        ensures { (old new : ReleaseItems)
            → AppliesAs (Ok (record { changed = changed.now }))
            (group_answer old.current group.now) old new → IsKept self.old old.current
            → IsKept self.new new.current }
    {
        self.names.note(group);
        self.pieces.note(alloc, changed);
    }

    /// Makes what is kept that of a bench. Of files that were not edited nothing is read, and of records that did not change
    /// none is looked up.
    ///
    /// - `Memory`: memory ran out. A part of it is let go of then.
    pub fn fill(&mut self, alloc: Global, bench: &Bench) -> Result<(), Memory>
        requires { IsKept self.old bench.now.current }
        ensures kept { IsKept self.new bench.now.current }
        ensures filled { OnOk result (IsFilled self.new bench.now.current) }
    {
        // the spans of the pieces are let go of before the names are made, which then lie where they lay
        fill_pieces(alloc, &mut self.pieces, bench)?;
        self.names.fill(alloc, bench.release())
    }

    /// What answers questions on the bench of which it was filled.
    pub fn asking<'k>(&'k self, bench: &'k Bench) -> Asking<'k>
        requires { IsFilled self.now bench.now.current }
        ensures { result ≡ bench.now.current }
    {
        Asking::of(
            bench,
            bench.release(),
            self.pieces.pieces(),
            self.names.names(),
        )
    }
}
