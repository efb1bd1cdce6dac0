//! The bench: a valid release, the facts of its rows and the records of all code points.

ghost use Rattle.std.specs.Prelude.{◌≡◌, ◌≢◌, ℕ, ◌+◌, ◌/◌, ◌<◌, ◌≤◌, length, IfOk, IfErr, OnOk};
ghost use Rattle.std.specs.List.{All};
ghost use Rattle.std.specs.Option.{MatchOption};
ghost use Rattle.std.specs.Result.{IsErr};
ghost use Rattle.fact_tables.specs.FactTables.{tables_facts, tables_next};
ghost use Rattle.paged_table.specs.Paged.{values_now};
ghost use Rattle.paged_table.specs.Pages.{IsEvenBlock, IsPageOf};
ghost use Rattle.record_turns.specs.Turned.{CountsWithin};
ghost use Rattle.release_rows.specs.Operations.{IsOp};
ghost use Rattle.release_rows.specs.Patches.{back};
ghost use Rattle.ucd_model.specs.Cuts.{IsCut};
ghost use Rattle.ucd_points.specs.Limits.{point_count};
ghost use Rattle.edit_session.specs.Benches.{bench_facts, bench_record, bench_word, EndsAlike, HasNothingPrepared, IsUnbroken, NamesBroken};
ghost use Rattle.edit_session.specs.Groups.{AppliesAs, CountsAs, after_ops, files_facts, group_answer, group_limit};
ghost use Rattle.edit_session.specs.Reverts.{IsValidWayBack, Keeps, RevertsAs, first_of};

use crate::accepted::Accepted;
use crate::apply_stop::ApplyStop;
use crate::derivation::Derivation;
use crate::group::apply_group;
use crate::kept_group::apply_kept;
use crate::open_stop::OpenStop;
use crate::pieces::pieces_of;
use crate::release_records::ReleaseRecords;
use crate::revert::revert;
use code_facts::FactTables;
use page_pool::PagePool;
use paged_table::PagedTable;
use release_rows::{Op, Patch, Release};
use std::alloc::Global;
use std::marker::Model;
use std::sync::ledger::Ledger;
use ucd_facts::UniformFacts;
use ucd_model::{
    Category, Copied, FactView, FactsRef, Flags, Kind, Memory, Point, Record, Records, Spans, Steps,
};

/// A valid release, with the facts of its rows, the records of all code points and, once a group came, what each of them
/// asks. Contracts see the items of its files, which give the facts and the records.
#[derive(Drop)]
pub struct Bench {
    release: Release,
    derivation: Box<Derivation>,
}

impl Model for Bench {
    ghost use Rattle.release_rows.specs.Releases.{ReleaseItems};
    ghost use Rattle.edit_session.specs.Standing.{IsBench};

    ghost Value = { ReleaseItems };

    ghost view = { λ b. b.release };

    ghost invariant = { λ b. IsBench b.release b.derivation.value };
}

impl Bench {
    /// Opens a bench over a release: derives every code point of the facts of its rows. UAX #44, section 5.3.
    /// The counter of steps rises by at most the number of code points.
    ///
    /// - `Invalid { rule, point }`: the release is not valid. The least code point that breaks a rule is named, with
    ///   its first rule.
    /// - `Memory`: memory ran out.
    ///
    /// After either the release is dropped.
    pub fn open<L: Ledger>(
        alloc: Global,
        release: Release,
        steps: &mut Steps<L>,
    ) -> Result<Bench, OpenStop>
        requires { HasNothingPrepared release }
        ensures ok { IfOk result (λ bench. bench ≡ release) }
        ensures valid { OnOk result (IsUnbroken release) }
        ensures invalid { IfErr result (λ stop. NamesBroken stop (bench_facts release)) }
        ensures steps { steps.new ≤ steps.old + point_count }
    {
        match Derivation::of(alloc, &release, steps) {
            Ok(derivation) => Ok(Bench {
                release,
                derivation,
            }),
            Err(stop) => Err(stop),
        }
    }

    /// Carries out the operations of a group, in order, or none of them. The rows between two operations need not be
    /// valid; those after the last one are. The counter of steps rises by at most the number of code points that depend
    /// on the change, and does not rise if an operation is refused.
    ///
    /// - `Refused(Key { rule, op })`: the first operation that breaks a rule on keys or spans, counted from 1.
    /// - `Refused(Valid { rule, point })`: the rows after the last operation are not valid. The least code point that
    ///   breaks a rule is named, with its first rule.
    /// - `Memory`: memory ran out.
    ///
    /// After each the bench is as it was.
    pub fn apply<L: Ledger>(
        &mut self,
        alloc: Global,
        group: &[Op],
        steps: &mut Steps<L>,
    ) -> Result<Accepted, ApplyStop>
        requires operations { All IsOp group.now }
        requires few { length group.now ≤ group_limit }
        ensures answer { AppliesAs result
            (group_answer self.old.current group.now) self.old self.new }
        ensures counted { CountsAs (after_ops self.old.current 0 group.now)
            (bench_facts self.old) steps.old steps.new }
        ensures steps { steps.new ≤ steps.old + point_count }
        ensures uncounted { IsErr (after_ops self.old.current 0 group.now) → steps.new ≡ steps.old }
    {
        apply_group(alloc, &mut self.release, &mut self.derivation, group, steps)
    }

    /// Carries the operations of a group out as `apply` does, and answers besides the way from the rows after them back to
    /// those before. The counter of steps rises as it does there.
    ///
    /// - `Refused(why)`: an operation or the rows after all break a rule, as in `apply`.
    /// - `Memory`: memory ran out.
    ///
    /// After each the bench is as it was.
    pub fn apply_kept<L: Ledger>(
        &mut self,
        alloc: Global,
        group: &[Op],
        steps: &mut Steps<L>,
    ) -> Result<(Accepted, Patch), ApplyStop>
        requires operations { All IsOp group.now }
        requires few { length group.now ≤ group_limit }
        ensures answer { AppliesAs (first_of result)
            (group_answer self.old.current group.now) self.old self.new }
        ensures kept { IfOk result (λ made. Keeps made.1 self.new.current self.old.current) }
        ensures counted { CountsAs (after_ops self.old.current 0 group.now)
            (bench_facts self.old) steps.old steps.new }
    {
        apply_kept(alloc, &mut self.release, &mut self.derivation, group, steps)
    }

    /// Goes a way back: its items come back to their places, with their bytes. The counter of steps rises by at most the
    /// number of code points that depend on the change.
    ///
    /// - `Memory`: memory ran out. The bench is as it was.
    pub fn revert<L: Ledger>(
        &mut self,
        alloc: Global,
        way: &Patch,
        steps: &mut Steps<L>,
    ) -> Result<Accepted, Memory>
        requires { IsValidWayBack way.now self.old.current }
        ensures answer { RevertsAs result (back way.now self.old.current) self.old self.new }
        ensures counted { CountsWithin (bench_facts self.old)
            (files_facts (back way.now self.old.current)) steps.old steps.new }
    {
        revert(alloc, &mut self.release, &mut self.derivation, way, steps)
    }

    /// The last code point of the stretch of equal records that `c` lies in. It takes time in proportion to the
    /// stretches that it passes: each ends where a record is held at another place, or at the end of a block of 256
    /// code points.
    pub fn last_alike(&self, c: Point) -> Point
        ensures from { c ≤ result }
        ensures same { (d : ℕ) → c ≤ d → d ≤ result
            → bench_record self.now d ≡ bench_record self.now c }
        ensures ends { result + 1 < point_count
            → bench_record self.now (result + 1) ≢ bench_record self.now c }
    {
        self.derivation.records.last_alike(c)
    }

    /// Spans that follow one another over all code points, in each of which the records are equal, and each as long as can
    /// be. Records are compared only where a stretch ends that is held as one.
    ///
    /// - `Memory`: memory ran out.
    pub fn equal_record_spans(&self, alloc: Global) -> Result<Spans, Memory>
        ensures cut { IfOk result
            (λ pieces. IsCut (bench_record self.now) 0 point_count pieces) }
        ensures ends { IfOk result (λ pieces. All (EndsAlike (bench_record self.now)) pieces) }
    {
        pieces_of(alloc, &self.derivation.records)
    }

    /// The release with its records alone: the tables of its facts are let go, and what was listed for groups.
    pub fn into_release_records(self) -> ReleaseRecords
        ensures { result ≡ self }
    {
        let Bench {
            release,
            derivation,
        } = self;
        ReleaseRecords::of(release, Box::into_inner(derivation).into_records())
    }

    /// The release, which is valid.
    pub fn release(&self) -> &Release
        ensures same { result.now ≡ self.now }
        ensures valid { IsUnbroken result.now }
        ensures still { HasNothingPrepared result.now }
    {
        &self.release
    }

    /// A law: between two calls nothing is prepared, so what is next is what is now.
    pub fn has_nothing_prepared(&self)
        ensures { HasNothingPrepared self.now }
    {
        self.release();
    }

    /// The tables of the facts of its rows, now and next.
    pub fn tables(&self) -> &FactTables<PagedTable>
        ensures now { tables_facts values_now result.now ≡ bench_facts self.now }
        ensures next { tables_next values_now result.now ≡ bench_facts self.now }
    {
        &self.derivation.tables
    }

    /// The pool of pages in which the packed words of its facts lie, and in it the page of the block of 256 code points
    /// that `c` is in; `None` exactly if all words of the block are equal.
    pub fn packed_page(&self, c: Point) -> Option<(&PagePool, u32)>
        ensures { MatchOption result (IsEvenBlock (bench_word self.now) (c / 256))
            (λ found. IsPageOf found.0.now (bench_word self.now) (c / 256) found.1) }
    {
        let _number = c.number();
        let words = self.derivation.tables.packed();
        match words.page(c) {
            Some(page) => Some((words.pool(), page)),
            None => None,
        }
    }
}

/// A bench over the same release, with its facts and records. No code point is derived, so no step is counted.
impl Copied for Bench {
    fn copied(&self, alloc: Global) -> Result<Bench, Memory> {
        let release = self.release.copied(alloc)?;
        let derivation = self.derivation.copied(alloc)?;
        Ok(Bench {
            release,
            derivation,
        })
    }
}

impl Records for Bench {
    ghost record_of = { bench_record };

    fn record(&self, c: Point) -> &Record {
        let _number = c.number();
        self.derivation.records.record(c)
    }
}

impl FactView for Bench {
    ghost facts_of = { bench_facts };

    fn facts(&self, c: Point) -> FactsRef<'_> {
        self.derivation.tables.facts(c)
    }

    fn pair(&self, s: Point, y: Point) -> Option<Point> {
        self.derivation.tables.pair(s, y)
    }

    fn second(&self, y: Point) -> bool {
        self.derivation.tables.second(y)
    }

    fn is_assigned(&self, c: Point) -> bool {
        self.derivation.tables.is_assigned(c)
    }

    fn class(&self, c: Point) -> u8 {
        self.derivation.tables.class(c)
    }

    fn kind(&self, c: Point) -> Kind {
        self.derivation.tables.kind(c)
    }

    fn mapping(&self, c: Point) -> &[Point] {
        self.derivation.tables.mapping(c)
    }

    fn category(&self, c: Point) -> Category {
        self.derivation.tables.category(c)
    }

    fn flags(&self, c: Point) -> Flags {
        self.derivation.tables.flags(c)
    }

    fn folding(&self, c: Point) -> Option<&[Point]> {
        self.derivation.tables.folding(c)
    }

    fn simple_folding(&self, c: Point) -> Point {
        self.derivation.tables.simple_folding(c)
    }

    fn is_unchanged_by_casing(&self, c: Point) -> bool {
        self.derivation.tables.is_unchanged_by_casing(c)
    }
}

impl UniformFacts for Bench {
    fn last_uniform(&self, c: Point) -> Point {
        match self.derivation.tables.last_uniform(c) {
            Some(last) => last,
            None => c,
        }
    }
}
