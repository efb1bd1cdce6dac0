//! What is derived from the facts of a release, now and next.

ghost use Rattle.std.specs.Prelude.{◌≡◌, ℕ, ◌+◌, ◌≤◌, false, List, Ok, IfOk, IfErr, OnOk};
ghost use Rattle.std.specs.List.{list_any};
ghost use Rattle.ucd_facts.specs.Answers.{TellsChanges};
ghost use Rattle.fact_tables.specs.FactTables.{tables_facts, tables_next};
ghost use Rattle.paged_table.specs.Paged.{values_now};
ghost use Rattle.range_table.specs.Values.{SameValues};
ghost use Rattle.record_table.specs.Records.{record_next, record_now};
ghost use Rattle.record_turns.specs.Turned.{CountsWithin};
ghost use Rattle.release_rows.specs.FileItems.{FileItem};
ghost use Rattle.ucd_facts.specs.Facts.{Facts, within};
ghost use Rattle.ucd_points.specs.Limits.{point_count};
ghost use Rattle.edit_session.specs.Benches.{bench_facts, NamesBroken};
ghost use Rattle.edit_session.specs.Derivations.{IsNext, IsNow, IsStill};
ghost use Rattle.edit_session.specs.declared.open_stop.OpenStop.TheVariants.{Memory as Lacking};
ghost use Rattle.edit_session.specs.Groups.{AnswersAs, changed, checked_files, files_facts};
ghost use Rattle.edit_session.specs.Questions.{AreStill};

use crate::apply_stop::ApplyStop;
use crate::first_points::derive_all;
use crate::open_stop::OpenStop;
use crate::questions::Questions;
use code_facts::{FactTables, FromRelease};
use paged_table::PagedTable;
use record_table::RecordTable;
use record_turns::turn;
use release_rows::Release;
use std::alloc::Global;
use std::sync::ledger::Ledger;
use ucd_model::{Memory, Points, Queries, Spans, Steps};

/// The facts of a release, the records that are derived from them, and, as far as it was needed, what code points ask of
/// them; now and next.
#[derive(Drop)]
pub struct Derivation {
    /// The facts.
    pub tables: FactTables<PagedTable>,
    /// The records of all code points.
    pub records: RecordTable,
    /// What code points ask.
    pub questions: Questions,
}

impl Derivation {
    /// The records alone. It lets go of the rest by itself: whoever owned more would be large to prove.
    pub fn into_records(self) -> RecordTable
        ensures { result ≡ self.records }
    {
        let Derivation { records, .. } = self;
        records
    }

    /// What is derived from the rows of a release now; next it is the same. UAX #44, section 5.3.
    ///
    /// - `Invalid { rule, point }`: a code point breaks a rule of a valid release: the least one, with its first rule.
    /// - `Memory`: memory ran out.
    pub fn of<L: Ledger>(
        alloc: Global,
        release: &Release,
        steps: &mut Steps<L>,
    ) -> Result<Box<Derivation>, OpenStop>
        ensures now { IfOk result (λ made. IsNow (bench_facts release.now) made.value) }
        ensures still { IfOk result (λ made. IsStill made.value) }
        ensures invalid { IfErr result (λ stop. NamesBroken stop (bench_facts release.now)) }
        ensures steps { steps.new ≤ steps.old + point_count }
    {
        let tables = FactTables::<PagedTable>::of(alloc, release)?;
        match derive_over(alloc, tables, steps) {
            Ok(made) => boxed(alloc, made),
            Err(stop) => Err(stop),
        }
    }

    /// A copy with the same facts and records, now and next. What code points ask is listed anew once a group needs it.
    ///
    /// - `Memory`: memory ran out.
    pub fn copied(&self, alloc: Global) -> Result<Box<Derivation>, Memory>
        ensures now { IfOk result (λ copy. (F : ℕ → Facts) → IsNow F self.now
            → IsNow F copy.value) }
        ensures still { IfOk result (λ copy. IsStill self.now → IsStill copy.value) }
    {
        let copy = self.unboxed_copy(alloc)?;
        Ok(Box::new(alloc, copy)?)
    }

    /// A copy with the same facts and records, now and next, not in a box. What code points ask is listed anew once a group needs it.
    ///
    /// - `Memory`: memory ran out.
    fn unboxed_copy(&self, alloc: Global) -> Result<Derivation, Memory>
        ensures now { IfOk result (λ copy. (F : ℕ → Facts) → IsNow F self.now → IsNow F copy) }
        ensures still { IfOk result (λ copy. IsStill self.now → IsStill copy) }
    {
        let tables = self.tables.copied(alloc)?;
        let records = self.records.copied(alloc)?;
        Ok(Derivation {
            tables,
            records,
            questions: Questions::new(alloc),
        })
    }

    /// Makes what is next follow from the rows of a release next, and answers the code points whose records differ,
    /// ascending. Only the code points that depend on the change are derived, and counted. If no
    /// code point is touched, no fact changes. What code points ask is listed as far as a changed question leads to them.
    ///
    /// - `Refused(Valid { rule, point })`: the rows next are not valid. The least code point that breaks a rule is named,
    ///   with its first rule.
    /// - `Memory`: memory ran out.
    ///
    /// After either, some of what is next may be prepared.
    pub fn turn_to<L: Ledger>(
        &mut self,
        alloc: Global,
        release: &Release,
        touched: &Spans,
        steps: &mut Steps<L>,
    ) -> Result<Points, ApplyStop>
        requires now { IsNow (files_facts release.now.current) self.old }
        requires still { IsStill self.old }
        requires touched { (c : ℕ) → list_any (within c) touched.now ≡ false
            → files_facts release.now.prepared c ≡ files_facts release.now.current c }
        ensures answer { AnswersAs result
            (checked_files (Ok release.now.prepared)) release.now.prepared }
        ensures now { (F : ℕ → Facts) → IsNow F self.old → IsNow F self.new }
        ensures next { OnOk result (IsNext (files_facts release.now.prepared) self.new) }
        ensures changed { IfOk result
            (λ points. points
            ≡ changed (files_facts release.now.current) (files_facts release.now.prepared)) }
        ensures steps { CountsWithin (files_facts release.now.current)
            (files_facts release.now.prepared) steps.old steps.new }
    {
        if touched.as_slice().is_empty() {
            return Ok(Points::new(alloc));
        }
        self.tables.prepare(alloc, release, touched)?;
        let queries = self.tables.queries_changed(alloc)?;
        self.turn_prepared(alloc, &queries, steps)
    }

    /// Makes what is next follow from the facts next, which are prepared, and answers the code points whose records differ,
    /// ascending. The queries are the questions that the facts next answer differently. Only the code points that depend on
    /// the change are derived, and counted. What code points ask is listed as far as one of the questions leads to them.
    ///
    /// - `Refused(Valid { rule, point })`: the facts next are not valid. The least code point that breaks a rule is named,
    ///   with its first rule.
    /// - `Memory`: memory ran out.
    ///
    /// After either, some of what is next may be prepared.
    fn turn_prepared<L: Ledger>(
        &mut self,
        alloc: Global,
        queries: &Queries,
        steps: &mut Steps<L>,
    ) -> Result<Points, ApplyStop>
        requires now { IsNow (tables_facts values_now self.old.tables) self.old }
        requires records { SameValues (record_next self.old.records) (record_now self.old.records) }
        requires asked { AreStill self.old.questions }
        requires tells { TellsChanges (tables_facts values_now self.old.tables)
            (tables_next values_now self.old.tables) queries.now }
        ensures answer { (files : List (List FileItem))
            → tables_next values_now self.old.tables ≡ files_facts files
            → AnswersAs result (checked_files (Ok files)) files }
        ensures now { (F : ℕ → Facts) → IsNow F self.old → IsNow F self.new }
        ensures next { OnOk result (IsNext (tables_next values_now self.old.tables) self.new) }
        ensures changed { IfOk result
            (λ points. points
            ≡ changed (tables_facts values_now self.old.tables)
            (tables_next values_now self.old.tables)) }
        ensures steps { CountsWithin (tables_facts values_now self.old.tables)
            (tables_next values_now self.old.tables) steps.old steps.new }
    {
        self.questions
            .list_possible_askers(alloc, &self.tables, queries)?;
        let view = self.tables.next();
        match turn(
            alloc,
            &view,
            queries,
            &mut self.records,
            &mut self.questions.map,
            steps,
        ) {
            Ok(changed) => Ok(changed),
            Err(stop) => Err(ApplyStop::from(stop)),
        }
    }

    /// Lets go of mappings, records and questions of earlier states, as far as the `sweep` of each does.
    pub fn sweep(&mut self)
        ensures now { (F : ℕ → Facts) → IsNow F self.old → IsNow F self.new }
        ensures still { IsStill self.old → IsStill self.new }
    {
        self.tables.sweep();
        self.records.sweep();
        self.questions.sweep();
    }

    /// What is next becomes now, and stays next. It takes no memory.
    pub fn commit(&mut self)
        ensures committed { (F : ℕ → Facts) → IsNext F self.old → IsNow F self.new }
        ensures still { IsStill self.new }
    {
        self.tables.commit();
        self.records.commit();
        self.questions.commit();
    }

    /// What is now becomes next. It takes no memory.
    pub fn discard(&mut self)
        ensures now { (F : ℕ → Facts) → IsNow F self.old → IsNow F self.new }
        ensures still { IsStill self.new }
    {
        self.tables.discard();
        self.records.discard();
        self.questions.discard();
    }
}

/// A value of any type in a box: it is let go of as one.
///
/// - `Memory`: memory ran out.
fn boxed<T: Drop>(alloc: Global, value: T) -> Result<Box<T>, OpenStop>
    ensures ok { IfOk result (λ boxed. boxed.value ≡ value) }
    ensures err { IfErr result (λ stop. stop ≡ Lacking) }
{
    match Box::new(alloc, value) {
        Ok(boxed) => Ok(boxed),
        Err(_) => Err(OpenStop::Memory),
    }
}

/// What is derived from the facts that tables have now; what code points ask is not listed yet.
fn derive_over<L: Ledger>(
    alloc: Global,
    tables: FactTables<PagedTable>,
    steps: &mut Steps<L>,
) -> Result<Derivation, OpenStop>
    requires { tables_next values_now tables ≡ tables_facts values_now tables }
    ensures now { IfOk result (λ made. IsNow (tables_facts values_now tables) made) }
    ensures still { IfOk result (λ made. IsStill made) }
    ensures invalid { IfErr result (λ stop. NamesBroken stop (tables_facts values_now tables)) }
    ensures steps { steps.new ≤ steps.old + point_count }
{
    match derive_all(alloc, &tables, steps) {
        Ok(records) => Ok(Derivation {
            tables,
            records,
            questions: Questions::new(alloc),
        }),
        Err(stop) => Err(stop),
    }
}
