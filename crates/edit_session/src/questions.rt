//! What code points ask, which is listed when it is needed first.

ghost use Rattle.std.specs.Prelude.{◌≡◌, ℕ, [], true, Some, IfOk, OnOk};
ghost use Rattle.ucd_facts.specs.Answers.{is_asked};
ghost use Rattle.fact_tables.specs.FactTables.{tables_facts};
ghost use Rattle.dependency_map.specs.Maps.{asked_at};
ghost use Rattle.point_store.specs.SlotStore.{values};
ghost use Rattle.mention_index.specs.Mentions.{is_walked, leads};
ghost use Rattle.mention_index.specs.Reached.{about};
ghost use Rattle.paged_table.specs.Paged.{values_now, values_next};
ghost use Rattle.range_table.specs.Values.{SameValues};
ghost use Rattle.ucd_facts.specs.Facts.{Facts};
ghost use Rattle.ucd_model.specs.ValidityLaws.{IsValid};
ghost use Rattle.ucd_facts.specs.declared.query.Query.{Query as Question};
ghost use Rattle.edit_session.specs.Questions.{AreStill, HasWalked, KeepsNext, KeepsNow, KeepsWalked};

use crate::listed_points::list_questions;
use crate::mentions::mention_all;
use code_facts::FactTables;
use dependency_map::DependencyMap;
use mention_index::Mentions;
use paged_table::PagedTable;
use point_store::SlotStore;
use std::alloc::Global;
use std::mem::replace;
use ucd_model::{Memory, Queries};

/// The questions of each code point, in a store over a paged table.
pub type QuestionMap = DependencyMap<QuestionLists>;

type QuestionLists = SlotStore<PagedTable, Option<Queries>>;

/// What code points ask, now and next, as far as it was needed: of the code points that a changed question led to. Before
/// any question changes, it takes no room.
#[derive(Drop)]
pub struct Questions {
    /// What the code points ask; of those that no changed question led to, it means nothing.
    pub map: QuestionMap,
    /// Which code points mention which, and which of them changed questions led to; once a question changed.
    pub mentions: Option<Mentions>,
}

impl Questions {
    /// No question changed yet. It takes no memory.
    pub fn new(alloc: Global) -> Questions
        ensures now { (F : ℕ → Facts) → KeepsNow F result }
        ensures still { AreStill result }
    {
        Questions {
            map: DependencyMap::new(alloc),
            mentions: None,
        }
    }

    /// Lists what the code points ask that may ask one of these questions, over the facts that tables have now, if it was
    /// not listed yet. No step is counted. If there are no questions, it does nothing.
    ///
    /// - `Memory`: memory ran out. What was listed is let go of.
    pub fn list_possible_askers(
        &mut self,
        alloc: Global,
        tables: &FactTables<PagedTable>,
        queries: &Queries,
    ) -> Result<(), Memory>
        requires valid { IsValid (tables_facts values_now tables.now) }
        requires kept { KeepsNow (tables_facts values_now tables.now) self.old }
        requires still { AreStill self.old }
        ensures kept { KeepsNow (tables_facts values_now tables.now) self.new }
        ensures still { AreStill self.new }
        ensures walked { OnOk result (HasWalked self.new.mentions queries.now) }
        ensures none { queries.now ≡ [] → self.new ≡ self.old }
    {
        if queries.as_slice().is_empty() {
            return Ok(());
        }
        let kept = replace(self, Questions::new(alloc));
        *self = kept.with_possible_askers(alloc, tables, queries)?;
        Ok(())
    }

    /// These questions, with what the code points ask that may ask one of the others.
    ///
    /// - `Memory`: memory ran out.
    fn with_possible_askers(
        self,
        alloc: Global,
        tables: &FactTables<PagedTable>,
        queries: &Queries,
    ) -> Result<Questions, Memory>
        requires valid { IsValid (tables_facts values_now tables.now) }
        requires kept { KeepsNow (tables_facts values_now tables.now) self }
        requires still { AreStill self }
        ensures kept { IfOk result
            (λ questions. KeepsNow (tables_facts values_now tables.now) questions) }
        ensures still { IfOk result (λ questions. AreStill questions) }
        ensures walked { IfOk result (λ questions. HasWalked questions.mentions queries.now) }
    {
        let Questions { map, mentions } = self;
        match mentions {
            Some(mentions) => with_reached_listed(alloc, tables, queries, map, mentions),
            None => {
                let mentions = mention_all(alloc, tables)?;
                with_reached_listed(alloc, tables, queries, map, mentions)
            }
        }
    }

    /// Lets go of questions of earlier states, as far as `DependencyMap::sweep` does.
    pub fn sweep(&mut self)
        ensures now { (F : ℕ → Facts) → KeepsNow F self.old → KeepsNow F self.new }
        ensures still { AreStill self.old → AreStill self.new }
    {
        self.map.sweep();
    }

    /// What is next becomes now, and stays next. It takes no memory.
    pub fn commit(&mut self)
        ensures committed { (F : ℕ → Facts) → KeepsNext F self.old → KeepsNow F self.new }
        ensures still { AreStill self.new }
    {
        self.map.commit();
    }

    /// What is now becomes next. It takes no memory.
    pub fn discard(&mut self)
        ensures now { (F : ℕ → Facts) → KeepsNow F self.old → KeepsNow F self.new }
        ensures still { AreStill self.new }
    {
        self.map.discard();
    }
}

/// Goes on from the code points that questions are about, and lists what each of those asks that one newly comes to.
///
/// - `Memory`: memory ran out.
fn with_reached_listed(
    alloc: Global,
    tables: &FactTables<PagedTable>,
    queries: &Queries,
    mut map: QuestionMap,
    mut mentions: Mentions,
) -> Result<Questions, Memory>
    requires valid { IsValid (tables_facts values_now tables.now) }
    requires kept { KeepsWalked (leads mentions) (is_walked mentions)
        (asked_at (values values_now) map) (tables_facts values_now tables.now) }
    requires still { SameValues (asked_at (values values_next) map)
        (asked_at (values values_now) map) }
    ensures kept { IfOk result (λ questions. KeepsNow
        (tables_facts values_now tables.now) questions) }
    ensures still { IfOk result (λ questions. AreStill questions) }
    ensures walked { IfOk result (λ questions. HasWalked questions.mentions queries.now) }
{
    list_reached(alloc, tables, queries, &mut map, &mut mentions)?;
    Ok(Questions {
        map,
        mentions: Some(mentions),
    })
}

/// Goes on from the code points that questions are about, and lists what each of those asks that one newly comes to. The map
/// and the mentions are changed in their places.
///
/// - `Memory`: memory ran out.
fn list_reached(
    alloc: Global,
    tables: &FactTables<PagedTable>,
    queries: &Queries,
    map: &mut QuestionMap,
    mentions: &mut Mentions,
) -> Result<(), Memory>
    requires valid { IsValid (tables_facts values_now tables.now) }
    requires kept { KeepsWalked (leads mentions.old) (is_walked mentions.old)
        (asked_at (values values_now) map.old) (tables_facts values_now tables.now) }
    requires still { SameValues (asked_at (values values_next) map.old)
        (asked_at (values values_now) map.old) }
    ensures kept { OnOk result (KeepsWalked (leads mentions.new) (is_walked mentions.new)
        (asked_at (values values_now) map.new) (tables_facts values_now tables.now)) }
    ensures still { OnOk result (SameValues (asked_at (values values_next) map.new)
        (asked_at (values values_now) map.new)) }
    ensures walked { OnOk result ((q : Question) → is_asked queries.now q ≡ true
        → is_walked mentions.new (about q) ≡ true) }
{
    let points = mentions.reach(alloc, queries)?;
    list_questions(alloc, tables, points.as_slice(), map)?;
    map.commit();
    Ok(())
}
