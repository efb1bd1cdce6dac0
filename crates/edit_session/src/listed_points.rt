//! What some code points ask.

ghost use Rattle.std.specs.Prelude.{◌≡◌, ◌<◌, OnOk};
ghost use Rattle.fact_tables.specs.FactTables.{tables_facts};
ghost use Rattle.dependency_map.specs.Maps.{asked_at};
ghost use Rattle.point_store.specs.SlotStore.{values};
ghost use Rattle.paged_table.specs.Paged.{values_now, values_next};
ghost use Rattle.ucd_model.specs.ValidityLaws.{HasRecord, IsValid};
ghost use Rattle.edit_session.specs.Questions.{AreListed, IsListed};

use crate::questions::QuestionMap;
use code_facts::FactTables;
use paged_table::PagedTable;
use point_queries::questions_of;
use std::alloc::Global;
use ucd_model::{Memory, Point};

/// Prepares what code points ask, if they have a mapping; what the others ask needs no list.
///
/// - `Memory`: memory ran out. What some of them ask may be prepared.
pub fn list_questions(
    alloc: Global,
    tables: &FactTables<PagedTable>,
    points: &[Point],
    map: &mut QuestionMap,
) -> Result<(), Memory>
    requires { IsValid (tables_facts values_now tables.now) }
    ensures { OnOk result (AreListed (tables_facts values_now tables.now) points.now
        (asked_at (values values_next) map.old) (asked_at (values values_next) map.new)) }
{
    'points: for c in points {
        list_point_questions(alloc, tables, *c, map)?;
    }
    Ok(())
}

/// Prepares what a code point asks, if it has a mapping.
///
/// - `Memory`: memory ran out. What it asks may be prepared.
fn list_point_questions(
    alloc: Global,
    tables: &FactTables<PagedTable>,
    c: Point,
    map: &mut QuestionMap,
) -> Result<(), Memory>
    requires { IsValid (tables_facts values_now tables.now) }
    ensures { OnOk result (IsListed (tables_facts values_now tables.now) c
        (asked_at (values values_next) map.old) (asked_at (values values_next) map.new)) }
{
    let _number = c.number();
    if tables.is_plain(c) {
        return Ok(());
    }
    prepare_questions(alloc, tables, c, map)
}

/// Prepares what a code point asks.
///
/// - `Memory`: memory ran out. What it asks may be prepared.
fn prepare_questions(
    alloc: Global,
    tables: &FactTables<PagedTable>,
    c: Point,
    map: &mut QuestionMap,
) -> Result<(), Memory>
    requires inside { c < 1114112 }
    requires record { HasRecord (tables_facts values_now tables.now) c }
    ensures { OnOk result (IsListed (tables_facts values_now tables.now) c
        (asked_at (values values_next) map.old) (asked_at (values values_next) map.new)) }
{
    let questions = questions_of(alloc, tables, c)?;
    map.prepare(c, &questions)?;
    Ok(())
}
