//! Which code points mention which, over the facts of a release.

ghost use Rattle.std.specs.Prelude.{◌≡◌, ◌+◌, ◌<◌, ◌≤◌, ℕ, false, IfOk, OnOk};
ghost use Rattle.fact_tables.specs.FactTables.{tables_facts};
ghost use Rattle.mention_index.specs.Mentions.{is_walked, leads, puts};
ghost use Rattle.mention_index.specs.Steps.{HasSteps};
ghost use Rattle.paged_table.specs.Paged.{values_now};
ghost use Rattle.edit_session.specs.Questions.{HasStepsBelow};

use code_facts::FactTables;
use mention_index::{Mentions, MentionsBuilder};
use paged_table::PagedTable;
use std::alloc::Global;
use ucd_model::{Memory, Point, point_count};

/// Which code points mention which, by the facts that tables have now; one went on from none yet.
///
/// - `Memory`: memory ran out.
pub fn mention_all(alloc: Global, tables: &FactTables<PagedTable>) -> Result<Mentions, Memory>
    ensures steps { IfOk result (λ mentions. HasSteps (leads mentions)
        (tables_facts values_now tables.now)) }
    ensures walked { IfOk result (λ mentions. (x : ℕ) → is_walked mentions x ≡ false) }
{
    let count = point_count();
    let mut listing = MentionsBuilder::new(alloc);
    let mut number = 0;
    'runs: while number < count {
        let end = mention_run(tables, Point::at(number), &mut listing)?;
        number = end;
    }
    Ok(listing.finish())
}

/// Puts what a code point mentions, if it has a mapping, and answers one past it; else, one past the last code point up to
/// which all from it on have no mapping, as far as few look-ups tell.
///
/// - `Memory`: memory ran out.
fn mention_run(
    tables: &FactTables<PagedTable>,
    c: Point,
    listing: &mut MentionsBuilder,
) -> Result<u32, Memory>
    requires { HasStepsBelow (puts listing.old) c (tables_facts values_now tables.now) }
    ensures from { IfOk result (λ end. c < end) }
    ensures inside { IfOk result (λ end. end ≤ 1114112) }
    ensures steps { IfOk result (λ end. HasStepsBelow (puts listing.new) end
        (tables_facts values_now tables.now)) }
{
    match tables.last_plain(c) {
        Some(last) => Ok(last.number() + 1),
        None => {
            listing.put(tables, c)?;
            Ok(c.number() + 1)
        }
    }
}
