//! Questions for the facts of code points.

ghost use Rattle.std.specs.Prelude.{◌≡◌, ◌++◌, OnOk};
ghost use Rattle.std.specs.List.{flat_map};
ghost use Rattle.ucd_facts.specs.Facts.{image_points};
ghost use Rattle.ucd_facts.specs.Shown.{image_shown, shown_facts};
ghost use Rattle.ucd_model.specs.Validity.{mappings};
ghost use Rattle.query_laws.specs.Questions.{row_queries};
ghost use Rattle.point_queries.specs.Members.{simple_members, image_members};

use ucd_model::{FactsRef, Memory, Point, Query};

/// Appends the questions for the facts of these code points.
///
/// - `Memory`: memory ran out.
pub fn put_rows(points: &[Point], asked: &mut Vec<Query>) -> Result<(), Memory>
    ensures { OnOk result (asked.new.items ≡ asked.old.items ++ row_queries points.now) }
{
    'points: for x in points {
        asked.push(Query::Row(*x))?;
    }
    Ok(())
}

/// Appends the questions for the facts of the members of all mappings of a code point: of its decomposition mapping,
/// and of each simple and full case mapping and folding.
///
/// - `Memory`: memory ran out.
#[tactic(auto, using(crate::specs::Members::members_joined))]
pub fn put_members(c: Point, facts: &FactsRef<'_>, asked: &mut Vec<Query>) -> Result<(), Memory>
    ensures { OnOk result (asked.new.items
        ≡ asked.old.items ++ row_queries (flat_map (λ m. m) (mappings c (shown_facts facts.now)))) }
{
    put_rows(facts.mapping, asked)?;
    put_simple(facts, asked)?;
    put_images(c, facts, asked)?;
    Ok(())
}

/// Appends the questions for the facts of the simple case mappings and the simple folding.
fn put_simple(facts: &FactsRef<'_>, asked: &mut Vec<Query>) -> Result<(), Memory>
    ensures { OnOk result (asked.new.items
        ≡ asked.old.items ++ row_queries (simple_members (shown_facts facts.now))) }
{
    let simple = [
        facts.simple_upper,
        facts.simple_lower,
        facts.simple_title,
        facts.simple_fold,
    ];
    put_rows(&simple, asked)?;
    Ok(())
}

/// Appends the questions for the facts of the members of the full case mappings and the full folding.
#[tactic(auto, using(crate::specs::Members::images_joined))]
fn put_images(c: Point, facts: &FactsRef<'_>, asked: &mut Vec<Query>) -> Result<(), Memory>
    ensures { OnOk result (asked.new.items
        ≡ asked.old.items ++ row_queries (image_members c (shown_facts facts.now))) }
{
    put_image(c, facts.upper, asked)?;
    put_image(c, facts.lower, asked)?;
    put_image(c, facts.title, asked)?;
    put_image(c, facts.fold, asked)?;
    Ok(())
}

/// Appends the questions for the facts of the members of an image of a code point.
fn put_image(c: Point, image: Option<&[Point]>, asked: &mut Vec<Query>) -> Result<(), Memory>
    ensures { OnOk result (asked.new.items
        ≡ asked.old.items ++ row_queries (image_points c (image_shown image.entry))) }
{
    match image {
        Some(points) => put_rows(points, asked),
        None => put_rows(&[c], asked),
    }
}
