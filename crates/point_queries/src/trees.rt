//! Questions of expansions.

ghost use Rattle.std.specs.Prelude.{◌≡◌, ◌++◌, OnOk};
ghost use Rattle.std.specs.List.{flat_map};
ghost use Rattle.query_laws.specs.Questions.{tree, whole_tree, row_queries};
ghost use Rattle.point_queries.specs.Compat.{has_compat};

use decomposition::{LEVELS, mapping_if_counted};
use ucd_model::{FactView, Memory, Point, Query};

/// Appends the questions for the facts of the code points that the expansions of these look at.
/// UAX #15, section 1.3.
///
/// - `Memory`: memory ran out.
pub fn put_trees<W: FactView>(
    view: &W,
    compat: bool,
    points: &[Point],
    asked: &mut Vec<Query>,
) -> Result<(), Memory>
    ensures { OnOk result (asked.new.items ≡ asked.old.items
        ++ row_queries (flat_map (whole_tree (W.facts_of view.now) compat) points.now)) }
{
    'points: for c in points {
        put_whole_tree(view, compat, *c, asked)?;
    }
    Ok(())
}

/// Appends the questions for the facts of the code points that the expansion of this one looks at. UAX #15, section 1.3.
///
/// - `Memory`: memory ran out.
#[tactic(auto, unfolding(query_laws::specs::Questions::whole_tree))]
fn put_whole_tree<W: FactView>(
    view: &W,
    compat: bool,
    c: Point,
    asked: &mut Vec<Query>,
) -> Result<(), Memory>
    ensures { OnOk result (asked.new.items
        ≡ asked.old.items ++ row_queries (whole_tree (W.facts_of view.now) compat c)) }
{
    put_tree(view, compat, LEVELS, c, asked)?;
    Ok(())
}

/// Appends the questions for the facts of the code points that the expansion of this one looks at, with so many levels left.
/// UAX #15, section 1.3.
///
/// - `Memory`: memory ran out.
fn put_tree<W: FactView>(
    view: &W,
    compat: bool,
    levels: u8,
    c: Point,
    asked: &mut Vec<Query>,
) -> Result<(), Memory>
    ensures { OnOk result (asked.new.items
        ≡ asked.old.items ++ row_queries (tree (W.facts_of view.now) compat levels c)) }
{
    if levels == 0 {
        return Ok(());
    }
    asked.push(Query::Row(c))?;
    let mapping = mapping_if_counted(view, compat, c);
    'members: for member in mapping {
        put_tree(view, compat, levels - 1, *member, asked)?;
    }
    Ok(())
}

/// Whether a code point that the expansions of this one look at has a compatibility mapping. UAX #15, section 1.3.
pub fn has_compat_in_tree<W: FactView>(view: &W, c: Point) -> bool
    ensures { result ≡ has_compat (W.facts_of view.now) 8 c }
{
    has_compat_within(view, LEVELS, c)
}

/// Whether a code point that the expansions of this one look at, with so many levels left, has a compatibility mapping.
/// UAX #15, section 1.3.
fn has_compat_within<W: FactView>(view: &W, levels: u8, c: Point) -> bool
    ensures { result ≡ has_compat (W.facts_of view.now) levels c }
{
    if levels == 0 {
        return false;
    }
    if view.kind(c).is_compat() {
        return true;
    }
    let mapping = mapping_if_counted(view, true, c);
    'members: for member in mapping {
        if has_compat_within(view, levels - 1, *member) {
            return true;
        }
    }
    false
}
