//! Two sets put together, edge by edge.

ghost use Rattle.std.specs.Prelude.{◌≡◌, [], ◌∷◌, ◌++◌, IfOk, OnOk, OnErr};
ghost use Rattle.unicodeset_eval.specs.Edges.{holds};
ghost use Rattle.unicodeset_eval.specs.Merges.{emit, least, merge, passed, turned};

use std::alloc::Global;
use ucd_model::Memory;
use unicodeset_parser::Join;

/// Whether what is in the first set, and in the second, is in what the two are joined to.
pub(crate) fn holds(join: Join, first: bool, second: bool) -> bool
    ensures { result ≡ holds join first second }
{
    match join {
        Join::Union => first || second,
        Join::Meet => first && second,
        Join::Minus => first && !second,
    }
}

/// The least edge that is left of two sets.
fn least(first: &[u32], second: &[u32]) -> Option<u32>
    ensures { result ≡ least first.now second.now }
{
    match (first, second) {
        ([], []) => None,
        ([], [y, ..]) => Some(*y),
        ([x, ..], []) => Some(*x),
        ([x, ..], [y, ..]) => Some((*x).min(*y)),
    }
}

/// Whether what is behind an edge is in.
fn is_inside_behind(at: u32, inside: bool, edges: &[u32]) -> bool
    ensures { result ≡ turned at inside edges.now }
{
    match edges {
        [] => inside,
        [edge, ..] => { if *edge == at { !inside } else { inside } }
    }
}

/// The edges behind an edge.
fn edges_behind(at: u32, edges: &[u32]) -> &[u32]
    ensures { result.now ≡ passed at edges.now }
{
    match edges {
        [] => edges,
        [edge, rest @ ..] => { if *edge == at { rest } else { edges } }
    }
}

/// Puts an edge at the end if membership turns at it.
///
/// - `Memory`: memory ran out. The edges stay as they were.
pub(crate) fn put_edge_if_turned(
    edges: &mut Vec<u32>,
    before: bool,
    after: bool,
    at: u32,
) -> Result<(), Memory>
    ensures ok { OnOk result (edges.new.items ≡ edges.old.items ++ emit before after at []) }
    ensures err { OnErr result (edges.new.items ≡ edges.old.items) }
{
    if before != after {
        edges.push(at)?;
    }
    Ok(())
}

/// The edges of what two sets are joined to; each set is given by whether 0 is in it, and by its edges above 0.
///
/// - `Memory`: memory ran out.
pub(crate) fn merge(
    alloc: Global,
    join: Join,
    first_starts: bool,
    first: &[u32],
    second_starts: bool,
    second: &[u32],
) -> Result<Vec<u32>, Memory>
    ensures { IfOk result (λ edges. edges.items
        ≡ merge (holds join) first_starts first.now second_starts second.now) }
{
    let mut edges = Vec::new(alloc);
    let (mut a, mut left) = (first_starts, first);
    let (mut b, mut right) = (second_starts, second);
    'edges: while let Some(at) = least(left, right) {
        let next_a = is_inside_behind(at, a, left);
        let next_b = is_inside_behind(at, b, right);
        put_edge_if_turned(
            &mut edges,
            holds(join, a, b),
            holds(join, next_a, next_b),
            at,
        )?;
        left = edges_behind(at, left);
        right = edges_behind(at, right);
        a = next_a;
        b = next_b;
    }
    Ok(edges)
}
