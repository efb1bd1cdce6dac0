//! The set of one span.

ghost use Rattle.std.specs.Prelude.{◌≡◌, IfOk};
ghost use Rattle.unicodeset_eval.specs.Members.{span_edges};

use std::alloc::Global;
use ucd_model::{Memory, Span};

/// The edges above 0 of a span.
///
/// - `Memory`: memory ran out.
pub(crate) fn span_edges(alloc: Global, span: Span) -> Result<Vec<u32>, Memory>
    ensures { IfOk result (λ edges. edges.items ≡ span_edges span) }
{
    let mut edges = Vec::new(alloc);
    if span.first() > 0 {
        edges.push(span.first())?;
    }
    edges.push(span.last() + 1)?;
    Ok(edges)
}
