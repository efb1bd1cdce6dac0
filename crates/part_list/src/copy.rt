//! Copies the parts of a list.

ghost use Rattle.std.specs.Prelude.{◌≡◌, IfOk};

use crate::part::Part;
use std::alloc::Global;
use ucd_points::{Copied, Memory};

/// Copies of parts, in order.
///
/// - `Memory`: memory ran out.
pub fn copied_parts<T: Copy>(alloc: Global, parts: &[Part<T>]) -> Result<Vec<Part<T>>, Memory>
    ensures { IfOk result (λ copies. copies.items ≡ parts.now) }
{
    let mut copies = Vec::with_capacity(alloc, parts.len())?;
    'parts: for part in parts {
        copies.push(part.copied(alloc)?)?;
    }
    Ok(copies)
}
