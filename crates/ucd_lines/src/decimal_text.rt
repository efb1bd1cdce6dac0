//! Writes numbers in decimal digits, and totals.

ghost use Rattle.std.specs.Prelude.{◌≡◌, [], ◌∷◌, ◌++◌, OnOk, OnErr, codes};
ghost use Rattle.std.specs.Fmt.{decimal};

use std::alloc::Global;
use ucd_points::{Memory, Text};

/// Appends a number in decimal digits, with no zero to spare.
///
/// - `Memory`: memory ran out. The text stays as it was.
pub fn put_decimal(alloc: Global, number: usize, into: &mut Text) -> Result<(), Memory>
    ensures ok { OnOk result (into.new ≡ into.old ++ decimal number) }
    ensures err { OnErr result (into.new ≡ into.old) }
{
    let digits = number.to_string(alloc)?;
    into.append(digits.as_bytes())
}

/// Appends the line `# total N`, ended by LF.
///
/// - `Memory`: memory ran out. A part of the line may then stand at the end of the text.
pub fn put_total(alloc: Global, total: usize, into: &mut Text) -> Result<(), Memory>
    ensures { OnOk result (into.new ≡ into.old ++ codes "# total " ++ decimal total ++ 10 ∷ []) }
{
    into.append(b"# total ")?;
    put_decimal(alloc, total, into)?;
    into.append(b"\n")
}
