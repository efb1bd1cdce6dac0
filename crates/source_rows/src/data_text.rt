//! A row of UnicodeData.txt as it stands in its lines, and its copy. UAX #44, section 5.3, table 9.

ghost use Rattle.std.specs.Prelude.{◌≡◌, IfOk, OnOk};
ghost use Rattle.ucd_facts.specs.DataLines.{kept_of};
ghost use Rattle.source_rows.specs.Fields.{fields_in};
ghost use Rattle.source_rows.specs.DataFaults.{with_kept, text_row};

use crate::data_values::Values;
use crate::fifteen::DataFields;
use std::alloc::Global;
use ucd_facts::{DataRow, Memory, OtherFields, Span, Text};

/// A row of UnicodeData.txt as it stands in its line, or in the two lines of a range. UAX #44, section 5.3, table 9.
#[derive(Drop)]
pub struct DataText<'a> {
    /// The code points.
    pub span: Span,
    /// Whether it stands in two lines.
    pub range: bool,
    /// Field 1, or the label of a range.
    pub name: &'a [u8],
    /// What fields 2, 3, 5 and 12 to 14 hold.
    pub values: Values<'a>,
    /// The fields; for a range those of its first line.
    pub line: DataFields<'a>,
}

/// The row, with copies of its texts.
///
/// - `Memory`: memory ran out.
pub fn data_row(alloc: Global, text: DataText<'_>) -> Result<DataRow, Memory>
    ensures { IfOk result (λ row. row ≡ text_row text.entry) }
{
    let name = Text::of(alloc, text.name)?;
    let kept = other_fields_of(alloc, text.line)?;
    let values = text.values;
    Ok(DataRow {
        span: text.span,
        range: text.range,
        name,
        category: values.category,
        class: values.class,
        kind: values.decomposition.kind,
        mapping: values.decomposition.mapping.copied(alloc)?,
        upper: values.upper,
        lower: values.lower,
        title: values.title,
        kept,
    })
}

/// Fields 4 and 6 to 11, as they stand.
fn other_fields_of(alloc: Global, line: DataFields<'_>) -> Result<OtherFields, Memory>
    ensures { IfOk result (λ kept. kept ≡ kept_of (fields_in line.entry)) }
{
    let mut kept = OtherFields {
        f4: Text::new(alloc),
        f6: Text::new(alloc),
        f7: Text::new(alloc),
        f8: Text::new(alloc),
        f9: Text::new(alloc),
        f10: Text::new(alloc),
        f11: Text::new(alloc),
    };
    put_other_fields(line, &mut kept)?;
    Ok(kept)
}

/// Puts fields 4 and 6 to 11 behind what is kept of each.
fn put_other_fields(line: DataFields<'_>, kept: &mut OtherFields) -> Result<(), Memory>
    ensures { OnOk result (kept.new ≡ with_kept kept.old (kept_of (fields_in line.entry))) }
{
    kept.f4.append(line.f4)?;
    kept.f6.append(line.f6)?;
    kept.f7.append(line.f7)?;
    kept.f8.append(line.f8)?;
    kept.f9.append(line.f9)?;
    kept.f10.append(line.f10)?;
    kept.f11.append(line.f11)
}
