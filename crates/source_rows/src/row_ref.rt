//! A row as it stands in its line, and its copy.

ghost use Rattle.std.specs.Prelude.{◌≡◌, IfOk};
ghost use Rattle.source_rows.specs.RowRefs.{casing_in, fold_in, row_in, value_in};

use crate::aliases::copied;
use crate::case_folding::FoldText;
use crate::data_text::{DataText, data_row};
use crate::special_casing::CasingText;
use crate::values::ValueText;
use std::alloc::Global;
use ucd_facts::{AliasRow, CasingRow, ExclusionRow, FoldRow, Memory, Row, Text, ValueRow};
use ucd_lines::Fields;

/// A row as it stands in its line, or in the two lines of a range. Nothing is copied.
#[derive(Drop)]
pub enum RowRef<'a> {
    /// A row of UnicodeData.txt.
    Unit(DataText<'a>),
    /// A row of PropList.txt, Scripts.txt or WordBreakProperty.txt.
    Value(ValueText<'a>),
    /// A row of CompositionExclusions.txt.
    Exclusion(ExclusionRow),
    /// A row of CaseFolding.txt.
    Fold(FoldText<'a>),
    /// A row of SpecialCasing.txt.
    Casing(CasingText<'a>),
    /// The names of a row of PropertyAliases.txt or PropertyValueAliases.txt, in order.
    Alias(Fields<'a>),
    /// A missing row of Scripts.txt or WordBreakProperty.txt.
    Missing(ValueText<'a>),
}

/// A row of a span and a value, with a copy of the value.
fn value_row(alloc: Global, text: ValueText<'_>) -> Result<ValueRow, Memory>
    ensures { IfOk result (λ row. row ≡ value_in text.entry) }
{
    Ok(ValueRow {
        span: text.span,
        value: Text::of(alloc, text.value)?,
    })
}

/// A row of CaseFolding.txt, with a copy of the mapping.
fn fold_row(alloc: Global, text: FoldText<'_>) -> Result<FoldRow, Memory>
    ensures { IfOk result (λ row. row ≡ fold_in text.entry) }
{
    Ok(FoldRow {
        code: text.code,
        status: text.status,
        mapping: text.mapping.copied(alloc)?,
    })
}

/// A row of SpecialCasing.txt, with copies of its lists.
fn casing_row(alloc: Global, text: CasingText<'_>) -> Result<CasingRow, Memory>
    ensures { IfOk result (λ row. row ≡ casing_in text.entry) }
{
    Ok(CasingRow {
        code: text.code,
        lower: text.lower.copied(alloc)?,
        title: text.title.copied(alloc)?,
        upper: text.upper.copied(alloc)?,
        conditions: text.conditions.copied(alloc)?,
    })
}

impl<'a> RowRef<'a> {
    /// The row, with copies of its texts and lists.
    ///
    /// - `Memory`: memory ran out.
    pub fn into_row(self, alloc: Global) -> Result<Row, Memory>
        ensures { IfOk result (λ row. row ≡ row_in self.entry) }
    {
        match self {
            RowRef::Unit(text) => Ok(Row::Unit(data_row(alloc, text)?)),
            RowRef::Value(text) => Ok(Row::Value(value_row(alloc, text)?)),
            RowRef::Exclusion(row) => Ok(Row::Exclusion(row)),
            RowRef::Fold(text) => Ok(Row::Fold(fold_row(alloc, text)?)),
            RowRef::Casing(text) => Ok(Row::Casing(casing_row(alloc, text)?)),
            RowRef::Alias(names) => Ok(Row::Alias(AliasRow {
                names: copied(alloc, names)?,
            })),
            RowRef::Missing(text) => Ok(Row::Missing(value_row(alloc, text)?)),
        }
    }
}
