//! The mappings that the rows of UnicodeData.txt give to each code point.

ghost use Rattle.std.specs.Prelude.{ℕ, ◌<◌, IfOk};
ghost use Rattle.fact_tables.specs.DataLists.{HasNoneNext};

use crate::point_lists::PointLists;
use std::alloc::Global;
use ucd_facts::Memory;

/// The mappings of each code point, kind by kind.
#[derive(Drop)]
pub struct DataLists {
    /// The decomposition mappings.
    pub mappings: PointLists,
    /// The simple mappings to upper case: one point, or none.
    pub uppers: PointLists,
    /// The simple mappings to lower case: one point, or none.
    pub lowers: PointLists,
    /// The simple mappings to title case: one point, or none.
    pub titles: PointLists,
}

impl DataLists {
    /// The lists that are all empty.
    ///
    /// - `Memory`: memory ran out.
    pub fn new(alloc: Global) -> Result<DataLists, Memory>
        ensures { IfOk result (λ lists. (c : ℕ) → c < 1114112 → HasNoneNext lists c) }
    {
        Ok(DataLists {
            mappings: PointLists::new(alloc)?,
            uppers: PointLists::new(alloc)?,
            lowers: PointLists::new(alloc)?,
            titles: PointLists::new(alloc)?,
        })
    }
}
