//! Copies of the tables of facts.

ghost use Rattle.std.specs.Prelude.{◌≡◌, IfOk};
ghost use Rattle.fact_tables.specs.FactTables.{tables_facts, tables_next};

use crate::fact_tables::FactTables;
use range_table::Table;
use std::alloc::Global;
use ucd_facts::{Copied, Memory, Spans};

impl<T: Table<u64> + Copied> FactTables<T> {
    /// A copy of the tables, with the same facts, now and next.
    ///
    /// - `Memory`: memory ran out.
    pub fn copied(&self, alloc: Global) -> Result<FactTables<T>, Memory>
        ensures now { IfOk result
            (λ tables. tables_facts T.now tables ≡ tables_facts T.now self.now) }
        ensures next { IfOk result
            (λ tables. tables_next T.now tables ≡ tables_next T.now self.now) }
    {
        let touched = Spans::of(alloc, self.touched.as_slice())?;
        let words = self.words.copied(alloc)?;
        let index = self.index.copied(alloc)?;
        let rests = self.rests.copied(alloc, |rest| rest.copied(alloc))?;
        Ok(FactTables {
            words,
            rests,
            index,
            touched,
        })
    }
}
