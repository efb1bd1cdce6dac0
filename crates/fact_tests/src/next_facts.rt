//! Facts that are prepared, committed and discarded.

ghost use Rattle.std.specs.Prelude.{◌≡◌};
ghost use Rattle.range_table.specs.RunTable.{values_now};
ghost use Rattle.fact_tables.specs.FactTables.{tables_facts, tables_next};

use crate::changes::{Tables, empty_tables, point, prepare};
use release_rows::Release;
use std::alloc::Global;
use std::test::Fail;
use ucd_facts::{FactView, Memory, SourceFile};

/// Whether a row covers 0041, and 00C0 is the composite of 0041 and 0300: now, and next.
fn seen(tables: &Tables) -> (bool, bool) {
    (shows_both(&tables.now()), shows_both(&tables.next()))
}

fn shows_both<W: FactView>(view: &W) -> bool {
    view.is_assigned(point(0x41)) && view.pair(point(0x41), point(0x300)) == Some(point(0xC0))
}

/// Whether facts are next once they are prepared, gone once they are discarded, and now once they are committed.
fn steps(alloc: Global, tables: &mut Tables, after: &Release) -> Result<bool, Memory>
    requires { tables_next values_now tables.old ≡ tables_facts values_now tables.old }
{
    prepare(alloc, tables, after)?;
    let prepared = seen(tables) == (false, true);
    tables.discard();
    let discarded = seen(tables) == (false, false);
    prepare(alloc, tables, after)?;
    tables.commit();
    Ok(prepared && discarded && seen(tables) == (true, true))
}

#[test]
fn what_is_prepared_is_next(rt: HostRuntime) -> Result<(), Fail> {
    let alloc = rt.alloc();
    let mut after = Release::empty(alloc);
    after.load_file(
        SourceFile::UnicodeData,
        b"0041;LATIN CAPITAL LETTER A;Lu;0;L;;;;;N;;;;0061;\n00C0;LATIN CAPITAL LETTER A WITH GRAVE;Lu;0;L;0041 0300;;;;N;LATIN CAPITAL LETTER A GRAVE;;;00E0;\n",
    )?;
    let mut tables = empty_tables(alloc)?;
    assert!(rt; steps(alloc, &mut tables, &after)?);
    Ok(())
}
