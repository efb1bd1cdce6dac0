//! What questions need of the rows alone.

ghost use Rattle.std.specs.Prelude.{IfOk};
ghost use Rattle.property_aliases.specs.Found.{AreAliasesOf};
ghost use Rattle.property_aliases.specs.Numbers.{AreNumbersOf};
ghost use Rattle.property_aliases.specs.Sources.{sources_of};
ghost use Rattle.release_rows.specs.Releases.{rows_now};
ghost use Rattle.unicodeset_eval.specs.Found.{AreSetsBut};
ghost use Rattle.set_answers.specs.RowNames.{AreNamesBut, AreRowNames};

use property_aliases::{Aliases, Edited};
use release_rows::Release;
use std::alloc::Global;
use ucd_model::Memory;
use unicodeset_eval::RowSets;

/// What names mean, and the code points to which rows give values. They stay while the rows of five files stay.
#[derive(Drop)]
pub struct RowNames {
    /// The meaning of names.
    pub aliases: Aliases,
    /// The code points to which rows give values.
    pub sets: RowSets,
}

impl RowNames {
    /// Those of the rows of a release now.
    ///
    /// - `Memory`: memory ran out.
    pub fn of(alloc: Global, release: &Release) -> Result<RowNames, Memory>
        ensures { IfOk result (λ names. AreRowNames names release.now.current) }
    {
        let aliases = Aliases::of(alloc, release)?;
        RowNames::with_aliases(alloc, release, aliases)
    }

    /// What names mean, and the code points to which rows give values, by the rows of a release now. `aliases` is the
    /// meaning of names by these rows.
    ///
    /// - `Memory`: memory ran out.
    fn with_aliases(alloc: Global, release: &Release, aliases: Aliases) -> Result<RowNames, Memory>
        requires aliases { AreAliasesOf aliases (sources_of release.now) }
        requires numbers { AreNumbersOf aliases.numbers (rows_now release.now) }
        ensures { IfOk result (λ names. AreRowNames names release.now.current) }
    {
        let sets = RowSets::of(alloc, release, aliases.numbers())?;
        Ok(RowNames { aliases, sets })
    }

    /// Those of the rows of a release now, if these are those of rows of which only the edited files have others. What rows of
    /// other files tell stays.
    ///
    /// - `Memory`: memory ran out.
    pub(crate) fn renewed(
        self,
        alloc: Global,
        release: &Release,
        edited: Edited,
    ) -> Result<RowNames, Memory>
        requires { AreNamesBut self edited release.now.current }
        ensures { IfOk result (λ names. AreRowNames names release.now.current) }
    {
        let RowNames { aliases, sets } = self;
        let aliases = aliases.renewed(alloc, release, edited)?;
        RowNames::with_sets(alloc, release, edited, aliases, sets)
    }

    /// What names mean, and the code points to which rows give values, by the rows of a release now. `aliases` is the
    /// meaning of names by these rows. `sets` are those of rows of which only the edited files have others.
    ///
    /// - `Memory`: memory ran out.
    fn with_sets(
        alloc: Global,
        release: &Release,
        edited: Edited,
        aliases: Aliases,
        sets: RowSets,
    ) -> Result<RowNames, Memory>
        requires aliases { AreAliasesOf aliases (sources_of release.now) }
        requires numbers { AreNumbersOf aliases.numbers (rows_now release.now) }
        requires sets { AreSetsBut sets edited (rows_now release.now) }
        ensures { IfOk result (λ names. AreRowNames names release.now.current) }
    {
        match sets.renewed(alloc, release, aliases.numbers(), edited) {
            Ok(sets) => Ok(RowNames { aliases, sets }),
            Err(stop) => Err(stop),
        }
    }
}
