//! Where the names of properties and of their values stand.

ghost use Rattle.std.specs.Prelude.{◌≡◌, ◌++◌, ℕ, List, IfOk};
ghost use Rattle.std.specs.List.{flat_map};
ghost use Rattle.property_aliases.specs.Found.{place_in};
ghost use Rattle.property_aliases.specs.Kinds.{kind_names, kind_of};
ghost use Rattle.property_aliases.specs.Numbers.{names_in};
ghost use Rattle.property_aliases.specs.NumberMaps.{found_in, index_in_names};
ghost use Rattle.property_aliases.specs.Resolving.{number_of};
ghost use Rattle.property_aliases.specs.Sources.{alias_rows};
ghost use Rattle.property_aliases.specs.Tables.{built_in_names};
ghost use Rattle.property_aliases.specs.Values.{behind, index_of};
ghost use Rattle.property_aliases.specs.declared.property.Property.{Property};
ghost use Rattle.release_rows.specs.Releases.{rows_now};
ghost use Rattle.ucd_points.specs.declared.files.SourceFile.TheVariants.{PropertyAliases, PropertyValueAliases};

use crate::naming::Names;
use crate::rows::alias_rows;
use crate::tables::{built_in_names, table_of};
use crate::value_numbers::ValueNumbers;
use crate::values::ValueNames;
use release_rows::Release;
use std::alloc::Global;
use ucd_facts::{Memory, SourceFile};

/// The places of the names of properties, and of those of values.
#[derive(Drop)]
pub(crate) struct Places {
    pub(crate) properties: Names,
    pub(crate) values: ValueNames,
}

impl Places {
    /// The places of names by the rows of a release now.
    ///
    /// - `Memory`: memory ran out.
    pub(crate) fn of(
        alloc: Global,
        release: &Release,
        numbers: &ValueNumbers,
    ) -> Result<Places, Memory>
        ensures properties { IfOk result (λ places. (key : List ℕ)
            → found_in places.properties.direct places.properties.rows key
            ≡ number_of (built_in_names ++ names_in numbers.now.listed.names)
            (alias_rows (rows_now release.now PropertyAliases)) key) }
        ensures values { IfOk result (λ places. (p : Property) (key : List ℕ)
            → place_in places.values p key
            ≡ number_of (kind_names (names_in numbers.now.scripts.names)
            (names_in numbers.now.breaks.names) (kind_of p))
            (flat_map (behind (index_in_names places.properties) (index_of p))
            (alias_rows (rows_now release.now PropertyValueAliases))) key) }
    {
        let properties = properties_of(alloc, release, numbers)?;
        let values = ValueNames::of(alloc, release, &properties, numbers)?;
        Ok(Places { properties, values })
    }
}

/// The names of properties, those of PropList.txt behind the others.
///
/// - `Memory`: memory ran out.
fn properties_of(alloc: Global, release: &Release, numbers: &ValueNumbers) -> Result<Names, Memory>
    ensures { IfOk result (λ names. (key : List ℕ)
        → found_in names.direct names.rows key
        ≡ number_of (built_in_names ++ names_in numbers.now.listed.names)
        (alias_rows (rows_now release.now PropertyAliases)) key) }
{
    let rows = alias_rows(alloc, release, SourceFile::PropertyAliases)?;
    let names = table_of(alloc, built_in_names(), numbers.listed.names.as_slice())?;
    let found = Names::of(alloc, names.as_slice(), rows.as_slice())?;
    Ok(found)
}
