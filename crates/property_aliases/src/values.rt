//! The values of properties by their names.

ghost use Rattle.std.specs.Prelude.{◌≡◌, ◌+◌, ◌^◌, ◌≤◌, ℕ, List, length, IfOk, MatchOption};
ghost use Rattle.std.specs.List.{flat_map};
ghost use Rattle.property_aliases.specs.Found.{place_in};
ghost use Rattle.property_aliases.specs.Kinds.{kind_names, kind_of, number_at};
ghost use Rattle.property_aliases.specs.Loose.{loose};
ghost use Rattle.property_aliases.specs.Numbers.{names_in};
ghost use Rattle.property_aliases.specs.NumberMaps.{index_in_names};
ghost use Rattle.property_aliases.specs.Resolving.{number_of};
ghost use Rattle.property_aliases.specs.Sources.{alias_rows};
ghost use Rattle.property_aliases.specs.Values.{behind, index_of};
ghost use Rattle.property_aliases.specs.declared.property.Property.{Property};
ghost use Rattle.release_rows.specs.Releases.{rows_now};
ghost use Rattle.ucd_points.specs.declared.files.SourceFile.TheVariants.{PropertyValueAliases};

use crate::kinds::{names_kind_of, places_by_kind};
use crate::naming::{Names, lesser_number};
use crate::number_map::NumberMap;
use crate::property::Property;
use crate::value_numbers::ValueNumbers;
use crate::value_rows::places_by_property;
use release_rows::Release;
use std::alloc::Global;
use ucd_facts::{Form, Memory};

/// The places of the names of values: of the built-in and the numbered ones by kind of property, and of those that rows
/// tie to them by property.
#[derive(Drop)]
pub(crate) struct ValueNames {
    pub(crate) kinds: Vec<NumberMap>,
    pub(crate) rows: Vec<NumberMap>,
}

impl ValueNames {
    /// The names of values by the rows of a release now.
    ///
    /// - `Memory`: memory ran out.
    pub(crate) fn of(
        alloc: Global,
        release: &Release,
        properties: &Names,
        numbers: &ValueNumbers,
    ) -> Result<ValueNames, Memory>
        ensures { IfOk result (λ values. (p : Property) (key : List ℕ)
            → place_in values p key
            ≡ number_of (kind_names (names_in numbers.now.scripts.names)
            (names_in numbers.now.breaks.names) (kind_of p))
            (flat_map (behind (index_in_names properties.now) (index_of p))
            (alias_rows (rows_now release.now PropertyValueAliases))) key) }
    {
        let kinds = places_by_kind(
            alloc,
            numbers.scripts.names.as_slice(),
            numbers.breaks.names.as_slice(),
        )?;
        let rows = places_by_property(alloc, release, properties, kinds.as_slice())?;
        Ok(ValueNames { kinds, rows })
    }

    /// The place of the first name of a value of a property that a name names.
    pub(crate) fn find(&self, property: Property, name: &[u8]) -> Option<usize>
        ensures { result ≡ place_in self.now property (loose name.now) }
    {
        let direct = number_at(self.kinds.as_slice(), names_kind_of(property), name);
        lesser_number(direct, self.find_in_rows(property, name))
    }

    /// The place to which rows tie a name.
    fn find_in_rows(&self, property: Property, name: &[u8]) -> Option<usize>
        ensures { result ≡ number_at self.now.rows.items (index_of property) (loose name.now) }
    {
        number_at(self.rows.as_slice(), index_of(property)?, name)
    }
}

/// The number of a name in a map; `None` if there is no such map.
fn number_at(maps: &[NumberMap], index: usize, name: &[u8]) -> Option<usize>
    ensures { result ≡ number_at maps.now index (loose name.now) }
{
    maps.get(index)?.find(name)
}

/// The place of a property among all; `None` if it is 2^64 or above.
fn index_of(property: Property) -> Option<usize>
    ensures { MatchOption result (2 ^ 64 ≤ index_of property) (λ index. index ≡ index_of property) }
{
    match property {
        Property::Category => Some(0),
        Property::Script => Some(1),
        Property::Class => Some(2),
        Property::Decomposition => Some(3),
        Property::WordBreak => Some(4),
        Property::Quick(Form::Nfd) => Some(5),
        Property::Quick(Form::Nfc) => Some(6),
        Property::Quick(Form::Nfkd) => Some(7),
        Property::Quick(Form::Nfkc) => Some(8),
        Property::Core(core) => Some(9 + core.place()),
        Property::Exclusion => Some(28),
        Property::ChangesCasefold => Some(29),
        Property::Listed(number) => (number as usize).checked_add(30),
    }
}
