//! Properties by their places.

ghost use Rattle.std.specs.Prelude.{◌≡◌};
ghost use Rattle.property_aliases.specs.Loose.{loose};
ghost use Rattle.property_aliases.specs.NumberMaps.{index_in_names};
ghost use Rattle.property_aliases.specs.Properties.{built_in, index_at, property_by};

use crate::naming::{Names, find_in};
use crate::property::Property;
use ucd_facts::{Core, Form};

/// The properties that are built in, in order.
const BUILT_IN: [Property; 30] = [
    Property::Category,
    Property::Script,
    Property::Class,
    Property::Decomposition,
    Property::WordBreak,
    Property::Quick(Form::Nfd),
    Property::Quick(Form::Nfc),
    Property::Quick(Form::Nfkd),
    Property::Quick(Form::Nfkc),
    Property::Core(Core::Math),
    Property::Core(Core::Alphabetic),
    Property::Core(Core::Lowercase),
    Property::Core(Core::Uppercase),
    Property::Core(Core::Cased),
    Property::Core(Core::CaseIgnorable),
    Property::Core(Core::ChangesWhenLowercased),
    Property::Core(Core::ChangesWhenUppercased),
    Property::Core(Core::ChangesWhenTitlecased),
    Property::Core(Core::ChangesWhenCasefolded),
    Property::Core(Core::ChangesWhenCasemapped),
    Property::Core(Core::IdStart),
    Property::Core(Core::IdContinue),
    Property::Core(Core::XidStart),
    Property::Core(Core::XidContinue),
    Property::Core(Core::DefaultIgnorableCodePoint),
    Property::Core(Core::GraphemeExtend),
    Property::Core(Core::GraphemeBase),
    Property::Core(Core::GraphemeLink),
    Property::Exclusion,
    Property::ChangesCasefold,
];

/// The properties that are built in, in order.
fn built_in() -> &'static [Property]
    ensures { result.now ≡ built_in }
{
    &BUILT_IN
}

/// Which property the name at a place is of.
fn property_index_at(place: usize) -> usize
    ensures { result ≡ index_at place }
{
    if place < 60 { place / 2 } else { place - 30 }
}

/// Which property a name names by a table of the names of properties.
pub(crate) fn index_in(properties: &Names, name: &[u8]) -> Option<usize>
    ensures { result ≡ index_in_names properties.now (loose name.now) }
{
    let place = find_in(&properties.direct, &properties.rows, name)?;
    Some(property_index_at(place))
}

/// The property with this index.
pub(crate) fn property_by(index: usize) -> Property
    ensures { result ≡ property_by index }
{
    let properties = built_in();
    if index < properties.len() {
        properties[index]
    } else {
        Property::Listed((index - 30) as u64)
    }
}
