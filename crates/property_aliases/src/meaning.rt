//! What code points are tested for by names of values, and by names that stand alone.

ghost use Rattle.std.specs.Prelude.{◌≡◌, Some, slice_get};
ghost use Rattle.property_aliases.specs.Loose.{loose};
ghost use Rattle.property_aliases.specs.Values.{binary, groups, other_key, test_at};
ghost use Rattle.property_aliases.specs.declared.property.Property.TheVariants.{Category as OfCategory, Class as OfClass, Decomposition as OfDecomposition, Quick as OfQuick};

use crate::loose::is_loosely_same;
use crate::property::{Group, Property, Test};
use ucd_facts::{Category, Form, Kind, Quick};

/// The test for the value of a property whose name stands at a place; `None` if none of its built-in names stands
/// there.
pub(crate) fn test_at(property: Property, place: usize) -> Option<Test>
    ensures { result ≡ test_at property place }
{
    match property {
        Property::Category => category_test(place),
        Property::Script => Some(Test::Script(place as u64)),
        Property::Class => class_test(place),
        Property::Decomposition => decomposition_test(place),
        Property::WordBreak => Some(Test::WordBreak(place as u64)),
        Property::Quick(form) => quick_test(form, place),
        Property::Core(core) => Some(Test::Core(core, place < 4)),
        Property::Exclusion => Some(Test::Exclusion(place < 4)),
        Property::ChangesCasefold => Some(Test::ChangesCasefold(place < 4)),
        Property::Listed(number) => Some(Test::Listed(number, place < 4)),
    }
}

/// The test for a category, or for a group behind them.
fn category_test(place: usize) -> Option<Test>
    ensures { result ≡ test_at OfCategory place }
{
    match Category::at(place) {
        Some(category) => Some(Test::Category(category)),
        None => Some(Test::Group(group_at(place.saturating_sub(30))?)),
    }
}

/// The group at a place; `None` past 7.
fn group_at(place: usize) -> Option<Group>
    ensures { result ≡ slice_get groups place }
{
    match place {
        0 => Some(Group::L),
        1 => Some(Group::LC),
        2 => Some(Group::M),
        3 => Some(Group::N),
        4 => Some(Group::P),
        5 => Some(Group::S),
        6 => Some(Group::Z),
        7 => Some(Group::C),
        _ => None,
    }
}

/// The test for a Canonical_Combining_Class, of which 0 to 254 have names.
fn class_test(place: usize) -> Option<Test>
    ensures { result ≡ test_at OfClass place }
{
    if place < 255 {
        Some(Test::Class(place as u8))
    } else {
        None
    }
}

/// The test for a kind of decomposition.
fn decomposition_test(place: usize) -> Option<Test>
    ensures { result ≡ test_at OfDecomposition place }
{
    Some(Test::Decomposition(Kind::at(place)?))
}

/// The test for a value of a quick check, of which each has two names.
fn quick_test(form: Form, place: usize) -> Option<Test>
    ensures { result ≡ test_at (OfQuick form) place }
{
    match place {
        0 | 1 => Some(Test::Quick(form, Quick::Yes)),
        2 | 3 => Some(Test::Quick(form, Quick::No)),
        4 | 5 => Some(Test::Quick(form, Quick::Maybe)),
        _ => None,
    }
}

/// The test for code points that have a property; `None` for properties that have other values than Yes and No.
pub(crate) fn binary(property: Property) -> Option<Test>
    ensures { result ≡ binary (Some property) }
{
    match property {
        Property::Core(core) => Some(Test::Core(core, true)),
        Property::Exclusion => Some(Test::Exclusion(true)),
        Property::ChangesCasefold => Some(Test::ChangesCasefold(true)),
        Property::Listed(number) => Some(Test::Listed(number, true)),
        _ => None,
    }
}

/// The test that `Any`, `ASCII` or `Assigned` means.
pub(crate) fn any_ascii_or_assigned(name: &[u8]) -> Option<Test>
    ensures { result ≡ other_key (loose name.now) }
{
    if is_loosely_same(name, b"Any") {
        Some(Test::Any)
    } else if is_loosely_same(name, b"ASCII") {
        Some(Test::Ascii)
    } else if is_loosely_same(name, b"Assigned") {
        Some(Test::Assigned)
    } else {
        None
    }
}
