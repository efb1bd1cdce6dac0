//! The names of values, kind by kind: properties whose values have the same built-in names are of one kind.

ghost use Rattle.std.specs.Prelude.{◌≡◌, ◌++◌, ◌∷◌, [], ℕ, ◌<◌, List, length, map, Some, None, slice_get, IfOk, OnOk};
ghost use Rattle.std.specs.Fmt.{decimal};
ghost use Rattle.property_aliases.specs.Kinds.{kind_names, kind_of, number_at};
ghost use Rattle.property_aliases.specs.ResolvingLaws.{direct};
ghost use Rattle.property_aliases.specs.Values.{class_names};

use crate::naming::places_of_table;
use crate::number_map::NumberMap;
use crate::property::Property;
use crate::tables::{
    category_names, decomposition_names, push_name, quick_names, table_of, truth_names,
};
use std::alloc::Global;
use ucd_facts::{ListOf, Memory, Texts};

/// How many kinds there are.
const KINDS: usize = 7;

/// The kind of a property's values.
pub(crate) fn names_kind_of(property: Property) -> usize
    ensures kind { result ≡ kind_of property }
    ensures below { result < 7 }
{
    match property {
        Property::Category => 0,
        Property::Script => 1,
        Property::Class => 2,
        Property::Decomposition => 3,
        Property::WordBreak => 4,
        Property::Quick(_) => 5,
        _ => 6,
    }
}

/// Puts a number in decimal at the end.
///
/// - `Memory`: memory ran out.
fn push_decimal(alloc: Global, names: &mut Texts, number: usize) -> Result<(), Memory>
    ensures { OnOk result (names.new ≡ names.old ++ decimal number ∷ []) }
{
    let digits = number.to_string(alloc)?;
    push_name(alloc, names, digits.as_bytes())
}

/// 0 to 254 in decimal.
///
/// - `Memory`: memory ran out.
fn class_names(alloc: Global) -> Result<Texts, Memory>
    ensures { IfOk result (λ names. names ≡ class_names) }
{
    let mut names = ListOf::new(alloc);
    let mut number = 0;
    'numbers: while number < 255 {
        push_decimal(alloc, &mut names, number)?;
        number += 1;
    }
    Ok(names)
}

/// The names of the values of a kind, in order.
///
/// - `Memory`: memory ran out.
fn kind_names(
    alloc: Global,
    kind: usize,
    scripts: &[Vec<u8>],
    breaks: &[Vec<u8>],
) -> Result<Texts, Memory>
    ensures { IfOk result (λ names. names
        ≡ kind_names (map (λ k. k.items) scripts.now) (map (λ k. k.items) breaks.now) kind) }
{
    match kind {
        0 => table_of(alloc, category_names(), &[]),
        1 => table_of(alloc, &[], scripts),
        2 => class_names(alloc),
        3 => table_of(alloc, decomposition_names(), &[]),
        4 => table_of(alloc, &[], breaks),
        5 => table_of(alloc, quick_names(), &[]),
        _ => table_of(alloc, truth_names(), &[]),
    }
}

/// The place of each name of the values of each kind.
///
/// - `Memory`: memory ran out.
pub(crate) fn places_by_kind(
    alloc: Global,
    scripts: &[Vec<u8>],
    breaks: &[Vec<u8>],
) -> Result<Vec<NumberMap>, Memory>
    ensures len { IfOk result (λ kinds. length kinds.items ≡ 7) }
    ensures places { IfOk result (λ kinds. (k : ℕ) (key : List ℕ) → k < 7
        → number_at kinds.items k key
        ≡ direct (kind_names (map (λ k. k.items) scripts.now) (map (λ k. k.items) breaks.now) k)
        key) }
{
    let mut kinds = Vec::new(alloc);
    let mut kind = 0;
    'kinds: while kind < KINDS {
        let names = kind_names(alloc, kind, scripts, breaks)?;
        kinds.push(places_of_table(alloc, names.as_slice())?)?;
        kind += 1;
    }
    Ok(kinds)
}
