//! The names of a release.

ghost use Rattle.std.specs.Prelude.{◌≡◌, map, slice_get, IfOk, OnOk};
ghost use Rattle.std.specs.Option.{option_map};
ghost use Rattle.property_aliases.specs.Edits.{AreKeptBut};
ghost use Rattle.property_aliases.specs.Found.{AreAliasesOf, breaks_in, listed_in, lone_in, lone_key_in, property_in, property_key_in, scripts_in, value_in, value_key_in};
ghost use Rattle.property_aliases.specs.Loose.{loose};
ghost use Rattle.property_aliases.specs.Numbers.{AreNumbersOf};
ghost use Rattle.property_aliases.specs.Sources.{sources_of};
ghost use Rattle.property_aliases.specs.Values.{binary};
ghost use Rattle.release_rows.specs.Releases.{rows_now};

use crate::edited::Edited;
use crate::indexing::{index_in, property_by};
use crate::loose::without_is;
use crate::meaning::{any_ascii_or_assigned, binary, test_at};
use crate::places::Places;
use crate::property::{Property, Test};
use crate::value_numbers::ValueNumbers;
use release_rows::Release;
use std::alloc::Global;
use ucd_facts::Memory;

/// What the names of properties and of their values mean by the rows of a release.
#[derive(Drop)]
pub struct Aliases {
    pub(crate) numbers: ValueNumbers,
    pub(crate) places: Places,
}

impl Aliases {
    /// What names mean by the rows of a release now. UAX #44, section 5.8.
    ///
    /// - `Memory`: memory ran out.
    pub fn of(alloc: Global, release: &Release) -> Result<Aliases, Memory>
        ensures aliases { IfOk result (λ aliases. AreAliasesOf aliases (sources_of release.now)) }
        ensures numbers { IfOk result
            (λ aliases. AreNumbersOf aliases.numbers (rows_now release.now)) }
    {
        let numbers = ValueNumbers::of(alloc, release)?;
        Aliases::with_numbers(alloc, release, numbers)
    }

    /// What names mean by the rows of a release now, and by the numbers of the values that the rows give. UAX #44, section 5.8.
    ///
    /// - `Memory`: memory ran out.
    fn with_numbers(
        alloc: Global,
        release: &Release,
        numbers: ValueNumbers,
    ) -> Result<Aliases, Memory>
        requires { AreNumbersOf numbers (rows_now release.now) }
        ensures aliases { IfOk result (λ aliases. AreAliasesOf aliases (sources_of release.now)) }
        ensures numbers { IfOk result
            (λ aliases. AreNumbersOf aliases.numbers (rows_now release.now)) }
    {
        let places = Places::of(alloc, release, &numbers)?;
        Ok(Aliases { numbers, places })
    }

    /// What names mean by the rows of a release now, if these are the names by rows of which only the edited files have others.
    /// Only the rows of edited files are read, and those of alias files only if another name is numbered.
    ///
    /// - `Memory`: memory ran out.
    pub fn renewed(
        self,
        alloc: Global,
        release: &Release,
        edited: Edited,
    ) -> Result<Aliases, Memory>
        requires { AreKeptBut self edited (rows_now release.now) }
        ensures aliases { IfOk result (λ aliases. AreAliasesOf aliases (sources_of release.now)) }
        ensures numbers { IfOk result
            (λ aliases. AreNumbersOf aliases.numbers (rows_now release.now)) }
    {
        let mut aliases = self;
        aliases.renew(alloc, release, edited)?;
        Ok(aliases)
    }

    /// Makes names mean what they mean by the rows of a release now.
    ///
    /// - `Memory`: memory ran out. Nothing is then known of the names.
    fn renew(&mut self, alloc: Global, release: &Release, edited: Edited) -> Result<(), Memory>
        requires { AreKeptBut self.old edited (rows_now release.now) }
        ensures aliases { OnOk result (AreAliasesOf self.new (sources_of release.now)) }
        ensures numbers { OnOk result (AreNumbersOf self.new.numbers (rows_now release.now)) }
    {
        let same = self.numbers.renew_and_compare(alloc, release, edited)?;
        if same && !edited.aliases {
            return Ok(());
        }
        self.places = Places::of(alloc, release, &self.numbers)?;
        Ok(())
    }

    /// The values that rows give, by the numbers that the tests have.
    pub fn numbers(&self) -> &ValueNumbers
        ensures { result.now ≡ self.now.numbers }
    {
        &self.numbers
    }

    /// The property that a name names as it is.
    fn property_by_whole_name(&self, name: &[u8]) -> Option<Property>
        ensures { result ≡ property_key_in self.now (loose name.now) }
    {
        Some(property_by(index_in(&self.places.properties, name)?))
    }

    /// The test that a name means as a value of a property, as it is.
    fn value_by_whole_name(&self, property: Property, name: &[u8]) -> Option<Test>
        ensures { result ≡ value_key_in self.now property (loose name.now) }
    {
        test_at(property, self.places.values.find(property, name)?)
    }

    /// The test that a name means alone, as it is.
    fn lone_by_whole_name(&self, name: &[u8]) -> Option<Test>
        ensures { result ≡ lone_key_in self.now (loose name.now) }
    {
        if let Some(test) = self.value_by_whole_name(Property::Category, name) {
            return Some(test);
        }
        if let Some(test) = self.value_by_whole_name(Property::Script, name) {
            return Some(test);
        }
        match self.binary_by_whole_name(name) {
            Some(test) => Some(test),
            None => any_ascii_or_assigned(name),
        }
    }

    /// The test for code points that have the property that a name names as it is.
    fn binary_by_whole_name(&self, name: &[u8]) -> Option<Test>
        ensures { result ≡ binary (property_key_in self.now (loose name.now)) }
    {
        binary(self.property_by_whole_name(name)?)
    }

    /// The property that a name names, by loose matching; `None` if it names none. If the name as it is names none,
    /// and begins with `is`, what follows is tried. UAX #44, sections 5.8 and 5.9.3.
    pub fn property(&self, name: &[u8]) -> Option<Property>
        ensures { result ≡ property_in self.now name.now }
    {
        if let Some(property) = self.property_by_whole_name(name) {
            return Some(property);
        }
        self.property_by_whole_name(without_is(name)?)
    }

    /// The test that a name means as a value of a property, by loose matching; `None` if it names no value of it. If
    /// the name as it is names none, and begins with `is`, what follows is tried. UAX #44, sections 5.7, 5.8 and 5.9.3.
    pub fn value(&self, property: Property, name: &[u8]) -> Option<Test>
        ensures { result ≡ value_in self.now property name.now }
    {
        if let Some(test) = self.value_by_whole_name(property, name) {
            return Some(test);
        }
        self.value_by_whole_name(property, without_is(name)?)
    }

    /// The test that a name means if it stands alone: a General_Category or a group of them, else a Script, else a
    /// property that code points have or have not, else Any, ASCII or Assigned; `None` if it means none. If the name
    /// as it is means none, and begins with `is`, what follows is tried. UTS #35, "Unicode Sets".
    pub fn lone(&self, name: &[u8]) -> Option<Test>
        ensures { result ≡ lone_in self.now name.now }
    {
        if let Some(test) = self.lone_by_whole_name(name) {
            return Some(test);
        }
        self.lone_by_whole_name(without_is(name)?)
    }

    /// The name in PropList.txt of the listed property with this number; `None` if the number is not used.
    pub fn listed_name(&self, number: u64) -> Option<&[u8]>
        ensures { option_map (λ n. n.now) result ≡ slice_get (listed_in self.now) number }
    {
        name_at(self.numbers.listed.names.as_slice(), number)
    }

    /// The script with this number; 0 is Unknown. `None` if the number is not used.
    pub fn script_name(&self, number: u64) -> Option<&[u8]>
        ensures { option_map (λ n. n.now) result ≡ slice_get (scripts_in self.now) number }
    {
        name_at(self.numbers.scripts.names.as_slice(), number)
    }

    /// The word break with this number; 0 is Other. `None` if the number is not used.
    pub fn break_name(&self, number: u64) -> Option<&[u8]>
        ensures { option_map (λ n. n.now) result ≡ slice_get (breaks_in self.now) number }
    {
        name_at(self.numbers.breaks.names.as_slice(), number)
    }
}

/// The name with this number.
fn name_at(names: &[Vec<u8>], number: u64) -> Option<&[u8]>
    ensures { option_map (λ n. n.now) result ≡ slice_get (map (λ k. k.items) names.now) number }
{
    let index = number as usize;
    if index < names.len() {
        Some(names[index].as_slice())
    } else {
        None
    }
}
