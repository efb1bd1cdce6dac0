//! Numbers by what counts of names.

ghost use Rattle.std.specs.Str.{bytes_eq};
ghost use Rattle.std.specs.Prelude.{◌≡◌, cond, Some, None, List, ℕ, OnOk, OnErr};
ghost use Rattle.property_aliases.specs.Loose.{is_name, loose};
ghost use Rattle.property_aliases.specs.NumberMaps.{number_in};
ghost use Rattle.property_aliases.specs.ResolvingLaws.{least};

use crate::loose::loose;
use crate::loose_name::LooseName;
use indexmap::IndexMap;
use std::alloc::Global;
use ucd_facts::Memory;

/// A number for each of some names, which are told by what counts of them.
#[derive(Drop)]
pub(crate) struct NumberMap {
    map: IndexMap<LooseName<'static>, usize>,
}

impl NumberMap {
    /// No name has a number. It takes no memory.
    pub(crate) fn new(alloc: Global) -> NumberMap
        ensures { (key : List ℕ) → number_in result key ≡ None }
    {
        NumberMap {
            map: IndexMap::new(alloc),
        }
    }

    /// The number of a name, by what counts of it.
    pub(crate) fn find(&self, name: &[u8]) -> Option<usize>
        ensures { result ≡ number_in self.now (loose name.now) }
    {
        self.map.get(&LooseName::Asked(name)).copied()
    }

    /// Gives a name the number in place of the one that it had.
    ///
    /// - `Memory`: memory ran out.
    fn put_name(&mut self, number: usize, name: Vec<u8>) -> Result<(), Memory>
        ensures { OnOk result ((key : List ℕ)
            → number_in self.new key
            ≡ cond (bytes_eq key (loose name.items)) (Some number) (number_in self.old key)) }
    {
        self.map.insert(LooseName::Kept(name), number)?;
        Ok(())
    }

    /// Gives the number to a name, unless it has a lesser one. A name of which nothing counts gets none.
    ///
    /// - `Memory`: memory ran out.
    pub(crate) fn put(&mut self, alloc: Global, number: usize, name: &[u8]) -> Result<(), Memory>
        ensures { OnOk result ((key : List ℕ)
            → number_in self.new key
            ≡ least (number_in self.old key) (cond (is_name key name.now) (Some number) None)) }
    {
        let key = loose(alloc, name)?;
        if key.is_empty() {
            return Ok(());
        }
        let number = lesser(self.find(name), number);
        self.put_name(number, key)
    }
}

/// The lesser of two numbers, the first of which may be missing.
fn lesser(old: Option<usize>, number: usize) -> usize
    ensures { least old (Some number) ≡ Some result }
{
    match old {
        Some(old) => old.min(number),
        None => number,
    }
}
