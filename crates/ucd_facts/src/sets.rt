//! Sets of properties, each in one word.

ghost use Rattle.std.specs.Prelude.{◌≡◌, ◌≢◌, ◌<◌, ◌^◌, false, IsTrue};
ghost use Rattle.std.specs.Bool.{Decides};
ghost use Rattle.ucd_facts.specs.Sets.{flag_place, has_flag, core_place, has_core};
ghost use Rattle.ucd_facts.specs.declared.property.Flag.{Flag};
ghost use Rattle.ucd_facts.specs.declared.property.Core.{Core};

use crate::bits::{has_bit, with_bit};
use crate::property::{Core, Flag};
use std::marker::Model;

/// A set of the properties of PropList.txt: bit `i` is the flag at place `i` of `Flag`.
#[derive(Clone, Copy, Debug, PartialEq, Eq)]
pub struct Flags {
    bits: u32,
}

impl Model for Flags {
    ghost use Rattle.std.specs.Prelude.{ℕ, ◌<◌, ◌^◌};

    ghost Value = { ℕ };

    ghost view = { λ s. s.bits };

    ghost invariant = { λ s. s.bits < 2 ^ 14 };

    ghost inverse = { λ n. record { bits = n } };
}

impl Flags {
    /// The empty set.
    pub fn none() -> Flags
        ensures { (flag : Flag) → has_flag result flag ≡ false }
    {
        Flags { bits: 0 }
    }

    /// The set of these bits: bit `i` is the flag at place `i` of `Flag`, from 0 to 13, and no other bit is 1.
    pub fn of_bits(bits: u32) -> Flags
        requires { bits < 2 ^ 14 }
        ensures { result ≡ bits }
    {
        Flags { bits }
    }

    /// The set with a flag put in or taken out. The others stay.
    pub fn with(self, flag: Flag, on: bool) -> Flags
        ensures put { has_flag result flag ≡ on }
        ensures rest { (other : Flag) → flag_place other ≢ flag_place flag
            → has_flag result other ≡ has_flag self other }
    {
        Flags {
            bits: with_bit(self.bits, flag_place(flag), on),
        }
    }

    /// Whether a flag is in the set.
    pub fn has(self, flag: Flag) -> bool
        ensures { result ≡ has_flag self flag }
    {
        has_bit(self.bits, flag_place(flag))
    }

    /// Whether two sets have the same flags.
    #[tactic(auto, using(crate::specs::SetProofs::flag_sets_are_told))]
    pub fn is_same(self, other: Flags) -> bool
        ensures equal { IsTrue result → self ≡ other }
        ensures told { Decides result ((flag : Flag) → has_flag self flag ≡ has_flag other flag) }
    {
        self.bits == other.bits
    }
}

/// A set of core properties: bit `i` is the property at place `i` of `Core`.
#[derive(Clone, Copy, Debug, PartialEq, Eq)]
pub struct CoreSet {
    bits: u32,
}

impl Model for CoreSet {
    ghost use Rattle.std.specs.Prelude.{ℕ, ◌<◌, ◌^◌};

    ghost Value = { ℕ };

    ghost view = { λ s. s.bits };

    ghost invariant = { λ s. s.bits < 2 ^ 19 };

    ghost inverse = { λ n. record { bits = n } };
}

impl CoreSet {
    /// The empty set.
    pub fn none() -> CoreSet
        ensures { (core : Core) → has_core result core ≡ false }
    {
        CoreSet { bits: 0 }
    }

    /// The set with a property put in or taken out. The others stay.
    pub fn with(self, core: Core, on: bool) -> CoreSet
        ensures put { has_core result core ≡ on }
        ensures rest { (other : Core) → core_place other ≢ core_place core
            → has_core result other ≡ has_core self other }
    {
        CoreSet {
            bits: with_bit(self.bits, core_place(core), on),
        }
    }

    /// Whether a property is in the set.
    pub fn has(self, core: Core) -> bool
        ensures { result ≡ has_core self core }
    {
        has_bit(self.bits, core_place(core))
    }

    /// Whether two sets have the same core properties.
    #[tactic(auto, using(crate::specs::SetProofs::core_sets_are_told))]
    pub fn is_same(self, other: CoreSet) -> bool
        ensures equal { IsTrue result → self ≡ other }
        ensures told { Decides result ((core : Core) → has_core self core ≡ has_core other core) }
    {
        self.bits == other.bits
    }
}

/// The place of a flag in the order of `Flag`.
fn flag_place(flag: Flag) -> u32
    ensures value { result ≡ flag_place flag }
    ensures below { result < 14 }
{
    flag as u32
}

/// The place of a core property in the order of `Core`.
fn core_place(core: Core) -> u32
    ensures value { result ≡ core_place core }
    ensures below { result < 19 }
{
    core as u32
}
