//! Names that are equal if the same counts of them.

ghost use Rattle.std.specs.Prelude.{◌≡◌, fold};
ghost use Rattle.std.specs.Hash as fed;
ghost use Rattle.std.specs.List.{flat_map};
ghost use Rattle.std.specs.Str.{bytes_eq};
ghost use Rattle.std.specs.Cmp.Rules.{comparing};
ghost use Rattle.std.proofs.Common.{ap, rules};
ghost use Rattle.std.proofs.lemmas.Slice.Eq.{bytes_eq-Decides};
ghost use Rattle.property_aliases.specs.Loose.{loose};
ghost use Rattle.property_aliases.specs.LooseNames.{name_bytes};

use crate::loose::{first_loose_byte, is_loosely_same};
use std::hash::{Hash, Hasher};

/// A name, told by what counts of it: a key of a map, in which it is looked up without a copy.
#[derive(Drop)]
pub(crate) enum LooseName<'a> {
    /// A name that is kept. It has only what counts, so to compare with it takes no longer than the other name has bytes.
    Kept(Vec<u8>),
    /// A name that is looked up.
    Asked(&'a [u8]),
}

impl<'a> LooseName<'a> {
    /// The name as it is written.
    fn bytes(&self) -> &[u8]
        ensures { result.now ≡ name_bytes self.now }
    {
        match self {
            LooseName::Kept(name) => name.as_slice(),
            LooseName::Asked(name) => name,
        }
    }
}

impl<'a> PartialEq for LooseName<'a> {
    ghost eq = { λ a b. bytes_eq (loose (name_bytes a)) (loose (name_bytes b)) };

    ghost laws = { Prim.search (comparing, rules) };

    fn eq(&self, other: &LooseName<'a>) -> bool {
        is_loosely_same(self.bytes(), other.bytes())
    }
}

impl<'a> Eq for LooseName<'a> {
    ghost laws = { Prim.search (comparing, rules) };
}

impl<'a> Hash for LooseName<'a> {
    ghost hash_input = { λ name. flat_map fed.u8 (loose (name_bytes name)) };

    ghost respects_eq = { λ a b same. ap (flat_map fed.u8) ((bytes_eq-Decides (loose (name_bytes a)) (loose (name_bytes b))).0 same) };

    fn hash<H: Hasher>(&self, state: &mut H) {
        hash_loose(self.bytes(), state);
    }
}

/// Hashes what counts of a name.
fn hash_loose<H: Hasher>(name: &[u8], state: &mut H)
    ensures { state.new ≡ fold H.write state.old (flat_map fed.u8 (loose name.now)) }
{
    let mut rest = name;
    'bytes: while let Some((byte, behind)) = first_loose_byte(rest) {
        state.write_u8(byte);
        rest = behind;
    }
}
