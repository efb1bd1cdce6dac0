//! Normalisation forms, quick checks, and the rules that a valid release keeps.

ghost use Rattle.std.specs.Prelude.{◌≡◌};

use std::error::Error;
use std::fmt;
use ucd_points::{Memory, Point};

/// A normalisation form. UAX #15, section 1.2.
#[derive(Clone, Copy, Debug, PartialEq, Eq)]
pub enum Form {
    /// Normalisation Form D: canonical decomposition.
    Nfd,
    /// Normalisation Form C: canonical decomposition, then composition.
    Nfc,
    /// Normalisation Form KD: compatibility decomposition.
    Nfkd,
    /// Normalisation Form KC: compatibility decomposition, then composition.
    Nfkc,
}

/// The value of a quick check. UAX #15, section 9.
#[derive(Clone, Copy, Debug, PartialEq, Eq)]
pub enum Quick {
    /// The code point can stand in the form.
    Yes,
    /// The code point cannot stand in the form.
    No,
    /// Of NFC and NFKC: the code point can stand in the form, unless it is composed with one before it.
    Maybe,
}

/// A rule of a valid release that a code point breaks. The rules are tested in this order.
#[derive(Clone, Copy, Debug, PartialEq, Eq)]
pub enum Bad {
    /// A member of one of its mappings has no row in UnicodeData.txt. A mapping that is the point itself alone is not
    /// looked at.
    V1,
    /// One of its expansions needs a chain of eight mappings or more, or one without end.
    V2,
    /// One of its expansions has more than 64 code points.
    V3,
    /// It is a primary composite, and a lesser primary composite has the same mapping.
    V4,
    /// By one of the two foldings, none of the lists after 0 to 7 rounds, of up to 255 code points each, stays as it is
    /// in one more round.
    V5,
}

/// A code point that breaks a rule, and the first rule that it breaks.
#[derive(Clone, Copy, Debug, PartialEq, Eq)]
pub struct Broken {
    /// The code point.
    pub point: Point,
    /// The first rule that it breaks, in the order of `Bad`.
    pub rule: Bad,
}

/// Why a form was not made.
#[derive(Clone, Copy, Debug, PartialEq, Eq)]
pub enum FormStop {
    /// A code point breaks this rule.
    Bad(Bad),
    /// Memory ran out.
    Memory,
}

/// Running out of memory is `FormStop::Memory`.
impl From<Memory> for FormStop {
    ghost use Rattle.ucd_facts.specs.declared.form.FormStop.TheVariants.{Memory};

    ghost from_gives = { λ _ e. e ≡ Memory };

    fn from(_e: Memory) -> FormStop {
        FormStop::Memory
    }
}

/// A few words on the rule, or `out of memory`.
impl fmt::Display for FormStop {
    fn fmt<W: fmt::Write>(&self, f: &mut fmt::Formatter<W>) -> fmt::Result {
        f.write_str(match self {
            FormStop::Bad(Bad::V1) => "a mapping has a code point without a row",
            FormStop::Bad(Bad::V2) => "an expansion needs a chain of eight mappings or more",
            FormStop::Bad(Bad::V3) => "an expansion has more than 64 code points",
            FormStop::Bad(Bad::V4) => "a lesser primary composite has the same mapping",
            FormStop::Bad(Bad::V5) => "folding rounds reach no fixed point",
            FormStop::Memory => "out of memory",
        })
    }
}

impl Error for FormStop {}
