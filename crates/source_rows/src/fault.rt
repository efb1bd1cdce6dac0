//! Why bytes are no row.

ghost use Rattle.std.specs.Prelude.{◌≡◌};

use std::alloc::AllocError;

/// The rule of the format that a line breaks. If it breaks several, this is the first: the number of fields, then the
/// fields in order, then `G09`.
#[derive(Clone, Copy, Debug, PartialEq, Eq)]
pub enum RowFault {
    /// The number of fields is wrong, the fourth one of CaseFolding.txt or the sixth one of SpecialCasing.txt is not
    /// empty, or a LF stands elsewhere than behind the first line of a range.
    G03,
    /// No code point or span stands where one is due, or that of the last line of a range is less than that of its
    /// first.
    G04,
    /// The General_Category is unknown, or `Cn`. UAX #44, section 5.7.1.
    G05,
    /// No decimal number from 0 to 254, of one to three digits, stands where one is due.
    G06,
    /// A mapping is bad: its tag is unknown, a simple one is no code point, or another has a word that is none, more
    /// than 64 code points, none behind a tag, or not as many as its status has.
    G07,
    /// The status of a folding is unknown.
    G08,
    /// The line is the first or the last one of a range, and the other one does not stand beside it.
    G09,
    /// A canonical mapping has 3 to 64 code points.
    G10,
    /// No name stands where one is due, or the conditions of a casing have a byte that they may not have.
    G11,
}

/// Why a line was not read.
#[derive(Clone, Copy, Debug, PartialEq, Eq)]
pub enum RowStop {
    /// The line breaks a rule.
    Fault(RowFault),
    /// Memory ran out.
    Memory,
}

/// A broken rule is `RowStop::Fault`.
impl From<RowFault> for RowStop {
    ghost use Rattle.source_rows.specs.declared.fault.RowStop.TheVariants.{Fault};

    ghost from_gives = { λ fault e. e ≡ Fault fault };

    fn from(fault: RowFault) -> RowStop {
        RowStop::Fault(fault)
    }
}

/// Running out of memory, as an allocator reports it, is `RowStop::Memory`.
impl From<AllocError> for RowStop {
    ghost use Rattle.source_rows.specs.declared.fault.RowStop.TheVariants.{Memory};

    ghost from_gives = { λ _ e. e ≡ Memory };

    fn from(_e: AllocError) -> RowStop {
        RowStop::Memory
    }
}

/// Running out of memory is `RowStop::Memory`.
impl From<ucd_facts::Memory> for RowStop {
    ghost use Rattle.source_rows.specs.declared.fault.RowStop.TheVariants.{Memory};

    ghost from_gives = { λ _ e. e ≡ Memory };

    fn from(_e: ucd_facts::Memory) -> RowStop {
        RowStop::Memory
    }
}
