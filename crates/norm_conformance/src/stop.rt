//! Why a text is no NormalizationTest.txt.

ghost use Rattle.std.specs.Prelude.{◌≡◌};

use thiserror::Error;
use ucd_model::Memory;

/// The rule that a line breaks. On one line they are tested in this order.
#[derive(Clone, Copy, Debug, PartialEq, Eq, Drop, Error)]
pub enum CaseRule {
    /// There are not five fields, or five fields and an empty one.
    #[error("the line has not five fields")]
    N1,
    /// One of the five fields is not one to 64 code points.
    #[error("a field is not one to 64 code points")]
    N2,
    /// The line begins with `@`, and is not `@Part` and a digit.
    #[error("the line names no part")]
    N3,
}

/// Why there are no cases.
#[derive(Clone, Copy, Debug, PartialEq, Eq, Drop, Error)]
pub enum CaseStop {
    /// The first line that breaks a rule, counted from 1, and the first rule that it breaks.
    #[error("line {line}: {rule}")]
    Fault { line: u32, rule: CaseRule },
    /// Memory ran out.
    #[error("out of memory")]
    Memory,
}

/// Running out of memory is `CaseStop::Memory`.
impl From<Memory> for CaseStop {
    ghost use Rattle.norm_conformance.specs.declared.stop.CaseStop.TheVariants.{Memory};

    ghost from_gives = { λ _ e. e ≡ Memory };

    fn from(_e: Memory) -> CaseStop {
        CaseStop::Memory
    }
}
