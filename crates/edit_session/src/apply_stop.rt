//! Why a group is not carried out.

ghost use Rattle.std.specs.Prelude.{◌≡◌};

use record_turns::AgainStop;
use release_rows::KeyRule;
use ucd_model::{Bad, Memory, Point};

/// The rule that refuses a group of operations.
#[derive(Clone, Copy, Debug, PartialEq, Eq, Drop)]
pub enum Refused {
    /// An operation breaks a rule on keys and spans.
    Key {
        /// The rule.
        rule: KeyRule,
        /// The first such operation, counted from 1.
        op: u32,
    },
    /// The rows after all operations are not valid.
    Valid {
        /// The first rule that the code point breaks, in the order of `Bad`.
        rule: Bad,
        /// The least code point that breaks a rule.
        point: Point,
    },
}

/// Why a group of operations is not carried out.
#[derive(Clone, Copy, Debug, PartialEq, Eq, Drop)]
pub enum ApplyStop {
    /// The group breaks a rule.
    Refused(Refused),
    /// Memory ran out.
    Memory,
}

/// Running out of memory is `ApplyStop::Memory`.
impl From<Memory> for ApplyStop {
    ghost use Rattle.edit_session.specs.declared.apply_stop.ApplyStop.TheVariants.{Memory};

    ghost from_gives = { λ _ e. e ≡ Memory };

    fn from(_e: Memory) -> ApplyStop {
        ApplyStop::Memory
    }
}

/// Facts that are not valid refuse the group.
impl From<AgainStop> for ApplyStop {
    ghost use Rattle.edit_session.specs.Groups.{refused_by};

    ghost from_gives = { λ stop e. e ≡ refused_by stop };

    fn from(stop: AgainStop) -> ApplyStop {
        match stop {
            AgainStop::Broken { rule, point } => ApplyStop::Refused(Refused::Valid { rule, point }),
            AgainStop::Memory => ApplyStop::Memory,
        }
    }
}
