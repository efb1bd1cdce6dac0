//! Why a question of a set is refused.

use unicodeset_eval::NameRule;
use unicodeset_parser::SetRule;

/// The rule that a question breaks. UTS #35, "Unicode Sets".
#[derive(Clone, Copy, Debug, PartialEq, Eq)]
pub enum AskRule {
    /// The text is no set.
    Text(SetRule),
    /// A name in it means nothing.
    Name(NameRule),
}

/// Why a question is refused.
#[derive(Clone, Copy, Debug, PartialEq, Eq)]
pub struct AskFault {
    /// The rule that it breaks. A rule of the text comes before a rule of a name.
    pub rule: AskRule,
    /// The place in the text, in bytes counted from 0.
    pub at: usize,
}

/// Why a question has no answer.
#[derive(Clone, Copy, Debug, PartialEq, Eq)]
pub enum AskStop {
    /// It is refused.
    Fault(AskFault),
    /// Memory ran out.
    Memory,
}
