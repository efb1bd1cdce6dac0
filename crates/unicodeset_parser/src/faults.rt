//! The rule that a token breaks which may stand in no text. It depends on the place where the token stands.

ghost use Rattle.std.specs.Prelude.{◌≡◌, ℕ};
ghost use Rattle.unicodeset_parser.specs.Machine.{fault, set_fault, element_fault, range_fault, late_fault};
ghost use Rattle.unicodeset_parser.specs.Parsed.{stop_of};

use crate::stop::{SetRule, SetStop};
use crate::token::BadToken;

/// The fault of a rule at a place.
pub(crate) fn fault(rule: SetRule, at: usize) -> SetStop
    ensures { result ≡ stop_of (fault rule at) }
{
    SetStop::Fault { rule, at }
}

/// Where a set is due: at the beginning of the text, which is `end` bytes long, and behind an operator.
pub(crate) fn set_fault(end: usize, at: usize, wrong: BadToken) -> SetStop
    ensures { result ≡ stop_of (set_fault end at wrong) }
{
    match wrong {
        BadToken::Unclosed | BadToken::Cut => fault(SetRule::S2, end),
        BadToken::RefusedName | BadToken::CharacterName => fault(SetRule::S7, at),
        BadToken::BadEscape => fault(SetRule::S5, at),
        BadToken::Special | BadToken::Other => fault(SetRule::S3, at),
    }
}

/// Where an element is due.
pub(crate) fn element_fault(end: usize, at: usize, wrong: BadToken) -> SetStop
    ensures { result ≡ stop_of (element_fault end at wrong) }
{
    match wrong {
        BadToken::Special => fault(SetRule::S7, at),
        _ => set_fault(end, at, wrong),
    }
}

/// Where the last character of a range is due. No set may stand here, so that no name is looked at.
pub(crate) fn range_fault(end: usize, at: usize, wrong: BadToken) -> SetStop
    ensures { result ≡ stop_of (range_fault end at wrong) }
{
    match wrong {
        BadToken::Cut => fault(SetRule::S2, end),
        BadToken::CharacterName => fault(SetRule::S7, at),
        BadToken::BadEscape => fault(SetRule::S5, at),
        _ => fault(SetRule::S3, at),
    }
}

/// The fault of such a token after the whole set: nothing may stand there, so no name is looked at.
pub(crate) fn late_fault(at: usize, wrong: BadToken) -> SetStop
    ensures { result ≡ stop_of (late_fault at wrong) }
{
    match wrong {
        BadToken::CharacterName => fault(SetRule::S7, at),
        BadToken::BadEscape => fault(SetRule::S5, at),
        _ => fault(SetRule::S3, at),
    }
}
