//! Reads a text.

ghost use Rattle.std.specs.Prelude.{◌≡◌, ◌<◌, ◌≤◌, length};
ghost use Rattle.unicodeset_parser.specs.Lexing.{tokens};
ghost use Rattle.unicodeset_parser.specs.Machine.{before, run};
ghost use Rattle.unicodeset_parser.specs.Parsed.{parsed, Gives};
ghost use Rattle.unicodeset_parser.specs.StateViews.{state_view};
ghost use Rattle.unicodeset_parser.specs.Views.{tree_view};

use crate::blank::first_blank_size;
use crate::bytes::bytes_behind;
use crate::expr::Expr;
use crate::faults::fault;
use crate::lexing::first_token;
use crate::machine::{finished, step};
use crate::state::State;
use crate::stop::{SetRule, SetStop};
use std::alloc::Global;
use std::str;

/// The tree of the tokens of a text that is UTF-8.
fn tree_of(alloc: Global, text: &[u8]) -> Result<Expr, SetStop>
    ensures { Gives tree_view result (run (length text.now) before (tokens 0 0 text.now)) }
{
    let mut state = State::Before;
    let mut rest = text;
    'tokens: while !rest.is_empty() {
        let blanks = first_blank_size(rest);
        if blanks > 0 {
            rest = bytes_behind(rest, blanks);
        } else {
            let at = text.len() - rest.len();
            let lexeme = first_token(alloc, at, rest)?;
            rest = bytes_behind(rest, lexeme.size.max(1));
            state = match step(alloc, text.len(), state, at, lexeme.token) {
                Ok(next) => next,
                Err(stop) => return Err(stop),
            };
        }
    }
    finished(text.len(), state)
}

/// The tree of a text. UTS #35, "Unicode Sets".
///
/// - `Fault`: the text is no set. The fault is the one with the least place, S1 before all others.
/// - `Memory`: memory ran out.
#[tactic(auto, unfolding(crate::specs::Parsed::parsed))]
pub fn parse(alloc: Global, text: &[u8]) -> Result<Expr, SetStop>
    ensures { Gives tree_view result (parsed text.now) }
{
    if let Err(end) = str::from_utf8(text) {
        return Err(fault(SetRule::S1, end.valid_up_to()));
    }
    tree_of(alloc, text)
}
