//! What `check` tells of refused commands and of broken policies.

ghost use Rattle.std.specs.Prelude.{◌≡◌, ◌++◌, OnOk, count_by};
ghost use Rattle.stability_policies.specs.Reports.{is_of};
ghost use Rattle.ucdshop_look_core.specs.Checks.{broken_line, broken_text, refusal_line, refusals, tells_refusal};

use stability_policies::{Breaks, Policy};
use std::alloc::Global;
use ucd_lines::{cut, items, put_decimal};
use ucd_model::{Memory, Text};

/// Puts the lines of a log that tell of refused commands.
///
/// - `Memory`: memory ran out. A part of them may stand at the end of the text then.
pub fn put_refusals(log: &[u8], text: &mut Text) -> Result<(), Memory>
    ensures { OnOk result (text.new ≡ text.old ++ refusals log.now) }
{
    'lines: for line in items(log) {
        put_refusal_line(line.content, text)?;
    }
    Ok(())
}

/// Puts a line of a log, if it tells of a refused command.
fn put_refusal_line(line: &[u8], text: &mut Text) -> Result<(), Memory>
    ensures { OnOk result (text.new ≡ text.old ++ refusal_line line.now) }
{
    if tells_refusal(line) {
        text.append(line)?;
        text.append(b"\n")?;
    }
    Ok(())
}

/// Whether a line of a log tells of a refused command: behind the number of the command's line stands `refused`.
fn tells_refusal(line: &[u8]) -> bool
    ensures { result ≡ tells_refusal line.now }
{
    let (_number, said) = cut(line, b' ');
    said.starts_with(b"refused ")
}

/// Puts a line for each policy that is broken: its code, and how many breaks it has.
///
/// - `Memory`: memory ran out. A part of them may stand at the end of the text then.
pub fn put_broken(alloc: Global, breaks: &Breaks, text: &mut Text) -> Result<(), Memory>
    ensures { OnOk result (text.new ≡ text.old ++ broken_text breaks.now) }
{
    'policies: for policy in Policy::all() {
        put_policy(alloc, breaks, *policy, text)?;
    }
    Ok(())
}

/// Puts the line of a policy, if it is broken.
fn put_policy(alloc: Global, breaks: &Breaks, policy: Policy, text: &mut Text) -> Result<(), Memory>
    ensures { OnOk result (text.new ≡ text.old ++ broken_line breaks.now policy) }
{
    let count = breaks_of(breaks, policy);
    if count > 0 {
        text.append(policy.code())?;
        text.append(b" ")?;
        put_decimal(alloc, count, text)?;
        text.append(b"\n")?;
    }
    Ok(())
}

/// How many breaks a policy has.
fn breaks_of(breaks: &Breaks, policy: Policy) -> usize
    ensures { result ≡ count_by (is_of policy) breaks.now }
{
    breaks.as_slice().iter().filter(|b| b.is_of(policy)).count()
}
