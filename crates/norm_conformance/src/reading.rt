//! Reads the cases of NormalizationTest.txt.

ghost use Rattle.std.specs.Prelude.{◌≡◌, ◌≤◌, length};
ghost use Rattle.ucd_points.specs.Limits.{file_limit};
ghost use Rattle.norm_conformance.specs.Cases.{CasesAs, LineAs, cases_or_fault};
ghost use Rattle.norm_conformance.specs.Lines.{said};

use crate::case::{CaseList, Cases};
use crate::line::{Line, line_of};
use crate::stop::CaseStop;
use std::alloc::Global;
use ucd_lines::items;

/// The cases of NormalizationTest.txt, in order. The head of that file; UAX #44, section 4.2.
///
/// Lines end by LF or CR LF. Blank lines are skipped, and so are lines whose first byte other than space and tab is
/// `#`. In the others the first `#` and what follows it are cut off, and the line and its fields are trimmed. A line is
/// `@Part` and a digit, which is the part of the lines behind it (before the first one it is 0), or a case: the five
/// columns source, NFC, NFD, NFKC and NFKD, each ended by `;`, which may be missing behind the last one. A column is
/// one to 64 code points between white space.
///
/// - `Fault { line, rule }`: the first line that breaks a rule, and the first rule that it breaks.
/// - `Memory`: memory ran out.
#[tactic(auto, unfolding(crate::specs::Cases::cases_or_fault, ucd_points::specs::Limits::file_limit))]
pub fn read_cases(alloc: Global, bytes: &[u8]) -> Result<Cases, CaseStop>
    requires { length bytes.now ≤ file_limit }
    ensures { CasesAs result (cases_or_fault bytes.now) }
{
    let mut cases = Cases {
        list: CaseList::new(alloc),
        part_one: false,
    };
    let mut part = 0;
    let mut line = 0;
    'lines: for item in items(bytes) {
        line += 1;
        part = put_line(alloc, line, part, item.content, &mut cases)?;
    }
    Ok(cases)
}

/// Puts what a line says to the cases before it. The answer is the part of the lines behind it.
///
/// - `Fault`: the rule that the line breaks.
/// - `Memory`: memory ran out.
fn put_line(
    alloc: Global,
    line: u32,
    part: u8,
    content: &[u8],
    cases: &mut Cases,
) -> Result<u8, CaseStop>
    ensures { LineAs result line part cases.old cases.new (said content.now) }
{
    match line_of(content) {
        Ok(Line::Passed) => Ok(part),
        Ok(Line::Part(next)) => {
            cases.part_one = cases.part_one || next == 1;
            Ok(next)
        }
        Ok(Line::Tested(columns)) => {
            cases.list.push(columns.case(alloc, line, part)?)?;
            Ok(part)
        }
        Err(rule) => Err(CaseStop::Fault { line, rule }),
    }
}
