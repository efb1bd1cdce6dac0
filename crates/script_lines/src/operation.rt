//! Reads the operation of a line.

ghost use Rattle.std.specs.Prelude.{◌≡◌, ◌+◌, ◌<◌, ◌^◌, IfOk};
ghost use Rattle.std.specs.Option.{option_map};
ghost use Rattle.script_lines.specs.Scripts.{OpAs, StopsAs, fault_line, is_last_fault, key_op, op_of, row_op, row_text};
ghost use Rattle.script_lines.specs.declared.stop.ScriptRule.TheVariants.{E6};

use crate::line::{Put, text_behind_last};
use crate::stop::{ScriptRule, ScriptStop};
use release_rows::Op;
use source_rows::{RowFault, RowStop, read_key, read_row, read_row_ref};
use std::alloc::Global;
use ucd_facts::{Memory, Row, SourceFile, Text};

/// What a row is read from: LINE; and, if the next line is a `last` line, a LF and the LINE of that one behind it.
fn row_text(alloc: Global, text: &[u8], next: Option<&[u8]>) -> Result<Text, Memory>
    ensures { IfOk result (λ bytes. bytes
        ≡ row_text text.now (option_map (λ n. n.now) next.entry)) }
{
    let mut bytes = Text::new(alloc);
    bytes.append(text)?;
    if let Some(next) = next {
        if let Some(last) = text_behind_last(next) {
            bytes.push(b'\n')?;
            bytes.append(last)?;
        }
    }
    Ok(bytes)
}

/// Whether a fault is that of the second line of a range.
fn is_fault_of_last_line(
    file: SourceFile,
    text: &[u8],
    next: Option<&[u8]>,
    fault: RowFault,
) -> bool
    ensures { result ≡ is_last_fault file text.now (option_map (λ n. n.now) next.entry) fault }
{
    let Some(next) = next else {
        return false;
    };
    if !matches!(fault, RowFault::G04) || text_behind_last(next).is_none() {
        return false;
    }
    matches!(read_row_ref(file, text), Err(RowFault::G09))
}

/// The fault of a row.
fn row_stop(
    line: u32,
    file: SourceFile,
    text: &[u8],
    next: Option<&[u8]>,
    fault: RowFault,
) -> ScriptStop
    requires { line + 1 < 2 ^ 32 }
    ensures { StopsAs result (record {
      line = fault_line line file text.now
          (option_map (λ n. n.now) next.entry) fault;
      rule = E6 fault;
    }) }
{
    let rule = ScriptRule::E6(fault);
    if is_fault_of_last_line(file, text, next, fault) {
        return ScriptStop::Fault {
            line: line + 1,
            rule,
        };
    }
    ScriptStop::Fault { line, rule }
}

/// The operation that puts a row.
fn op_of(put: Put, file: SourceFile, row: Row, bytes: Text) -> Op
    ensures { result ≡ op_of put file row bytes }
{
    match put {
        Put::Add => Op::Add { file, row, bytes },
        Put::Change => Op::Change { file, row, bytes },
    }
}

/// The operation of a line that puts a row.
///
/// - `Fault`: `E6`, if there is no row, with the first rule that it breaks. The line is that of `last` if the fault
///   is that of the second line of a range.
/// - `Memory`: memory ran out.
pub fn row_op(
    alloc: Global,
    line: u32,
    put: Put,
    file: SourceFile,
    text: &[u8],
    next: Option<&[u8]>,
) -> Result<Op, ScriptStop>
    requires { line + 1 < 2 ^ 32 }
    ensures { OpAs result (row_op line put file text.now (option_map (λ n. n.now) next.entry)) }
{
    let bytes = row_text(alloc, text, next)?;
    match read_row(alloc, file, bytes.as_slice()) {
        Ok(row) => Ok(op_of(put, file, row, bytes)),
        Err(RowStop::Fault(fault)) => Err(row_stop(line, file, text, next, fault)),
        Err(RowStop::Memory) => Err(ScriptStop::Memory),
    }
}

/// The operation of a line that takes a row out.
///
/// - `Fault`: `E6`, if there is no key, with the first rule that it breaks.
/// - `Memory`: memory ran out.
pub fn withdraw_op(
    alloc: Global,
    line: u32,
    file: SourceFile,
    text: &[u8],
) -> Result<Op, ScriptStop>
    ensures { OpAs result (key_op line file text.now) }
{
    match read_key(alloc, file, text) {
        Ok(key) => Ok(Op::Withdraw { file, key }),
        Err(RowStop::Fault(fault)) => Err(ScriptStop::Fault {
            line,
            rule: ScriptRule::E6(fault),
        }),
        Err(RowStop::Memory) => Err(ScriptStop::Memory),
    }
}
