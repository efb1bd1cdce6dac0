//! The file beside a folder.

ghost use Rattle.std.specs.Option.{option_map};
ghost use Rattle.run_inputs.specs.Judging.{GivesAs};
ghost use Rattle.run_inputs.specs.Verdict.{second_verdict};

use crate::refusal::FileRule;
use ucd_model::file_limit;

/// The bytes of the file beside a folder, given what is held of it.
///
/// - `G01`: it is not there.
/// - `G02`: it is longer than a file may be.
pub fn second_file(held: Option<&[u8]>) -> Result<&[u8], FileRule>
    ensures { GivesAs result (second_verdict (option_map (λ bytes. bytes.now) held.entry)) }
{
    let Some(bytes) = held else {
        return Err(FileRule::G01);
    };
    if bytes.len() > file_limit() {
        return Err(FileRule::G02);
    }
    Ok(bytes)
}
