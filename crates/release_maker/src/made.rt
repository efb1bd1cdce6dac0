//! A release that is made from a number.

ghost use Rattle.std.specs.Prelude.{◌≡◌, ◌≤◌, IfOk};
ghost use Rattle.release_maker.specs.MadeTexts.{source_text, script_text};

use crate::texts::{data_text, script_text};
use std::alloc::Global;
use std::marker::Model;
use ucd_model::{Memory, SourceFile, Text};

/// The texts of a release that was made from a number, and a script for it. Contracts see the number.
#[derive(Debug, Drop)]
pub struct Made {
    number: u8,
    unicode_data: Text,
    script: Text,
}

impl Model for Made {
    ghost use Rattle.std.specs.Prelude.{◌≡◌, ◌*◌, ℕ};
    ghost use Rattle.release_maker.specs.MadeTexts.{data_text, script_text};

    ghost Value = { ℕ };

    ghost view = { λ m. m.number };

    ghost invariant = { λ m. (m.unicode_data ≡ data_text (1000 * m.number)) × (m.script ≡ script_text) };
}

/// Makes the release of a number, and its script. UnicodeData.txt has a mark, and then 1000 times the number of rows in each of
/// three series: without a mapping, with a canonical and with a compatibility mapping. The script adds 1000 foldings, one in
/// each command.
///
/// - `Memory`: memory ran out.
pub fn make(alloc: Global, number: u8) -> Result<Made, Memory>
    requires least { 1 ≤ number }
    requires most { number ≤ 50 }
    ensures { IfOk result (λ made. made ≡ number) }
{
    let unicode_data = data_text(alloc, 1000 * number as u32)?;
    let script = script_text(alloc)?;
    Ok(Made {
        number,
        unicode_data,
        script,
    })
}

impl Made {
    /// The text of a source file. All but UnicodeData.txt are empty.
    pub fn text(&self, file: SourceFile) -> &[u8]
        ensures { result.now ≡ source_text self.now file }
    {
        match file {
            SourceFile::UnicodeData => self.unicode_data.as_slice(),
            _ => &[],
        }
    }

    /// The text of the script.
    pub fn script(&self) -> &[u8]
        ensures { result.now ≡ script_text }
    {
        self.script.as_slice()
    }
}
