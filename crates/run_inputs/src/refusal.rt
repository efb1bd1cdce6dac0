//! Why what was read is refused.

use release_rows::LoadRule;
use script_lines::ScriptRule;
use ucd_model::{Broken, Memory, SourceFile};

/// Why a folder of source files is refused. It does not know the folder: its line names it.
#[derive(Clone, Copy, Debug, PartialEq, Eq)]
pub enum FolderRefusal {
    /// A source file is not there.
    NoFile(SourceFile),
    /// A source file breaks a rule.
    FileLine {
        /// The file.
        file: SourceFile,
        /// The first line that breaks a rule, counted from 1; 0 for the file as a whole.
        line: u32,
        /// The first rule that it breaks.
        rule: LoadRule,
    },
    /// The release is not valid: the least code point that breaks a rule of a valid release, with its first rule.
    Point(Broken),
}

/// The rule that a file as a whole breaks.
#[derive(Clone, Copy, Debug, PartialEq, Eq)]
pub enum FileRule {
    /// It is not there.
    G01,
    /// It is longer than a file may be.
    G02,
}

/// Why a script is refused.
#[derive(Clone, Copy, Debug, PartialEq, Eq)]
pub enum ScriptRefusal {
    /// Its file breaks a rule as a whole.
    Whole(FileRule),
    /// A line breaks a rule.
    Line {
        /// The first line that breaks a rule, counted from 1.
        line: u32,
        /// The first rule that it breaks.
        rule: ScriptRule,
    },
}

/// Why a folder has no bench.
#[derive(Clone, Copy, Debug, PartialEq, Eq)]
pub enum FolderStop {
    /// It is refused.
    Refused(FolderRefusal),
    /// Memory ran out.
    Memory,
}

/// Running out of memory is `FolderStop::Memory`.
impl From<Memory> for FolderStop {
    ghost use Rattle.std.specs.Prelude.{◌≡◌};
    ghost use Rattle.run_inputs.specs.declared.refusal.FolderStop.TheVariants.{Memory};

    ghost from_gives = { λ _ e. e ≡ Memory };

    fn from(_e: Memory) -> FolderStop {
        FolderStop::Memory
    }
}
