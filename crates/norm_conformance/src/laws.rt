//! Laws on NormalizationTest.txt: each function here does nothing, and its contract is a law.

ghost use Rattle.norm_conformance.specs.Grammar.{CasesAreRead, FaultsAreFirst, LinesAreRead};

/// A line is passed over, names a part or is a case exactly if the grammar of the file says so.
pub fn lines_are_read()
    ensures { LinesAreRead }
{}

/// A file has cases exactly if its lines hold them: lines that are passed over, lines of a part, and cases, each in the part
/// of the last such line before it; and the cases tell whether `@Part1` is among the lines.
pub fn cases_are_read()
    ensures { CasesAreRead }
{}

/// A file is refused exactly by its first fault: the first line that breaks a rule, with the first rule that it breaks.
pub fn faults_are_first()
    ensures { FaultsAreFirst }
{}
