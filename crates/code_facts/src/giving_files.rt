//! Which files give facts.

ghost use Rattle.std.specs.Prelude.{◌≡◌};
ghost use Rattle.code_facts.specs.Locality.{gives_facts};

use ucd_facts::SourceFile;

/// Whether rows of this file give facts: those of Scripts.txt and of the alias files do not (the law `others_give_none`).
pub fn gives_facts(file: SourceFile) -> bool
    ensures { result ≡ gives_facts file }
{
    !matches!(
        file,
        SourceFile::Scripts | SourceFile::PropertyAliases | SourceFile::PropertyValueAliases
    )
}
