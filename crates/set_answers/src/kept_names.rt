//! What names mean and the sets of rows, kept from one run of questions to the next.

ghost use Rattle.std.specs.Prelude.{◌≡◌, List, IsSome, Some, None, OnOk, IfOk};
ghost use Rattle.release_rows.specs.FileItems.{FileItem};
ghost use Rattle.set_answers.specs.RowNames.{AreRowNames, HasNames, AreNamesKept, AreNamesKeptOf, UneditedStay, edited_by, edits, tells};

use crate::row_names::RowNames;
use property_aliases::Edited;
use release_rows::{Op, Release};
use std::alloc::Global;
use ucd_model::{Memory, SourceFile};

/// What questions need of the rows alone, as it was last made, and the files that were edited since: only what the rows of these
/// tell is made again.
#[derive(Drop)]
pub struct KeptNames {
    names: Option<RowNames>,
    edited: Edited,
}

/// A part of what is kept, by the files whose rows tell it.
#[derive(Clone, Copy)]
pub(crate) enum Part {
    /// What PropList.txt tells.
    Listed,
    /// What Scripts.txt tells.
    Scripts,
    /// What WordBreakProperty.txt tells.
    Breaks,
    /// What PropertyAliases.txt and PropertyValueAliases.txt tell.
    Aliases,
}

/// Whether a part is told by the rows of this file.
fn is_told_by(part: Part, file: SourceFile) -> bool
    ensures { result ≡ tells part file }
{
    match part {
        Part::Listed => matches!(file, SourceFile::PropList),
        Part::Scripts => matches!(file, SourceFile::Scripts),
        Part::Breaks => matches!(file, SourceFile::WordBreakProperty),
        Part::Aliases => {
            matches!(
                file,
                SourceFile::PropertyAliases | SourceFile::PropertyValueAliases
            )
        }
    }
}

/// Whether an operation of a group is on a file whose rows tell this part.
fn is_edited_by(part: Part, group: &[Op]) -> bool
    ensures { result ≡ edits part group.now }
{
    group.iter().any(|op| is_told_by(part, op.file()))
}

/// No file.
fn none_edited() -> Edited {
    Edited {
        listed: false,
        scripts: false,
        breaks: false,
        aliases: false,
    }
}

/// The names and the sets of the rows of a release now, by what is kept of them.
///
/// - `Memory`: memory ran out.
fn names_by(
    alloc: Global,
    release: &Release,
    kept: Option<RowNames>,
    edited: Edited,
) -> Result<RowNames, Memory>
    requires { AreNamesKeptOf kept edited release.now.current }
    ensures { IfOk result (λ names. AreRowNames names release.now.current) }
{
    match kept {
        Some(names) => names.renewed(alloc, release, edited),
        None => RowNames::of(alloc, release),
    }
}

impl KeptNames {
    /// Nothing yet. It takes no memory.
    pub fn nothing() -> KeptNames
        ensures { result.names ≡ None }
    {
        KeptNames {
            names: None,
            edited: none_edited(),
        }
    }

    /// Notes which files a group edits that was carried out.
    pub fn note(&mut self, group: &[Op])
        ensures names { self.new.names ≡ self.old.names }
        ensures stays { (old new : List (List FileItem)) → UneditedStay group.now old new
            → AreNamesKept self.old old → AreNamesKept self.new new }
    {
        self.put_edited(group);
    }

    /// Puts the files that a group edits to those that were edited.
    fn put_edited(&mut self, group: &[Op])
        ensures names { self.new.names ≡ self.old.names }
        ensures edited { self.new.edited ≡ edited_by self.old.edited group.now }
    {
        let before = self.edited;
        self.edited = Edited {
            listed: before.listed || is_edited_by(Part::Listed, group),
            scripts: before.scripts || is_edited_by(Part::Scripts, group),
            breaks: before.breaks || is_edited_by(Part::Breaks, group),
            aliases: before.aliases || is_edited_by(Part::Aliases, group),
        };
    }

    /// Makes what is kept that of the rows of a release now. Of files that were not edited nothing is read.
    ///
    /// - `Memory`: memory ran out. Nothing is kept then.
    pub fn fill(&mut self, alloc: Global, release: &Release) -> Result<(), Memory>
        requires { AreNamesKept self.old release.now.current }
        ensures kept { AreNamesKept self.new release.now.current }
        ensures names { OnOk result (HasNames self.new release.now.current) }
    {
        let kept = self.names.take();
        let names = names_by(alloc, release, kept, self.edited)?;
        self.put_up_to_date(names);
        Ok(())
    }

    /// Keeps names and sets that were just made.
    fn put_up_to_date(&mut self, names: RowNames)
        ensures { self.new.names ≡ Some names }
    {
        self.names = Some(names);
        self.edited = none_edited();
    }

    /// The names and the sets that are kept.
    pub fn names(&self) -> &RowNames
        requires { IsSome self.now.names }
        ensures { self.now.names ≡ Some result.now }
    {
        match &self.names {
            Some(names) => names,
            None => unreachable!(),
        }
    }
}
