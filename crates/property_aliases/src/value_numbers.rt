//! The values that rows give, by numbers.

ghost use Rattle.std.specs.Prelude.{◌≡◌, IfOk, OnOk, IsTrue};
ghost use Rattle.property_aliases.specs.Edits.{AreSameBut, HasSameNames};
ghost use Rattle.property_aliases.specs.Numbers.{AreNumbersOf};
ghost use Rattle.ucd_facts.specs.Facts.{Sources as AllRows};
ghost use Rattle.ucd_facts.specs.Values.{default_script, default_word_break};
ghost use Rattle.release_rows.specs.Releases.{rows_now};

use crate::edited::Edited;
use crate::file_values::{FileValues, values_behind_default, values_of};
use crate::renewing::{renew_defaulted_and_compare, renew_values_and_compare};
use release_rows::Release;
use std::alloc::Global;
use ucd_facts::{Memory, SourceFile};

/// The values that the rows of a release give, by their numbers, and the rows by these numbers: the names of PropList.txt,
/// the scripts with Unknown as number 0, and the word breaks with Other as number 0. Each row is read once for it.
#[derive(Drop)]
pub struct ValueNumbers {
    pub(crate) listed: FileValues,
    pub(crate) scripts: FileValues,
    pub(crate) breaks: FileValues,
}

/// The Script of what no row covers. UAX #24, section 2.
fn default_script() -> &'static [u8]
    ensures { result.now ≡ default_script }
{
    b"Unknown"
}

/// The Word_Break of what no row covers. UAX #29, section 4.1.
fn default_word_break() -> &'static [u8]
    ensures { result.now ≡ default_word_break }
{
    b"Other"
}

impl ValueNumbers {
    /// The values of the rows of a release now, by their numbers. UAX #44, section 5.
    ///
    /// - `Memory`: memory ran out.
    pub fn of(alloc: Global, release: &Release) -> Result<ValueNumbers, Memory>
        ensures { IfOk result (λ numbers. AreNumbersOf numbers (rows_now release.now)) }
    {
        let listed = values_of(alloc, release, SourceFile::PropList)?;
        let scripts = values_behind_default(alloc, default_script(), release, SourceFile::Scripts)?;
        let breaks = values_behind_default(
            alloc,
            default_word_break(),
            release,
            SourceFile::WordBreakProperty,
        )?;
        Ok(ValueNumbers {
            listed,
            scripts,
            breaks,
        })
    }

    /// Makes the values those of the rows now, if they are those of rows of which only the edited files have others; and answers
    /// whether they have the names that they had, by the same numbers. Only the rows of edited files are read.
    ///
    /// - `Memory`: memory ran out. Some of the values may be those of the rows now.
    pub(crate) fn renew_and_compare(
        &mut self,
        alloc: Global,
        release: &Release,
        edited: Edited,
    ) -> Result<bool, Memory>
        ensures numbers { OnOk result ((old : AllRows) → AreNumbersOf self.old old
            → AreSameBut edited old (rows_now release.now)
            → AreNumbersOf self.new (rows_now release.now)) }
        ensures same { IfOk result (λ same. IsTrue same → HasSameNames self.new self.old) }
    {
        let listed = renew_values_and_compare(
            alloc,
            release,
            SourceFile::PropList,
            edited.listed,
            &mut self.listed,
        )?;
        let scripts = renew_defaulted_and_compare(
            alloc,
            default_script(),
            release,
            SourceFile::Scripts,
            edited.scripts,
            &mut self.scripts,
        )?;
        let breaks = renew_defaulted_and_compare(
            alloc,
            default_word_break(),
            release,
            SourceFile::WordBreakProperty,
            edited.breaks,
            &mut self.breaks,
        )?;
        Ok(listed && scripts && breaks)
    }

    /// The names of PropList.txt.
    pub fn listed(&self) -> &FileValues
        ensures { result.now ≡ self.now.listed }
    {
        &self.listed
    }

    /// The scripts.
    pub fn scripts(&self) -> &FileValues
        ensures { result.now ≡ self.now.scripts }
    {
        &self.scripts
    }

    /// The word breaks.
    pub fn word_breaks(&self) -> &FileValues
        ensures { result.now ≡ self.now.breaks }
    {
        &self.breaks
    }
}
