//! The files that are read.

ghost use Rattle.std.specs.Prelude.{◌≡◌, ◌<◌, ◌^◌};
ghost use Rattle.ucd_points.specs.Limits.{file_limit};
ghost use Rattle.ucd_points.specs.SourceFiles.{source_files, file_place, source_path};

/// A source file of the database, in the order in which the bench reads them. UAX #44, section 5.3.
#[derive(Clone, Copy, Debug, PartialEq, Eq)]
pub enum SourceFile {
    /// UnicodeData.txt.
    UnicodeData,
    /// PropList.txt.
    PropList,
    /// Scripts.txt.
    Scripts,
    /// auxiliary/WordBreakProperty.txt.
    WordBreakProperty,
    /// CompositionExclusions.txt.
    CompositionExclusions,
    /// CaseFolding.txt.
    CaseFolding,
    /// SpecialCasing.txt.
    SpecialCasing,
    /// PropertyAliases.txt.
    PropertyAliases,
    /// PropertyValueAliases.txt.
    PropertyValueAliases,
}

/// The source files, each at its place in the order in which the bench reads them.
pub const SOURCE_FILES: [SourceFile; 9] = [
    SourceFile::UnicodeData,
    SourceFile::PropList,
    SourceFile::Scripts,
    SourceFile::WordBreakProperty,
    SourceFile::CompositionExclusions,
    SourceFile::CaseFolding,
    SourceFile::SpecialCasing,
    SourceFile::PropertyAliases,
    SourceFile::PropertyValueAliases,
];

impl SourceFile {
    /// Its place in the order in which the bench reads the files, from 0.
    pub fn place(self) -> usize
        ensures place { result ≡ file_place self }
        ensures below { result < 9 }
    {
        match self {
            SourceFile::UnicodeData => 0,
            SourceFile::PropList => 1,
            SourceFile::Scripts => 2,
            SourceFile::WordBreakProperty => 3,
            SourceFile::CompositionExclusions => 4,
            SourceFile::CaseFolding => 5,
            SourceFile::SpecialCasing => 6,
            SourceFile::PropertyAliases => 7,
            SourceFile::PropertyValueAliases => 8,
        }
    }

    /// The source files in the order of their places.
    pub fn all() -> &'static [SourceFile]
        ensures { result.now ≡ source_files }
    {
        &SOURCE_FILES
    }

    /// Where it lies below the folder of a release.
    pub fn path(self) -> &'static [u8]
        ensures { result.now ≡ source_path self }
    {
        match self {
            SourceFile::UnicodeData => b"UnicodeData.txt",
            SourceFile::PropList => b"PropList.txt",
            SourceFile::Scripts => b"Scripts.txt",
            SourceFile::WordBreakProperty => b"auxiliary/WordBreakProperty.txt",
            SourceFile::CompositionExclusions => b"CompositionExclusions.txt",
            SourceFile::CaseFolding => b"CaseFolding.txt",
            SourceFile::SpecialCasing => b"SpecialCasing.txt",
            SourceFile::PropertyAliases => b"PropertyAliases.txt",
            SourceFile::PropertyValueAliases => b"PropertyValueAliases.txt",
        }
    }
}

/// The greatest number of bytes of a source file: 32 MiB.
pub const FILE_LIMIT: usize = 33_554_432;

/// [`FILE_LIMIT`], as clauses name it.
#[tactic(auto, unfolding(crate::specs::Limits::file_limit))]
pub fn file_limit() -> usize
    ensures value { result ≡ file_limit }
    ensures small { result < 2 ^ 32 }
{
    FILE_LIMIT
}
