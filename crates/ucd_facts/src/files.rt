//! The files that are derived.

ghost use Rattle.std.specs.Prelude.{◌≡◌, ◌<◌};
ghost use Rattle.ucd_facts.specs.Enumerations.{derived_files, place_of_derived};
ghost use Rattle.ucd_facts.specs.Names.{derived_path};

/// A derived file, in the order in which the bench writes them. UAX #44, sections 5.3 and 5.4.
#[derive(Clone, Copy, Debug, PartialEq, Eq)]
pub enum DerivedFile {
    /// DerivedCoreProperties.txt.
    CoreProperties,
    /// DerivedNormalizationProps.txt.
    NormalizationProps,
    /// extracted/DerivedGeneralCategory.txt.
    GeneralCategory,
    /// extracted/DerivedCombiningClass.txt.
    CombiningClass,
    /// extracted/DerivedDecompositionType.txt.
    DecompositionType,
}

/// The derived files, each at its place in the order in which the bench writes them.
pub const DERIVED_FILES: [DerivedFile; 5] = [
    DerivedFile::CoreProperties,
    DerivedFile::NormalizationProps,
    DerivedFile::GeneralCategory,
    DerivedFile::CombiningClass,
    DerivedFile::DecompositionType,
];

impl DerivedFile {
    /// The derived files in the order of their places.
    pub fn all() -> &'static [DerivedFile]
        ensures { result.now ≡ derived_files }
    {
        &DERIVED_FILES
    }

    /// Its place in the order in which the bench writes the files, from 0.
    pub fn place(self) -> usize
        ensures place { result ≡ place_of_derived self }
        ensures below { result < 5 }
    {
        self as usize
    }

    /// Where it lies below the folder of the output.
    pub fn path(self) -> &'static [u8]
        ensures { result.now ≡ derived_path self }
    {
        match self {
            DerivedFile::CoreProperties => b"DerivedCoreProperties.txt",
            DerivedFile::NormalizationProps => b"DerivedNormalizationProps.txt",
            DerivedFile::GeneralCategory => b"extracted/DerivedGeneralCategory.txt",
            DerivedFile::CombiningClass => b"extracted/DerivedCombiningClass.txt",
            DerivedFile::DecompositionType => b"extracted/DerivedDecompositionType.txt",
        }
    }
}
