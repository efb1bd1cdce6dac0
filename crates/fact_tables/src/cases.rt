//! The images of one code point.

ghost use Rattle.std.specs.Prelude.{◌≡◌, OnOk};
ghost use Rattle.fact_tables.specs.CaseImages.{cases_from};
ghost use Rattle.fact_tables.specs.Rest.{no_cases};

use crate::given_points::GivenPoints;
use std::alloc::Global;
use ucd_facts::{Copied, Memory};

/// The images that CaseFolding.txt and SpecialCasing.txt give to a code point, each if there is one.
#[derive(Drop)]
pub struct Cases {
    /// The folding of status C.
    pub common: GivenPoints,
    /// The folding of status F.
    pub full: GivenPoints,
    /// The folding of status S.
    pub simple: GivenPoints,
    /// The full mapping to lower case without conditions.
    pub lower: GivenPoints,
    /// The full mapping to title case without conditions.
    pub title: GivenPoints,
    /// The full mapping to upper case without conditions.
    pub upper: GivenPoints,
}

impl Cases {
    /// No images.
    pub fn none() -> Cases
        ensures { result ≡ no_cases }
    {
        Cases {
            common: GivenPoints::none(),
            full: GivenPoints::none(),
            simple: GivenPoints::none(),
            lower: GivenPoints::none(),
            title: GivenPoints::none(),
            upper: GivenPoints::none(),
        }
    }

    /// Puts copies of the foldings in the place of others.
    fn copy_foldings(&self, alloc: Global, into: &mut Cases) -> Result<(), Memory>
        ensures { OnOk result (into.new ≡ cases_from self.now into.old) }
    {
        into.common = self.common.copied(alloc)?;
        into.full = self.full.copied(alloc)?;
        into.simple = self.simple.copied(alloc)?;
        Ok(())
    }

    /// Puts copies of the casings in the place of others.
    fn copy_casings(&self, alloc: Global, into: &mut Cases) -> Result<(), Memory>
        ensures { OnOk result (into.new ≡ cases_from into.old self.now) }
    {
        into.lower = self.lower.copied(alloc)?;
        into.title = self.title.copied(alloc)?;
        into.upper = self.upper.copied(alloc)?;
        Ok(())
    }
}

impl Copied for Cases {
    fn copied(&self, alloc: Global) -> Result<Cases, Memory> {
        let mut cases = Cases::none();
        self.copy_foldings(alloc, &mut cases)?;
        self.copy_casings(alloc, &mut cases)?;
        Ok(cases)
    }
}
