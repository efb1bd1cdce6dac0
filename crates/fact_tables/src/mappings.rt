//! All mappings of one code point.

ghost use Rattle.std.specs.Prelude.{◌≡◌};
ghost use Rattle.fact_tables.specs.Rest.{bare_rest, rest_of_all};

use crate::cases::Cases;
use ucd_facts::{Point, Points};

/// The mappings of a code point, each if there is one.
#[derive(Drop)]
pub struct Mappings {
    /// The decomposition mapping.
    pub mapping: Points,
    /// The simple mapping to upper case of the row of UnicodeData.txt.
    pub upper: Option<Point>,
    /// The simple mapping to lower case of the row.
    pub lower: Option<Point>,
    /// The simple mapping to title case of the row.
    pub title: Option<Point>,
    /// The images of CaseFolding.txt and SpecialCasing.txt.
    pub cases: Option<Box<Cases>>,
}

impl Mappings {
    /// This decomposition mapping, and no other one.
    pub fn bare(mapping: Points) -> Mappings
        ensures { rest_of_all result ≡ bare_rest mapping }
    {
        Mappings {
            mapping,
            upper: None,
            lower: None,
            title: None,
            cases: None,
        }
    }
}
