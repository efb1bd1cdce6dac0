//! What is kept of the facts of a code point beside its word.

ghost use Rattle.std.specs.Prelude.{◌≡◌, IfOk, IfSome, IsTrue};
ghost use Rattle.std.specs.Box.{box_value};
ghost use Rattle.std.specs.Option.{option_copied, option_map};
ghost use Rattle.fact_tables.specs.Rest.{no_rest, bare_rest, cases_of, rest_of_all};

use crate::cases::Cases;
use crate::mappings::Mappings;
use std::alloc::Global;
use std::marker::Model;
use ucd_facts::{Copied, Memory, Point, Points};

/// The mappings of a code point. Most that have any have only a decomposition mapping of one or two members, which
/// takes no memory of its own.
#[derive(Drop)]
pub struct PackedMappings {
    form: RestForm,
}

/// How the mappings are kept.
#[derive(Drop)]
enum RestForm {
    // there is none
    Empty,
    // a decomposition mapping of one member, and nothing else
    One([Point; 1]),
    // the same of two members
    Two([Point; 2]),
    // mappings of any kind
    All(Box<Mappings>),
}

impl Model for PackedMappings {
    ghost use Rattle.fact_tables.specs.Rest.{RestOf};
    ghost use Rattle.fact_tables.specs.RestForm.{rest_of};

    ghost Value = { RestOf };

    ghost view = { λ r. rest_of r.form };
}

impl PackedMappings {
    /// What is kept of a code point without mappings.
    pub fn none() -> PackedMappings
        ensures { result ≡ no_rest }
    {
        PackedMappings {
            form: RestForm::Empty,
        }
    }

    /// What is kept of a code point that has no more than this decomposition mapping.
    ///
    /// - `Memory`: memory ran out.
    pub fn bare(alloc: Global, mapping: &[Point]) -> Result<PackedMappings, Memory>
        ensures { IfOk result (λ rest. rest ≡ bare_rest mapping.now) }
    {
        let form = match mapping {
            [] => RestForm::Empty,
            [only] => RestForm::One([*only]),
            [first, second] => RestForm::Two([*first, *second]),
            _ => RestForm::All(Box::new(alloc, Mappings::bare(Points::of(alloc, mapping)?))?),
        };
        Ok(PackedMappings { form })
    }

    /// What is kept of these mappings.
    ///
    /// - `Memory`: memory ran out.
    pub fn boxed(alloc: Global, mappings: Mappings) -> Result<PackedMappings, Memory>
        ensures { IfOk result (λ rest. rest ≡ rest_of_all mappings) }
    {
        Ok(PackedMappings {
            form: RestForm::All(Box::new(alloc, mappings)?),
        })
    }

    /// The decomposition mapping.
    pub fn mapping(&self) -> &[Point]
        ensures { result.now ≡ self.now.mapping }
    {
        match &self.form {
            RestForm::Empty => &[],
            RestForm::One(points) => points,
            RestForm::Two(points) => points,
            RestForm::All(all) => all.mapping.as_slice(),
        }
    }

    /// The simple mapping to upper case.
    pub fn upper(&self) -> &[Point]
        ensures { result.now ≡ self.now.upper }
    {
        match &self.form {
            RestForm::All(all) => all.upper.as_slice(),
            _ => &[],
        }
    }

    /// The simple mapping to lower case.
    pub fn lower(&self) -> &[Point]
        ensures { result.now ≡ self.now.lower }
    {
        match &self.form {
            RestForm::All(all) => all.lower.as_slice(),
            _ => &[],
        }
    }

    /// The simple mapping to title case.
    pub fn title(&self) -> &[Point]
        ensures { result.now ≡ self.now.title }
    {
        match &self.form {
            RestForm::All(all) => all.title.as_slice(),
            _ => &[],
        }
    }

    /// The folding of status C.
    pub fn common_folding(&self) -> Option<&[Point]>
        ensures { option_copied result ≡ self.now.cases.common }
    {
        match self.cases() {
            Some(cases) => cases.common.points(),
            None => None,
        }
    }

    /// The folding of status F.
    pub fn full_folding(&self) -> Option<&[Point]>
        ensures { option_copied result ≡ self.now.cases.full }
    {
        match self.cases() {
            Some(cases) => cases.full.points(),
            None => None,
        }
    }

    /// The folding of status S.
    pub fn simple_folding(&self) -> Option<&[Point]>
        ensures { option_copied result ≡ self.now.cases.simple }
    {
        match self.cases() {
            Some(cases) => cases.simple.points(),
            None => None,
        }
    }

    /// The full mapping to lower case.
    pub fn full_lower(&self) -> Option<&[Point]>
        ensures { option_copied result ≡ self.now.cases.lower }
    {
        match self.cases() {
            Some(cases) => cases.lower.points(),
            None => None,
        }
    }

    /// The full mapping to title case.
    pub fn full_title(&self) -> Option<&[Point]>
        ensures { option_copied result ≡ self.now.cases.title }
    {
        match self.cases() {
            Some(cases) => cases.title.points(),
            None => None,
        }
    }

    /// The full mapping to upper case.
    pub fn full_upper(&self) -> Option<&[Point]>
        ensures { option_copied result ≡ self.now.cases.upper }
    {
        match self.cases() {
            Some(cases) => cases.upper.points(),
            None => None,
        }
    }

    /// The images of CaseFolding.txt and SpecialCasing.txt, if there are any.
    fn cases(&self) -> Option<&Cases>
        ensures { cases_of (option_copied result) ≡ self.now.cases }
    {
        match &self.form {
            RestForm::All(all) => all.cases.as_deref(),
            _ => None,
        }
    }

    /// Whether the mappings are those of another one.
    #[tactic(auto, using(crate::proofs::RestLemmas::rests_alike))]
    pub fn is_same(&self, other: &PackedMappings) -> bool
        ensures { IsTrue result → self.now ≡ other.now }
    {
        has_same_lists(self, other)
            && has_same_foldings(self, other)
            && has_same_casings(self, other)
    }

    /// The decomposition mapping, if it is kept that there is no other one; `None` if others may be too.
    pub fn bare_mapping(&self) -> Option<&[Point]>
        ensures { IfSome result (λ mapping. self.now ≡ bare_rest mapping.now) }
    {
        match &self.form {
            RestForm::Empty => Some(&[]),
            RestForm::One(points) => Some(points),
            RestForm::Two(points) => Some(points),
            RestForm::All(_) => None,
        }
    }

    /// Whether there is no mapping at all.
    pub fn is_none(&self) -> bool
        ensures { IsTrue result → self.now ≡ no_rest }
    {
        matches!(&self.form, RestForm::Empty)
    }
}

/// Whether two have the same decomposition mapping and the same simple mappings to other cases.
fn has_same_lists(a: &PackedMappings, b: &PackedMappings) -> bool
    ensures mapping { IsTrue result → a.now.mapping ≡ b.now.mapping }
    ensures upper { IsTrue result → a.now.upper ≡ b.now.upper }
    ensures lower { IsTrue result → a.now.lower ≡ b.now.lower }
    ensures title { IsTrue result → a.now.title ≡ b.now.title }
{
    is_same_list(a.mapping(), b.mapping())
        && is_same_list(a.upper(), b.upper())
        && is_same_list(a.lower(), b.lower())
        && is_same_list(a.title(), b.title())
}

/// Whether two have the same foldings.
fn has_same_foldings(a: &PackedMappings, b: &PackedMappings) -> bool
    ensures common { IsTrue result → a.now.cases.common ≡ b.now.cases.common }
    ensures full { IsTrue result → a.now.cases.full ≡ b.now.cases.full }
    ensures simple { IsTrue result → a.now.cases.simple ≡ b.now.cases.simple }
{
    is_same_image(a.common_folding(), b.common_folding())
        && is_same_image(a.full_folding(), b.full_folding())
        && is_same_image(a.simple_folding(), b.simple_folding())
}

/// Whether two have the same full mappings to other cases.
fn has_same_casings(a: &PackedMappings, b: &PackedMappings) -> bool
    ensures lower { IsTrue result → a.now.cases.lower ≡ b.now.cases.lower }
    ensures title { IsTrue result → a.now.cases.title ≡ b.now.cases.title }
    ensures upper { IsTrue result → a.now.cases.upper ≡ b.now.cases.upper }
{
    is_same_image(a.full_lower(), b.full_lower())
        && is_same_image(a.full_title(), b.full_title())
        && is_same_image(a.full_upper(), b.full_upper())
}

/// Whether two images are the same, or there is none of either.
fn is_same_image(a: Option<&[Point]>, b: Option<&[Point]>) -> bool
    ensures { IsTrue result → option_copied a.entry ≡ option_copied b.entry }
{
    match (a, b) {
        (None, None) => true,
        (Some(a), Some(b)) => is_same_list(a, b),
        _ => false,
    }
}

/// Whether two lists are the same.
fn is_same_list(a: &[Point], b: &[Point]) -> bool
    ensures { IsTrue result → a.now ≡ b.now }
{
    a == b
}

impl Copied for PackedMappings {
    fn copied(&self, alloc: Global) -> Result<PackedMappings, Memory> {
        match &self.form {
            RestForm::Empty => Ok(PackedMappings::none()),
            RestForm::One(points) => Ok(PackedMappings {
                form: RestForm::One(*points),
            }),
            RestForm::Two(points) => Ok(PackedMappings {
                form: RestForm::Two(*points),
            }),
            RestForm::All(all) => copied_mappings(alloc, all),
        }
    }
}

/// What is kept of the same mappings.
///
/// - `Memory`: memory ran out.
fn copied_mappings(alloc: Global, all: &Mappings) -> Result<PackedMappings, Memory>
    ensures { IfOk result (λ rest. rest ≡ rest_of_all all.now) }
{
    let mapping = Points::of(alloc, all.mapping.as_slice())?;
    let cases = copied_cases(alloc, all.cases.as_deref())?;
    PackedMappings::boxed(
        alloc,
        Mappings {
            mapping,
            upper: all.upper,
            lower: all.lower,
            title: all.title,
            cases,
        },
    )
}

/// A copy of the images that CaseFolding.txt and SpecialCasing.txt give to a code point, if there are any.
///
/// - `Memory`: memory ran out.
fn copied_cases(alloc: Global, cases: Option<&Cases>) -> Result<Option<Box<Cases>>, Memory>
    ensures { IfOk result (λ copies. option_map box_value copies ≡ option_copied cases.entry) }
{
    match cases {
        Some(cases) => Ok(Some(Box::new(alloc, cases.copied(alloc)?)?)),
        None => Ok(None),
    }
}
