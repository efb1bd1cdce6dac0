//! The points of an image.

ghost use Rattle.std.specs.Prelude.{◌≡◌, Some, None, IfOk};
ghost use Rattle.std.specs.Option.{option_copied};

use std::alloc::Global;
use std::marker::Model;
use ucd_facts::{Copied, Memory, Point, Points};

/// The points that a row gives, if one gives some. A single point takes no memory of its own.
#[derive(Drop)]
pub struct GivenPoints {
    form: PointsForm,
}

/// How the points are kept.
#[derive(Drop)]
enum PointsForm {
    Absent,
    Single([Point; 1]),
    Listed(Box<Points>),
}

impl Model for GivenPoints {
    ghost use Rattle.std.specs.Prelude.{ℕ, List, Option};
    ghost use Rattle.fact_tables.specs.GivenPoints.{points_of};

    ghost Value = { Option (List ℕ) };

    ghost view = { λ g. points_of g.form };
}

impl GivenPoints {
    /// No points are given.
    pub fn none() -> GivenPoints
        ensures { result ≡ None }
    {
        GivenPoints {
            form: PointsForm::Absent,
        }
    }

    /// Copies of these points.
    ///
    /// - `Memory`: memory ran out.
    pub fn of(alloc: Global, points: &[Point]) -> Result<GivenPoints, Memory>
        ensures { IfOk result (λ given. given ≡ Some points.now) }
    {
        let form = match points {
            [only] => PointsForm::Single([*only]),
            _ => PointsForm::Listed(Box::new(alloc, Points::of(alloc, points)?)?),
        };
        Ok(GivenPoints { form })
    }

    /// The points, if some are given.
    pub fn points(&self) -> Option<&[Point]>
        ensures { option_copied result ≡ self.now }
    {
        match &self.form {
            PointsForm::Absent => None,
            PointsForm::Single(points) => Some(points),
            PointsForm::Listed(points) => Some(points.as_slice()),
        }
    }
}

impl Copied for GivenPoints {
    fn copied(&self, alloc: Global) -> Result<GivenPoints, Memory> {
        match self.points() {
            Some(points) => GivenPoints::of(alloc, points),
            None => Ok(GivenPoints::none()),
        }
    }
}
