//! Images of code points under case mappings.

ghost use Rattle.std.specs.Prelude.{◌≡◌, IsTrue};
ghost use Rattle.ucd_facts.specs.Facts.{image};
ghost use Rattle.ucd_facts.specs.Shown.{image_shown};

use ucd_points::{Point, Points};

/// What a code point is mapped to. `Same` stands exactly if that is the point itself alone.
#[derive(Debug, Drop)]
pub enum Image {
    /// The point itself alone.
    Same,
    /// These code points: possibly none, and never the point itself alone.
    To(Points),
}

impl Image {
    /// The image of a code point that is mapped to these: `Same` exactly if they are the point itself alone. It
    /// takes no memory.
    pub fn of(c: Point, points: Points) -> Image
        ensures { result ≡ image c points }
    {
        if matches!(points.as_slice(), [only] if *only == c) {
            Image::Same
        } else {
            Image::To(points)
        }
    }

    /// The code points as a view shows them; `None` for the point itself alone.
    pub fn as_points(&self) -> Option<&[Point]>
        ensures { image_shown result ≡ self.now }
    {
        match self {
            Image::Same => None,
            Image::To(points) => Some(points.as_slice()),
        }
    }

    /// Whether two images are equal.
    pub fn is_same(&self, other: &Image) -> bool
        ensures equal { IsTrue result → self.now ≡ other.now }
        ensures same { self.now ≡ other.now → IsTrue result }
    {
        match (self, other) {
            (Image::Same, Image::Same) => true,
            (Image::To(a), Image::To(b)) => a.as_slice() == b.as_slice(),
            _ => false,
        }
    }
}
