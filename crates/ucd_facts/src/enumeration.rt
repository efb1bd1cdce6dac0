//! The values of an enumeration by their places.

ghost use Rattle.std.specs.Prelude.{◌≡◌, slice_get};

/// The value at a place of the list of an enumeration's values; `None` past the last.
pub fn value_at<T: Copy>(values: &[T], place: usize) -> Option<T>
    ensures { result ≡ slice_get values.now place }
{
    values.get(place).copied()
}
