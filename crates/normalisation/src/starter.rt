//! The last starter of a list that is composed.

ghost use Rattle.std.specs.Prelude.{◌≡◌};
ghost use Rattle.normalisation.specs.SoFar.{passes, highest_with, starter_behind};

/// The last starter of what is composed so far, and the greatest class behind it. The Unicode Standard, section 3.11,
/// D107 and D115.
#[derive(Clone, Copy)]
pub struct Starter<S> {
    /// Which starter it is: its place in the list, or its code point.
    pub which: S,
    /// The greatest class behind it, from 0 to 255; `None` if nothing stands there.
    pub highest: Option<u8>,
}

/// Whether a class is greater than the greatest one after the last starter, so that a code point of this class is not
/// blocked. The Unicode Standard, section 3.11, D115.
pub fn is_unblocked(highest: Option<u8>, class: u8) -> bool
    ensures { result ≡ passes highest class }
{
    match highest {
        Some(highest) => highest < class,
        None => true,
    }
}

/// The greater of the greatest class so far and a class.
fn highest_with(highest: Option<u8>, class: u8) -> u8
    ensures { result ≡ highest_with highest class }
{
    match highest {
        Some(highest) => highest.max(class),
        None => class,
    }
}

/// The last starter once a code point of this class stands behind what is composed so far: if the class is 0, it is
/// that code point, which `which` tells.
pub fn starter_behind<S: Copy>(
    which: S,
    starter: &Option<Starter<S>>,
    class: u8,
) -> Option<Starter<S>>
    ensures { result ≡ starter_behind which starter.now class }
{
    if class == 0 {
        return Some(Starter {
            which,
            highest: None,
        });
    }
    match starter {
        Some(starter) => Some(Starter {
            which: starter.which,
            highest: Some(highest_with(starter.highest, class)),
        }),
        None => None,
    }
}
