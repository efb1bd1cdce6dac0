//! Laws on ages: each function here does nothing, and its contract is a law.

ghost use Rattle.age_chain.specs.AgeLaws.{AgeIsOfTheFirst, FormsStayFrom};

use stability_policies::forms_stay_through;

/// The age of a code point is the number of a release in which it is assigned, and of none before it. A code point
/// without an age is assigned in no release. An age stays, whatever release follows: even that of a code point that is
/// removed, or that comes back.
pub fn age_is_of_the_first_release()
    ensures { AgeIsOfTheFirst }
{}

/// If no step of a chain from a release on breaks P01, P03, P04 or P05, and each release that another one follows is valid,
/// the four forms of code points that are assigned in it are the same in every later one. UAX #15, section 3.
pub fn forms_stay_from()
    ensures { FormsStayFrom }
{
    forms_stay_through();
}
