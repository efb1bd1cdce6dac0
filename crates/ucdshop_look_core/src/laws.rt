//! The laws of what a run tells: each function here does nothing, and its contract is a law.

ghost use Rattle.ucdshop_look_core.specs.ChangeLaws.{StagesFollowTheSession, TotalsAreCounted};
ghost use Rattle.ucdshop_look_core.specs.CheckLaws.{CheckEndsAsApply, CheckEndsAsDerive};

/// `check` with a script is refused by the line that refuses `apply`, or ends with its status; its text begins with the line that
/// `apply` tells.
pub fn check_ends_as_apply()
    ensures { CheckEndsAsApply }
{}

/// `check` of a folder alone is refused by the line that refuses `derive`, or ends with its status and its line.
pub fn check_ends_as_derive()
    ensures { CheckEndsAsDerive }
{}

/// The spans that `changes` tells of an accepted group have as many code points as the log of `apply` counts.
pub fn totals_are_counted()
    ensures { TotalsAreCounted }
{}

/// `changes` carries each command out on the files that the session of `apply` leaves of the commands before it.
pub fn stages_follow_the_session()
    ensures { StagesFollowTheSession }
{}
