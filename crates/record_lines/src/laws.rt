//! The law of records that follow a bench: the function here does nothing, and its contract is the law.

ghost use Rattle.record_lines.specs.Earlier.{FollowingCatchesUp};

/// Records that are updated at the code points at which two functions differ go from the records of one to those of the other.
pub fn following_catches_up()
    ensures { FollowingCatchesUp }
{}
