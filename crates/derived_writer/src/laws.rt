//! The law of the derived files: the function here does nothing, and its contract is the law.

ghost use Rattle.derived_writer.specs.TextLaws.{TextsFollowRecords};

/// Two functions that give the same record of each code point below a bound give the same files below it.
pub fn texts_follow_records()
    ensures { TextsFollowRecords }
{}
