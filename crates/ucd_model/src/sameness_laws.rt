//! The laws of equality as a test: each function here does nothing, and its contract is a law.

ghost use Rattle.ucd_model.specs.Sameness.{MembersAreTold, RecordsAreTold, FactsAreTold, SetsAreTold, KeptRecordsAreTold};

/// The test of whether a number is a member of a list tells whether it is.
pub fn members_are_told()
    ensures { MembersAreTold }
{}

/// The test of whether two records are equal tells whether they are.
pub fn records_are_told()
    ensures { RecordsAreTold }
{}

/// The test of whether the facts of two code points are equal tells whether they are.
pub fn facts_are_told()
    ensures { FactsAreTold }
{}

/// Two kept sets with the same properties are one.
pub fn sets_are_told()
    ensures { SetsAreTold }
{}

/// Two kept records that keep one record are one.
pub fn kept_records_are_told()
    ensures { KeptRecordsAreTold }
{}
