//! The laws of the policies: each function here does nothing, and its contract is a law.

ghost use Rattle.stability_policies.specs.ChainForms.{FormsStayThrough};
ghost use Rattle.stability_policies.specs.PolicyLists.{PoliciesAreWhole};
ghost use Rattle.stability_policies.specs.ReportLaws.{EmptyPartKeepsCaseless, EmptyPartKeepsForms};
ghost use Rattle.stability_policies.specs.StableForms.{CaselessStays, FormsStay};

/// The list of the policies has all of them, each once and at its place.
pub fn policies_are_whole()
    ensures { PoliciesAreWhole }
{}

/// The normalisation forms of code points that were assigned are the same in a later release that keeps their classes and
/// mappings, and makes no new composite of them. UAX #15, section 3.
pub fn forms_stay()
    ensures { FormsStay }
{}

/// So are their foldings under Normalisation Form KC, if those of single code points are. UAX #31, section 5.1.
pub fn caseless_stays()
    ensures { CaselessStays }
{}

/// If the report of two releases, of which the old one is valid, lists nothing of P01, P03, P04 and P05, the four forms of
/// code points that were assigned are the same in both. UAX #15, section 3.
pub fn empty_part_keeps_forms()
    ensures { EmptyPartKeepsForms }
{}

/// If it lists nothing of P10 either, so is the full folding of their Normalisation Form KC. UAX #31, section 5.1.
pub fn empty_part_keeps_caseless()
    ensures { EmptyPartKeepsCaseless }
{}

/// If no step of a chain of releases from one of them on breaks P01, P03, P04 or P05, and each release that another one
/// follows is valid, the four forms of code points that were assigned are the same in it and in every later one.
/// UAX #15, section 3.
pub fn forms_stay_through()
    ensures { FormsStayThrough }
{}
