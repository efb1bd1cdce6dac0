//! The laws of the forms: each function here does nothing, and its contract is a law. UAX #15, section 1.2.

ghost use Rattle.normalisation.specs.FormLaws.{NfdTwice, NfkdTwice, NfcTwice, NfkcTwice, NfdOfNfc, NfkdOfNfkc, NfcMembersStay, NfkcMembersStay, FormsAreTogether, PlainForms};

/// Normalisation Form D of its own result is that result.
pub fn nfd_twice()
    ensures { NfdTwice }
{}

/// Normalisation Form KD of its own result is that result.
pub fn nfkd_twice()
    ensures { NfkdTwice }
{}

/// If every code point has a canonical expansion, Normalisation Form C of its own result is that result.
pub fn nfc_twice()
    ensures { NfcTwice }
{}

/// If every code point has a compatibility expansion, Normalisation Form KC of its own result is that result.
pub fn nfkc_twice()
    ensures { NfkcTwice }
{}

/// If every code point has a canonical expansion, Normalisation Form D is the same before and after composition.
pub fn nfd_of_nfc()
    ensures { NfdOfNfc }
{}

/// If every code point has a compatibility expansion, Normalisation Form KD is the same before and after
/// composition.
pub fn nfkd_of_nfkc()
    ensures { NfkdOfNfkc }
{}

/// If every code point has a canonical expansion, Normalisation Form C of a member of its result is that member.
pub fn nfc_members_stay()
    ensures { NfcMembersStay }
{}

/// If every code point has a compatibility expansion, Normalisation Form KC of a member of its result is that
/// member.
pub fn nfkc_members_stay()
    ensures { NfkcMembersStay }
{}

/// The four forms of a list are together exactly if each of them is there.
pub fn forms_are_together()
    ensures { FormsAreTogether }
{}

/// Each form of a code point without a mapping is that code point.
pub fn plain_forms()
    ensures { PlainForms }
{}
