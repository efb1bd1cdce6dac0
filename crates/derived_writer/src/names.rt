//! The names of properties and values, as the derived files write them. UAX #44, sections 5.3 and 5.7.

ghost use Rattle.std.specs.Prelude.{◌≡◌};
ghost use Rattle.derived_writer.specs.Listings.{check_name};

use ucd_model::Form;

/// The name of the quick check of a form. UAX #15, section 9.
pub fn quick_check_name(form: Form) -> &'static [u8]
    ensures { result.now ≡ check_name form }
{
    match form {
        Form::Nfd => b"NFD_QC",
        Form::Nfc => b"NFC_QC",
        Form::Nfkd => b"NFKD_QC",
        Form::Nfkc => b"NFKC_QC",
    }
}
