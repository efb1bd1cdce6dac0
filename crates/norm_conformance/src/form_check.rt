//! Whether the forms of a list are the expected ones.

ghost use Rattle.std.specs.Prelude.{◌≡◌, ◌++◌, IfOk, OnOk};
ghost use Rattle.norm_conformance.specs.Checks.{AreKept, kept_in};
ghost use Rattle.norm_conformance.specs.Misses.{unless};
ghost use Rattle.norm_conformance.specs.ValidFacts.{AreOfValidRows};

use crate::miss::{Miss, Misses};
use normalisation::Forms;
use std::alloc::Global;
use ucd_model::{FactView, Form, Memory, Point};

/// What the forms of a list are expected to be.
#[derive(Clone, Copy)]
pub struct Expected<'a> {
    pub nfd: &'a [Point],
    pub nfc: &'a [Point],
    pub nfkd: &'a [Point],
    pub nfkc: &'a [Point],
}

/// Which forms of a list are as expected.
#[derive(Clone, Copy)]
pub struct FormCheck {
    nfd: bool,
    nfc: bool,
    nfkd: bool,
    nfkc: bool,
}

impl FormCheck {
    /// Whether this form is as expected.
    pub fn is_as_expected(&self, form: Form) -> bool
        ensures { result ≡ kept_in self.now form }
    {
        match form {
            Form::Nfd => self.nfd,
            Form::Nfc => self.nfc,
            Form::Nfkd => self.nfkd,
            Form::Nfkc => self.nfkc,
        }
    }
}

/// Which forms of a list are as expected. The list is expanded once for the forms D and C, and once for KD and KC.
///
/// - `Memory`: memory ran out.
pub fn check_forms_of_list<W: FactView>(
    alloc: Global,
    view: &W,
    s: &[Point],
    expected: Expected<'_>,
) -> Result<FormCheck, Memory>
    requires { AreOfValidRows (W.facts_of view.now) }
    ensures { IfOk result (AreKept
        (W.facts_of view.now) s.now expected.entry.nfd.now expected.entry.nfc.now
        expected.entry.nfkd.now expected.entry.nfkc.now) }
{
    let forms = Forms::of(alloc, view, s)?;
    Ok(FormCheck {
        nfd: forms.nfd.as_slice() == expected.nfd,
        nfc: forms.nfc.as_slice() == expected.nfc,
        nfkd: forms.nfkd.as_slice() == expected.nfkd,
        nfkc: forms.nfkc.as_slice() == expected.nfkc,
    })
}

/// Puts what is missed, unless it is kept.
///
/// - `Memory`: memory ran out.
pub fn put_unless(kept: bool, miss: Miss, misses: &mut Misses) -> Result<(), Memory>
    ensures { OnOk result (misses.new ≡ misses.old ++ unless kept miss) }
{
    if kept {
        return Ok(());
    }
    misses.push(miss)
}
