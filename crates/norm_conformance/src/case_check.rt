//! What a release misses of a case.

ghost use Rattle.std.specs.Prelude.{◌≡◌, ◌++◌, IfOk, OnOk};
ghost use Rattle.norm_conformance.specs.Checks.{AreChecks, kept_at};
ghost use Rattle.norm_conformance.specs.Misses.{column_miss, line_misses, missed_columns};
ghost use Rattle.norm_conformance.specs.ValidFacts.{AreOfValidRows};

use crate::case::Case;
use crate::form_check::{Expected, FormCheck, check_forms_of_list, put_unless};
use crate::miss::{Miss, Misses};
use std::alloc::Global;
use ucd_model::{FactView, Form, Memory};

/// Which forms of each column are as expected.
#[derive(Clone, Copy)]
struct CaseCheck {
    c1: FormCheck,
    c2: FormCheck,
    c3: FormCheck,
    c4: FormCheck,
    c5: FormCheck,
}

/// Which forms of the columns of a case are as expected: each column is expanded once for all four forms.
///
/// - `Memory`: memory ran out.
fn check_case<W: FactView>(alloc: Global, view: &W, case: &Case) -> Result<CaseCheck, Memory>
    requires { AreOfValidRows (W.facts_of view.now) }
    ensures { IfOk result (AreChecks (W.facts_of view.now) case.now) }
{
    let compatible = Expected {
        nfd: case.c5.as_slice(),
        nfc: case.c4.as_slice(),
        nfkd: case.c5.as_slice(),
        nfkc: case.c4.as_slice(),
    };
    let canonical = Expected {
        nfd: case.c3.as_slice(),
        nfc: case.c2.as_slice(),
        nfkd: case.c5.as_slice(),
        nfkc: case.c4.as_slice(),
    };
    Ok(CaseCheck {
        c1: check_forms_of_list(alloc, view, case.c1.as_slice(), canonical)?,
        c2: check_forms_of_list(alloc, view, case.c2.as_slice(), canonical)?,
        c3: check_forms_of_list(alloc, view, case.c3.as_slice(), canonical)?,
        c4: check_forms_of_list(alloc, view, case.c4.as_slice(), compatible)?,
        c5: check_forms_of_list(alloc, view, case.c5.as_slice(), compatible)?,
    })
}

/// Puts the columns of which a form is not as expected.
///
/// - `Memory`: memory ran out.
fn put_missed_columns(
    line: u32,
    form: Form,
    check: &CaseCheck,
    misses: &mut Misses,
) -> Result<(), Memory>
    ensures { OnOk result (misses.new ≡ misses.old
        ++ missed_columns line form (kept_at check.now form)) }
{
    put_unless(
        check.c1.is_as_expected(form),
        column_miss(line, form, 1),
        misses,
    )?;
    put_unless(
        check.c2.is_as_expected(form),
        column_miss(line, form, 2),
        misses,
    )?;
    put_unless(
        check.c3.is_as_expected(form),
        column_miss(line, form, 3),
        misses,
    )?;
    put_unless(
        check.c4.is_as_expected(form),
        column_miss(line, form, 4),
        misses,
    )?;
    put_unless(
        check.c5.is_as_expected(form),
        column_miss(line, form, 5),
        misses,
    )?;
    Ok(())
}

/// A form of a column that is missed.
fn column_miss(line: u32, form: Form, column: u8) -> Miss
    ensures { result ≡ column_miss line form column }
{
    Miss::Line { line, form, column }
}

/// Puts what a release misses of a case: by form, and then by column.
///
/// - `Memory`: memory ran out.
pub fn put_misses_of_case<W: FactView>(
    alloc: Global,
    view: &W,
    case: &Case,
    misses: &mut Misses,
) -> Result<(), Memory>
    requires { AreOfValidRows (W.facts_of view.now) }
    ensures { OnOk result (misses.new ≡ misses.old ++ line_misses (W.facts_of view.now) case.now) }
{
    let check = check_case(alloc, view, case)?;
    put_missed_columns(case.line, Form::Nfd, &check, misses)?;
    put_missed_columns(case.line, Form::Nfc, &check, misses)?;
    put_missed_columns(case.line, Form::Nfkd, &check, misses)?;
    put_missed_columns(case.line, Form::Nfkc, &check, misses)?;
    Ok(())
}
