//! The text of the value of a property in a record.

ghost use Rattle.std.specs.Prelude.{◌≡◌, ◌++◌, OnOk};
ghost use Rattle.ucd_model.specs.Records.{kept_record};
ghost use Rattle.record_lines.specs.Values.{binary_value, image_value, kind_value, points_value, quick_value, value_text};

use derived_writer::Listing;
use label_runs::put_spaced;
use std::alloc::Global;
use ucd_lines::{put_decimal, put_hex};
use ucd_model::{Form, Image, Kind, Memory, Point, Quick, Record, Text};

/// Puts the value of a property in a record.
///
/// - `Memory`: memory ran out. A part of it may stand at the end of the text then.
pub fn put_value(
    alloc: Global,
    listing: Listing,
    shown: &Record,
    text: &mut Text,
) -> Result<(), Memory>
    ensures { OnOk result (text.new ≡ text.old ++ value_text listing (kept_record shown.now)) }
{
    match listing {
        Listing::Core(core) => text.append(binary(shown.core.has(core))),
        Listing::Category => text.append(shown.category.code()),
        Listing::Class => put_decimal(alloc, usize::from(shown.class), text),
        Listing::Decomposition => text.append(kind(shown.kind)),
        Listing::Exclusion => text.append(binary(shown.exclusion)),
        Listing::Quick(Form::Nfd) => text.append(quick(shown.nfd)),
        Listing::Quick(Form::Nfc) => text.append(quick(shown.nfc)),
        Listing::Quick(Form::Nfkd) => text.append(quick(shown.nfkd)),
        Listing::Quick(Form::Nfkc) => text.append(quick(shown.nfkc)),
        Listing::Casefold => put_image(&shown.casefold, text),
        Listing::SimpleCasefold => put_image(&shown.simple_casefold, text),
        Listing::ChangesCasefold => text.append(binary(shown.changes_casefold)),
    }
}

/// `Y` or `N`.
fn binary(holds: bool) -> &'static [u8]
    ensures { result.now ≡ binary_value holds }
{
    if holds { b"Y" } else { b"N" }
}

/// `Y`, `N` or `M`. UAX #15, section 9.
fn quick(value: Quick) -> &'static [u8]
    ensures { result.now ≡ quick_value value }
{
    match value {
        Quick::Yes => b"Y",
        Quick::No => b"N",
        Quick::Maybe => b"M",
    }
}

/// A decomposition type. UAX #44, section 5.7.3.
fn kind(kind: Kind) -> &'static [u8]
    ensures { result.now ≡ kind_value kind }
{
    match kind {
        Kind::Plain => b"none",
        Kind::Canonical => b"canonical",
        Kind::Compat(tag) => tag.name(),
    }
}

/// Puts what a code point folds to.
///
/// - `Memory`: memory ran out. A part of it may stand at the end of the text then.
fn put_image(image: &Image, text: &mut Text) -> Result<(), Memory>
    ensures { OnOk result (text.new ≡ text.old ++ image_value image.now) }
{
    match image {
        Image::Same => text.append(b"<code point>"),
        Image::To(points) => put_points(points.as_slice(), text),
    }
}

/// Puts code points with one space between them, or `<none>`.
///
/// - `Memory`: memory ran out. A part of them may stand at the end of the text then.
fn put_points(points: &[Point], text: &mut Text) -> Result<(), Memory>
    ensures { OnOk result (text.new ≡ text.old ++ points_value points.now) }
{
    match points {
        [] => text.append(b"<none>"),
        [first, others @ ..] => {
            put_hex(*first, text)?;
            put_spaced(others, text)
        }
    }
}
