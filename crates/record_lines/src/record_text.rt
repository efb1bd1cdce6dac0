//! The text of a record.

ghost use Rattle.std.specs.Prelude.{◌≡◌, ◌++◌, OnOk};
ghost use Rattle.std.specs.List.{flat_map};
ghost use Rattle.ucd_facts.specs.Enumerations.{derived_files};
ghost use Rattle.ucd_model.specs.Records.{kept_record};
ghost use Rattle.record_lines.specs.RecordTexts.{file_values, record_text, value_line};

use crate::value::put_value;
use derived_writer::{Listing, file_listings};
use std::alloc::Global;
use ucd_lines::put_hex;
use ucd_model::{DerivedFile, Memory, Point, Record, Text};

/// Puts the record of a code point at the end of a text: `# ` and the code point, and then a line for each property, its name
/// and its value, in the order of the derived files. Default values are among them. UAX #44, section 5.3.
///
/// - `Memory`: memory ran out. A part of the record may stand at the end of the text then.
pub fn put_record(
    alloc: Global,
    point: Point,
    shown: &Record,
    text: &mut Text,
) -> Result<(), Memory>
    ensures { OnOk result (text.new ≡ text.old ++ record_text point (kept_record shown.now)) }
{
    text.append(b"# ")?;
    put_hex(point, text)?;
    text.append(b"\n")?;
    put_values(alloc, shown, text)
}

/// Puts the lines of all properties.
///
/// - `Memory`: memory ran out. A part of them may stand at the end of the text then.
fn put_values(alloc: Global, shown: &Record, text: &mut Text) -> Result<(), Memory>
    ensures { OnOk result (text.new ≡ text.old
        ++ flat_map (file_values (kept_record shown.now)) derived_files) }
{
    'files: for file in DerivedFile::all() {
        put_file_values(alloc, *file, shown, text)?;
    }
    Ok(())
}

/// Puts the lines of the properties of a derived file.
///
/// - `Memory`: memory ran out. A part of them may stand at the end of the text then.
fn put_file_values(
    alloc: Global,
    file: DerivedFile,
    shown: &Record,
    text: &mut Text,
) -> Result<(), Memory>
    ensures { OnOk result (text.new ≡ text.old ++ file_values (kept_record shown.now) file) }
{
    'listings: for listing in file_listings(file) {
        put_line(alloc, *listing, shown, text)?;
    }
    Ok(())
}

/// Puts the line of a property.
///
/// - `Memory`: memory ran out. A part of it may stand at the end of the text then.
fn put_line(alloc: Global, listing: Listing, shown: &Record, text: &mut Text) -> Result<(), Memory>
    ensures { OnOk result (text.new ≡ text.old ++ value_line (kept_record shown.now) listing) }
{
    text.append(listing.name())?;
    text.append(b" ; ")?;
    put_value(alloc, listing, shown, text)?;
    text.append(b"\n")
}
