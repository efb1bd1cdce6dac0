//! What differs between two records of a code point.

ghost use Rattle.std.specs.Prelude.{◌≡◌, ◌++◌, IfOk, OnOk, codes};
ghost use Rattle.ucd_model.specs.DerivedText.{line_end};
ghost use Rattle.ucd_model.specs.Records.{kept_record};
ghost use Rattle.ucd_points.specs.HexText.{hex_text};
ghost use Rattle.derived_writer.specs.Listings.{listing_section};
ghost use Rattle.record_lines.specs.RecordTexts.{change_line, change_text, file_changes};
ghost use Rattle.record_lines.specs.Values.{value_text};

use crate::value::put_value;
use derived_writer::{Listing, file_listings};
use std::alloc::Global;
use ucd_lines::put_hex;
use ucd_model::{DerivedFile, Memory, Point, Record, Text};

/// Puts what differs between two records of a code point: for each property with another value, in the order of the derived
/// files, a line with the code point, the name of the property, its value before, ` -> `, and its value after. UAX #44,
/// section 5.3.
///
/// - `Memory`: memory ran out. A part of the lines may stand at the end of the text then.
pub fn put_changes(
    alloc: Global,
    point: Point,
    before: &Record,
    after: &Record,
    text: &mut Text,
) -> Result<(), Memory>
    ensures { OnOk result (text.new ≡ text.old
        ++ change_text point (kept_record before.now) (kept_record after.now)) }
{
    'files: for file in DerivedFile::all() {
        put_file_changes(alloc, *file, point, before, after, text)?;
    }
    Ok(())
}

/// Puts the lines of the properties of a derived file that differ.
///
/// - `Memory`: memory ran out. A part of them may stand at the end of the text then.
fn put_file_changes(
    alloc: Global,
    file: DerivedFile,
    point: Point,
    before: &Record,
    after: &Record,
    text: &mut Text,
) -> Result<(), Memory>
    ensures { OnOk result (text.new ≡ text.old
        ++ file_changes point (kept_record before.now) (kept_record after.now) file) }
{
    'listings: for listing in file_listings(file) {
        put_property_change(alloc, *listing, point, before, after, text)?;
    }
    Ok(())
}

/// Puts the line of a property, if it differs.
///
/// - `Memory`: memory ran out. A part of it may stand at the end of the text then.
fn put_property_change(
    alloc: Global,
    listing: Listing,
    point: Point,
    before: &Record,
    after: &Record,
    text: &mut Text,
) -> Result<(), Memory>
    ensures { OnOk result (text.new ≡ text.old
        ++ change_line point (kept_record before.now) (kept_record after.now) listing) }
{
    let old = value_of(alloc, listing, before)?;
    let new = value_of(alloc, listing, after)?;
    if old.as_slice() == new.as_slice() {
        return Ok(());
    }
    put_point_and_name(point, listing, text)?;
    put_values(old.as_slice(), new.as_slice(), text)
}

/// The value of a property in a record.
///
/// - `Memory`: memory ran out.
fn value_of(alloc: Global, listing: Listing, shown: &Record) -> Result<Text, Memory>
    ensures { IfOk result (λ value. value ≡ value_text listing (kept_record shown.now)) }
{
    let mut value = Text::new(alloc);
    put_value(alloc, listing, shown, &mut value)?;
    Ok(value)
}

/// Puts a code point and the name of a property, each with ` ; ` behind it.
///
/// - `Memory`: memory ran out. A part of them may stand at the end of the text then.
fn put_point_and_name(point: Point, listing: Listing, text: &mut Text) -> Result<(), Memory>
    ensures { OnOk result (text.new ≡ text.old ++ hex_text point ++ codes " ; "
        ++ (listing_section listing).name ++ codes " ; ") }
{
    put_hex(point, text)?;
    text.append(b" ; ")?;
    text.append(listing.name())?;
    text.append(b" ; ")
}

/// Puts a value before and one after, with an arrow between them, and ends the line.
///
/// - `Memory`: memory ran out. A part of them may stand at the end of the text then.
fn put_values(old: &[u8], new: &[u8], text: &mut Text) -> Result<(), Memory>
    ensures { OnOk result (text.new ≡ text.old ++ old.now ++ codes " -> " ++ new.now ++ line_end) }
{
    text.append(old)?;
    text.append(b" -> ")?;
    text.append(new)?;
    text.append(b"\n")
}
