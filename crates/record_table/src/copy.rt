//! Copies records.

ghost use Rattle.std.specs.Prelude.{◌≡◌, IfOk};

use std::alloc::Global;
use ucd_model::{Image, Memory, Points, Record};

/// A copy of a record.
///
/// - `Memory`: memory ran out.
pub fn copied_record(alloc: Global, shown: &Record) -> Result<Record, Memory>
    ensures { IfOk result (λ copy. copy ≡ shown.now) }
{
    let casefold = copied_image(alloc, &shown.casefold)?;
    let simple_casefold = copied_image(alloc, &shown.simple_casefold)?;
    Ok(Record {
        category: shown.category,
        class: shown.class,
        kind: shown.kind,
        core: shown.core,
        exclusion: shown.exclusion,
        nfd: shown.nfd,
        nfc: shown.nfc,
        nfkd: shown.nfkd,
        nfkc: shown.nfkc,
        casefold,
        simple_casefold,
        changes_casefold: shown.changes_casefold,
    })
}

/// A copy of an image.
///
/// - `Memory`: memory ran out.
fn copied_image(alloc: Global, image: &Image) -> Result<Image, Memory>
    ensures { IfOk result (λ copy. copy ≡ image.now) }
{
    match image {
        Image::Same => Ok(Image::Same),
        Image::To(points) => Ok(Image::To(Points::of(alloc, points.as_slice())?)),
    }
}
