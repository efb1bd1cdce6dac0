//! Loads the items of a file.

ghost use Rattle.std.specs.Prelude.{◌≡◌, ◌≢◌, ◌≤◌, length, IfOk};
ghost use Rattle.std.specs.List.{All, IsDistinct};
ghost use Rattle.std.specs.Option.{IfSome};
ghost use Rattle.ucd_points.specs.Limits.{file_limit};
ghost use Rattle.ucd_points.specs.declared.files.SourceFile.TheVariants.{UnicodeData};
ghost use Rattle.release_rows.specs.Chains.{IsOrderedPlace, places_meet};
ghost use Rattle.release_rows.specs.FileItems.{bytes_of};
ghost use Rattle.release_rows.specs.Loaders.{IsLoaded, LoadsList};
ghost use Rattle.release_rows.specs.Loading.{file_or_fault};
ghost use Rattle.release_rows.specs.Progress.{LoadsItems};
ghost use Rattle.release_rows.specs.Releases.{AreSound};

use crate::extents::Extents;
use crate::file_text::FileText;
use crate::keyed_extent::{KeyedExtent, are_apart};
use crate::laws::loaded_files_are_sound;
use crate::load_stop::LoadStop;
use crate::loading::Loading;
use crate::piece::next_piece;
use crate::stored_item::StoredItem;
use part_list::PartList;
use std::alloc::Global;
use ucd_facts::{Memory, SourceFile, Text};
use ucd_lines::items;

/// Where the items of a file stand in its text, and the keys of its rows, which were not compared.
#[derive(Drop)]
struct Gathered {
    items: PartList<StoredItem>,
    rows: Vec<KeyedExtent>,
}

/// The items of a file and the keys of its rows, if no line breaks a rule by itself.
///
/// - `Fault { line, rule }`: a line breaks a rule.
/// - `Memory`: memory ran out.
#[tactic(auto, unfolding(ucd_points::specs::Limits::file_limit))]
fn gather_all(alloc: Global, file: SourceFile, bytes: &[u8]) -> Result<Gathered, LoadStop>
    requires short { length bytes.now ≤ file_limit }
    requires other { file ≢ UnicodeData }
    ensures ordered { IfOk result (λ made. All IsOrderedPlace made.rows.items) }
    ensures loaded { IfOk result (λ made. IsDistinct places_meet made.rows.items
        → IsLoaded file bytes.now made.items) }
{
    let mut lines = items(bytes);
    let mut loading = Loading::new(alloc, file, bytes);
    let mut rows = Vec::new(alloc);
    'pieces: while let Some(piece) = next_piece(file, &mut lines) {
        loading.load_and_gather(alloc, &mut rows, piece)?;
    }
    let items = loading.into_items();
    Ok(Gathered { items, rows })
}

/// The items, if no two rows have one key and share a code point.
///
/// - `Memory`: memory ran out.
fn items_apart(made: Gathered) -> Result<Option<PartList<StoredItem>>, Memory>
    requires { All IsOrderedPlace made.rows.items }
    ensures { IfOk result (λ found. IfSome found
        (λ items. (items ≡ made.items) × IsDistinct places_meet made.rows.items)) }
{
    let Gathered { items, rows } = made;
    let apart = are_apart(rows)?;
    if apart {
        return Ok(Some(items));
    }
    Ok(None)
}

/// Where the items of a file stand in its text, if no line breaks a rule; `None` if one does. The keys of the rows are
/// compared once all of them are there, so this is for files whose rows come in any order.
///
/// - `Memory`: memory ran out.
fn gathered_items(
    alloc: Global,
    file: SourceFile,
    bytes: &[u8],
) -> Result<Option<PartList<StoredItem>>, Memory>
    requires short { length bytes.now ≤ file_limit }
    requires other { file ≢ UnicodeData }
    ensures { IfOk result (λ found. IfSome found (λ items. IsLoaded file bytes.now items)) }
{
    match gather_all(alloc, file, bytes) {
        Ok(made) => items_apart(made),
        Err(LoadStop::Fault { .. }) => Ok(None),
        Err(LoadStop::Memory) => Err(Memory),
    }
}

/// Where the items of a file stand in its text. Each row is compared with those above it as it comes.
///
/// - `Fault { line, rule }`: the first line that breaks a rule, counted from 1, and the first rule that it breaks.
/// - `Memory`: memory ran out.
#[tactic(auto, unfolding(crate::specs::Loading::file_or_fault, ucd_points::specs::Limits::file_limit))]
fn checked_items(
    alloc: Global,
    file: SourceFile,
    bytes: &[u8],
) -> Result<PartList<StoredItem>, LoadStop>
    requires { length bytes.now ≤ file_limit }
    ensures { LoadsList file bytes.now result }
{
    let mut lines = items(bytes);
    let mut loading = Loading::new(alloc, file, bytes);
    let mut keys = Extents::new(alloc, file);
    'pieces: while let Some(piece) = next_piece(file, &mut lines) {
        loading.load_and_check(alloc, &mut keys, piece)?;
    }
    Ok(loading.into_items())
}

/// Where the items of a file stand in its text. The rows of UnicodeData.txt ascend, so that each is compared with those
/// above it without a search.
///
/// - `Fault { line, rule }`: the first line that breaks a rule, counted from 1, and the first rule that it breaks.
/// - `Memory`: memory ran out.
fn placed_items(
    alloc: Global,
    file: SourceFile,
    bytes: &[u8],
) -> Result<PartList<StoredItem>, LoadStop>
    requires { length bytes.now ≤ file_limit }
    ensures { LoadsList file bytes.now result }
{
    match file {
        SourceFile::UnicodeData => checked_items(alloc, file, bytes),
        _ => match gathered_items(alloc, file, bytes)? {
            Some(items) => Ok(items),
            None => checked_items(alloc, file, bytes),
        },
    }
}

/// The items of a file, in the order of the file. UAX #44, section 4.2. The text is kept, and not copied.
///
/// - `Fault { line, rule }`: the first line that breaks a rule, counted from 1, and the first rule that it breaks.
/// - `Memory`: memory ran out.
pub fn load_items(alloc: Global, file: SourceFile, text: Text) -> Result<FileText, LoadStop>
    requires { length text ≤ file_limit }
    ensures file { IfOk result (λ lists. lists.file ≡ file) }
    ensures answer { LoadsItems result (file_or_fault file text) }
    ensures sound { IfOk result (λ lists. AreSound file lists.now) }
    ensures lossless { IfOk result (λ lists. bytes_of lists.now ≡ text) }
{
    loaded_files_are_sound();
    let items = placed_items(alloc, file, text.as_slice())?;
    Ok(FileText::new(file, text, items))
}
