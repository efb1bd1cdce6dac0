//! The shelf of the system at work on real files that were there before: which one is replaced by another file, and which
//! one is written where it stands.

use crate::shelves::{ReadCase, first_wrong_read, write_once};
use crate::systems::first_wrong_write;
use shelf_io::{DiskShelf, Failed, Found, ReadStop, Shelf};
use std::alloc::Global;
use std::os::unix::fs::{MetadataExt, PermissionsExt, symlink};
use std::rt::Files;
use std::{fs, io};
use ucd_model::Memory;

/// The folder of these tests.
const FOLDER: &str = "shelf_io_replacing";

/// The files that stand there before: two names of one file, one with a link to it, one with what an earlier run left
/// beside it, and one beside which there is a folder.
const FILES: [&str; 5] = [
    "shelf_io_replacing/file",
    "shelf_io_replacing/target",
    "shelf_io_replacing/left",
    "shelf_io_replacing/left.ucdshop-new",
    "shelf_io_replacing/taken",
];

/// Makes them.
fn make_files<R: Files>(files: &R) -> io::Result<()> {
    fs::create_dir_all(files, "shelf_io_replacing/taken.ucdshop-new")?;
    for path in FILES {
        fs::write(files, path, "old and long")?;
    }
    fs::hard_link(files, "shelf_io_replacing/file", "shelf_io_replacing/other")?;
    symlink(files, "target", "shelf_io_replacing/link")
}

/// What is written, and the answer.
const WRITES: [(&[u8], &[u8], Result<(), Failed>); 6] = [
    (b"shelf_io_replacing/file", b"new", Ok(())),
    (b"shelf_io_replacing/link", b"new", Ok(())),
    (b"shelf_io_replacing/left", b"new", Ok(())),
    (b"shelf_io_replacing/taken", b"new", Err(Failed)),
    (
        b"/proc/self/cwd/shelf_io_replacing/absolute",
        b"new",
        Ok(()),
    ),
    (b"shelf_io_replacing/f.ucdshop-new", b"new", Err(Failed)),
];

/// What is read afterwards.
const READS: [ReadCase<'static>; 8] = [
    (b"shelf_io_replacing/file", 99, Ok(Found::Found), b"new"),
    (
        b"shelf_io_replacing/other",
        99,
        Ok(Found::Found),
        b"old and long",
    ),
    (b"shelf_io_replacing/target", 99, Ok(Found::Found), b"new"),
    (b"shelf_io_replacing/left", 99, Ok(Found::Found), b"new"),
    (
        b"shelf_io_replacing/taken",
        99,
        Ok(Found::Found),
        b"old and long",
    ),
    (b"shelf_io_replacing/absolute", 99, Ok(Found::Found), b"new"),
    (
        b"shelf_io_replacing/left.ucdshop-new",
        99,
        Err(ReadStop::Failed),
        b"",
    ),
    (b"shelf_io_replacing/f", 99, Ok(Found::Absent), b""),
];

/// The first wrong write and the first wrong read, by their numbers.
fn first_wrong<S: Shelf>(alloc: Global, shelf: &mut S) -> Result<[Option<usize>; 2], Memory> {
    let written = first_wrong_write(alloc, shelf, &WRITES)?;
    Ok([written, first_wrong_read(alloc, shelf, &READS)])
}

/// Whether the link is one still, nothing is left beside, and a file has its mode.
fn stands_as_before<R: Files>(files: &R) -> io::Result<bool> {
    let link = fs::symlink_metadata(files, "shelf_io_replacing/link")?;
    let file = fs::metadata(files, "shelf_io_replacing/file")?;
    let left = fs::exists(files, "shelf_io_replacing/left.ucdshop-new")?;
    Ok(link.is_symlink() && !left && file.mode() & 0o777 == 0o640)
}

/// Gives a file a mode of its own.
fn set_mode<R: Files>(files: &R) -> io::Result<()> {
    let mut mode = fs::metadata(files, "shelf_io_replacing/file")?.permissions();
    mode.set_mode(0o640);
    fs::set_permissions(files, "shelf_io_replacing/file", mode)
}

#[test]
fn files_are_replaced(rt: HostRuntime) -> Result<(), Memory> {
    let _ = fs::remove_dir_all(&rt, FOLDER);
    let made = make_files(&rt).is_ok() && set_mode(&rt).is_ok();
    let wrong = first_wrong(rt.alloc(), &mut DiskShelf::new(rt))?;
    let stands = stands_as_before(&rt).unwrap_or(false);
    let _ = fs::remove_dir_all(&rt, FOLDER);
    assert!(rt; made);
    assert_eq!(rt; wrong, [None, None]);
    assert!(rt; stands);
    Ok(())
}

/// Whether so many bytes are read as they were written.
fn is_read_back<S: Shelf>(alloc: Global, shelf: &mut S, size: usize) -> Result<bool, Memory> {
    let path = b"shelf_io_long/file".as_slice();
    let mut bytes = Vec::new(alloc);
    bytes.resize(size, b'x')?;
    let written = write_once(alloc, shelf, path, &bytes)?;
    let mut into = Vec::new(alloc);
    let found = shelf.read(path, usize::MAX, &mut into);
    Ok(written.is_ok() && found == Ok(Found::Found) && into == bytes)
}

#[test]
fn long_files_are_written_over(rt: HostRuntime) -> Result<(), Memory> {
    let _ = fs::remove_dir_all(&rt, "shelf_io_long");
    let mut shelf = DiskShelf::new(rt);
    let long = is_read_back(rt.alloc(), &mut shelf, 5_000_000);
    let short = is_read_back(rt.alloc(), &mut shelf, 3);
    let _ = fs::remove_dir_all(&rt, "shelf_io_long");
    assert_eq!(rt; (long?, short?), (true, true));
    Ok(())
}
