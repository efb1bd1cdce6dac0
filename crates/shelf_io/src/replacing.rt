//! The system's calls by which a file is made that can take the place of another. This file is trusted, as the system is.

use std::fs::{Metadata, OpenFile, OpenOptions};
use std::io::ErrorKind;
use std::os::unix::fs::{MetadataExt, OpenOptionsExt, chown};
use std::rt::Files;
use std::{fs, io};

/// What stands at a name.
#[derive(Drop)]
enum Standing {
    Nothing,
    File(Metadata),
    Other,
}

/// What stands at a name, itself and not what it links to. A file has to be one that may be written to.
fn standing_at<R: Files>(files: &R, path: &str) -> io::Result<Standing> {
    let found = match fs::symlink_metadata(files, path) {
        Ok(found) => found,
        Err(error) if error.kind() == ErrorKind::NotFound => return Ok(Standing::Nothing),
        Err(error) => return Err(error),
    };
    if !found.is_file() {
        return Ok(Standing::Other);
    }
    OpenOptions::new().write(true).open(files, path)?;
    Ok(Standing::File(found))
}

/// Removes what an earlier run left at a name.
fn remove_leftover<R: Files>(files: &R, path: &str) -> io::Result<()> {
    match fs::remove_file(files, path) {
        Err(error) if error.kind() != ErrorKind::NotFound => Err(error),
        _ => Ok(()),
    }
}

/// Creates a file where nothing is. Whoever may read and write the other file may read and write it.
fn create_like<R: Files>(files: &R, path: &str, other: &Metadata) -> io::Result<R::File> {
    let file = OpenOptions::new()
        .write(true)
        .create_new(true)
        .mode(other.mode() & 0o777)
        .open(files, path)?;
    let made = file.metadata()?;
    if (made.uid(), made.gid()) != (other.uid(), other.gid()) {
        chown(files, path, Some(other.uid()), Some(other.gid()))?;
    }
    file.set_permissions(other.permissions())?;
    Ok(file)
}

/// Creates an empty file beside a name, in place of what an earlier run left there.
fn create_beside<R: Files>(files: &R, path: &str, beside: &str) -> io::Result<Option<R::File>> {
    let found = standing_at(files, path)?;
    if let Standing::Other = found {
        return Ok(None);
    }
    remove_leftover(files, beside)?;
    match found {
        Standing::File(other) => Ok(Some(create_like(files, beside, &other)?)),
        _ => Ok(Some(fs::File::create_new(files, beside)?)),
    }
}

/// Creates an empty file beside a name, in place of what an earlier run left there. `None` if the name is one of a link or a
/// device, its folder takes no new file, or a new file cannot have the owner of the old one.
pub fn create_beside_if_permitted<R: Files>(
    files: &R,
    path: &str,
    beside: &str,
) -> io::Result<Option<R::File>> {
    match create_beside(files, path, beside) {
        Err(error) if error.kind() == ErrorKind::PermissionDenied => {
            let _ = remove_leftover(files, beside);
            Ok(None)
        }
        answer => answer,
    }
}
