//! The shelf of the files of a system.

ghost use Rattle.std.specs.Prelude.{◌≡◌, ◌≤◌, ◌-◌, ◌^◌, ℕ, List, [], None, Some, false, true, Ok, Err, IsTrue, OnOk, OnErr, IfSome, MatchOption, IsOk, IsErr, is_err, length, take};
ghost use Rattle.shelf_io.specs.Counts.{Rose, faults_after};
ghost use Rattle.shelf_io.specs.Contents.{SameContents, OnlyPath};
ghost use Rattle.shelf_io.specs.Answers.{Reads, OnFound, OnAbsent, OnReadFailed, has_failed};
ghost use Rattle.shelf_io.specs.Beside.{IsName, IsShort, OnlyBoth, NothingNew, beside as beside_name, shown_of};
ghost use Rattle.shelf_io.specs.Systems.{Entry, SameEntries, file_of, files_of, folder_of};
ghost use Rattle.shelf_io.specs.Systems.Entry.{Nothing, Folder, Created};

use crate::beside::{LONGEST, beside_in, is_beside};
use crate::shelf::{Failed, Found, ReadStop, Shelf};
use crate::system::System;
use crate::system_calls::SystemCalls;
use crate::transfer::{read_most, write_whole};
use std::io::ErrorKind;
use std::marker::Model;
use std::rt::Files;
use std::str::from_utf8;
use ucd_points::{Memory, Text};

/// The files of a system. It tells what they hold if the system does, and counts what failed.
///
/// A write makes the folders that are missing. It writes a file beside its name, the path and `.ucdshop-new`, and
/// renames that over the name, so a write that fails leaves the old file whole. What the system does not replace in
/// this way, such as a device, is written where it stands. Each read and write of a path fails if the path is not
/// UTF-8, or ends as the names beside others do.
#[derive(Drop)]
pub struct DiskShelf<S: System> {
    system: S,
    read_faults: u64,
    write_faults: u64,
}

impl<S: System> Model for DiskShelf<S> {
    ghost use Rattle.shelf_io.specs.Systems.{DiskView};

    ghost Value = { DiskView S };

    ghost view = { λ a. record {
      system = a.system;
      read_faults = a.read_faults;
      write_faults = a.write_faults;
    } };
}

impl<R: Files> DiskShelf<SystemCalls<R>> {
    /// The files that this runtime reaches. Nothing has failed yet.
    pub fn new(runtime: R) -> DiskShelf<SystemCalls<R>>
        ensures no_read_failed { result.read_faults ≡ 0 }
        ensures no_write_failed { result.write_faults ≡ 0 }
    {
        DiskShelf::over(SystemCalls::new(runtime))
    }
}

impl<S: System> DiskShelf<S> {
    /// The files of this system. Nothing has failed yet.
    pub fn over(system: S) -> DiskShelf<S>
        ensures { result ≡ record { system = system; read_faults = 0; write_faults = 0 } }
    {
        DiskShelf {
            system,
            read_faults: 0,
            write_faults: 0,
        }
    }
}

/// A path as a text, or `None` if it is not UTF-8, or is the name beside another path.
fn path_text_unless_beside(path: &[u8]) -> Option<&str>
    ensures { MatchOption result (¬ IsName path.now)
        (λ name. (name.now ≡ path.now) × IsName path.now) }
{
    if is_beside(path) {
        return None;
    }
    from_utf8(path).ok()
}

/// Reads a file. A missing one is Absent, and every other error is a failed read.
///
/// - `Failed`: the path is not UTF-8 or is beside another, or a call of the system failed.
/// - `Memory`: memory ran out.
fn read_file<S: System>(
    system: &mut S,
    path: &[u8],
    most: usize,
    into: &mut Vec<u8>,
) -> Result<Found, ReadStop>
    ensures contents { IsTrue S.tells
        → Reads result (shown_of (S.at system.old) path.now) most into.new.items }
    ensures missing { IsTrue S.tells → IsName path.now → S.at system.old path.now ≡ Nothing
        → result ≡ Ok Found.Absent }
    ensures absent_only { IsTrue S.tells → OnAbsent result (S.at system.old path.now ≡ Nothing) }
    ensures not_name { ¬ IsName path.now → result ≡ Err ReadStop.Failed }
    ensures at_most { OnFound result (length into.new.items ≤ most) }
    ensures absent { OnAbsent result (into.new.items ≡ into.old.items) }
    ensures stays { IsTrue S.tells → SameEntries (S.at system.old) (S.at system.new) }
    ensures caused { IsName path.now
        → OnReadFailed result (Rose (S.faults system.old) (S.faults system.new)) }
    ensures faults_never_fall { S.faults system.old ≤ S.faults system.new }
{
    let Some(path) = path_text_unless_beside(path) else {
        return Err(ReadStop::Failed);
    };
    match system.open(path) {
        Ok(file) => read_opened(system, file, most, into),
        Err(error) if error.kind() == ErrorKind::NotFound => Ok(Found::Absent),
        Err(_) => Err(ReadStop::Failed),
    }
}

/// Replaces `into` by the first `most` bytes of a file that was opened.
///
/// - `Failed`: a call of the system failed.
/// - `Memory`: memory ran out.
fn read_opened<S: System>(
    system: &mut S,
    mut file: S::Opened,
    most: usize,
    into: &mut Vec<u8>,
) -> Result<Found, ReadStop>
    ensures at_most { OnFound result (length into.new.items ≤ most) }
    ensures found { OnAbsent result ⊥ }
    ensures bytes { OnFound result
        (IfSome (S.Opened.remaining file) (λ left. into.new.items ≡ take most left)) }
    ensures stays { IsTrue S.tells → SameEntries (S.at system.old) (S.at system.new) }
    ensures failed_only { OnReadFailed result (Rose (S.faults system.old) (S.faults system.new)) }
    ensures faults_never_fall { S.faults system.old ≤ S.faults system.new }
{
    read_most(system, &mut file, most, into)?;
    Ok(Found::Found)
}

/// Makes the folders of a path that are missing. No file changes.
///
/// - `Failed`: a call of the system failed.
fn make_folders_of<S: System>(system: &mut S, path: &str) -> Result<(), Failed>
    ensures made { IsTrue S.tells → OnOk result
        (IfSome (folder_of path.now) (λ folder. S.at system.new folder ≡ Folder)) }
    ensures files_stay { IsTrue S.tells
        → SameContents (files_of (S.at system.old)) (files_of (S.at system.new)) }
    ensures replaces_stay { IsTrue S.tells → (q : List ℕ)
        → S.replaces system.new q ≡ S.replaces system.old q }
    ensures failed_only { OnErr result (Rose (S.faults system.old) (S.faults system.new)) }
    ensures faults_never_fall { S.faults system.old ≤ S.faults system.new }
{
    let Some((folder, _)) = path.rsplit_once('/') else {
        return Ok(());
    };
    match system.make_folders(folder) {
        Ok(()) => Ok(()),
        Err(_) => Err(Failed),
    }
}

/// Makes the folders of a path that are missing, and replaces the file.
///
/// - `Failed`: the path is not UTF-8 or is beside another, or a call of the system failed. A file that the system
///   replaces by renaming is then as it was.
fn write_file<S: System>(system: &mut S, path: &[u8], bytes: &[u8]) -> Result<(), Failed>
    ensures ok { IsTrue S.tells → OnOk result
        (files_of (S.at system.new) path.now ≡ Some bytes.now) }
    ensures left { IsTrue S.tells
        → OnOk result (NothingNew (beside_name path.now) (files_of (S.at system.old))
        (files_of (S.at system.new))) }
    ensures kept { IsTrue S.tells
        → OnErr result (IsShort path.now → S.replaces system.old path.now ≡ true
        → files_of (S.at system.new) path.now ≡ files_of (S.at system.old) path.now) }
    ensures others { IsTrue S.tells
        → OnlyBoth path.now (files_of (S.at system.old)) (files_of (S.at system.new)) }
    ensures named { OnOk result (IsName path.now) }
    ensures caused { IsName path.now
        → OnErr result (Rose (S.faults system.old) (S.faults system.new)) }
    ensures faults_never_fall { S.faults system.old ≤ S.faults system.new }
{
    let Some(path) = path_text_unless_beside(path) else {
        return Err(Failed);
    };
    make_folders_of(system, path)?;
    let mut buffer = [0; LONGEST];
    match beside_in(path.as_bytes(), &mut buffer) {
        Some(beside) => write_beside_or_in_place(system, path, beside, bytes),
        None => write_in_place(system, path, bytes),
    }
}

/// Writes a file beside its name, in a folder that is there, and renames it over the name. What the system does not
/// replace in this way is written where it stands.
///
/// - `Failed`: a call of the system failed.
fn write_beside_or_in_place<S: System>(
    system: &mut S,
    path: &str,
    beside: &str,
    bytes: &[u8],
) -> Result<(), Failed>
    requires folder { IsTrue S.tells
        → IfSome (folder_of path.now) (λ folder. S.at system.old folder ≡ Folder) }
    requires beside { beside.now ≡ beside_name path.now }
    ensures ok { IsTrue S.tells → OnOk result
        (files_of (S.at system.new) path.now ≡ Some bytes.now) }
    ensures left { IsTrue S.tells → OnOk result
        (NothingNew beside.now (files_of (S.at system.old)) (files_of (S.at system.new))) }
    ensures kept { IsTrue S.tells → OnErr result (S.replaces system.old path.now ≡ true
        → files_of (S.at system.new) path.now ≡ files_of (S.at system.old) path.now) }
    ensures others { IsTrue S.tells
        → OnlyBoth path.now (files_of (S.at system.old)) (files_of (S.at system.new)) }
    ensures failed_only { OnErr result (Rose (S.faults system.old) (S.faults system.new)) }
    ensures faults_never_fall { S.faults system.old ≤ S.faults system.new }
{
    match system.create_beside(path, beside) {
        Ok(Some(file)) => replace(system, path, beside, file, bytes),
        Ok(None) => write_in_place(system, path, bytes),
        Err(_) => Err(Failed),
    }
}

/// Writes a file that was created beside a path, has the system keep it, and renames it over the path.
///
/// - `Failed`: a call of the system failed. What is at the path is as it was.
fn replace<S: System>(
    system: &mut S,
    path: &str,
    beside: &str,
    mut new: S::Created,
    bytes: &[u8],
) -> Result<(), Failed>
    requires beside { beside.now ≡ beside_name path.now }
    requires created { IsTrue S.tells → S.at system.old beside.now ≡ Created }
    requires empty { IsTrue S.tells → S.Created.contents new ≡ Some [] }
    ensures ok { IsTrue S.tells → OnOk result
        (files_of (S.at system.new) path.now ≡ Some bytes.now) }
    ensures left { IsTrue S.tells → OnOk result (files_of (S.at system.new) beside.now ≡ None) }
    ensures kept { IsTrue S.tells → OnErr result
        (files_of (S.at system.new) path.now ≡ files_of (S.at system.old) path.now) }
    ensures others { IsTrue S.tells
        → OnlyBoth path.now (files_of (S.at system.old)) (files_of (S.at system.new)) }
    ensures failed_only { OnErr result (Rose (S.faults system.old) (S.faults system.new)) }
    ensures faults_never_fall { S.faults system.old ≤ S.faults system.new }
{
    write_whole(system, &mut new, bytes)?;
    let Ok(()) = system.keep(beside, new) else {
        return Err(Failed);
    };
    match system.rename(beside, path) {
        Ok(()) => Ok(()),
        Err(_) => Err(Failed),
    }
}

/// Replaces the bytes of a file where it stands, in a folder that is there.
///
/// - `Failed`: a call of the system failed. The path may then hold anything.
fn write_in_place<S: System>(system: &mut S, path: &str, bytes: &[u8]) -> Result<(), Failed>
    requires folder { IsTrue S.tells
        → IfSome (folder_of path.now) (λ folder. S.at system.old folder ≡ Folder) }
    ensures ok { IsTrue S.tells → OnOk result
        (files_of (S.at system.new) path.now ≡ Some bytes.now) }
    ensures others { IsTrue S.tells
        → OnlyPath path.now (files_of (S.at system.old)) (files_of (S.at system.new)) }
    ensures failed_only { OnErr result (Rose (S.faults system.old) (S.faults system.new)) }
    ensures faults_never_fall { S.faults system.old ≤ S.faults system.new }
{
    let Ok(mut file) = system.create(path) else {
        return Err(Failed);
    };
    write_whole(system, &mut file, bytes)?;
    system.close(path, file);
    Ok(())
}

/// A count of faults after a call that failed, or did not.
fn counted_if_failed(before: u64, failed: bool) -> u64
    ensures value { result ≡ faults_after failed before }
    ensures never_falls { before ≤ result }
{
    if failed {
        before.saturating_add(1)
    } else {
        before
    }
}

impl<S: System> Shelf for DiskShelf<S> {
    ghost tells = { S.tells };

    ghost holds = { λ shelf. shown_of (S.at shelf.system) };

    ghost read_faults = { λ shelf. shelf.read_faults };

    ghost write_faults = { λ shelf. shelf.write_faults };

    ghost tells_failed = { false };

    ghost last_failed = { λ _. [] };

    ghost spare = { λ _. 2 ^ 64 - 1 };

    fn read(&mut self, path: &[u8], most: usize, into: &mut Vec<u8>) -> Result<Found, ReadStop>
        ensures contents { IsTrue S.tells →
            Reads result (shown_of (S.at self.old.system) path.now) most into.new.items }
        ensures missing { IsTrue S.tells → IsName path.now → S.at self.old.system path.now ≡ Nothing
            → result ≡ Ok Found.Absent }
        ensures absent_only { IsTrue S.tells →
            OnAbsent result (S.at self.old.system path.now ≡ Nothing) }
        ensures not_name { ¬ IsName path.now → result ≡ Err ReadStop.Failed }
        ensures at_most { OnFound result (length into.new.items ≤ most) }
        ensures absent { OnAbsent result (into.new.items ≡ into.old.items) }
        ensures stays { IsTrue S.tells → SameEntries (S.at self.old.system) (S.at self.new.system) }
        ensures held_stays { IsTrue S.tells →
            SameContents (shown_of (S.at self.old.system)) (shown_of (S.at self.new.system)) }
        ensures caused { IsName path.now →
            OnReadFailed result (Rose (S.faults self.old.system) (S.faults self.new.system)) }
        ensures counted { self.new.read_faults
            ≡ faults_after (has_failed result) self.old.read_faults }
        ensures write_faults_stay { self.new.write_faults ≡ self.old.write_faults }
        ensures read_faults_never_fall { self.old.read_faults ≤ self.new.read_faults }
    {
        let answer = read_file(&mut self.system, path, most, into);
        if let Err(ReadStop::Failed) = answer {
            self.read_faults = self.read_faults.saturating_add(1);
        }
        answer
    }

    fn room(&mut self, writes: usize) -> Result<(), Memory>
        ensures ok { IsOk result }
        ensures within { writes ≤ 2 ^ 64 - 1 }
        ensures stays { self.new ≡ self.old }
    {
        let _ = writes;
        Ok(())
    }

    fn write(&mut self, path: Text, bytes: Text) -> Result<(), Failed>
        ensures ok { IsTrue S.tells
            → OnOk result (shown_of (S.at self.new.system) path ≡ Some bytes) }
        ensures others { IsTrue S.tells →
            OnlyPath path (shown_of (S.at self.old.system)) (shown_of (S.at self.new.system)) }
        ensures only_both { IsTrue S.tells →
            OnlyBoth path (files_of (S.at self.old.system)) (files_of (S.at self.new.system)) }
        ensures left { IsTrue S.tells
            → OnOk result (NothingNew (beside_name path) (files_of (S.at self.old.system))
            (files_of (S.at self.new.system))) }
        ensures kept { IsTrue S.tells
            → OnErr result (IsShort path → S.replaces self.old.system path ≡ true
            → files_of (S.at self.new.system) path ≡ files_of (S.at self.old.system) path) }
        ensures named { OnOk result (IsName path) }
        ensures caused { IsName path
            → OnErr result (Rose (S.faults self.old.system) (S.faults self.new.system)) }
        ensures counted { self.new.write_faults
            ≡ faults_after (is_err result) self.old.write_faults }
        ensures read_faults_stay { self.new.read_faults ≡ self.old.read_faults }
        ensures write_faults_never_fall { self.old.write_faults ≤ self.new.write_faults }
    {
        let answer = write_file(&mut self.system, path.as_slice(), bytes.as_slice());
        self.write_faults = counted_if_failed(self.write_faults, answer.is_err());
        answer
    }
}
