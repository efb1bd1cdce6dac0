//! Whole files through the calls of a system, which take a part at a time, and whole texts through a writer.

ghost use Rattle.std.specs.Prelude.{◌≡◌, ◌+◌, ◌<◌, ◌≤◌, ℕ, List, Option, IsTrue, OnOk, OnErr, IfOk, IfErr, IfSome, length, take, vec_len};
ghost use Rattle.std.specs.Io.KnownBytes.{Appends, Consumes, IsAtEnd};
ghost use Rattle.shelf_io.specs.Counts.{Rose};
ghost use Rattle.shelf_io.specs.Systems.{SameEntries};

use crate::shelf::{Failed, ReadStop};
use crate::system::System;
use std::io::Write;
use ucd_points::Memory;

/// How many bytes are asked for at a time.
const CHUNK: usize = 65536;

/// Lengthens a buffer if it is full, to at most `most` bytes, and keeps what was filled.
fn lengthen(into: &mut Vec<u8>, filled: usize, most: usize) -> Result<(), Memory>
    requires within { filled ≤ vec_len into.old }
    requires at_most { vec_len into.old ≤ most }
    requires wanted { filled < most }
    ensures room { OnOk result (filled < vec_len into.new) }
    ensures at_most { OnOk result (vec_len into.new ≤ most) }
    ensures kept { OnOk result (take filled into.new.items ≡ take filled into.old.items) }
{
    if filled == into.len() {
        into.resize(most.min(filled.saturating_add(CHUNK)), 0)?;
    }
    Ok(())
}

/// Fills a buffer from `at` on by one read, and answers how many bytes that took. If the bytes of
/// the file are known, those in front of the new end are what it gave since any start at which this
/// held of those in front of the old one.
fn read_into_tail<S: System>(
    system: &mut S,
    file: &mut S::Opened,
    into: &mut Vec<u8>,
    at: usize,
) -> Result<usize, ReadStop>
    requires { at < vec_len into.old }
    ensures within { IfOk result (λ taken. at + taken ≤ vec_len into.new) }
    ensures same_len { vec_len into.new ≡ vec_len into.old }
    ensures bytes { IfOk result (λ taken. (start : Option (List ℕ))
        → Consumes start (S.Opened.remaining file.old) (take at into.old.items)
        → Consumes start (S.Opened.remaining file.new) (take (at + taken) into.new.items)) }
    ensures end { IfOk result (λ taken. taken ≡ 0 → IsAtEnd (S.Opened.remaining file.new)) }
    ensures failed { OnErr result (result ≡ Err ReadStop.Failed) }
    ensures stays { IsTrue S.tells → SameEntries (S.at system.old) (S.at system.new) }
    ensures failed_only { OnErr result (Rose (S.faults system.old) (S.faults system.new)) }
    ensures faults_never_fall { S.faults system.old ≤ S.faults system.new }
{
    match system.read(file, &mut into[at..]) {
        Ok(taken) => Ok(taken),
        Err(_) => Err(ReadStop::Failed),
    }
}

/// Replaces `into` by the first `most` bytes that are left to read.
///
/// - `Failed`: a read of the system failed.
/// - `Memory`: memory ran out.
///
/// After either `into` holds anything.
pub fn read_most<S: System>(
    system: &mut S,
    file: &mut S::Opened,
    most: usize,
    into: &mut Vec<u8>,
) -> Result<(), ReadStop>
    ensures at_most { OnOk result (length into.new.items ≤ most) }
    ensures bytes { OnOk result (IfSome (S.Opened.remaining file.old)
        (λ left. into.new.items ≡ take most left)) }
    ensures err { OnErr result (0 < most) }
    ensures stays { IsTrue S.tells → SameEntries (S.at system.old) (S.at system.new) }
    ensures failed_only { IfErr result (λ e. e ≡ ReadStop.Failed
        → Rose (S.faults system.old) (S.faults system.new)) }
    ensures faults_never_fall { S.faults system.old ≤ S.faults system.new }
{
    into.clear();
    let mut filled = 0;
    'chunks: while filled < most {
        let Ok(()) = lengthen(into, filled, most) else {
            return Err(ReadStop::Memory);
        };
        let taken = read_into_tail(system, file, into, filled)?;
        if taken == 0 {
            into.truncate(filled);
            return Ok(());
        }
        filled += taken;
    }
    into.truncate(filled);
    Ok(())
}

/// Writes all bytes to a file that was created.
///
/// - `Failed`: a write of the system failed. A prefix of the bytes, and not all of them, was then written.
pub fn write_whole<S: System>(
    system: &mut S,
    file: &mut S::Created,
    bytes: &[u8],
) -> Result<(), Failed>
    ensures ok { OnOk result (Appends (S.Created.contents file.old)
        (S.Created.contents file.new) bytes.now) }
    ensures stays { IsTrue S.tells → SameEntries (S.at system.old) (S.at system.new) }
    ensures failed_only { OnErr result (Rose (S.faults system.old) (S.faults system.new)) }
    ensures faults_never_fall { S.faults system.old ≤ S.faults system.new }
{
    let mut done = 0;
    'rests: while done < bytes.len() {
        match system.write(file, &bytes[done..]) {
            Ok(0) => return Err(Failed),
            Ok(taken) => done += taken,
            Err(_) => return Err(Failed),
        }
    }
    Ok(())
}

/// Writes all bytes to a writer.
///
/// - `Failed`: there was an error, or a write took none of what is left. A prefix of the bytes, and not all of them, was
///   then written.
pub fn write_all<F: Write>(file: &mut F, bytes: &[u8]) -> Result<(), Failed>
    ensures ok { OnOk result (Appends (F.contents file.old) (F.contents file.new) bytes.now) }
    ensures err { OnErr result ((k : ℕ) × (k < length bytes.now)
        × Appends (F.contents file.old) (F.contents file.new) (take k bytes.now)) }
{
    let mut done = 0;
    'rests: while done < bytes.len() {
        match file.write(&bytes[done..]) {
            Ok(0) => return Err(Failed),
            Ok(taken) => done += taken,
            Err(_) => return Err(Failed),
        }
    }
    Ok(())
}
