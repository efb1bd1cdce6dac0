//! The shelf of a system and the sink of a writer at work: on real files, and on readers, writers and a system that
//! were made for it.

ghost use Rattle.std.specs.Prelude.{◌≡◌, ◌≤◌, IsErrAnd, OnErr, OnOk, false, true, if◌then◌else◌, bytes_eq, codes};
ghost use Rattle.std.specs.IoError.{error_kind};
ghost use Rattle.shelf_io.specs.Counts.{Rose};

use crate::shelves::{ReadCase, first_wrong_read, read_gives, write_once};
use shelf_io::{DiskShelf, Failed, Found, OutSink, ReadStop, Shelf, Sink, System};
use std::alloc::Global;
use std::io::{Cursor, ErrorKind, Read, Write};
use std::{fs, io};
use ucd_model::Memory;

/// The folder of the test on real files.
const FOLDER: &str = "shelf_io_files";

/// Paths, what is written there one after the other, and the answer. A full device takes no byte, and no byte is
/// written at the path of a folder, below a file, or if the path is no text.
const WRITES: [(&[u8], &[u8], Result<(), Failed>); 8] = [
    (b"shelf_io_files/deep/file", b"longer text", Ok(())),
    (b"shelf_io_files/deep/file", b"text", Ok(())),
    (b"shelf_io_files/deep/other", b"other text", Ok(())),
    (b"shelf_io_files/deep/empty", b"", Ok(())),
    (b"/dev/full", b"text", Err(Failed)),
    (b"shelf_io_files/deep", b"text", Err(Failed)),
    (b"shelf_io_files/deep/file/below", b"text", Err(Failed)),
    (b"shelf_io_files/\xff", b"text", Err(Failed)),
];

/// What is read afterwards.
const READS: [ReadCase<'static>; 9] = [
    (b"shelf_io_files/deep/file", 9, Ok(Found::Found), b"text"),
    (b"shelf_io_files/deep/file", 2, Ok(Found::Found), b"te"),
    (
        b"shelf_io_files/deep/other",
        99,
        Ok(Found::Found),
        b"other text",
    ),
    (b"shelf_io_files/deep/empty", 9, Ok(Found::Found), b""),
    (b"shelf_io_files/deep/none", 9, Ok(Found::Absent), b""),
    (b"shelf_io_files/none/none", 9, Ok(Found::Absent), b""),
    (b"shelf_io_files/deep", 9, Err(ReadStop::Failed), b""),
    (
        b"shelf_io_files/deep/file/below",
        9,
        Err(ReadStop::Failed),
        b"",
    ),
    (b"shelf_io_files/\xff", 9, Err(ReadStop::Failed), b""),
];

/// The number of the first of these writes that has another answer.
pub fn first_wrong_write<S: Shelf>(
    alloc: Global,
    shelf: &mut S,
    cases: &[(&[u8], &[u8], Result<(), Failed>)],
) -> Result<Option<usize>, Memory> {
    for (at, (path, bytes, answer)) in cases.iter().enumerate() {
        if write_once(alloc, shelf, path, bytes)? != *answer {
            return Ok(Some(at));
        }
    }
    Ok(None)
}

/// The first wrong read of a missing folder, and then the first wrong write and read, by their numbers.
fn first_wrong_of_files<S: Shelf>(
    alloc: Global,
    shelf: &mut S,
) -> Result<[Option<usize>; 3], Memory> {
    let absent = first_wrong_read(alloc, shelf, &READS[5..6]);
    let written = first_wrong_write(alloc, shelf, &WRITES)?;
    Ok([absent, written, first_wrong_read(alloc, shelf, &READS)])
}

#[test]
fn files_of_the_system(rt: HostRuntime) -> Result<(), Memory> {
    let _ = fs::remove_dir_all(&rt, FOLDER);
    let wrong = first_wrong_of_files(rt.alloc(), &mut DiskShelf::new(rt))?;
    let _ = fs::remove_dir_all(&rt, FOLDER);
    assert_eq!(rt; wrong, [None, None, None]);
    Ok(())
}

/// A reader of a few bytes a time, which fails at one of its reads.
#[derive(Drop)]
struct Drip {
    left: usize,
    fails: usize,
}

impl Read for Drip {
    fn read(&mut self, buf: &mut [u8]) -> io::Result<usize> {
        if self.fails == 0 {
            return Err(io::Error::from(io::ErrorKind::Other));
        }
        self.fails -= 1;
        let taken = self.left.min(2).min(buf.len());
        for byte in &mut buf[..taken] {
            *byte = b'x';
        }
        self.left -= taken;
        Ok(taken)
    }
}

/// A writer of a few bytes a time, which takes none once it is full.
#[derive(Drop)]
struct Narrow {
    room: usize,
}

impl Write for Narrow {
    fn write(&mut self, buf: &[u8]) -> io::Result<usize> {
        let taken = self.room.min(2).min(buf.len());
        self.room -= taken;
        Ok(taken)
    }

    fn flush(&mut self) -> io::Result<()> {
        Ok(())
    }
}

/// A system whose files are read and written a few bytes a time. It tells nothing.
#[derive(Drop)]
struct Parts {
    left: usize,
    fails: usize,
    room: usize,
    stops_at: u8,
    faults: u64,
}

impl Parts {
    /// A step of a write, which fails if it is the one to stop at.
    fn step(&mut self, number: u8) -> io::Result<()>
        ensures failed { OnErr result (Rose self.old.faults self.new.faults) }
        ensures uncounted { OnOk result (self.new.faults ≡ self.old.faults) }
        ensures never_falls { self.old.faults ≤ self.new.faults }
    {
        if number == self.stops_at {
            self.count(true);
            return Err(io::Error::from(ErrorKind::Other));
        }
        Ok(())
    }

    /// Counts a call if it failed.
    fn count(&mut self, failed: bool)
        ensures failed { failed ≡ true → Rose self.old.faults self.new.faults }
        ensures uncounted { failed ≡ false → self.new.faults ≡ self.old.faults }
        ensures never_falls { self.old.faults ≤ self.new.faults }
    {
        if failed {
            self.faults = self.faults.saturating_add(1);
        }
    }
}

impl System for Parts {
    ghost use Rattle.std.specs.Prelude.{false};
    ghost use Rattle.shelf_io.specs.Systems.Entry.{Other};

    type Opened = Drip;

    type Created = Narrow;

    ghost tells = { false };

    ghost at = { λ system path. Other };

    ghost replaces = { λ system path. true };

    ghost faults = { λ system. system.faults };

    fn open(&mut self, _path: &str) -> io::Result<Drip> {
        Ok(Drip {
            left: self.left,
            fails: self.fails,
        })
    }

    fn read(&mut self, file: &mut Drip, buf: &mut [u8]) -> io::Result<usize> {
        let answer = file.read(buf);
        self.count(answer.is_err());
        answer
    }

    fn make_folders(&mut self, _path: &str) -> io::Result<()> {
        Ok(())
    }

    fn create(&mut self, _path: &str) -> io::Result<Narrow> {
        Ok(Narrow { room: self.room })
    }

    fn create_beside(&mut self, _path: &str, _beside: &str) -> io::Result<Option<Narrow>> {
        Ok(Some(Narrow { room: self.room }))
    }

    fn write(&mut self, file: &mut Narrow, buf: &[u8]) -> io::Result<usize> {
        let answer = file.write(buf);
        let takes = matches!(answer, Ok(taken) if taken > 0 || buf.is_empty());
        self.count(!takes);
        answer
    }

    fn keep(&mut self, _path: &str, file: Narrow) -> io::Result<()> {
        self.room = file.room;
        self.step(1)
    }

    fn close(&mut self, _path: &str, file: Narrow) {
        self.room = file.room;
    }

    fn rename(&mut self, _from: &str, _to: &str) -> io::Result<()> {
        self.step(2)
    }
}

/// A system whose files have so many bytes, one of whose reads fails, and room for so many.
fn in_parts(left: usize, fails: usize, room: usize) -> DiskShelf<Parts> {
    DiskShelf::over(Parts {
        left,
        fails,
        room,
        stops_at: 0,
        faults: 0,
    })
}

/// How many bytes a file has, which of its reads fails, and what a read gives.
const READS_IN_PARTS: [(usize, usize, ReadCase<'static>); 5] = [
    (5, 9, (b"f", 9, Ok(Found::Found), b"xxxxx")),
    (5, 9, (b"f", 3, Ok(Found::Found), b"xxx")),
    (5, 2, (b"f", 9, Err(ReadStop::Failed), b"")),
    (5, 2, (b"f", 4, Ok(Found::Found), b"xxxx")),
    (0, 1, (b"f", 9, Ok(Found::Found), b"")),
];

#[test]
fn reads_in_parts(rt: HostRuntime) {
    for (left, fails, case) in &READS_IN_PARTS {
        let gives = read_gives(rt.alloc(), &mut in_parts(*left, *fails, 0), case);
        assert!(rt; gives);
    }
}

/// For how many bytes there is room, and what is answered to five bytes, and then to two more.
const WRITES_IN_PARTS: [(usize, Result<(), Failed>, Result<(), Failed>); 4] = [
    (7, Ok(()), Ok(())),
    (6, Ok(()), Err(Failed)),
    (5, Ok(()), Err(Failed)),
    (3, Err(Failed), Err(Failed)),
];

/// What a sink with this room answers to five bytes, and then to two more.
fn puts_in_parts(room: usize) -> (Result<(), Failed>, Result<(), Failed>) {
    let mut sink = OutSink::to(Narrow { room });
    let five = sink.put(b"abcde");
    (five, sink.put(b"fg"))
}

#[test]
fn writes_in_parts(rt: HostRuntime) -> Result<(), Memory> {
    for (room, five, two) in &WRITES_IN_PARTS {
        assert!(rt; puts_in_parts(*room) == (*five, *two));
        let written = write_once(rt.alloc(), &mut in_parts(0, 0, *room), b"f", b"abcde")?;
        assert!(rt; written == *five);
    }
    Ok(())
}

/// What a write answers that stops as the file is kept, or as it is renamed.
fn write_that_stops(alloc: Global, stops_at: u8) -> Result<Result<(), Failed>, Memory> {
    let system = Parts {
        left: 0,
        fails: 0,
        room: 9,
        stops_at,
        faults: 0,
    };
    write_once(alloc, &mut DiskShelf::over(system), b"f", b"abcde")
}

#[test]
fn a_write_fails_at_each_step(rt: HostRuntime) -> Result<(), Memory> {
    for (stops_at, answer) in [(0, Ok(())), (1, Err(Failed)), (2, Err(Failed))] {
        assert_eq!(rt; write_that_stops(rt.alloc(), stops_at)?, answer);
    }
    Ok(())
}

#[test]
fn standard_output_takes_bytes(rt: HostRuntime) {
    let mut out = OutSink::new(rt);
    assert_eq!(rt; out.put(b"a line\n"), Ok(()));
}

/// A system of the folder `d`, the file `d/f` and the name beside it, which tells what is there and never fails but for
/// memory.
#[derive(Drop)]
struct OneFile {
    alloc: Global,
    has_folder: bool,
    is_there: bool,
    bytes: Vec<u8>,
    is_created: bool,
    is_closed: bool,
    is_kept: bool,
    next: Vec<u8>,
    faults: u64,
}

impl OneFile {
    /// A call that fails. It is counted.
    fn fail<T>(&mut self, kind: ErrorKind) -> io::Result<T>
        ensures kind { IsErrAnd result (λ e. error_kind e ≡ kind) }
        ensures stays { self.new ≡ record self.old { faults = self.new.faults } }
        ensures counted { Rose self.old.faults self.new.faults }
        ensures never_falls { self.old.faults ≤ self.new.faults }
    {
        self.faults = self.faults.saturating_add(1);
        Err(io::Error::from(kind))
    }
}

impl System for OneFile {
    ghost use Rattle.shelf_io.specs.Systems.Entry.{Nothing, Folder, File, Kept, Created, Other};

    type Opened = Cursor<Vec<u8>>;

    type Created = Vec<u8>;

    ghost tells = { true };

    ghost at = { λ system path.
        if bytes_eq path (codes "d/f") then (
        if system.is_there then Kept system.bytes.items else Nothing
        ) else if bytes_eq path (codes "d/f.ucdshop-new") then (
        if system.is_created then Created else if system.is_closed then File system.next.items
        else if system.is_kept then Kept system.next.items else Nothing
        ) else if bytes_eq path (codes "d") then (
        if system.has_folder then Folder else Nothing
        ) else Other };

    ghost replaces = { λ system path. bytes_eq path (codes "d/f") };

    ghost faults = { λ system. system.faults };

    fn open(&mut self, path: &str) -> io::Result<Cursor<Vec<u8>>> {
        if path == "d/f" && self.is_there {
            let mut bytes = Vec::new(self.alloc);
            let Ok(()) = bytes.extend_from_slice(self.bytes.as_slice()) else {
                return self.fail(ErrorKind::OutOfMemory);
            };
            return Ok(Cursor::new(bytes));
        }
        if path == "d/f" || (path == "d" && !self.has_folder) {
            return self.fail(ErrorKind::NotFound);
        }
        if path == "d/f.ucdshop-new" && !self.is_created && !self.is_closed && !self.is_kept {
            return self.fail(ErrorKind::NotFound);
        }
        self.fail(ErrorKind::PermissionDenied)
    }

    fn read(&mut self, file: &mut Cursor<Vec<u8>>, buf: &mut [u8]) -> io::Result<usize> {
        match file.read(buf) {
            Ok(taken) => Ok(taken),
            Err(error) => self.fail(error.kind()),
        }
    }

    fn make_folders(&mut self, path: &str) -> io::Result<()> {
        if path != "d" {
            return self.fail(ErrorKind::PermissionDenied);
        }
        self.has_folder = true;
        Ok(())
    }

    fn create(&mut self, _path: &str) -> io::Result<Vec<u8>> {
        self.fail(ErrorKind::PermissionDenied)
    }

    fn create_beside(&mut self, path: &str, _beside: &str) -> io::Result<Option<Vec<u8>>> {
        if path != "d/f" {
            return self.fail(ErrorKind::PermissionDenied);
        }
        self.is_created = true;
        Ok(Some(Vec::new(self.alloc)))
    }

    fn write(&mut self, file: &mut Vec<u8>, buf: &[u8]) -> io::Result<usize> {
        match file.write(buf) {
            Ok(taken) if taken > 0 || buf.is_empty() => Ok(taken),
            Ok(_) => self.fail(ErrorKind::WriteZero),
            Err(error) => self.fail(error.kind()),
        }
    }

    fn keep(&mut self, _path: &str, file: Vec<u8>) -> io::Result<()> {
        self.is_created = false;
        self.is_closed = false;
        self.is_kept = true;
        self.next = file;
        Ok(())
    }

    fn close(&mut self, _path: &str, file: Vec<u8>) {
        self.is_created = false;
        self.is_closed = true;
        self.next = file;
    }

    fn rename(&mut self, _from: &str, to: &str) -> io::Result<()> {
        if to != "d/f" {
            return self.fail(ErrorKind::PermissionDenied);
        }
        self.is_there = true;
        self.bytes = std::mem::replace(&mut self.next, Vec::new(self.alloc));
        self.is_kept = false;
        Ok(())
    }
}

/// The first wrong read before and after a write, on a system that tells what is there.
fn first_wrong_of_one(
    alloc: Global,
    shelf: &mut DiskShelf<OneFile>,
) -> Result<Option<usize>, Memory> {
    let absent: [ReadCase<'_>; 1] = [(b"d/f", 9, Ok(Found::Absent), b"")];
    if let Some(at) = first_wrong_read(alloc, shelf, &absent) {
        return Ok(Some(at));
    }
    let written = write_once(alloc, shelf, b"d/f", b"text")?;
    if written.is_err() {
        return Ok(Some(1));
    }
    let found: [ReadCase<'_>; 1] = [(b"d/f", 3, Ok(Found::Found), b"tex")];
    Ok(first_wrong_read(alloc, shelf, &found))
}

/// The first wrong read before and after a write, on a new system that tells what is there.
fn first_wrong_of_a_system(alloc: Global) -> Result<Option<usize>, Memory> {
    let system = OneFile {
        alloc,
        has_folder: false,
        is_there: false,
        bytes: Vec::new(alloc),
        is_created: false,
        is_closed: false,
        is_kept: false,
        next: Vec::new(alloc),
        faults: 0,
    };
    first_wrong_of_one(alloc, &mut DiskShelf::over(system))
}

#[test]
fn a_system_that_tells(rt: HostRuntime) -> Result<(), Memory> {
    assert_eq!(rt; first_wrong_of_a_system(rt.alloc())?, None);
    Ok(())
}
