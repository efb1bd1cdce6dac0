//! Shelves and sinks in memory at work. Each is owned by a function that makes one call on it.

ghost use Rattle.std.specs.Prelude.{◌≡◌, ◌++◌, [], IsTrue};
ghost use Rattle.shelf_io.specs.Counts.{Rose};

use shelf_io::{Failed, Found, MemoryShelf, MemorySink, PerfectShelf, ReadStop, Shelf, Sink};
use std::alloc::Global;
use ucd_model::{Memory, Text};

/// Puts two texts, one after the other.
fn put_both<K: Sink>(out: &mut K, first: &[u8], second: &[u8]) -> Result<(), Failed>
    ensures { IsTrue K.tells → ¬ Rose (K.faults out.old) (K.faults out.new)
        → K.written out.new ≡ K.written out.old ++ first.now ++ second.now }
{
    out.put(first)?;
    out.put(second)
}

/// Reads from a shelf of which no read is to fail. Running out of memory is the only stop.
fn read_planned(shelf: &mut MemoryShelf, path: &[u8], into: &mut Vec<u8>) -> Result<Found, Memory>
    requires { shelf.old.reads.failing ≡ [] }
    ensures { shelf.new.reads.failing ≡ [] }
{
    match shelf.read(path, 9, into) {
        Ok(found) => Ok(found),
        Err(ReadStop::Memory) => Err(Memory),
        Err(ReadStop::Failed) => unreachable!(),
    }
}

/// Reads from a shelf that never fails, and writes to it. Running out of memory is the only stop.
fn move_perfectly(
    alloc: Global,
    shelf: &mut PerfectShelf,
    from: &[u8],
    to: Text,
) -> Result<Found, Memory> {
    let mut into = Vec::new(alloc);
    let found = match shelf.read(from, 9, &mut into) {
        Ok(found) => found,
        Err(ReadStop::Memory) => return Err(Memory),
        Err(ReadStop::Failed) => unreachable!(),
    };
    shelf.room(1)?;
    match shelf.write(to, Text::from_vec(into)) {
        Ok(()) => Ok(found),
        Err(Failed) => unreachable!(),
    }
}

/// Whether these bytes were there.
fn are_bytes(held: Option<&[u8]>, bytes: &[u8]) -> bool {
    match held {
        Some(held) => held == bytes,
        None => false,
    }
}

/// A path, how much of it is read, the answer, and what was read if the file is found.
pub type ReadCase<'a> = (&'a [u8], usize, Result<Found, ReadStop>, &'a [u8]);

/// Whether a read of this path gives this.
pub fn read_gives<S: Shelf>(alloc: Global, shelf: &mut S, case: &ReadCase<'_>) -> bool {
    let (path, most, answer, bytes) = *case;
    let mut into = Vec::new(alloc);
    shelf.read(path, most, &mut into) == answer
        && (answer != Ok(Found::Found) || into.as_slice() == bytes)
}

/// The number of the first of these reads that gives something else.
pub fn first_wrong_read<S: Shelf>(
    alloc: Global,
    shelf: &mut S,
    cases: &[ReadCase<'_>],
) -> Option<usize> {
    for (at, case) in cases.iter().enumerate() {
        if !read_gives(alloc, shelf, case) {
            return Some(at);
        }
    }
    None
}

/// What a write of these bytes answers, for which room is made.
pub fn write_once<S: Shelf>(
    alloc: Global,
    shelf: &mut S,
    path: &[u8],
    bytes: &[u8],
) -> Result<Result<(), Failed>, Memory> {
    shelf.room(1)?;
    let path = Text::of(alloc, path)?;
    let bytes = Text::of(alloc, bytes)?;
    Ok(shelf.write(path, bytes))
}

/// Whether a file is moved on a shelf that never fails.
fn moves(alloc: Global, shelf: &mut PerfectShelf) -> Result<bool, Memory> {
    shelf.place(b"d/a", b"front")?;
    let to = Text::of(alloc, b"d/b")?;
    let moved = move_perfectly(alloc, shelf, b"d/a", to)?;
    Ok(moved == Found::Found && are_bytes(shelf.held(b"d/b"), b"front"))
}

/// Whether a file is moved on a new shelf that never fails.
fn is_moved(alloc: Global) -> Result<bool, Memory> {
    moves(alloc, &mut PerfectShelf::new(alloc))
}

#[test]
fn a_file_is_moved_without_a_fault(rt: HostRuntime) -> Result<(), Memory> {
    assert!(rt; is_moved(rt.alloc())?);
    Ok(())
}

/// What a read of a new file answers. No read is to fail.
fn read_placed(alloc: Global, shelf: &mut MemoryShelf) -> Result<Found, Memory>
    requires { shelf.old.reads.failing ≡ [] }
{
    shelf.place(b"a", b"text")?;
    read_planned(shelf, b"a", &mut Vec::new(alloc))
}

/// What a read of a new file on a new shelf answers.
fn read_of_a_new_shelf(alloc: Global) -> Result<Found, Memory> {
    read_placed(alloc, &mut MemoryShelf::new(alloc))
}

#[test]
fn reads_without_planned_faults(rt: HostRuntime) -> Result<(), Memory> {
    assert_eq!(rt; read_of_a_new_shelf(rt.alloc())?, Found::Found);
    Ok(())
}

/// Reads of a file that was replaced, of which the second and the fifth fail.
const FAILING: [ReadCase<'static>; 6] = [
    (b"a", 9, Ok(Found::Found), b"text"),
    (b"a", 9, Err(ReadStop::Failed), b""),
    (b"a", 3, Ok(Found::Found), b"tex"),
    (b"b", 9, Ok(Found::Absent), b""),
    (b"b", 9, Err(ReadStop::Failed), b""),
    (b"a", 0, Ok(Found::Found), b""),
];

/// The first wrong read of such a file.
fn first_wrong_of_failing(alloc: Global, shelf: &mut MemoryShelf) -> Result<Option<usize>, Memory> {
    shelf.place(b"a", b"old")?;
    shelf.place(b"a", b"text")?;
    shelf.fail_read(2)?;
    shelf.fail_read(5)?;
    Ok(first_wrong_read(alloc, shelf, &FAILING))
}

/// The first wrong one of the reads [`FAILING`] on a new shelf, of a file that was replaced. The second and the fifth read fail.
fn first_wrong_in_memory(alloc: Global) -> Result<Option<usize>, Memory> {
    first_wrong_of_failing(alloc, &mut MemoryShelf::new(alloc))
}

#[test]
fn named_reads_fail(rt: HostRuntime) -> Result<(), Memory> {
    assert_eq!(rt; first_wrong_in_memory(rt.alloc())?, None);
    Ok(())
}

const WRITES: [(&[u8], Result<(), Failed>); 3] = [
    (b"a", Ok(())),
    (b"b", Err(Failed)),
    (b"c", Ok(())),
];

/// Whether the second of three writes fails, and leaves the other two.
fn fails_second(alloc: Global, shelf: &mut MemoryShelf) -> Result<bool, Memory> {
    shelf.fail_write(2)?;
    for (path, answer) in &WRITES {
        if write_once(alloc, shelf, path, b"new")? != *answer {
            return Ok(false);
        }
    }
    Ok(
        are_bytes(shelf.held(b"a"), b"new")
            && shelf.held(b"b").is_none()
            && are_bytes(shelf.held(b"c"), b"new"),
    )
}

/// Whether the second of three writes on a new shelf fails, and leaves the other two.
fn fails_second_in_memory(alloc: Global) -> Result<bool, Memory> {
    fails_second(alloc, &mut MemoryShelf::new(alloc))
}

#[test]
fn named_writes_fail(rt: HostRuntime) -> Result<(), Memory> {
    assert!(rt; fails_second_in_memory(rt.alloc())?);
    Ok(())
}

/// Whether a sink with room for five bytes takes five of six.
fn takes_five(sink: &mut MemorySink) -> bool {
    put_both(sink, b"a", b"bc") == Ok(())
        && sink.put(b"def") == Err(Failed)
        && sink.put(b"") == Ok(())
        && sink.written() == b"abcde".as_slice()
}

/// Whether a new sink with room for five bytes takes five of six.
fn takes_what_fits(alloc: Global) -> Result<bool, Memory> {
    Ok(takes_five(&mut MemorySink::new(alloc, 5)?))
}

#[test]
fn a_sink_takes_what_fits(rt: HostRuntime) -> Result<(), Memory> {
    assert!(rt; takes_what_fits(rt.alloc())?);
    Ok(())
}
