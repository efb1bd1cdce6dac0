//! The words that a program is given.

ghost use Rattle.std.specs.Prelude.{◌≡◌, IfOk, drop, map, string_bytes};
ghost use Rattle.std.specs.Vec.Iter.{into_iter_items};

use std::alloc::{Allocator, Global};
use std::env::{self, Args};
use std::io;
use std::rt::Env;
use ucd_points::{Memory, Text, Texts};

/// These words, as texts.
///
/// - `Memory`: memory ran out.
fn texts_of<A: Allocator>(alloc: Global, mut args: Args<A>) -> Result<Texts, Memory>
    ensures { IfOk result (λ words. words ≡ map string_bytes (into_iter_items args)) }
{
    let mut words = Texts::new(alloc);
    'words: while let Some(arg) = args.next() {
        words.push(Text::of(alloc, arg.as_bytes())?)?;
    }
    Ok(words)
}

/// The words after the program's name, which is the first of these.
///
/// - `Memory`: memory ran out.
pub fn words_behind<A: Allocator>(alloc: Global, mut args: Args<A>) -> Result<Texts, Memory>
    ensures { IfOk result (λ words. words ≡ map string_bytes (drop 1 (into_iter_items args))) }
{
    let _name = args.next();
    texts_of(alloc, args)
}

/// The words after the program's name. If one of them is not UTF-8, there are none.
///
/// - `Memory`: memory ran out.
pub fn words_of<R: Env + Alloc>(rt: &R, alloc: Global) -> Result<Texts, Memory> {
    match env::args(rt) {
        Ok(args) => words_behind(alloc, args),
        Err(error) if error.kind() == io::ErrorKind::OutOfMemory => Err(Memory),
        Err(_) => Ok(Texts::new(alloc)),
    }
}
