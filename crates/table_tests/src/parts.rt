//! Edits at random, beside the same edits of a plain list.

ghost use Rattle.std.specs.Prelude.{◌<◌, nat_eq, vec_len};
ghost use Rattle.part_list.specs.Parts.{IsEntry};

use part_list::{Entries, Entry, PartList, Reach, Seek, Spot};
use std::alloc::Global;
use std::process::Abort;
use ucd_facts::Memory;

/// Passes the entries whose first code point is this.
#[derive(Clone, Copy)]
struct Code {
    code: u32,
}

impl Seek<u32> for Code {
    ghost passing = { λ seek entry. nat_eq entry.code seek.code };

    fn passes(&self, entry: &Entry<u32>) -> bool {
        entry.code == self.code
    }

    fn skips(&self, reach: Reach) -> bool {
        self.code < reach.least || reach.most < self.code
    }

    fn points(&self) -> Option<(u32, u32)> {
        Some((self.code, self.code))
    }
}

/// An entry of the code points from `code` to `code + 2`.
fn entry(code: u32) -> Entry<u32> {
    let code = code % 0x11_0000;
    Entry {
        code,
        last: code + 2,
        tag: code,
        item: code,
    }
}

/// The number that follows in a row of numbers that look random.
fn follows(number: u32) -> u32 {
    (number % 0x1_0000) * 25_173 % 0x1_0000 + 13_849
}

/// Does one edit on both lists: the first entry of a code point is given another before it, replaced, replaced with
/// another behind it, or removed. If there is none, one is put at the end. If one list has it and the other has
/// not, they differ from then on.
fn edit(list: &mut PartList<u32>, plain: &mut Vec<u32>, code: u32, how: u32) -> Result<(), Memory> {
    let code = code % 0x11_0000;
    let place = plain.iter().position(|other| *other == code);
    match (list.first(&Code { code }), place) {
        (None, None) => put_behind(list, plain, code),
        (Some(spot), Some(at)) => edit_at(list, plain, spot, at, code, how),
        _ => Ok(plain.push(u32::MAX)?),
    }
}

/// Puts a code point at the end of both lists.
fn put_behind(list: &mut PartList<u32>, plain: &mut Vec<u32>, code: u32) -> Result<(), Memory> {
    list.push_next(entry(code))?;
    Ok(plain.push(code)?)
}

/// Does one edit on both lists, at the places that a code point has.
fn edit_at(
    list: &mut PartList<u32>,
    plain: &mut Vec<u32>,
    spot: Spot,
    at: usize,
    code: u32,
    how: u32,
) -> Result<(), Memory>
    requires spot { IsEntry list.old.next spot }
    requires at { at < vec_len plain.old }
    requires code { code < 0x11_0000 }
{
    match how % 4 {
        0 => insert_at(list, plain, spot, at, code + 1),
        1 => {
            list.replace(spot, entry(code + 2))?;
            plain[at] = code + 2;
            Ok(())
        }
        2 => replace_and_insert_at(list, plain, spot, at, code),
        _ => {
            list.remove(spot)?;
            plain.remove(at);
            Ok(())
        }
    }
}

/// Puts a code point before these places.
fn insert_at(
    list: &mut PartList<u32>,
    plain: &mut Vec<u32>,
    spot: Spot,
    at: usize,
    code: u32,
) -> Result<(), Memory>
    requires spot { IsEntry list.old.next spot }
    requires at { at < vec_len plain.old }
{
    list.insert(spot, entry(code))?;
    Ok(plain.insert(at, code)?)
}

/// Replaces a code point at these places by a greater one, and puts it behind that.
fn replace_and_insert_at(
    list: &mut PartList<u32>,
    plain: &mut Vec<u32>,
    spot: Spot,
    at: usize,
    code: u32,
) -> Result<(), Memory>
    requires spot { IsEntry list.old.next spot }
    requires at { at < vec_len plain.old }
    requires code { code < 0x11_0000 }
{
    list.replace_and_insert(spot, entry(code + 3), entry(code))?;
    plain[at] = code;
    Ok(plain.insert(at, code + 3)?)
}

/// Whether these are the first code points of entries.
fn has_codes(mut entries: Entries<'_, u32>, codes: &[u32]) -> bool {
    for code in codes {
        let Some(entry) = entries.next() else {
            return false;
        };
        if entry.code != *code {
            return false;
        }
    }
    entries.next().is_none()
}

/// A list, and the plain lists of what it has now and next.
#[derive(Drop)]
struct Both {
    list: PartList<u32>,
    now: Vec<u32>,
    next: Vec<u32>,
}

impl Both {
    /// Lists of so many entries, each as far behind the one before.
    fn filled(alloc: Global, count: u32, step: u32) -> Result<Both, Memory> {
        let mut both = Both {
            list: PartList::new(alloc),
            now: Vec::new(alloc),
            next: Vec::new(alloc),
        };
        both.fill(count, step)?;
        Ok(both)
    }

    fn fill(&mut self, count: u32, step: u32) -> Result<(), Memory> {
        for number in 0..count {
            let code = number.wrapping_mul(step);
            self.list.push(entry(code))?;
            self.now.push(code)?;
            self.next.push(code)?;
        }
        Ok(())
    }

    fn edit(&mut self, code: u32, how: u32) -> Result<(), Memory> {
        edit(&mut self.list, &mut self.next, code, how)
    }

    fn commit(&mut self) -> Result<(), Memory> {
        self.list.commit();
        self.now.clear();
        Ok(self.now.extend_from_slice(self.next.as_slice())?)
    }

    fn discard(&mut self) -> Result<(), Memory> {
        self.list.discard();
        self.next.clear();
        Ok(self.next.extend_from_slice(self.now.as_slice())?)
    }

    /// Whether the entries next that begin at a code point are those of the plain list.
    fn has_alone(&self, code: u32) -> bool {
        let sought = Code { code };
        let mut passing = self.list.passing(&sought);
        for number in self.next.as_slice() {
            if *number == code && !passing.next().is_some_and(|entry| entry.code == code) {
                return false;
            }
        }
        passing.next().is_none()
    }

    /// The list has what the plain lists have, now and next.
    fn agree(&self, rt: &impl Abort) {
        assert!(rt; has_codes(self.list.entries(), self.now.as_slice()), "now");
        assert!(rt;
            has_codes(self.list.next_entries(), self.next.as_slice()),
            "next"
        );
    }
}

#[test]
fn edits_at_random(rt: HostRuntime) -> Result<(), Memory> {
    let mut both = Both::filled(rt.alloc(), 1_500, 1)?;
    edit_at_random(&rt, &mut both)
}

/// Edits after a number: the last number.
fn edit_some(both: &mut Both, number: u32) -> Result<u32, Memory> {
    let mut number = number;
    for _ in 0..150u32 {
        number = follows(number);
        both.edit(number % 1_600, number / 1_600)?;
    }
    Ok(number)
}

/// What was edited is committed, or a third of it discarded.
fn end_edits(both: &mut Both, number: u32) -> Result<(), Memory> {
    if number % 3 == 0 {
        both.discard()
    } else {
        both.commit()
    }
}

fn edit_at_random(rt: &impl Abort, both: &mut Both) -> Result<(), Memory> {
    let mut number = 7;
    for _ in 0..20u32 {
        number = edit_some(both, number)?;
        both.agree(rt);
        assert!(rt; both.has_alone(number % 1_600), "passing");
        end_edits(both, number)?;
        both.agree(rt);
    }
    Ok(())
}

#[test]
fn a_part_that_grows_is_cut(rt: HostRuntime) -> Result<(), Memory> {
    let mut both = Both::filled(rt.alloc(), 300, 2)?;
    grow_a_part(&rt, &mut both)
}

fn grow_a_part(rt: &impl Abort, both: &mut Both) -> Result<(), Memory> {
    for _ in 0..2u32 {
        for _ in 0..1_300u32 {
            both.edit(300, 0)?;
        }
        both.agree(rt);
        assert!(rt; both.has_alone(301), "passing");
        both.discard()?;
        both.agree(rt);
    }
    Ok(())
}
