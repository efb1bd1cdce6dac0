//! The keys of all that is asked, listed anew.

ghost use Rattle.std.specs.Prelude.{◌≡◌, ℕ, ◌+◌, ◌<◌, ◌≤◌, true, None, IfOk, IfSome, IsTrue, OnOk};
ghost use Rattle.number_sets.specs.Keys.{is_in};
ghost use Rattle.point_store.specs.SlotStore.{values};
ghost use Rattle.ucd_facts.specs.declared.query.Query.{Query as Question};
ghost use Rattle.dependency_map.specs.Index.{keeps, kept_at, may_ask, Lists, ListsFrom};

use crate::asker_index::push_keys;
use point_store::{SlotStore, Store};
use range_table::Stretches;
use std::alloc::Global;
use ucd_facts::{Memory, Point, Queries};

/// The least number of questions that are prepared before the code points are listed anew.
pub const FEW: usize = 4096;

/// How many prepared questions are few beside these keys.
pub fn sweep_threshold(keys: &[u64]) -> usize {
    keys.len().saturating_add(FEW)
}

/// The keys of all code points under the questions that are kept for them, now or next, except their own ones. Some may
/// be there twice. It takes steps in proportion to the stretches of the table and to the questions.
///
/// - `Memory`: memory ran out.
pub fn keys_of<T: Stretches<u64>>(
    alloc: Global,
    lists: &Option<SlotStore<T, Option<Queries>>>,
) -> Result<Vec<u64>, Memory>
    ensures now { IfOk result (λ keys. Lists (is_in keys.items)
        (kept_at (values T.now) lists.now)) }
    ensures next { IfOk result (λ keys. Lists (is_in keys.items)
        (kept_at (values T.next) lists.now)) }
{
    let mut keys = Vec::new(alloc);
    if let Some(lists) = lists {
        push_all(&mut keys, lists)?;
    }
    Ok(keys)
}

/// Puts the keys of all code points behind others.
///
/// - `Memory`: memory ran out.
fn push_all<T: Stretches<u64>>(
    keys: &mut Vec<u64>,
    lists: &SlotStore<T, Option<Queries>>,
) -> Result<(), Memory>
    ensures now { OnOk result (Lists (is_in keys.new.items) (values T.now lists.now)) }
    ensures next { OnOk result (Lists (is_in keys.new.items) (values T.next lists.now)) }
{
    let mut number = 0;
    'runs: while number < Point::COUNT {
        let end = push_run(keys, lists, Point::at(number))?;
        number = end;
    }
    Ok(())
}

/// Puts the keys of a code point behind others, and answers one past it; if nothing is kept for it, one past the last
/// of a run of such code points.
///
/// - `Memory`: memory ran out. The keys that were there stay.
fn push_run<T: Stretches<u64>>(
    keys: &mut Vec<u64>,
    lists: &SlotStore<T, Option<Queries>>,
    c: Point,
) -> Result<u32, Memory>
    ensures from { IfOk result (λ end. c < end) }
    ensures grows { (q : Question) (k : ℕ) → may_ask (is_in keys.old.items) q k ≡ true
        → may_ask (is_in keys.new.items) q k ≡ true }
    ensures now { IfOk result (λ end. ListsFrom (is_in keys.new.items)
        (values T.now lists.now) c end) }
    ensures next { IfOk result (λ end. ListsFrom (is_in keys.new.items)
        (values T.next lists.now) c end) }
{
    match end_of_unkept(lists, c) {
        Some(end) => Ok(end),
        None => {
            push_asked(keys, lists, c)?;
            Ok(c.number() + 1)
        }
    }
}

/// One past the last code point of a run from this one on for which nothing is kept; `None` if something is kept for
/// this one.
fn end_of_unkept<T: Stretches<u64>>(lists: &SlotStore<T, Option<Queries>>, c: Point) -> Option<u32>
    ensures from { IfSome result (λ end. c < end) }
    ensures now { IfSome result (λ end. (k : ℕ) → c ≤ k → k < end
        → values T.now lists.now k ≡ None) }
    ensures next { IfSome result (λ end. (k : ℕ) → c ≤ k → k < end
        → values T.next lists.now k ≡ None) }
{
    if lists.get(c).is_some() || lists.get_next(c).is_some() {
        return None;
    }
    let last = lists.last_of_stretch(c).number();
    let last_next = lists.last_of_stretch_next(c).number();
    Some(last.min(last_next) + 1)
}

/// Puts the keys of a code point under what it asks, now and next, behind others.
fn push_asked<T: Stretches<u64>>(
    keys: &mut Vec<u64>,
    lists: &SlotStore<T, Option<Queries>>,
    c: Point,
) -> Result<(), Memory>
    ensures grows { (q : Question) (k : ℕ) → may_ask (is_in keys.old.items) q k ≡ true
        → may_ask (is_in keys.new.items) q k ≡ true }
    ensures now { OnOk result ((q : Question) → keeps (values T.now lists.now c) q ≡ true
        → may_ask (is_in keys.new.items) q c ≡ true) }
    ensures next { OnOk result ((q : Question) → keeps (values T.next lists.now c) q ≡ true
        → may_ask (is_in keys.new.items) q c ≡ true) }
{
    push_list(keys, c, lists.get(c))?;
    if is_unchanged_next(lists, c) {
        return Ok(());
    }
    push_list(keys, c, lists.get_next(c))
}

/// Puts the keys of a code point under the questions of its list behind others, if it has one.
fn push_list(keys: &mut Vec<u64>, c: Point, list: &Option<Queries>) -> Result<(), Memory>
    ensures grows { (q : Question) (k : ℕ) → may_ask (is_in keys.old.items) q k ≡ true
        → may_ask (is_in keys.new.items) q k ≡ true }
    ensures listed { OnOk result ((q : Question) → keeps list.now q ≡ true
        → may_ask (is_in keys.new.items) q c ≡ true) }
{
    match list {
        Some(asked) => push_keys(keys, c, asked),
        None => Ok(()),
    }
}

/// Whether what is kept for a code point next lies where it lies now.
fn is_unchanged_next<T: Stretches<u64>>(lists: &SlotStore<T, Option<Queries>>, c: Point) -> bool
    ensures { IsTrue result → values T.next lists.now c ≡ values T.now lists.now c }
{
    lists.place(c) == lists.place_next(c)
}
