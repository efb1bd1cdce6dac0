//! The index of the code points that ask a question.
//!
//! | bits of a key | what they say |
//! |---|---|
//! | 0 to 20 | the code point that asks |
//! | 21 to 41 | the code point of the question; of a pair the second one |
//! | 42 to 62 | the first code point of a pair; 110000 (hexadecimal) for a row, 110001 for a second member |

ghost use Rattle.std.specs.Prelude.{◌≡◌, ℕ, ◌+◌, ◌^◌, ◌<◌, ◌≤◌, true, MatchOption, OnOk};
ghost use Rattle.ucd_facts.specs.declared.query.Query.{Query as Question};
ghost use Rattle.ucd_facts.specs.Answers.{is_asked};
ghost use Rattle.number_sets.specs.Keys.{has, is_in};
ghost use Rattle.dependency_map.specs.Index.{query_key, is_own, least, may_ask, NoneFrom};

use crate::number_set::next_point;
use number_sets::KeySet;
use ucd_facts::{Memory, Point, Queries, Query};

/// Stands in the keys of rows, in the place of a pair's first code point.
const ROW: u64 = 0x11_0000;

/// Stands in the keys of second members, in the place of a pair's first code point.
const SECOND: u64 = 0x11_0001;

/// Lists a code point under each of the questions that are not its own ones.
///
/// - `Memory`: memory ran out. Nothing that was listed is lost; the code point may be listed under some of them.
pub fn put_asker_keys(keys: &mut KeySet, c: Point, asked: &Queries) -> Result<(), Memory>
    ensures grows { (q : Question) (k : ℕ) → may_ask (has keys.old) q k ≡ true
        → may_ask (has keys.new) q k ≡ true }
    ensures listed { OnOk result ((q : Question) → is_asked asked.now q ≡ true
        → may_ask (has keys.new) q c ≡ true) }
{
    'queries: for query in asked.as_slice() {
        put_asker(keys, query, c)?;
    }
    Ok(())
}

/// Lists a code point under a question, if that is not its own one.
///
/// - `Memory`: memory ran out. Nothing that was listed is lost.
fn put_asker(keys: &mut KeySet, query: &Query, c: Point) -> Result<(), Memory>
    ensures grows { (q : Question) (k : ℕ) → may_ask (has keys.old) q k ≡ true
        → may_ask (has keys.new) q k ≡ true }
    ensures listed { OnOk result (may_ask (has keys.new) query.now c ≡ true) }
{
    if is_own_question(query, c) {
        return Ok(());
    }
    keys.insert(asker_key(query, c))
}

/// Puts the keys of a code point under each of the questions that are not its own ones behind others.
///
/// - `Memory`: memory ran out. The keys that were there stay, and some of those of the code point may stand behind them.
pub fn push_keys(keys: &mut Vec<u64>, c: Point, asked: &Queries) -> Result<(), Memory>
    ensures grows { (q : Question) (k : ℕ) → may_ask (is_in keys.old.items) q k ≡ true
        → may_ask (is_in keys.new.items) q k ≡ true }
    ensures listed { OnOk result ((q : Question) → is_asked asked.now q ≡ true
        → may_ask (is_in keys.new.items) q c ≡ true) }
{
    'queries: for query in asked.as_slice() {
        if !is_own_question(query, c) {
            keys.push(asker_key(query, c))?;
        }
    }
    Ok(())
}

/// The key of a code point under a question.
fn asker_key(query: &Query, c: Point) -> u64
    ensures { result ≡ query_key query.now + c }
{
    query_base(query) + u64::from(c.number())
}

/// Whether a question is one of those that a code point asks if it is plain.
fn is_own_question(query: &Query, c: Point) -> bool
    ensures { result ≡ is_own query.now c }
{
    match *query {
        Query::Row(x) => x == c,
        Query::Pair(_, _) => false,
        Query::Second(y) => y == c,
    }
}

/// The least code point at or above `from` that is listed under the question, or whose own question it is.
pub fn next_listed_or_own(keys: &KeySet, query: &Query, from: u32) -> Option<Point>
    ensures { MatchOption result (NoneFrom (may_ask (has keys.now) query.now) from 1114112)
        (λ c. (from ≤ c) × NoneFrom (may_ask (has keys.now) query.now) from c) }
{
    let listed = next_point(keys, query_base(query), from);
    let own = own_asker(query, from);
    least(listed, own)
}

/// Where the keys of a question begin.
fn query_base(query: &Query) -> u64
    ensures value { result ≡ query_key query.now }
    ensures below { result < 2 ^ 63 }
{
    let (first, last) = match *query {
        Query::Row(x) => (ROW, x),
        Query::Pair(s, y) => (u64::from(s.number()), y),
        Query::Second(y) => (SECOND, y),
    };
    (first * 2_097_152 + u64::from(last.number())) * 2_097_152
}

/// The plain code point whose own question this is, if it is at or above `from`.
fn own_asker(query: &Query, from: u32) -> Option<Point>
    ensures { MatchOption result (NoneFrom (is_own query.now) from 1114112)
        (λ c. (from ≤ c) × NoneFrom (is_own query.now) from c) }
{
    match *query {
        Query::Row(x) if x.number() >= from => Some(x),
        Query::Second(y) if y.number() >= from => Some(y),
        _ => None,
    }
}

/// The lesser of two code points, of those that are there.
fn least(a: Option<Point>, b: Option<Point>) -> Option<Point>
    ensures { result ≡ least a b }
{
    match (a, b) {
        (Some(x), Some(y)) => Some(x.min(y)),
        (Some(x), None) => Some(x),
        (None, other) => other,
    }
}
