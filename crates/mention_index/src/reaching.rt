//! All code points that one comes to.

ghost use Rattle.std.specs.Prelude.{◌≡◌, ℕ, ◌+◌, ◌<◌, ◌≤◌, ◌==◌, ◌&&◌, ◌||◌, ◌⊎◌, true, false, not, map, IfOk, OnOk};
ghost use Rattle.number_sets.specs.Keys.{has};
ghost use Rattle.ucd_model.specs.Sameness.{is_in};
ghost use Rattle.ucd_facts.specs.declared.query.Query.{Query as Question};
ghost use Rattle.ucd_facts.specs.Answers.{is_asked};
ghost use Rattle.mention_index.specs.Reached.{about};
ghost use Rattle.mention_index.specs.Mentions.{is_walked, leads};
ghost use Rattle.number_sets.specs.Bits.{has_number};
ghost use Rattle.mention_index.specs.Steps.{IsClosed, IsReached, key};
ghost use Rattle.mention_index.specs.Walks.{ComesFrom, by_keys, left};

use crate::leading::push_mentioning;
use crate::mentions::Mentions;
use number_sets::{BitSet, KeySet};
use std::alloc::Global;
use ucd_model::{Memory, Point, Points, Queries, Query};

impl Mentions {
    /// Goes on from the code points that questions are about, and from all that one comes to so, and answers those from which
    /// one had not gone on before, in any order. From each code point one goes on once.
    ///
    /// - `Memory`: memory ran out. The mentions are of no use any more.
    pub fn reach(&mut self, alloc: Global, queries: &Queries) -> Result<Points, Memory>
        requires { IsClosed (leads self.old) (is_walked self.old) }
        ensures steps { leads self.new ≡ leads self.old }
        ensures closed { OnOk result (IsClosed (leads self.new) (is_walked self.new)) }
        ensures about { OnOk result ((q : Question) → is_asked queries.now q ≡ true
            → is_walked self.new (about q) ≡ true) }
        ensures walked { IfOk result (λ points. (c : ℕ)
            → is_walked self.new c ≡ (is_walked self.old c || is_in points c)) }
        ensures only { IfOk result (λ points. (c : ℕ) → is_in points c ≡ true
            → (is_walked self.old c ≡ false) × IsReached (leads self.old) queries.now c) }
    {
        let pending = points_about(alloc, queries)?;
        let points = reach_all(alloc, &self.steps, &mut self.walked, pending)?;
        Ok(points)
    }
}

/// The code points that questions are about, in the order of these.
///
/// - `Memory`: memory ran out.
fn points_about(alloc: Global, queries: &Queries) -> Result<Vec<Point>, Memory>
    ensures { IfOk result (λ points. points.items ≡ map about queries.now) }
{
    let mut points = Vec::new(alloc);
    'queries: for query in queries.as_slice() {
        points.push(point_about(query))?;
    }
    Ok(points)
}

/// The code point that a question is about; of a pair, the first one.
fn point_about(query: &Query) -> Point
    ensures { result ≡ about query.now }
{
    match *query {
        Query::Row(x) => x,
        Query::Pair(s, _) => s,
        Query::Second(y) => y,
    }
}

/// Goes on from the pending code points and from all that one comes to so, and answers those from which one had not gone on
/// before.
///
/// - `Memory`: memory ran out. One may have gone on from some of them.
fn reach_all(
    alloc: Global,
    steps: &KeySet,
    walked: &mut BitSet,
    mut pending: Vec<Point>,
) -> Result<Points, Memory>
    requires { IsClosed (by_keys (has steps.now)) (has_number walked.old) }
    ensures closed { OnOk result (IsClosed (by_keys (has steps.now)) (has_number walked.new)) }
    ensures pending { OnOk result ((c : ℕ) → is_in pending.items c ≡ true
        → has_number walked.new c ≡ true) }
    ensures walked { IfOk result (λ points. (c : ℕ)
        → has_number walked.new c ≡ (has_number walked.old c || is_in points c)) }
    ensures only { IfOk result (λ points. (c : ℕ) → is_in points c ≡ true
        → (has_number walked.old c ≡ false) × ComesFrom (by_keys (has steps.now)) pending.items c) }
{
    let mut reached = Points::new(alloc);
    'walk: while let Some(x) = pending.pop() {
        reach_from(steps, x, walked, &mut pending, &mut reached)?;
    }
    Ok(reached)
}

/// Goes on from a code point, if one had not gone on from it before: it is put behind those that were reached, and those to
/// which there is a step from it are put behind the pending ones.
///
/// - `Memory`: memory ran out. Some may be put.
fn reach_from(
    steps: &KeySet,
    x: Point,
    walked: &mut BitSet,
    pending: &mut Vec<Point>,
    reached: &mut Points,
) -> Result<(), Memory>
    ensures grows { (k : ℕ) → is_in pending.old.items k ≡ true → is_in pending.new.items k ≡ true }
    ensures only { (d : ℕ) → is_in pending.new.items d ≡ true
        → (is_in pending.old.items d ≡ true) ⊎ ((d < 1114112) × (has steps.now (key x d) ≡ true)) }
    ensures walked { OnOk result ((k : ℕ)
        → has_number walked.new k ≡ (has_number walked.old k || k == x)) }
    ensures led { OnOk result (has_number walked.old x ≡ false → (d : ℕ) → d < 1114112
        → has steps.now (key x d) ≡ true → is_in pending.new.items d ≡ true) }
    ensures reached { OnOk result ((k : ℕ)
        → is_in reached.new k
        ≡ (is_in reached.old k || (not (has_number walked.old x) && k == x))) }
    ensures left { OnOk result (left (has_number walked.new) pending.new.items ≤ left
        (has_number walked.old) pending.old.items) }
{
    let number = x.number();
    if walked.has(number) {
        return Ok(());
    }
    push_mentioning(steps, x, pending)?;
    walked.insert(number)?;
    reached.push(x)?;
    Ok(())
}
