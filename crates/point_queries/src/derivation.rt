//! The derivation of a code point with its questions.

ghost use Rattle.std.specs.Prelude.{◌≡◌, ◌+◌, ◌++◌, IfOk, OnOk, Ok};
ghost use Rattle.std.specs.List.Sorted.{IsStrictlySortedBy};
ghost use Rattle.ucd_model.specs.Records.{derived, kept_record};
ghost use Rattle.ucd_facts.specs.Shown.{shown_facts};
ghost use Rattle.ucd_model.specs.ValidityLaws.{HasRecord};
ghost use Rattle.query_laws.specs.Questions.{asked};
ghost use Rattle.query_laws.specs.Turns.{SameQueries};
ghost use Rattle.point_queries.specs.Compat.{canonical_asks};
ghost use Rattle.point_queries.specs.Derivation.{DerivesAs, plain_shown, composite_shown, foldings_put, other_asks};

use crate::forms::put_form_asks;
use crate::query_list::query_set;
use crate::rounds::put_rounds;
use crate::rows::put_members;
use crate::trees::has_compat_in_tree;
use identifier_closure::derive_record;
use std::alloc::Global;
use std::sync::ledger::Ledger;
use ucd_model::{
    FactView, FactsRef, Folding, FormStop, Kind, Memory, Point, Queries, Query, Record, Steps,
};

/// How many questions a list has room for at first: most lists have fewer, repeats among them.
const ROOM: usize = 32;

/// What the derivation of a code point gives, with the questions that it asks.
#[derive(Debug, Drop)]
pub struct Derived {
    /// The derived properties.
    pub value: Record,
    /// The questions that were asked of the facts, in their order, each of them once.
    pub asked: Queries,
}

/// Derives a code point with the questions that its derivation asks: its record, in one step, which is counted even if
/// an error comes. UAX #44, section 5.3.
///
/// - `Bad(rule)`: the code point breaks a rule of a valid release, and `rule`, V1 to V5, is the first that it breaks.
/// - `Memory`: memory ran out.
pub fn derive_point<W: FactView, L: Ledger>(
    alloc: Global,
    view: &W,
    c: Point,
    steps: &mut Steps<L>,
) -> Result<Derived, FormStop>
    ensures value { DerivesAs result (derived (W.facts_of view.now) c) }
    ensures asked { IfOk result (λ found. SameQueries found.asked (asked (W.facts_of view.now) c)) }
    ensures rising { IfOk result (λ found. IsStrictlySortedBy (⟦<Query as Ord>⟧.cmp) found.asked) }
    ensures step { steps.new ≡ steps.old + 1 }
{
    match derive_record(alloc, view, c, steps) {
        Ok(value) => with_questions(alloc, view, c, value),
        Err(stop) => Err(stop),
    }
}

/// The record of a code point with the questions that its derivation asks.
fn with_questions<W: FactView>(
    alloc: Global,
    view: &W,
    c: Point,
    value: Record,
) -> Result<Derived, FormStop>
    requires { derived (W.facts_of view.now) c ≡ Ok (kept_record value) }
    ensures value { DerivesAs result (derived (W.facts_of view.now) c) }
    ensures asked { IfOk result (λ found. SameQueries found.asked (asked (W.facts_of view.now) c)) }
    ensures rising { IfOk result (λ found. IsStrictlySortedBy (⟦<Query as Ord>⟧.cmp) found.asked) }
{
    match questions_of(alloc, view, c) {
        Ok(asked) => Ok(Derived { value, asked }),
        Err(Memory) => Err(FormStop::Memory),
    }
}

/// The questions that the derivation of a code point with a record asks, in their order, each of them once.
///
/// - `Memory`: memory ran out.
pub fn questions_of<W: FactView>(alloc: Global, view: &W, c: Point) -> Result<Queries, Memory>
    requires { HasRecord (W.facts_of view.now) c }
    ensures asked { IfOk result (λ questions. SameQueries questions
        (asked (W.facts_of view.now) c)) }
    ensures rising { IfOk result (λ questions. IsStrictlySortedBy
        (⟦<Query as Ord>⟧.cmp) questions) }
{
    let facts = view.facts(c);
    let mut asked = Vec::with_capacity(alloc, ROOM)?;
    asked.push(Query::Row(c))?;
    asked.push(Query::Second(c))?;
    if is_plain(c, &facts) {
        return Ok(query_set(asked));
    }
    put_derivation_asks(alloc, view, c, &facts, &mut asked)?;
    Ok(query_set(asked))
}

/// Appends the questions that the derivation of a code point asks beside its own. Those of its Normalisation Form KC
/// are the first ones of the folding rounds.
fn put_derivation_asks<W: FactView>(
    alloc: Global,
    view: &W,
    c: Point,
    facts: &FactsRef<'_>,
    asked: &mut Vec<Query>,
) -> Result<(), Memory>
    requires { shown_facts facts.now ≡ W.facts_of view.now c }
    ensures { OnOk result (SameQueries asked.new.items
        (asked.old.items ++ other_asks (W.facts_of view.now) c)) }
{
    put_members(c, facts, asked)?;
    put_composite(view, facts, asked)?;
    put_form_c_asks(alloc, view, c, asked)?;
    put_foldings(alloc, view, c, asked)?;
    Ok(())
}

/// Appends what the rounds of a code point by both foldings ask. If it is known that both ask the same, it is put once.
fn put_foldings<W: FactView>(
    alloc: Global,
    view: &W,
    c: Point,
    asked: &mut Vec<Query>,
) -> Result<(), Memory>
    ensures { OnOk result (SameQueries asked.new.items
        (asked.old.items ++ foldings_put (W.facts_of view.now) c)) }
{
    let alike = put_rounds(alloc, view, Folding::Full, c, asked)?;
    if !alike {
        put_rounds(alloc, view, Folding::Simple, c, asked)?;
    }
    Ok(())
}

/// Appends what Normalisation Form C of a code point asks, if a compatibility mapping is below it; if none is, Form KC
/// asks the same. UAX #15, section 1.2.
fn put_form_c_asks<W: FactView>(
    alloc: Global,
    view: &W,
    c: Point,
    asked: &mut Vec<Query>,
) -> Result<(), Memory>
    ensures { OnOk result (asked.new.items ≡ asked.old.items
        ++ canonical_asks (W.facts_of view.now) c) }
{
    if has_compat_in_tree(view, c) {
        put_form_asks(alloc, view, false, &[c], asked)?;
    }
    Ok(())
}

/// Appends the question for the primary composite of a code point's mapping, if the code point is one itself. The
/// Unicode Standard, section 3.11, D114.
fn put_composite<W: FactView>(
    view: &W,
    facts: &FactsRef<'_>,
    asked: &mut Vec<Query>,
) -> Result<(), Memory>
    ensures { OnOk result (asked.new.items
        ≡ asked.old.items ++ composite_shown (W.facts_of view.now) (shown_facts facts.now)) }
{
    let composes = matches!(facts.kind, Kind::Canonical) && facts.class == 0 && !facts.excluded;
    match facts.mapping {
        [s, y] if composes && view.class(*s) == 0 => {
            asked.push(Query::Pair(*s, *y))?;
            Ok(())
        }
        _ => Ok(()),
    }
}

/// Whether a code point with these facts has no mapping: no decomposition, and each image is the code point itself.
fn is_plain(c: Point, facts: &FactsRef<'_>) -> bool
    ensures { result ≡ plain_shown c (shown_facts facts.now) }
{
    facts.mapping.is_empty()
        && facts.simple_upper == c
        && facts.simple_lower == c
        && facts.simple_title == c
        && facts.simple_fold == c
        && facts.upper.is_none()
        && facts.lower.is_none()
        && facts.title.is_none()
        && facts.fold.is_none()
}
