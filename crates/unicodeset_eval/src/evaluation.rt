//! The members of a UnicodeSet.

ghost use Rattle.std.specs.Prelude.{◌≡◌, ℕ, List, Option, Err};
ghost use Rattle.property_aliases.specs.Found.{AreAliasesOf, lone_in, property_in, value_in};
ghost use Rattle.property_aliases.specs.Sources.{Sources};
ghost use Rattle.ucd_points.specs.Limits.{point_count};
ghost use Rattle.unicodeset_eval.specs.Answers.{Gives, names_in};
ghost use Rattle.unicodeset_eval.specs.Changes.{gathered};
ghost use Rattle.unicodeset_eval.specs.Edges.{has};
ghost use Rattle.unicodeset_eval.specs.Members.{nothing};
ghost use Rattle.unicodeset_eval.specs.Questions.{answer, fault, members, members_after, tested, value_members};
ghost use Rattle.unicodeset_eval.specs.declared.stop.NameRule.TheVariants.{S8};
ghost use Rattle.unicodeset_parser.specs.Trees.{complement, negated_by, steps_of};
ghost use Rattle.unicodeset_parser.specs.Views.{parts_view, tree_view};

use crate::changes::{Change, members_of_changes, push_change};
use crate::point_set::PointSet;
use crate::stop::{EvalStop, NameRule};
use crate::test_sets::TestSets;
use crate::unions::union_of;
use property_aliases::{Aliases, Test};
use std::alloc::Global;
use ucd_model::Spans;
use unicodeset_parser::{Expr, Part, Parts};

/// The set of a test.
///
/// - `Fault`: there is no test. It is the rule at the place.
/// - `Memory`: memory ran out.
fn tested<T: TestSets>(
    alloc: Global,
    index: &T,
    test: Option<Test>,
    rule: NameRule,
    at: usize,
) -> Result<PointSet, EvalStop>
    ensures { Gives has result (tested (T.holds index.now) (fault rule at) test) }
{
    let Some(test) = test else {
        return Err(EvalStop::Fault { rule, at });
    };
    Ok(index.set_of(alloc, test)?)
}

/// The set of a name that stands alone.
///
/// - `Fault`: S8, it means nothing.
/// - `Memory`: memory ran out.
fn named<T: TestSets>(
    alloc: Global,
    index: &T,
    aliases: &Aliases,
    name: &[u8],
    at: usize,
) -> Result<PointSet, EvalStop>
    ensures { Gives has result (tested (T.holds index.now) (fault S8 at)
        (lone_in aliases.now name.now)) }
{
    let test = aliases.lone(name);
    tested(alloc, index, test, NameRule::S8, at)
}

/// The set of a value of a property.
///
/// - `Fault`: S8, there is no such property; S9, it has no such value.
/// - `Memory`: memory ran out.
fn valued<T: TestSets>(
    alloc: Global,
    index: &T,
    aliases: &Aliases,
    property: &[u8],
    value: &[u8],
    at: usize,
) -> Result<PointSet, EvalStop>
    ensures { Gives has result (value_members (names_in aliases.now)
        (T.holds index.now) value.now at (property_in aliases.now property.now)) }
{
    let Some(property) = aliases.property(property) else {
        return Err(EvalStop::Fault {
            rule: NameRule::S8,
            at,
        });
    };
    let test = aliases.value(property, value);
    tested(alloc, index, test, NameRule::S9, at)
}

/// The set of a part of a bracket set.
///
/// - `Fault`: the first name without meaning.
/// - `Memory`: memory ran out.
#[cycle(evaluation)]
fn part_set<T: TestSets>(
    alloc: Global,
    index: &T,
    aliases: &Aliases,
    part: &Part,
) -> Result<PointSet, EvalStop>
    ensures { Gives has result (members (names_in aliases.now) (T.holds index.now)
        (negated_by part.now.negated (tree_view part.now.part))) }
{
    if part.negated {
        complement(alloc, index, aliases, &part.part)
    } else {
        members_of(alloc, index, aliases, &part.part)
    }
}

/// What the steps of a bracket set do.
///
/// - `Fault`: the first name without meaning.
/// - `Memory`: memory ran out.
#[cycle(evaluation)]
fn changes_of<T: TestSets>(
    alloc: Global,
    index: &T,
    aliases: &Aliases,
    parts: &Parts,
) -> Result<Vec<Change>, EvalStop>
    ensures { Gives (λ changes. gathered changes.items) result
        (members_after (names_in aliases.now) (T.holds index.now) nothing
        (steps_of (parts_view parts.now))) }
{
    let mut changes = Vec::new(alloc);
    let mut number = 0;
    'steps: for step in &parts.items {
        let set = match part_set(alloc, index, aliases, step) {
            Ok(set) => set,
            Err(stop) => return Err(stop),
        };
        let change = Change::of(alloc, step.join, set);
        push_change(alloc, &mut changes, change, number)?;
        number += 1;
    }
    Ok(changes)
}

/// The set of a bracket set.
///
/// - `Fault`: the first name without meaning.
/// - `Memory`: memory ran out.
#[cycle(evaluation)]
fn bracket<T: TestSets>(
    alloc: Global,
    index: &T,
    aliases: &Aliases,
    parts: &Parts,
) -> Result<PointSet, EvalStop>
    ensures { Gives has result (members_after (names_in aliases.now) (T.holds index.now) nothing
        (steps_of (parts_view parts.now))) }
{
    match changes_of(alloc, index, aliases, parts) {
        Ok(changes) => Ok(members_of_changes(alloc, changes.as_slice())?),
        Err(stop) => Err(stop),
    }
}

/// The complement of a set.
///
/// - `Fault`: the first name without meaning.
/// - `Memory`: memory ran out.
#[cycle(evaluation)]
fn complement<T: TestSets>(
    alloc: Global,
    index: &T,
    aliases: &Aliases,
    expr: &Expr,
) -> Result<PointSet, EvalStop>
    ensures { Gives has result (members (names_in aliases.now) (T.holds index.now)
        (complement (tree_view expr.now))) }
{
    match members_of(alloc, index, aliases, expr) {
        Ok(set) => Ok(set.complement()),
        Err(stop) => Err(stop),
    }
}

/// The set of a tree.
///
/// - `Fault`: the first name without meaning.
/// - `Memory`: memory ran out.
#[cycle(evaluation)]
fn members_of<T: TestSets>(
    alloc: Global,
    index: &T,
    aliases: &Aliases,
    expr: &Expr,
) -> Result<PointSet, EvalStop>
    ensures { Gives has result (members (names_in aliases.now) (T.holds index.now)
        (tree_view expr.now)) }
{
    match expr {
        Expr::Chars(span) => Ok(PointSet::of_span(alloc, *span)?),
        Expr::Several(spans) => Ok(union_of(alloc, spans.as_slice())?),
        Expr::Listed(spans) => Ok(union_of(alloc, spans.as_slice())?),
        Expr::Named(property) => named(
            alloc,
            index,
            aliases,
            property.name.as_slice(),
            property.at,
        ),
        Expr::Valued(property) => valued(
            alloc,
            index,
            aliases,
            property.property.as_slice(),
            property.value.as_slice(),
            property.at,
        ),
        Expr::Not(part) => complement(alloc, index, aliases, part),
        Expr::Bracket(parts) => bracket(alloc, index, aliases, parts),
    }
}

/// The members of a UnicodeSet as maximal ascending spans. UTS #35, "Unicode Sets".
///
/// The time is that of the sets of its tests, plus a time in proportion to their edges times how often the steps of a
/// bracket set can be halved.
///
/// - `Fault`: the first name without meaning, in the order of the text. S8: no property has the name, or the name that
///   stands alone means nothing. S9: the property has no such value. The place is where the property begins.
/// - `Memory`: memory ran out.
pub fn eval_over<T: TestSets>(
    alloc: Global,
    index: &T,
    aliases: &Aliases,
    expr: &Expr,
) -> Result<Spans, EvalStop>
    ensures { (s : Sources) → AreAliasesOf aliases.now s
        → Gives (λ spans. spans) result
        (answer s (T.holds index.now) point_count (tree_view expr.now)) }
{
    match members_of(alloc, index, aliases, expr) {
        Ok(set) => Ok(set.spans(alloc)?),
        Err(stop) => Err(stop),
    }
}
