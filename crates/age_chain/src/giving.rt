//! Gives the code points that a release assigns an age.

ghost use Rattle.std.specs.Prelude.{◌≡◌, ◌≤◌, ◌+◌, IfOk, OnOk, OnErr, min};
ghost use Rattle.range_table.specs.RunTable.{values_now, values_next};
ghost use Rattle.range_table.specs.Values.{SameValues};
ghost use Rattle.stability_policies.specs.Reports.{report};
ghost use Rattle.age_chain.specs.Ages.{breaks_since};
ghost use Rattle.age_chain.specs.Giving.{aged, aged_before};

use edit_session::Bench;
use range_table::{RunTable, Table};
use stability_policies::{Breaks, report};
use std::alloc::Global;
use ucd_facts::UniformFacts;
use ucd_model::{FactView, Memory, Point, Span};

/// The breaks of a bench against the last one. The code points that are assigned in it and have no age yet have this
/// one next. Ages are numbers from 1, and 0 stands for none.
///
/// - `Memory`: memory ran out. Nothing is then prepared.
pub fn prepare_ages(
    alloc: Global,
    last: &Option<Bench>,
    bench: &Bench,
    age: u8,
    ages: &mut RunTable<u8>,
) -> Result<Breaks, Memory>
    requires still { SameValues (values_next ages.old) (values_now ages.old) }
    ensures breaks { IfOk result (λ breaks. breaks ≡ breaks_since last.now bench.now) }
    ensures now { SameValues (values_now ages.new) (values_now ages.old) }
    ensures next { OnOk result (SameValues (values_next ages.new)
        (aged bench.now age (values_now ages.old))) }
    ensures err { OnErr result (SameValues (values_next ages.new) (values_now ages.old)) }
{
    let breaks = breaks_since(alloc, last, bench)?;
    match give_ages(bench, age, ages) {
        Ok(()) => Ok(breaks),
        Err(stop) => {
            ages.discard();
            Err(stop)
        }
    }
}

/// The breaks of the stability policies by the release of a bench against the last one; none if there is no last one.
///
/// - `Memory`: memory ran out.
fn breaks_since(alloc: Global, last: &Option<Bench>, bench: &Bench) -> Result<Breaks, Memory>
    ensures { IfOk result (λ breaks. breaks ≡ breaks_since last.now bench.now) }
{
    match last {
        Some(before) => breaks_between(alloc, before, bench),
        None => Ok(Breaks::new(alloc)),
    }
}

/// The breaks of the stability policies by the release of a bench against that of an earlier bench.
///
/// - `Memory`: memory ran out.
fn breaks_between(alloc: Global, before: &Bench, bench: &Bench) -> Result<Breaks, Memory>
    ensures { IfOk result (λ breaks. breaks ≡ report before.now bench.now) }
{
    let old = before.release();
    let new = bench.release();
    report(alloc, before, old, bench, new)
}

/// Gives this age next to the code points that are assigned in a bench and have none.
///
/// - `Memory`: memory ran out. Some of them may then have it next.
fn give_ages(bench: &Bench, age: u8, ages: &mut RunTable<u8>) -> Result<(), Memory>
    requires still { SameValues (values_next ages.old) (values_now ages.old) }
    ensures now { SameValues (values_now ages.new) (values_now ages.old) }
    ensures next { OnOk result (SameValues (values_next ages.new)
        (aged bench.now age (values_now ages.old))) }
{
    let mut number = 0;
    'stretches: while number < Point::COUNT {
        let last = give_age_to_stretch(bench, Point::at(number), age, ages)?;
        number = last.number() + 1;
    }
    Ok(())
}

/// Gives the age to a stretch that begins at a code point, if it is assigned and has none, and answers the last code point of
/// the stretch. The code points of a stretch have one age, or none and facts that are alike.
///
/// - `Memory`: memory ran out. What is next stays.
fn give_age_to_stretch(
    bench: &Bench,
    c: Point,
    age: u8,
    ages: &mut RunTable<u8>,
) -> Result<Point, Memory>
    requires before { SameValues (values_next ages.old)
        (aged_before bench.now age c (values_now ages.old)) }
    ensures now { SameValues (values_now ages.new) (values_now ages.old) }
    ensures from { IfOk result (λ last. c ≤ last) }
    ensures next { IfOk result (λ last. SameValues (values_next ages.new)
        (aged_before bench.now age (last + 1) (values_now ages.old))) }
{
    let run = ages.last_of_run(c);
    if ages.get(c) != 0 {
        return Ok(run);
    }
    let last = lesser(bench.last_uniform(c), run);
    if bench.is_assigned(c) {
        ages.prepare(Span::between(c, last), age)?;
    }
    Ok(last)
}

/// The lesser of two code points.
fn lesser(a: Point, b: Point) -> Point
    ensures { result ≡ min a b }
{
    if a.number() < b.number() { a } else { b }
}
