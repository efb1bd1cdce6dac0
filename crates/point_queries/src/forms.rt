//! Questions of normalisation forms.

ghost use Rattle.std.specs.Prelude.{◌≡◌, ◌++◌, IfOk, OnOk};
ghost use Rattle.ucd_model.specs.CanonicalOrder.{class_of};
ghost use Rattle.ucd_facts.specs.Composites.{pair_of};
ghost use Rattle.ucd_model.specs.Composition.{compose};
ghost use Rattle.ucd_model.specs.Forms.{decomposed, composed};
ghost use Rattle.query_laws.specs.Questions.{row_queries, tries, asks, composing_asks};
ghost use Rattle.point_queries.specs.Forms.{list_in, composing_at, composed_at};

use crate::rows::put_rows;
use crate::trees::put_trees;
use crate::tries::put_tried_pairs;
use normalisation::{compose, nfd, nfkd};
use std::alloc::Global;
use ucd_model::{FactView, FormStop, Memory, Point, Points, Query};

/// Appends what Normalisation Form C of a list asks, or Form KC if `compat` holds, and answers the list in that form,
/// or `None` if it has none. UAX #15, section 1.2.
///
/// - `Memory`: memory ran out.
pub fn put_form_asks<W: FactView>(
    alloc: Global,
    view: &W,
    compat: bool,
    points: &[Point],
    asked: &mut Vec<Query>,
) -> Result<Option<Points>, Memory>
    ensures asked { OnOk result (asked.new.items ≡ asked.old.items
        ++ asks (W.facts_of view.now) compat points.now) }
    ensures form { IfOk result (λ form. form
        ≡ list_in (composed (W.facts_of view.now)
        (decomposed (W.facts_of view.now) compat points.now))) }
{
    put_trees(view, compat, points, asked)?;
    let form = decomposed(alloc, view, compat, points)?;
    let form = put_composing_if_any(view, form, asked)?;
    Ok(form)
}

/// Appends what the composition of a decomposed list asks, if there is such a list, and answers the list composed.
fn put_composing_if_any<W: FactView>(
    view: &W,
    form: Option<Points>,
    asked: &mut Vec<Query>,
) -> Result<Option<Points>, Memory>
    ensures asked { OnOk result (asked.new.items ≡ asked.old.items
        ++ composing_at (W.facts_of view.now) form) }
    ensures form { IfOk result (λ found. found ≡ composed_at (W.facts_of view.now) form) }
{
    match form {
        Some(form) => {
            let form = put_composing(view, form, asked)?;
            Ok(Some(form))
        }
        None => Ok(None),
    }
}

/// Appends what the composition of a list asks: the pairs that are tried, and the facts of what is composed. It answers
/// the list composed.
fn put_composing<W: FactView>(
    view: &W,
    mut form: Points,
    asked: &mut Vec<Query>,
) -> Result<Points, Memory>
    ensures asked { OnOk result (asked.new.items ≡ asked.old.items
        ++ (tries (class_of (W.facts_of view.now)) (pair_of (W.facts_of view.now)) form
        ++ row_queries (compose (class_of (W.facts_of view.now))
        (pair_of (W.facts_of view.now)) form))) }
    ensures form { IfOk result (λ found. found
        ≡ compose (class_of (W.facts_of view.now)) (pair_of (W.facts_of view.now)) form) }
{
    put_tried_pairs(view, form.as_slice(), asked)?;
    compose(view, &mut form);
    put_rows(form.as_slice(), asked)?;
    Ok(form)
}

/// Normalisation Form D of a list, or Form KD if `compat` holds; `None` if it has none.
fn decomposed<W: FactView>(
    alloc: Global,
    view: &W,
    compat: bool,
    points: &[Point],
) -> Result<Option<Points>, Memory>
    ensures { IfOk result (λ form. form
        ≡ list_in (decomposed (W.facts_of view.now) compat points.now)) }
{
    let form = if compat {
        nfkd(alloc, view, points)
    } else {
        nfd(alloc, view, points)
    };
    match form {
        Ok(form) => Ok(Some(form)),
        Err(FormStop::Bad(_)) => Ok(None),
        Err(FormStop::Memory) => Err(Memory),
    }
}
