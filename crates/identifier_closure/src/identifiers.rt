//! Identifiers. UAX #31, sections 2 and 5.1.

ghost use Rattle.std.specs.Prelude.{◌≡◌, [], ◌∷◌, Ok};
ghost use Rattle.ucd_model.specs.Forms.{nfkc as form_kc};
ghost use Rattle.ucd_model.specs.Identifiers.{continues, starts, xid_start, xid_continue};
ghost use Rattle.ucd_facts.specs.Predicates.{id_start, id_continue};
ghost use Rattle.ucd_facts.specs.Shown.{shown_facts};

use crate::predicates::{is_id_continue, is_id_continue_by, is_id_start, is_id_start_by};
use ucd_model::{FactView, FactsRef, Point};

/// Whether a code point has ID_Start. UAX #31, section 2, table 2.
pub fn id_start<W: FactView>(view: &W, c: Point) -> bool
    ensures { result ≡ id_start (W.facts_of view.now c) }
{
    is_id_start_by(view.category(c), view.flags(c))
}

/// Whether a code point has ID_Continue. UAX #31, section 2, table 2.
pub fn id_continue<W: FactView>(view: &W, c: Point) -> bool
    ensures { result ≡ id_continue (W.facts_of view.now c) }
{
    is_id_continue_by(view.category(c), view.flags(c))
}

/// Whether a code point has XID_Start: it has ID_Start, and its Normalisation Form KC, which is handed in, begins with
/// a code point that has ID_Start and goes on with code points that have ID_Continue. UAX #31, section 5.1.
#[tactic(auto, using(crate::proofs::IdentifierLemmas::form_is))]
pub fn xid_start<W: FactView>(view: &W, c: Point, nfkc: &[Point]) -> bool
    requires { form_kc (W.facts_of view.now) (c ∷ []) ≡ Ok nfkc.now }
    ensures { result ≡ xid_start (W.facts_of view.now) c }
{
    id_start(view, c) && is_identifier(view, nfkc)
}

/// Whether a code point has XID_Continue: it has ID_Continue, and so has each member of its Normalisation Form KC,
/// which is handed in. UAX #31, section 5.1.
#[tactic(auto, using(crate::proofs::IdentifierLemmas::form_is))]
pub fn xid_continue<W: FactView>(view: &W, c: Point, nfkc: &[Point]) -> bool
    requires { form_kc (W.facts_of view.now) (c ∷ []) ≡ Ok nfkc.now }
    ensures { result ≡ xid_continue (W.facts_of view.now) c }
{
    id_continue(view, c) && all_continue(view, nfkc)
}

/// Whether a code point has XID_Start and XID_Continue. UAX #31, section 5.1.
#[derive(Clone, Copy)]
pub struct Closed {
    /// XID_Start.
    pub start: bool,
    /// XID_Continue.
    pub continues: bool,
}

/// Whether a code point with these facts and this Normalisation Form KC has XID_Start and XID_Continue. If the form
/// is the code point alone, its facts tell. UAX #31, section 5.1.
#[tactic(auto, using(crate::proofs::IdentifierLemmas::form_is, crate::proofs::IdentifierLemmas::start_alone, crate::proofs::IdentifierLemmas::continue_alone))]
pub fn closure_of<W: FactView>(view: &W, c: Point, facts: &FactsRef<'_>, form: &[Point]) -> Closed
    requires facts { shown_facts facts.now ≡ W.facts_of view.now c }
    requires form { form_kc (W.facts_of view.now) (c ∷ []) ≡ Ok form.now }
    ensures start { result.start ≡ xid_start (W.facts_of view.now) c }
    ensures continues { result.continues ≡ xid_continue (W.facts_of view.now) c }
{
    let id_start = is_id_start(facts);
    let id_continue = is_id_continue(facts);
    if matches!(form, [only] if *only == c) {
        return Closed {
            start: id_start,
            continues: id_continue,
        };
    }
    Closed {
        start: id_start && is_identifier(view, form),
        continues: id_continue && all_continue(view, form),
    }
}

/// Whether the list begins with a code point that has ID_Start, and each later one has ID_Continue.
fn is_identifier<W: FactView>(view: &W, points: &[Point]) -> bool
    ensures { result ≡ starts (W.facts_of view.now) points.now }
{
    match points {
        [] => false,
        [first, rest @ ..] => id_start(view, *first) && all_continue(view, rest),
    }
}

/// Whether each member has ID_Continue.
fn all_continue<W: FactView>(view: &W, points: &[Point]) -> bool
    ensures { result ≡ continues (W.facts_of view.now) points.now }
{
    'members: for point in points {
        if !id_continue(view, *point) {
            return false;
        }
    }
    true
}
