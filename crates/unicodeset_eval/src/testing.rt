//! Tests of what is derived for each code point, and their sets.

ghost use Rattle.std.specs.Prelude.{◌≡◌, ℕ, Bool, ◌&&◌, map, nat_lt, IfOk};
ghost use Rattle.ucd_points.specs.Limits.{point_count};
ghost use Rattle.ucd_facts.specs.Predicates.{is_one_of};
ghost use Rattle.ucd_model.specs.Records.{Record};
ghost use Rattle.unicodeset_eval.specs.Edges.{has};
ghost use Rattle.unicodeset_eval.specs.Found.{passes_test};
ghost use Rattle.unicodeset_eval.specs.RecordPieces.{SaysAs, at_first, piece_turns, piece_value, values_record};
ghost use Rattle.unicodeset_eval.specs.Tests.{check_of, group_categories};

use crate::index::SetIndex;
use crate::merging::put_edge_if_turned;
use crate::point_set::PointSet;
use crate::record_pieces::{PropertyValues, RecordRun};
use property_aliases::{Group, Test};
use std::alloc::Global;
use ucd_model::{Category, Form, Memory, Quick, Records, point_count};

/// Whether a category is in a group. UAX #44, section 5.7.1, table 12.
fn is_in_group(group: Group, category: Category) -> bool
    ensures { result ≡ is_one_of (group_categories group) category }
{
    match group {
        Group::L => matches!(
            category,
            Category::Lu | Category::Ll | Category::Lt | Category::Lm | Category::Lo
        ),
        Group::LC => matches!(category, Category::Lu | Category::Ll | Category::Lt),
        Group::M => matches!(category, Category::Mn | Category::Mc | Category::Me),
        Group::N => matches!(category, Category::Nd | Category::Nl | Category::No),
        Group::P => is_punctuation(category),
        Group::S => matches!(
            category,
            Category::Sm | Category::Sc | Category::Sk | Category::So
        ),
        Group::Z => matches!(category, Category::Zs | Category::Zl | Category::Zp),
        Group::C => matches!(
            category,
            Category::Cc | Category::Cf | Category::Cs | Category::Co | Category::Cn
        ),
    }
}

/// Whether a category is of punctuation.
fn is_punctuation(category: Category) -> bool
    ensures { result ≡ is_one_of (group_categories (Group.P)) category }
{
    matches!(
        category,
        Category::Pc
            | Category::Pd
            | Category::Ps
            | Category::Pe
            | Category::Pi
            | Category::Pf
            | Category::Po
    )
}

/// The quick check of a form.
fn check_of(form: Form, shown: &PropertyValues) -> Quick
    ensures { result ≡ check_of form (values_record shown.now) }
{
    match form {
        Form::Nfd => shown.nfd,
        Form::Nfc => shown.nfc,
        Form::Nfkd => shown.nfkd,
        Form::Nfkc => shown.nfkc,
    }
}

/// What a test says of a code point with these values, if it is Assigned or a test of derived properties; else false.
fn passes_test(test: Test, shown: &PropertyValues) -> bool
    ensures { result ≡ passes_test test (values_record shown.now) }
{
    match test {
        Test::Assigned => shown.category.place() != Category::Cn.place(),
        Test::Group(group) => is_in_group(group, shown.category),
        Test::Category(category) => category.place() == shown.category.place(),
        Test::Class(class) => class == shown.class,
        Test::Decomposition(kind) => kind.place() == shown.kind.place(),
        Test::Quick(form, value) => value as u32 == check_of(form, shown) as u32,
        Test::Core(core, wanted) => shown.core.has(core) == wanted,
        Test::Exclusion(wanted) => shown.exclusion == wanted,
        Test::ChangesCasefold(wanted) => shown.changes_casefold == wanted,
        _ => false,
    }
}

/// What a test says of the first piece.
fn passes_at_zero(test: Test, pieces: &[RecordRun]) -> bool
    ensures { result ≡ at_first (passes_test test) (map piece_value pieces.now) }
{
    match pieces {
        [first, ..] => passes_test(test, &first.values),
        [] => false,
    }
}

/// The numbers at which what `says` says turns, over pieces of equal records; `has_zero` is what it says of the code point 0.
///
/// - `Memory`: memory ran out.
fn edges_of_test<F: Fn(&PropertyValues) -> bool>(
    alloc: Global,
    pieces: &[RecordRun],
    has_zero: bool,
    says: F,
) -> Result<Vec<u32>, Memory>
    requires { F.IsAlwaysCallable says }
    ensures { IfOk result (λ edges. (f : Record → Bool) → SaysAs (F.post says) f
        → edges.items ≡ piece_turns point_count f has_zero (map piece_value pieces.now)) }
{
    let mut edges = Vec::new(alloc);
    let mut inside = has_zero;
    'pieces: for piece in pieces {
        let next = says(&piece.values);
        put_edge_if_turned(&mut edges, inside, next, piece.first)?;
        inside = next;
    }
    put_edge_if_turned(&mut edges, inside, false, point_count())?;
    Ok(edges)
}

/// The numbers at which a test turns, over pieces of equal records; `has_zero` is what it says of the code point 0. The tests that are
/// asked most have a loop each, which does not ask at each piece which test it is.
///
/// - `Memory`: memory ran out.
fn derived_test_edges(
    alloc: Global,
    pieces: &[RecordRun],
    test: Test,
    has_zero: bool,
) -> Result<Vec<u32>, Memory>
    ensures { IfOk result (λ edges. edges.items
        ≡ piece_turns point_count (passes_test test) has_zero (map piece_value pieces.now)) }
{
    match test {
        Test::Category(category) => edges_of_test(alloc, pieces, has_zero, |shown| {
            category.place() == shown.category.place()
        }),
        Test::Class(class) => edges_of_test(alloc, pieces, has_zero, |shown| class == shown.class),
        Test::Decomposition(kind) => edges_of_test(alloc, pieces, has_zero, |shown| {
            kind.place() == shown.kind.place()
        }),
        Test::Core(core, wanted) => edges_of_test(alloc, pieces, has_zero, |shown| {
            shown.core.has(core) == wanted
        }),
        _ => edges_of_test(alloc, pieces, has_zero, |shown| passes_test(test, shown)),
    }
}

impl<'b, B: Records> SetIndex<'b, B> {
    /// The set of Assigned or of a test of derived properties. Each piece of equal records is looked at once.
    ///
    /// - `Memory`: memory ran out.
    pub(crate) fn set_of_derived_test(&self, alloc: Global, test: Test) -> Result<PointSet, Memory>
        ensures { IfOk result (λ set. (c : ℕ)
            → has set c ≡ (nat_lt c point_count
            && passes_test test (B.record_of self.now.bench.now c))) }
    {
        let pieces = self.pieces;
        let has_zero = passes_at_zero(test, pieces);
        let edges = derived_test_edges(alloc, pieces, test, has_zero)?;
        Ok(PointSet::of_edges(has_zero, edges))
    }
}
