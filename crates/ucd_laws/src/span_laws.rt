//! The laws of maximal spans: each function here does nothing, and its contract is a law.

ghost use Rattle.ucd_laws.specs.LabelLaws.{SpansLieBelow, SpansHaveOneLabel, SpansAreMaximal, StretchesAreSpans, SpansAscend, SpansDoNotTouch, SpansAreDisjoint, LabelledLieInASpan, OthersLieInNoSpan, LabelledCountIsSpanTotal};

/// Every span has a number in it, and all its numbers are below the bound.
pub fn spans_lie_below()
    ensures { SpansLieBelow }
{}

/// Every number in a span has the span's label.
pub fn spans_have_one_label()
    ensures { SpansHaveOneLabel }
{}

/// Neither the number before a span nor the one after it has the span's label.
pub fn spans_are_maximal()
    ensures { SpansAreMaximal }
{}

/// Every maximal stretch of numbers with one label is one of the spans.
pub fn stretches_are_spans()
    ensures { StretchesAreSpans }
{}

/// A span ends before the next begins.
pub fn spans_ascend()
    ensures { SpansAscend }
{}

/// If the next span begins right after a span, their labels differ.
pub fn spans_do_not_touch()
    ensures { SpansDoNotTouch }
{}

/// No number lies in two spans.
pub fn spans_are_disjoint()
    ensures { SpansAreDisjoint }
{}

/// Every number below the bound that has a label lies in a span.
pub fn labelled_lie_in_a_span()
    ensures { LabelledLieInASpan }
{}

/// No number without a label lies in a span.
pub fn others_lie_in_no_span()
    ensures { OthersLieInNoSpan }
{}

/// The numbers that have a label are as many as lie in the spans together.
pub fn labelled_count_is_span_total()
    ensures { LabelledCountIsSpanTotal }
{}
