//! Sets of code points and their spans, and what UnicodeSets mean.

use property_aliases::{Aliases, Test};
use release_rows::Release;
use std::alloc::Global;
use std::process::Abort;
use std::test::Fail;
use ucd_model::{Memory, Point, Span, Spans};
use unicodeset_eval::{EvalStop, NameRule, PointSet, TestSets, eval_over};
use unicodeset_parser::{Join, parse};

/// The span of two numbers.
fn span(lo: u32, hi: u32) -> Result<Span, Fail> {
    let lo = Point::new(lo).ok_or("a code point")?;
    let hi = Point::new(hi).ok_or("a code point")?;
    Ok(Span::new(lo, hi).ok_or("a span")?)
}

/// The union of spans.
fn union(alloc: Global, spans: &[(u32, u32)]) -> Result<PointSet, Fail> {
    let mut set = PointSet::empty(alloc);
    for (lo, hi) in spans {
        let more = PointSet::of_span(alloc, span(*lo, *hi)?)?;
        set = PointSet::joined(alloc, Join::Union, &set, &more)?;
    }
    Ok(set)
}

/// Whether these are the spans of a set.
fn has_spans(alloc: Global, set: &PointSet, expected: &[(u32, u32)]) -> Result<bool, Fail> {
    are(alloc, &set.spans(alloc)?, expected)
}

/// Whether spans are these.
pub(crate) fn are(alloc: Global, spans: &Spans, expected: &[(u32, u32)]) -> Result<bool, Fail> {
    let mut pairs = Vec::new(alloc);
    for span in spans.as_slice() {
        pairs.push((span.first(), span.last()))?;
    }
    Ok(pairs.as_slice() == expected)
}

/// A step of a bracket set: what is joined to the members so far, and the spans of the members then.
type Step = (Join, &'static [(u32, u32)], &'static [(u32, u32)]);

const ACE: [(u32, u32); 3] = [(0x61, 0x61), (0x63, 0x63), (0x65, 0x65)];

const BDF: [(u32, u32); 3] = [(0x62, 0x62), (0x64, 0x64), (0x66, 0x66)];

/// `[[ace][bdf] - [abc][def]]`, the example of UTS #35, and `& [ace]`: each step acts on what stands before it.
const STEPS: [Step; 5] = [
    (Join::Union, &ACE, &ACE),
    (Join::Union, &BDF, &[(0x61, 0x66)]),
    (Join::Minus, &[(0x61, 0x63)], &[(0x64, 0x66)]),
    (Join::Union, &[(0x64, 0x66)], &[(0x64, 0x66)]),
    (Join::Meet, &ACE, &[(0x65, 0x65)]),
];

/// The members behind a step.
fn stepped(
    alloc: Global,
    set: &PointSet,
    join: Join,
    spans: &[(u32, u32)],
) -> Result<PointSet, Fail> {
    let more = union(alloc, spans)?;
    Ok(PointSet::joined(alloc, join, set, &more)?)
}

/// Does a step, and tells whether the members then are those of its row.
fn is_stepped(alloc: Global, set: &mut PointSet, step: &Step) -> Result<bool, Fail> {
    let (join, spans, expected) = step;
    *set = stepped(alloc, set, *join, spans)?;
    has_spans(alloc, set, expected)
}

fn are_stepped(alloc: Global, set: &mut PointSet) -> Result<bool, Fail> {
    for step in &STEPS {
        if !is_stepped(alloc, set, step)? {
            return Ok(false);
        }
    }
    Ok(true)
}

#[test]
fn steps_act_from_left_to_right(rt: HostRuntime) -> Result<(), Fail> {
    assert!(rt; are_stepped(rt.alloc(), &mut PointSet::empty(rt.alloc()))?);
    Ok(())
}

/// Whether the complement of spans is these, and the complement of that the spans again.
fn has_complement(
    alloc: Global,
    spans: &[(u32, u32)],
    expected: &[(u32, u32)],
) -> Result<bool, Fail> {
    let others = union(alloc, spans)?.complement();
    if !has_spans(alloc, &others, expected)? {
        return Ok(false);
    }
    has_spans(alloc, &others.complement(), spans)
}

/// The complement ends at 10FFFF, even if the set ends there, as the noncharacters of PropList.txt do.
#[test]
fn complements_end_with_the_last_code_point(rt: HostRuntime) -> Result<(), Fail> {
    let last = [(0x10_FFFE, 0x10_FFFF)];
    assert!(rt; has_complement(rt.alloc(), &[], &[(0, 0x10_FFFF)])?);
    assert!(rt; has_complement(rt.alloc(), &last, &[(0, 0x10_FFFD)])?);
    Ok(())
}

/// Tests that all hold of the code points of one span.
#[derive(Drop)]
struct OneSpan {
    span: Span,
}

impl TestSets for OneSpan {
    ghost use Rattle.unicodeset_eval.specs.Members.{between};

    ghost holds = { λ s test. between s.span };

    fn set_of(&self, alloc: Global, _test: Test) -> Result<PointSet, Memory> {
        PointSet::of_span(alloc, self.span)
    }
}

/// Texts with the spans of their members, if each test holds of A to Z. The first is the example of UTS #35.
const ANSWERS: [(&[u8], &[(u32, u32)]); 7] = [
    (b"[[ace][bdf] - [abc][def]]", &[(0x64, 0x66)]),
    (b"[[a-z]-[aeiou]&[b-d]]", &[(0x62, 0x64)]),
    (b"[\\p{Lu}&[A-C]x]", &[(0x41, 0x43), (0x78, 0x78)]),
    (b"[zxz[b]-[xb]ba]", &[(0x61, 0x62), (0x7a, 0x7a)]),
    (b"\\P{gc=Lu}", &[(0, 0x40), (0x5b, 0x10_ffff)]),
    (
        b"[^[:Lu:][a-z]]",
        &[(0, 0x40), (0x5b, 0x60), (0x7b, 0x10_ffff)],
    ),
    (b"[]", &[]),
];

/// Texts with the first name that means nothing.
const FAULTS: [(&[u8], NameRule, usize); 5] = [
    (b"[\\p{gc=x}\\p{y}]", NameRule::S9, 1),
    (b"[\\p{y}\\p{gc=x}]", NameRule::S8, 1),
    (b"[[a]\\p{Lu}-[^\\P{y=Lu}]]", NameRule::S8, 13),
    (b"[:gc=:]", NameRule::S9, 0),
    (b"[:^:]", NameRule::S8, 0),
];

/// What names mean by a release without rows.
fn aliases(alloc: Global) -> Result<Aliases, Fail> {
    let release = Release::empty(alloc);
    Ok(Aliases::of(alloc, &release)?)
}

/// The answer of a text, if each test holds of A to Z.
fn answer_of(
    alloc: Global,
    aliases: &Aliases,
    text: &[u8],
) -> Result<Result<Spans, EvalStop>, Fail> {
    let index = OneSpan {
        span: span(0x41, 0x5a)?,
    };
    let expr = parse(alloc, text)?;
    Ok(eval_over(alloc, &index, aliases, &expr))
}

fn members_are_found(rt: &impl Abort, alloc: Global, aliases: &Aliases) -> Result<(), Fail> {
    for (text, expected) in &ANSWERS {
        assert!(rt; has_members(alloc, aliases, text, expected)?);
    }
    Ok(())
}

/// Whether the set of a text has these members.
fn has_members(
    alloc: Global,
    aliases: &Aliases,
    text: &[u8],
    expected: &[(u32, u32)],
) -> Result<bool, Fail> {
    let spans = answer_of(alloc, aliases, text)??;
    are(alloc, &spans, expected)
}

fn faults_are_told(rt: &impl Abort, alloc: Global, aliases: &Aliases) -> Result<(), Fail> {
    for (text, rule, at) in &FAULTS {
        let expected = EvalStop::Fault {
            rule: *rule,
            at: *at,
        };
        assert!(rt; is_stopped(alloc, aliases, text, expected)?);
    }
    Ok(())
}

/// Whether a text has no answer for this reason.
fn is_stopped(
    alloc: Global,
    aliases: &Aliases,
    text: &[u8],
    expected: EvalStop,
) -> Result<bool, Fail> {
    Ok(answer_of(alloc, aliases, text)?.err() == Some(expected))
}

fn texts_are_answered(rt: &impl Abort, alloc: Global, aliases: &Aliases) -> Result<(), Fail> {
    members_are_found(rt, alloc, aliases)?;
    faults_are_told(rt, alloc, aliases)
}

/// A call lets the names go, so that this function stays small.
#[test]
fn sets_have_their_members_or_a_fault(rt: HostRuntime) -> Result<(), Fail> {
    let aliases = aliases(rt.alloc())?;
    let answered = texts_are_answered(&rt, rt.alloc(), &aliases);
    drop(aliases);
    answered
}
