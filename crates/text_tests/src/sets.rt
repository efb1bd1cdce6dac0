//! Texts and their trees or faults.

use std::alloc::Global;
use std::process::Abort;
use ucd_lines::put_hex;
use ucd_model::{Memory, Span, Spans, Text};
use unicodeset_parser::*;

/// The fault of a text, if it has one.
fn fault_of(alloc: Global, text: &[u8]) -> Result<Option<(SetRule, usize)>, Memory> {
    match parse(alloc, text) {
        Ok(_) => Ok(None),
        Err(SetStop::Fault { rule, at }) => Ok(Some((rule, at))),
        Err(SetStop::Memory) => Err(Memory),
    }
}

/// A tree in few words: `61-7A` for characters, `name@place`, `property=value@place`, `!` for the complement, and the
/// steps of a bracket set in parentheses, each behind `|`, `&` or `-`.
fn put_tree(expr: &Expr, into: &mut Text) -> Result<(), Memory> {
    match expr {
        Expr::Chars(span) => put_span(*span, into),
        Expr::Several(spans) => put_letters(spans, into),
        Expr::Listed(spans) => {
            into.append(b"(")?;
            put_letters(spans, into)?;
            into.append(b")")
        }
        Expr::Named(property) => {
            into.append(property.name.as_slice())?;
            put_place(property.at, into)
        }
        Expr::Valued(property) => {
            into.append(property.property.as_slice())?;
            into.append(b"=")?;
            into.append(property.value.as_slice())?;
            put_place(property.at, into)
        }
        Expr::Not(part) => {
            into.append(b"!")?;
            put_tree(part, into)
        }
        Expr::Bracket(parts) => {
            into.append(b"(")?;
            'parts: for part in &parts.items {
                put_join(part, into)?;
                put_tree(&part.part, into)?;
            }
            into.append(b")")
        }
    }
}

fn put_span(span: Span, into: &mut Text) -> Result<(), Memory> {
    put_hex(span.lo, into)?;
    into.append(b"..")?;
    put_hex(span.hi, into)
}

/// Spans that are a step each, in union.
fn put_letters(spans: &Spans, into: &mut Text) -> Result<(), Memory> {
    'spans: for span in spans.as_slice() {
        into.append(b"|")?;
        put_span(*span, into)?;
    }
    Ok(())
}

/// How a part is joined, but that of steps for spans, which tell it themselves.
fn put_join(part: &Part, into: &mut Text) -> Result<(), Memory> {
    if !is_letters(part) {
        into.append(join_text(part.join))?;
    }
    if part.negated {
        into.append(b"!")?;
    }
    Ok(())
}

/// Whether a part is a step for each of its spans.
fn is_letters(part: &Part) -> bool {
    !part.negated && matches!((part.join, &part.part), (Join::Union, Expr::Several(_)))
}

/// A place of one digit.
fn put_place(at: usize, into: &mut Text) -> Result<(), Memory> {
    into.append(b"@")?;
    into.push(b'0' + (at % 10) as u8)
}

fn join_text(join: Join) -> &'static [u8] {
    match join {
        Join::Union => b"|",
        Join::Meet => b"&",
        Join::Minus => b"-",
    }
}

/// Whether a text has this tree.
fn has_tree(alloc: Global, text: &[u8], wanted: &[u8]) -> Result<bool, Memory> {
    match parse(alloc, text) {
        Ok(expr) => is_shown(alloc, &expr, wanted),
        Err(_) => Ok(false),
    }
}

fn is_shown(alloc: Global, expr: &Expr, wanted: &[u8]) -> Result<bool, Memory> {
    let mut shown = Text::new(alloc);
    put_tree(expr, &mut shown)?;
    Ok(shown.as_slice() == wanted)
}

/// Puts so many times a byte at the end.
fn put_times(text: &mut Text, byte: u8, count: usize) -> Result<(), Memory> {
    for _ in 0..count {
        text.push(byte)?;
    }
    Ok(())
}

fn put_nested(text: &mut Text, open: usize, closed: usize) -> Result<(), Memory> {
    put_times(text, b'[', open)?;
    put_times(text, b']', closed)
}

/// So many `[`, and so many `]`.
fn nested(alloc: Global, open: usize, closed: usize) -> Result<Text, Memory> {
    let mut text = Text::new(alloc);
    put_nested(&mut text, open, closed)?;
    Ok(text)
}

/// The fault of a text of so many `[`, and so many `]`, if it has one.
fn nested_fault(
    alloc: Global,
    open: usize,
    closed: usize,
) -> Result<Option<(SetRule, usize)>, Memory> {
    let text = nested(alloc, open, closed)?;
    fault_of(alloc, text.as_slice())
}

/// Whether a text has this fault.
fn has_fault(alloc: Global, text: &[u8], rule: SetRule, at: usize) -> Result<bool, Memory> {
    Ok(fault_of(alloc, text)? == Some((rule, at)))
}

/// A text, and its fault: the rule and the place.
type FaultCase = (&'static [u8], SetRule, usize);

/// Texts that end too early, or are no UTF-8.
const EARLY_ENDS: [FaultCase; 19] = [
    (b"[\xff]", SetRule::S1, 1),
    (b"\xe2\x89", SetRule::S1, 0),
    (b"[z-a]\xc0", SetRule::S1, 5),
    (b"", SetRule::S2, 0),
    (b" \t\xc2\x85\xe2\x80\x8e", SetRule::S2, 7),
    (b"[a", SetRule::S2, 2),
    (b"[a-", SetRule::S2, 3),
    (b"[-", SetRule::S2, 2),
    (b"[[a]-", SetRule::S2, 5),
    (b"\\", SetRule::S2, 1),
    (b"[\\", SetRule::S2, 2),
    (b"[a-\\", SetRule::S2, 4),
    (b"\\p", SetRule::S2, 2),
    (b"\\p{", SetRule::S2, 3),
    (b"\\p{/:]=\xe2\x89\xa0", SetRule::S2, 10),
    (b"[:a}", SetRule::S2, 4),
    (b"[:]", SetRule::S2, 3),
    (b"[[a]-\\P", SetRule::S2, 7),
    (b"[:^", SetRule::S2, 3),
];

/// Texts with a character that is not allowed.
const OTHERS: [FaultCase; 28] = [
    (b"a", SetRule::S3, 0),
    (b"]", SetRule::S3, 0),
    (b"{", SetRule::S3, 0),
    (b"\\n", SetRule::S3, 0),
    (b"[a]b", SetRule::S3, 3),
    (b"[a][b]", SetRule::S3, 3),
    (b"[a]\\", SetRule::S3, 3),
    (b"[a]\\p", SetRule::S3, 3),
    (b"[a]\\p{x\xe2\x89\xa0y}", SetRule::S3, 3),
    (b"[a][:x=/y:]", SetRule::S3, 3),
    (b"[a]&\\p{x\xe2\x89\xa0y}", SetRule::S3, 3),
    (b"\\p{L}\\P{gc=/L}", SetRule::S3, 5),
    (b"[a]$", SetRule::S3, 3),
    (b"[ ^a]", SetRule::S3, 2),
    (b"[a&b]", SetRule::S3, 2),
    (b"[a}", SetRule::S3, 2),
    (b"[a-b-c]", SetRule::S3, 4),
    (b"[a-[b]]", SetRule::S3, 3),
    (b"[a-{]", SetRule::S3, 3),
    (b"[a-\\p", SetRule::S3, 3),
    (b"[a-\\p{\xe2\x89\xa0}]", SetRule::S3, 3),
    (b"[a-[:b", SetRule::S3, 3),
    (b"[[a]-b]", SetRule::S3, 5),
    (b"[[a]&]", SetRule::S3, 5),
    (b"[[a]&\\n]", SetRule::S3, 5),
    (b"[[a]&$]", SetRule::S3, 5),
    (b"[+--x]", SetRule::S3, 3),
    (b"[[a]-{]", SetRule::S3, 5),
];

/// Texts with a range, an escape or a form that is refused.
const REFUSED: [FaultCase; 25] = [
    (b"[z-a]", SetRule::S4, 3),
    (b"[a--]", SetRule::S4, 3),
    (b"[a - \\u0041]", SetRule::S4, 5),
    (b"[\\q]", SetRule::S5, 1),
    (b"\\q", SetRule::S5, 0),
    (b"[[a]-\\0]", SetRule::S5, 5),
    (b"[a-\\pL]", SetRule::S5, 3),
    (b"\\pL", SetRule::S5, 0),
    (b"[\\u12", SetRule::S5, 1),
    (b"[\\x", SetRule::S5, 1),
    (b"[\\u{}]", SetRule::S5, 1),
    (b"[\\u{1234567}]", SetRule::S5, 1),
    (b"[\\u{110000}]", SetRule::S5, 1),
    (b"[\\U00110000]", SetRule::S5, 1),
    (b"[{ab}]", SetRule::S7, 1),
    (b"[a]\\N", SetRule::S7, 3),
    (b"[\\p{gc=/L}]", SetRule::S7, 1),
    (b"[\\u{", SetRule::S5, 1),
    (b"[a]\\q", SetRule::S5, 3),
    (b"[$]", SetRule::S7, 1),
    (b"[\\N{x}]", SetRule::S7, 1),
    (b"[a-\\N]", SetRule::S7, 3),
    (b"\\p{x\xe2\x89\xa0y}", SetRule::S7, 0),
    (b"[[a]&\\p{x\xe2\x89\xa0y}]", SetRule::S7, 5),
    (b"[a[:x=/y:]]", SetRule::S7, 2),
];

fn faults_are_told(rt: &impl Abort, alloc: Global, cases: &[FaultCase]) {
    for (text, rule, at) in cases {
        assert!(rt; has_fault(alloc, text, *rule, *at) == Ok(true), "{text:?}");
    }
}

#[test]
fn texts_with_a_fault(rt: HostRuntime) {
    faults_are_told(&rt, rt.alloc(), &EARLY_ENDS);
    faults_are_told(&rt, rt.alloc(), &OTHERS);
    faults_are_told(&rt, rt.alloc(), &REFUSED);
}

/// Texts, and the tree of each.
const TREES: [(&[u8], &[u8]); 27] = [
    (b"[]", b"()"),
    (b"[^]", b"!()"),
    (b" [ ] ", b"()"),
    (b"[-a]", b"(|002D..002D|0061..0061)"),
    (b"[a-]", b"(|0061..0061|002D..002D)"),
    (b"[---]", b"(|002D..002D)"),
    (b"[+--]", b"(|002B..002D)"),
    (b"[--a]", b"(|002D..0061)"),
    (b"[^a - c]", b"!(|0061..0063)"),
    (b"[[a]-]", b"(|(|0061..0061)|002D..002D)"),
    (b"[[a]- ]", b"(|(|0061..0061)|002D..002D)"),
    (b"[a[b]c]", b"(|0061..0061|(|0062..0062)|0063..0063)"),
    (
        b"[^ab-cd\\p{Lu}e f]",
        b"!(|0061..0061|0062..0063|0064..0064|Lu@7|0065..0065|0066..0066)",
    ),
    (
        b"[[ace][bdf] - [abc][def]]",
        b"(|(|0061..0061|0063..0063|0065..0065)|(|0062..0062|0064..0064|0066..0066)-(|0061..0061|0062..0062|0063..0063)|(|0064..0064|0065..0065|0066..0066))",
    ),
    (b"[ab[^c][]]", b"(|0061..0061|0062..0062|!(|0063..0063)|())"),
    (b"[[^a]&\\P{L}-[[]]]", b"(|!(|0061..0061)&!L@6-(|()))"),
    (b"[[a]&[b]-\\p{L}]", b"(|(|0061..0061)&(|0062..0062)-L@9)"),
    (b"\\p{Lu}", b"Lu@0"),
    (b"\\P{gc=Lu}", b"!gc=Lu@0"),
    (b"[:Lu:]", b"Lu@0"),
    (b"[:^a}=:=b:]", b"!a}=:=b@0"),
    (b"\\p{^:]}", b"^:]@0"),
    (b"\\p{}", b"@0"),
    (
        b"[\\u0041\\x41\\U0010FFFF\\u{1}\\x{10ffff}]",
        b"(|0041..0041|0041..0041|10FFFF..10FFFF|0001..0001|10FFFF..10FFFF)",
    ),
    (
        b"[\\a\\b\\t\\n\\v\\f\\r\\-\\]\\\xc3\xa9\\ ]",
        b"(|0007..0007|0008..0008|0009..0009|000A..000A|000B..000B|000C..000C|000D..000D|002D..002D|005D..005D|00E9..00E9|0020..0020)",
    ),
    (b"[\xc3\xa9-\xf0\x9f\x98\x80]", b"(|00E9..1F600)"),
    (b"[:\xe2\x80\xa8]:]", b"\xe2\x80\xa8]@0"),
];

#[test]
fn texts_with_a_tree(rt: HostRuntime) {
    for (text, tree) in &TREES {
        assert!(rt; has_tree(rt.alloc(), text, tree) == Ok(true), "{text:?}");
    }
}

/// How many brackets are opened and closed, and the fault of the text, if it has one.
const NESTED: [(usize, usize, Option<(SetRule, usize)>); 5] = [
    (64, 64, None),
    (64, 0, Some((SetRule::S2, 64))),
    (65, 65, Some((SetRule::S6, 64))),
    (4000, 0, Some((SetRule::S6, 64))),
    (2, 3, Some((SetRule::S3, 4))),
];

#[test]
fn brackets_within_brackets(rt: HostRuntime) {
    for (open, closed, wanted) in &NESTED {
        let fault = nested_fault(rt.alloc(), *open, *closed);
        assert!(rt; fault == Ok(*wanted), "{open} {closed}");
    }
}
