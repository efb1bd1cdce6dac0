//! Answers by the rows of files, without rows of UnicodeData.txt beside them: every code point is unassigned.

ghost use Rattle.std.specs.Prelude.{◌≡◌, [], IfOk};
ghost use Rattle.property_aliases.specs.Found.{AreAliasesOf};
ghost use Rattle.property_aliases.specs.Sources.{sources_of};
ghost use Rattle.release_rows.specs.Releases.{items_now};
ghost use Rattle.ucd_facts.specs.declared.category.Category.TheVariants.{Cn};
ghost use Rattle.ucd_points.specs.declared.files.SourceFile.TheVariants.{UnicodeData};

use crate::members::are;
use property_aliases::Aliases;
use release_rows::Release;
use std::alloc::Global;
use std::process::Abort;
use std::test::Fail;
use ucd_model::{Category, CoreSet, Image, Kind, Point, Quick, Record, Records, SourceFile};
use unicodeset_eval::eval;
use unicodeset_parser::{Expr, parse};

/// One record for all code points.
#[derive(Drop)]
struct OneRecord {
    record: Record,
}

impl Records for OneRecord {
    ghost use Rattle.ucd_model.specs.Records.{kept_record};

    ghost record_of = { λ bench c. kept_record bench.record };

    fn record(&self, _c: Point) -> &Record {
        &self.record
    }
}

/// The records of unassigned code points, as far as questions ask for them.
fn unassigned() -> OneRecord
    ensures { result.record.category ≡ Cn }
{
    OneRecord {
        record: Record {
            category: Category::Cn,
            class: 0,
            kind: Kind::Plain,
            core: CoreSet::none(),
            exclusion: false,
            nfd: Quick::Yes,
            nfc: Quick::Yes,
            nfkd: Quick::Yes,
            nfkc: Quick::Yes,
            casefold: Image::Same,
            simple_casefold: Image::Same,
            changes_casefold: false,
        },
    }
}

/// A release with lines of Scripts.txt, WordBreakProperty.txt and PropList.txt as real releases have them.
fn release(alloc: Global) -> Result<Release, Fail>
    ensures { IfOk result (λ release. items_now release UnicodeData ≡ []) }
{
    let mut release = Release::empty(alloc);
    release.load_file(
        SourceFile::Scripts,
        b"0041..005A ; Latin # L&  [26]\n0370..0373 ; Greek\n0061..007A ; Latin\n",
    )?;
    release.load_file(
        SourceFile::WordBreakProperty,
        b"# Word_Break\n0022 ; Double_Quote\n0027 ; Single_Quote\n",
    )?;
    release.load_file(
        SourceFile::PropList,
        b"0009..000D ; White_Space\n0020 ; White_Space\n0020 ; Pattern_White_Space\n10FFFE..10FFFF ; Noncharacter_Code_Point\n",
    )?;
    Ok(release)
}

/// A text, and the spans of its answer.
pub(crate) type AnswerRow = (&'static [u8], &'static [(u32, u32)]);

/// Texts with their answers, by `release`. The default script has what no row covers too. A code point may have two listed
/// properties; those that have not one of them end with 10FFFF.
const ANSWERS: [AnswerRow; 10] = [
    (
        b"\\p{sc=Unknown}",
        &[(0, 0x40), (0x5B, 0x60), (0x7B, 0x36F), (0x374, 0x10_FFFF)],
    ),
    (b"\\p{sc=Latin}", &[(0x41, 0x5A), (0x61, 0x7A)]),
    (b"\\p{WB=Single_Quote}", &[(0x27, 0x27)]),
    (b"\\p{White_Space}", &[(0x9, 0xD), (0x20, 0x20)]),
    (b"\\p{Pattern_White_Space}", &[(0x20, 0x20)]),
    (b"\\P{Pattern_White_Space}", &[(0, 0x1F), (0x21, 0x10_FFFF)]),
    (b"\\P{Noncharacter_Code_Point}", &[(0, 0x10_FFFD)]),
    (
        b"[\\p{sc=Greek}\\p{White_Space}]",
        &[(0x9, 0xD), (0x20, 0x20), (0x370, 0x373)],
    ),
    (
        b"[\\p{sc=Latin}-\\p{gc=Lu}-[b-z]]",
        &[(0x41, 0x5A), (0x61, 0x61)],
    ),
    (b"\\p{Assigned}", &[]),
];

#[test]
fn texts_have_answers(rt: HostRuntime) -> Result<(), Fail> {
    let release = release(rt.alloc())?;
    texts_are_answered(&rt, rt.alloc(), &release, &ANSWERS)
}

/// A call lets the names go: their many parts would else fill this function's proof.
pub(crate) fn texts_are_answered(
    rt: &impl Abort,
    alloc: Global,
    release: &Release,
    answers: &[AnswerRow],
) -> Result<(), Fail>
    requires { items_now release.now UnicodeData ≡ [] }
{
    let aliases = Aliases::of(alloc, release)?;
    let answered = are_answers(rt, alloc, release, &aliases, answers);
    drop(aliases);
    answered
}

fn are_answers(
    rt: &impl Abort,
    alloc: Global,
    release: &Release,
    aliases: &Aliases,
    answers: &[AnswerRow],
) -> Result<(), Fail>
    requires unassigned { items_now release.now UnicodeData ≡ [] }
    requires aliases { AreAliasesOf aliases.now (sources_of release.now) }
{
    'answers: for (text, expected) in answers {
        assert!(rt; is_answer(alloc, release, aliases, text, expected)?);
    }
    Ok(())
}

/// Whether a text has this answer.
fn is_answer(
    alloc: Global,
    release: &Release,
    aliases: &Aliases,
    text: &[u8],
    expected: &[(u32, u32)],
) -> Result<bool, Fail>
    requires unassigned { items_now release.now UnicodeData ≡ [] }
    requires aliases { AreAliasesOf aliases.now (sources_of release.now) }
{
    let expr = parse(alloc, text)?;
    has_spans(alloc, release, aliases, &expr, expected)
}

/// Whether a set has these spans. It borrows the set: a function that owned the set and the spans would be large to prove.
#[tactic(auto, using(crate::proofs::NoRows::unassigned))]
fn has_spans(
    alloc: Global,
    release: &Release,
    aliases: &Aliases,
    expr: &Expr,
    expected: &[(u32, u32)],
) -> Result<bool, Fail>
    requires unassigned { items_now release.now UnicodeData ≡ [] }
    requires aliases { AreAliasesOf aliases.now (sources_of release.now) }
{
    let spans = eval(alloc, &unassigned(), release, aliases, expr)?;
    are(alloc, &spans, expected)
}
