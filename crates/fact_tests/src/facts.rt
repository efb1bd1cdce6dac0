//! Facts of small releases, made of lines of the real files.

ghost use Rattle.std.specs.Prelude.{◌≡◌, [], IfOk};
ghost use Rattle.ucd_points.specs.declared.files.SourceFile.TheVariants.{SpecialCasing, WordBreakProperty, CompositionExclusions};
ghost use Rattle.release_rows.specs.Releases.{items_now};

use code_facts::{FactTables, FromRelease};
use range_table::RunTable;
use release_rows::Release;
use std::alloc::Global;
use std::test::Fail;
use ucd_facts::{Category, FactView, FactsRef, Flag, Kind, Point, SourceFile, Tag};

type Tables = FactTables<RunTable<u64>>;

fn point(number: u32) -> Result<Point, Fail> {
    Ok(Point::new(number).ok_or("a code point")?)
}

/// Whether the points are those of the numbers.
fn are(points: &[Point], numbers: &[u32]) -> bool {
    points
        .iter()
        .map(|c| c.number())
        .eq(numbers.iter().copied())
}

/// Whether an image is the points of the numbers; no numbers stand for the code point itself.
fn is_image(image: Option<&[Point]>, numbers: &[u32]) -> bool {
    match image {
        Some(points) => are(points, numbers),
        None => numbers.is_empty(),
    }
}

/// A release of three files; the others have no items yet.
fn three_files(
    alloc: Global,
    data_lines: &[u8],
    properties: &[u8],
    foldings: &[u8],
) -> Result<Release, Fail>
    ensures casings { IfOk result (λ release. items_now release SpecialCasing ≡ []) }
    ensures words { IfOk result (λ release. items_now release WordBreakProperty ≡ []) }
    ensures exclusions { IfOk result (λ release. items_now release CompositionExclusions ≡ []) }
{
    let mut release = Release::empty(alloc);
    release.load_file(SourceFile::UnicodeData, data_lines)?;
    release.load_file(SourceFile::PropList, properties)?;
    release.load_file(SourceFile::CaseFolding, foldings)?;
    Ok(release)
}

/// The tables of a release of six files.
fn tables(
    alloc: Global,
    data_lines: &[u8],
    properties: &[u8],
    foldings: &[u8],
    casings: &[u8],
) -> Result<Box<Tables>, Fail> {
    let mut release = three_files(alloc, data_lines, properties, foldings)?;
    release.load_file(SourceFile::SpecialCasing, casings)?;
    release.load_file(
        SourceFile::WordBreakProperty,
        b"0027 ; Single_Quote\n0149 ; MidLetter\n",
    )?;
    release.load_file(SourceFile::CompositionExclusions, b"0149\n0958..095F\n")?;
    Ok(Box::new(alloc, FactTables::of(alloc, &release)?)?)
}

/// A code point with a row in every file: 0149 has one in fact in UnicodeData.txt, CaseFolding.txt and
/// SpecialCasing.txt.
#[test]
fn a_point_with_rows_in_every_file(rt: HostRuntime) -> Result<(), Fail> {
    let tables = tables(
        rt.alloc(),
        b"0148;LATIN SMALL LETTER N WITH CARON;Ll;0;L;006E 030C;;;;N;LATIN SMALL LETTER N HACEK;;0147;;0147\n0149;LATIN SMALL LETTER N PRECEDED BY APOSTROPHE;Ll;0;L;<compat> 02BC 006E;;;;N;LATIN SMALL LETTER APOSTROPHE N;;;;\n",
        b"0149 ; Other_Lowercase\n0148..0149 ; Noncharacter_Code_Point\n",
        b"0149; T; 0041;\n0149; F; 02BC 006E;\n0148; C; 0148;\n",
        b"0149; 0149; 02BC 004E; 02BC 004E; tr;\n0149; 0149; 02BC 004E; 02BC 004F;\n",
    )?;
    assert!(rt; shows_0149(&*tables)?);
    Ok(())
}

/// Whether a view shows the facts of 0149.
fn shows_0149<W: FactView>(view: &W) -> Result<bool, Fail> {
    let facts = view.facts(point(0x149)?);
    Ok(has_values_of_0149(&facts) && has_flags_of_0149(&facts) && has_images_of_0149(&facts))
}

fn has_values_of_0149(facts: &FactsRef<'_>) -> bool {
    facts.assigned
        && facts.excluded
        && facts.mid_word
        && facts.category == Category::Ll
        && facts.class == 0
        && facts.kind == Kind::Compat(Tag::Compat)
        && are(facts.mapping, &[0x2BC, 0x6E])
}

fn has_flags_of_0149(facts: &FactsRef<'_>) -> bool {
    facts.flags.has(Flag::OtherLowercase)
        && !facts.flags.has(Flag::OtherUppercase)
        && facts.flags.has(Flag::NoncharacterCodePoint)
        && !facts.flags.has(Flag::WhiteSpace)
}

fn has_images_of_0149(facts: &FactsRef<'_>) -> bool {
    facts.simple_upper.number() == 0x149
        && is_image(facts.upper, &[0x2BC, 0x4F])
        && is_image(facts.title, &[0x2BC, 0x4E])
        && is_image(facts.lower, &[])
        && is_image(facts.fold, &[0x2BC, 0x6E])
}

/// Whether a code point has the canonical mapping.
fn maps_to(tables: &Tables, number: u32, first: u32, second: u32) -> Result<bool, Fail> {
    let facts = tables.facts(point(number)?);
    Ok(facts.kind == Kind::Canonical && are(facts.mapping, &[first, second]))
}

/// Whether a code point has no mapping.
fn is_plain(tables: &Tables, number: u32) -> Result<bool, Fail> {
    let facts = tables.facts(point(number)?);
    Ok(facts.kind == Kind::Plain && facts.mapping.is_empty())
}

/// Whether a consonant and the neighbours of the block have no mapping.
fn are_plain(tables: &Tables) -> Result<bool, Fail> {
    Ok(is_plain(tables, 0x1100)? && is_plain(tables, 0xABFF)? && is_plain(tables, 0xD7A4)?)
}

#[test]
fn syllables_have_their_mappings(rt: HostRuntime) -> Result<(), Fail> {
    let tables = tables(
        rt.alloc(),
        b"1100;HANGUL CHOSEONG KIYEOK;Lo;0;L;;;;;N;;;;;\nAC00;<Hangul Syllable, First>;Lo;0;L;;;;;N;;;;;\nD7A3;<Hangul Syllable, Last>;Lo;0;L;;;;;N;;;;;\n",
        b"",
        b"",
        b"",
    )?;
    // the examples of The Unicode Standard, section 3.12, and the ends of the block
    for (syllable, first, second) in [
        (0xAC00, 0x1100, 0x1161),
        (0xD4DB, 0xD4CC, 0x11B6),
        (0xD4CC, 0x1111, 0x1171),
        (0xD7A3, 0xD788, 0x11C2),
    ] {
        assert!(rt; maps_to(&tables, syllable, first, second)?);
    }
    assert!(rt; are_plain(&tables)?);
    Ok(())
}

/// The least composite of a pair, of those that are not excluded.
#[test]
fn composites_are_found(rt: HostRuntime) -> Result<(), Fail> {
    let tables = tables(
        rt.alloc(),
        b"0147;A;Lu;0;L;004E 030C;;;;N;;;;;\n0148;B;Ll;0;L;006E 030C;;;;N;;;;;\n0149;C;Ll;0;L;0041 0300;;;;N;;;;;\n014A;D;Ll;0;L;006E 030C;;;;N;;;;;\n030C;E;Mn;230;NSM;;;;;N;;;;;\n",
        b"",
        b"",
        b"",
    )?;
    assert!(rt; pairs_are_found(&tables)?);
    assert!(rt; seconds_are_found(&tables)?);
    Ok(())
}

/// Whether the pairs of 0147 and 0148 are found, and that of 0149, which is excluded, is not.
fn pairs_are_found(tables: &Tables) -> Result<bool, Fail> {
    let excluded = tables.pair(point(0x41)?, point(0x300)?);
    Ok(
        pairs_to(tables, 0x6E, 0x30C, 0x148)?
            && pairs_to(tables, 0x4E, 0x30C, 0x147)?
            && excluded.is_none(),
    )
}

/// Whether 030C is a second member, and 0300 is none.
fn seconds_are_found(tables: &Tables) -> Result<bool, Fail> {
    let caron = tables.second(point(0x30C)?);
    let grave = tables.second(point(0x300)?);
    Ok(caron && !grave)
}

/// Whether the pair of two code points is the third, also in the view of the facts now.
fn pairs_to(tables: &Tables, s: u32, y: u32, composite: u32) -> Result<bool, Fail> {
    let found = tables.pair(point(s)?, point(y)?);
    let shown = tables.now().pair(point(s)?, point(y)?);
    Ok(found == shown && found == Some(point(composite)?))
}

/// Stretches end before the next mapping, whichever file gives it, and where other facts change. A folding to the code
/// point itself is no mapping.
#[test]
fn stretches_of_equal_facts(rt: HostRuntime) -> Result<(), Fail> {
    let tables = tables(
        rt.alloc(),
        b"0041;LATIN CAPITAL LETTER A;Lu;0;L;;;;;N;;;;0061;\n0061;LATIN SMALL LETTER A;Ll;0;L;;;;;N;;;0041;;0041\n00AA;FEMININE ORDINAL INDICATOR;Lo;0;L;<super> 0061;;;;N;;;;;\n",
        b"",
        b"00DF; F; 0073 0073;\n0148; C; 0148;\n",
        b"FB00; FB00; 0046 0066; 0046 0046;\n",
    )?;
    for (first, last) in [
        (0, Some(0x26)),
        (0x27, Some(0x27)),
        (0x28, Some(0x40)),
        (0x41, None),
        (0x60, Some(0x60)),
        (0x62, Some(0xA9)),
        (0xAA, None),
        (0xAB, Some(0xDE)),
        (0xDF, None),
        (0xE0, Some(0x147)),
        (0x148, Some(0x148)),
        (0x149, Some(0x149)),
        (0x14A, Some(0x957)),
        (0x958, Some(0x95F)),
        (0x960, Some(0xFAFF)),
        (0xFB00, None),
        (0xFB01, Some(0x10FFFF)),
    ] {
        assert!(rt; is_uniform_to(&tables, first, last)?);
    }
    Ok(())
}

/// A second member is alone, whatever its neighbours are.
#[test]
fn stretches_end_at_second_members(rt: HostRuntime) -> Result<(), Fail> {
    let tables = marks(rt.alloc())?;
    for (first, last) in [
        (0x304, 0x304),
        (0x305, 0x305),
        (0x306, 0x306),
        (0x307, 0x307),
    ] {
        assert!(rt; is_uniform_to(&tables, first, Some(last))?);
    }
    Ok(())
}

#[test]
fn single_facts_are_those_of_the_row(rt: HostRuntime) -> Result<(), Fail> {
    let tables = marks(rt.alloc())?;
    assert!(rt; has_single_facts(&*tables)?);
    assert!(rt; has_single_facts(&tables.now())?);
    Ok(())
}

/// A composite, its second member, and the neighbours of that, which are the second members of none here.
fn marks(alloc: Global) -> Result<Box<Tables>, Fail> {
    tables(
        alloc,
        b"0103;LATIN SMALL LETTER A WITH BREVE;Ll;0;L;0061 0306;;;;N;LATIN SMALL LETTER A BREVE;;0102;;0102\n0305;COMBINING OVERLINE;Mn;230;NSM;;;;;N;NON-SPACING OVERSCORE;;;;\n0306;COMBINING BREVE;Mn;230;NSM;;;;;N;NON-SPACING BREVE;;;;\n0307;COMBINING DOT ABOVE;Mn;230;NSM;;;;;N;NON-SPACING DOT ABOVE;;;;\n",
        b"",
        b"",
        b"",
    )
}

/// Whether the single facts of 0103, of 0306 and of a code point without a row are those of `marks`.
fn has_single_facts<W: FactView>(view: &W) -> Result<bool, Fail> {
    let composite = point(0x103)?;
    let mark = point(0x306)?;
    let other = point(0x304)?;
    Ok(
        view.is_assigned(composite)
            && view.class(composite) == 0
            && view.kind(composite) == Kind::Canonical
            && are(view.mapping(composite), &[0x61, 0x306])
            && view.is_assigned(mark)
            && view.class(mark) == 230
            && view.mapping(mark).is_empty()
            && !view.is_assigned(other)
            && view.kind(other) == Kind::Plain,
    )
}

/// Whether the stretch of a code point ends so.
fn is_uniform_to(tables: &Tables, first: u32, last: Option<u32>) -> Result<bool, Fail> {
    let found = tables.last_uniform(point(first)?).map(|c| c.number());
    Ok(found == last)
}
