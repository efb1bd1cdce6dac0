//! The names of properties and of their values that are looked at, as the real files spell them.

use code_facts::{FactTables, FromRelease};
use range_table::RunTable;
use release_rows::Release;
use std::alloc::Global;
use std::process::Abort;
use std::test::Fail;
use ucd_facts::{FactView, Flag, Flags, Point, SourceFile};

type Tables = FactTables<RunTable<u64>>;

/// A line of PropList.txt for each property that is looked at, and one for another property.
const PROPERTIES: &[u8] =
    b"0020          ; White_Space # Zs       SPACE\n005E          ; Other_Math # Sk       CIRCUMFLEX ACCENT\n00AA          ; Other_Lowercase # Lo       FEMININE ORDINAL INDICATOR\n2160..216F    ; Other_Uppercase # Nl  [16] ROMAN NUMERAL ONE..ROMAN NUMERAL ONE THOUSAND\n0345          ; Other_Alphabetic # Mn       COMBINING GREEK YPOGEGRAMMENI\n2118          ; Other_ID_Start # Sm       SCRIPT CAPITAL P\n00B7          ; Other_ID_Continue # Po       MIDDLE DOT\n0021..0023    ; Pattern_Syntax # Po   [3] EXCLAMATION MARK..NUMBER SIGN\n0085          ; Pattern_White_Space # Cc       <control-0085>\n034F          ; Other_Default_Ignorable_Code_Point # Mn       COMBINING GRAPHEME JOINER\n180B..180D    ; Variation_Selector # Mn   [3] MONGOLIAN FREE VARIATION SELECTOR ONE..MONGOLIAN FREE VARIATION SELECTOR THREE\n0600..0605    ; Prepended_Concatenation_Mark # Cf   [6] ARABIC NUMBER SIGN..ARABIC NUMBER MARK ABOVE\n09BE          ; Other_Grapheme_Extend # Mc       BENGALI VOWEL SIGN AA\nFDD0..FDEF    ; Noncharacter_Code_Point # Cn  [32] <noncharacter-FDD0>..<noncharacter-FDEF>\n002D          ; Dash # Pd       HYPHEN-MINUS\n";

/// A code point of each of these lines but the last, with its property.
const FLAGS: [(u32, Flag); 14] = [
    (0x0020, Flag::WhiteSpace),
    (0x005E, Flag::OtherMath),
    (0x00AA, Flag::OtherLowercase),
    (0x2160, Flag::OtherUppercase),
    (0x0345, Flag::OtherAlphabetic),
    (0x2118, Flag::OtherIdStart),
    (0x00B7, Flag::OtherIdContinue),
    (0x0022, Flag::PatternSyntax),
    (0x0085, Flag::PatternWhiteSpace),
    (0x034F, Flag::OtherDefaultIgnorableCodePoint),
    (0x180C, Flag::VariationSelector),
    (0x0605, Flag::PrependedConcatenationMark),
    (0x09BE, Flag::OtherGraphemeExtend),
    (0xFDD0, Flag::NoncharacterCodePoint),
];

/// The code point of the last line.
const HYPHEN: u32 = 0x002D;

/// Lines of WordBreakProperty.txt.
const WORD_BREAKS: &[u8] =
    b"0027          ; Single_Quote # Po       APOSTROPHE\n002C          ; MidNum # Po       COMMA\n002E          ; MidNumLet # Po       FULL STOP\n003A          ; MidLetter # Po       COLON\n";

/// Their code points, and whether each stands in the middle of a word.
const MID_WORDS: [(u32, bool); 4] = [
    (0x0027, true),
    (0x002C, false),
    (0x002E, true),
    (0x003A, true),
];

fn point(number: u32) -> Result<Point, Fail> {
    Ok(Point::new(number).ok_or("a code point")?)
}

/// The tables of a release that has these lines.
fn tables(alloc: Global) -> Result<Box<Tables>, Fail> {
    let mut release = Release::empty(alloc);
    release.load_file(SourceFile::PropList, PROPERTIES)?;
    release.load_file(SourceFile::WordBreakProperty, WORD_BREAKS)?;
    Ok(Box::new(alloc, FactTables::of(alloc, &release)?)?)
}

/// Whether a set has this property, and no other one that is looked at.
fn has_alone(flags: Flags, flag: Flag) -> bool {
    for (_, other) in &FLAGS {
        if flags.has(*other) != (*other == flag) {
            return false;
        }
    }
    true
}

/// Whether a set has no property that is looked at.
fn has_none(flags: Flags) -> bool {
    for (_, flag) in &FLAGS {
        if flags.has(*flag) {
            return false;
        }
    }
    true
}

/// Each line decides one property.
fn look_at_properties(rt: &impl Abort, tables: &Tables) -> Result<(), Fail> {
    for (number, flag) in &FLAGS {
        assert!(rt; has_alone(tables.facts(point(*number)?).flags, *flag));
    }
    assert!(rt; has_none(tables.facts(point(HYPHEN)?).flags));
    Ok(())
}

fn look_at_word_breaks(rt: &impl Abort, tables: &Tables) -> Result<(), Fail> {
    for (number, is_mid_word) in &MID_WORDS {
        assert_eq!(rt; tables.facts(point(*number)?).mid_word, *is_mid_word);
    }
    Ok(())
}

#[test]
fn names_are_those_of_the_real_files(rt: HostRuntime) -> Result<(), Fail> {
    let tables = tables(rt.alloc())?;
    look_at_properties(&rt, &tables)?;
    look_at_word_breaks(&rt, &tables)
}
