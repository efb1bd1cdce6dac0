//! Names of properties and of their values by the rows of files.

use property_aliases::{Aliases, Group, Property, Test};
use release_rows::Release;
use std::alloc::Global;
use std::process::Abort;
use std::test::Fail;
use ucd_model::Category::{Cn, Lu, Nd};
use ucd_model::{Core, Form, Kind, Quick, SourceFile, Tag};

const GC: Property = Property::Category;

const SC: Property = Property::Script;

const CCC: Property = Property::Class;

const DT: Property = Property::Decomposition;

const WB: Property = Property::WordBreak;

const NFC_QC: Property = Property::Quick(Form::Nfc);

const ALPHA: Property = Property::Core(Core::Alphabetic);

const COMP_EX: Property = Property::Exclusion;

const SPACE: Property = Property::Listed(0);

const NO_BREAK: Kind = Kind::Compat(Tag::NoBreak);

/// Lines of PropertyValueAliases.txt.
const VALUES: &[u8] = b"\
ccc;   0; NR ; Not_Reordered
ccc; 230; A  ; Above
dt ; Can     ; Canonical ; can
dt ; Com     ; Compat ; com
dt ; Nb      ; Nobreak ; nb
gc ; C       ; Other # Cc | Cf | Cn | Co | Cs
gc ; Cc      ; Control ; cntrl
gc ; LC      ; Cased_Letter # Ll | Lt | Lu
gc ; Lu      ; Uppercase_Letter
gc ; M       ; Mark ; Combining_Mark # Mc | Me | Mn
gc ; Nd      ; Decimal_Number ; digit
sc ; Grek    ; Greek
sc ; Latn    ; Latin
sc ; Zzzz    ; Unknown
WB ; LE      ; ALetter
WB ; XX      ; Other
WSpace; N    ; No ; F ; False
";

/// A release with lines of PropertyAliases.txt, PropertyValueAliases.txt, PropList.txt, Scripts.txt and
/// WordBreakProperty.txt as real releases have them.
fn release(alloc: Global) -> Result<Release, Fail> {
    let mut release = Release::empty(alloc);
    release.load_file(
        SourceFile::PropertyAliases,
        b"gc  ; General_Category\nAlpha ; Alphabetic\nWSpace ; White_Space ; space\nNChar ; Noncharacter_Code_Point\nage ; Age\n",
    )?;
    release.load_file(
        SourceFile::PropList,
        b"0009..000D ; White_Space\n0020 ; White_Space\n10FFFE..10FFFF ; Noncharacter_Code_Point\n",
    )?;
    release.load_file(
        SourceFile::Scripts,
        b"0041..005A ; Latin # L&  [26]\n0061..007A ; Latin\n0370..0373 ; Greek\n",
    )?;
    release.load_file(
        SourceFile::WordBreakProperty,
        b"0022 ; Double_Quote\n0041..005A ; ALetter\n",
    )?;
    release.load_file(SourceFile::PropertyValueAliases, VALUES)?;
    Ok(release)
}

/// What names mean by that release.
fn aliases(alloc: Global) -> Result<Aliases, Fail> {
    let release = release(alloc)?;
    Ok(Aliases::of(alloc, &release)?)
}

/// Names of properties, and what they mean by `release`.
const PROPERTY_CASES: [(&[u8], Option<Property>); 16] = [
    (b"gc", Some(Property::Category)),
    (b"General_Category", Some(Property::Category)),
    (b"generalcategory", Some(Property::Category)),
    (b"GENERAL-category ", Some(Property::Category)),
    (b"isGeneral_Category", Some(Property::Category)),
    (b"ccc", Some(Property::Class)),
    (b"NFKC_QC", Some(Property::Quick(Form::Nfkc))),
    (b"Alpha", Some(Property::Core(Core::Alphabetic))),
    (b"Gr_Link", Some(Property::Core(Core::GraphemeLink))),
    (b"CWKCF", Some(Property::ChangesCasefold)),
    (b"White_Space", Some(Property::Listed(0))),
    (b"space", Some(Property::Listed(0))),
    (b"is NChar", Some(Property::Listed(1))),
    (b"age", None),
    (b"is", None),
    (b"", None),
];

fn properties_are_found(rt: &impl Abort, aliases: &Aliases) -> Result<(), Fail> {
    for (name, property) in &PROPERTY_CASES {
        assert_eq!(rt; aliases.property(name), *property);
    }
    Ok(())
}

/// Scripts by their numbers, by `release`.
const SCRIPT_CASES: [(u64, Option<&[u8]>); 4] = [
    (0, Some(b"Unknown")),
    (1, Some(b"Latin")),
    (2, Some(b"Greek")),
    (3, None),
];

fn numbers_are_found(rt: &impl Abort, aliases: &Aliases) -> Result<(), Fail> {
    scripts_are_found(rt, aliases)?;
    others_are_found(rt, aliases)
}

fn scripts_are_found(rt: &impl Abort, aliases: &Aliases) -> Result<(), Fail> {
    for (number, name) in &SCRIPT_CASES {
        assert!(rt; aliases.script_name(*number) == *name);
    }
    Ok(())
}

fn others_are_found(rt: &impl Abort, aliases: &Aliases) -> Result<(), Fail> {
    let other: Option<&[u8]> = Some(b"Other");
    assert!(rt; aliases.break_name(0) == other);
    let second: Option<&[u8]> = Some(b"Noncharacter_Code_Point");
    assert!(rt; aliases.listed_name(1) == second);
    assert!(rt; aliases.listed_name(2).is_none());
    Ok(())
}

/// Names of values, and what they mean by `release`.
const VALUE_CASES: [(Property, &[u8], Option<Test>); 29] = [
    (GC, b"Lu", Some(Test::Category(Lu))),
    (GC, b"uppercase-letter", Some(Test::Category(Lu))),
    (GC, b"is digit", Some(Test::Category(Nd))),
    (GC, b"Cn", Some(Test::Category(Cn))),
    (GC, b"Cased_Letter", Some(Test::Group(Group::LC))),
    (GC, b"Other", Some(Test::Group(Group::C))),
    (GC, b"gc", None),
    (GC, b"Greek", None),
    (SC, b"Grek", Some(Test::Script(2))),
    (SC, b"isLatin", Some(Test::Script(1))),
    (SC, b"Zzzz", Some(Test::Script(0))),
    (SC, b"Cyrl", None),
    (CCC, b"230", Some(Test::Class(230))),
    (CCC, b"Above", Some(Test::Class(230))),
    (CCC, b"NR", Some(Test::Class(0))),
    (CCC, b"00", None),
    (CCC, b"254", Some(Test::Class(254))),
    (CCC, b"255", None),
    (DT, b"none", Some(Test::Decomposition(Kind::Plain))),
    (DT, b"Can", Some(Test::Decomposition(Kind::Canonical))),
    (DT, b"nb", Some(Test::Decomposition(NO_BREAK))),
    (WB, b"LE", Some(Test::WordBreak(2))),
    (WB, b"XX", Some(Test::WordBreak(0))),
    (NFC_QC, b"Maybe", Some(Test::Quick(Form::Nfc, Quick::Maybe))),
    (NFC_QC, b"n", Some(Test::Quick(Form::Nfc, Quick::No))),
    (ALPHA, b"T", Some(Test::Core(Core::Alphabetic, true))),
    (COMP_EX, b"False", Some(Test::Exclusion(false))),
    (SPACE, b"no", Some(Test::Listed(0, false))),
    (SPACE, b"", None),
];

fn values_are_found(rt: &impl Abort, aliases: &Aliases) -> Result<(), Fail> {
    for (property, name, test) in &VALUE_CASES {
        assert!(rt; aliases.value(*property, name) == *test);
    }
    Ok(())
}

/// Names that stand alone, and what they mean by `release`.
const LONE_CASES: [(&[u8], Option<Test>); 15] = [
    (b"Lu", Some(Test::Category(Lu))),
    (b"L", Some(Test::Group(Group::L))),
    (b"Combining_Mark", Some(Test::Group(Group::M))),
    (b"Other", Some(Test::Group(Group::C))),
    (b"Greek", Some(Test::Script(2))),
    (b"isGreek", Some(Test::Script(2))),
    (b"Alpha", Some(Test::Core(Core::Alphabetic, true))),
    (b"Comp_Ex", Some(Test::Exclusion(true))),
    (b"White_Space", Some(Test::Listed(0, true))),
    (b"any", Some(Test::Any)),
    (b"is_ASCII", Some(Test::Ascii)),
    (b"Assigned", Some(Test::Assigned)),
    (b"gc", None),
    (b"ALetter", None),
    (b"is", None),
];

fn lone_names_are_found(rt: &impl Abort, aliases: &Aliases) -> Result<(), Fail> {
    for (name, test) in &LONE_CASES {
        assert!(rt; aliases.lone(name) == *test);
    }
    Ok(())
}

/// Whether each name means what it is to mean, of properties, of values, and alone.
fn names_are_found(rt: &impl Abort, aliases: &Aliases) -> Result<(), Fail> {
    properties_are_found(rt, aliases)?;
    numbers_are_found(rt, aliases)?;
    values_are_found(rt, aliases)?;
    lone_names_are_found(rt, aliases)
}

/// A call lets the names go, so that this function stays small.
#[test]
fn names_have_their_meaning(rt: HostRuntime) -> Result<(), Fail> {
    let aliases = aliases(rt.alloc())?;
    let found = names_are_found(&rt, &aliases);
    drop(aliases);
    found
}
