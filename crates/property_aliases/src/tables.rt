//! Built-in names. UAX #44, sections 5.1, 5.7 and 5.8.

ghost use Rattle.std.specs.Prelude.{◌≡◌, [], ◌∷◌, ◌++◌, map, IfOk, OnOk, OnErr};
ghost use Rattle.property_aliases.specs.Tables.{built_in_names, category_names, decomposition_names, quick_names, truth_names};

use std::alloc::Global;
use ucd_facts::{ListOf, Memory, Text, Texts};

/// The two names of each property that is built in, the long one first.
const BUILT_IN: [&[u8]; 60] = [
    b"General_Category",
    b"gc",
    b"Script",
    b"sc",
    b"Canonical_Combining_Class",
    b"ccc",
    b"Decomposition_Type",
    b"dt",
    b"Word_Break",
    b"WB",
    b"NFD_Quick_Check",
    b"NFD_QC",
    b"NFC_Quick_Check",
    b"NFC_QC",
    b"NFKD_Quick_Check",
    b"NFKD_QC",
    b"NFKC_Quick_Check",
    b"NFKC_QC",
    b"Math",
    b"Math",
    b"Alphabetic",
    b"Alpha",
    b"Lowercase",
    b"Lower",
    b"Uppercase",
    b"Upper",
    b"Cased",
    b"Cased",
    b"Case_Ignorable",
    b"CI",
    b"Changes_When_Lowercased",
    b"CWL",
    b"Changes_When_Uppercased",
    b"CWU",
    b"Changes_When_Titlecased",
    b"CWT",
    b"Changes_When_Casefolded",
    b"CWCF",
    b"Changes_When_Casemapped",
    b"CWCM",
    b"ID_Start",
    b"IDS",
    b"ID_Continue",
    b"IDC",
    b"XID_Start",
    b"XIDS",
    b"XID_Continue",
    b"XIDC",
    b"Default_Ignorable_Code_Point",
    b"DI",
    b"Grapheme_Extend",
    b"Gr_Ext",
    b"Grapheme_Base",
    b"Gr_Base",
    b"Grapheme_Link",
    b"Gr_Link",
    b"Full_Composition_Exclusion",
    b"Comp_Ex",
    b"Changes_When_NFKC_Casefolded",
    b"CWKCF",
];

/// The two letters of the categories, then the groups.
const CATEGORIES: [&[u8]; 38] = [
    b"Lu", b"Ll", b"Lt", b"Lm", b"Lo", b"Mn", b"Mc", b"Me", b"Nd", b"Nl", b"No", b"Pc", b"Pd",
    b"Ps", b"Pe", b"Pi", b"Pf", b"Po", b"Sm", b"Sc", b"Sk", b"So", b"Zs", b"Zl", b"Zp", b"Cc",
    b"Cf", b"Cs", b"Co", b"Cn", b"L", b"LC", b"M", b"N", b"P", b"S", b"Z", b"C",
];

/// The kinds of decompositions.
const DECOMPOSITIONS: [&[u8]; 18] = [
    b"none",
    b"canonical",
    b"font",
    b"noBreak",
    b"initial",
    b"medial",
    b"final",
    b"isolated",
    b"circle",
    b"super",
    b"sub",
    b"vertical",
    b"wide",
    b"narrow",
    b"small",
    b"square",
    b"fraction",
    b"compat",
];

/// The values of a quick check, each by two names.
const QUICK: [&[u8]; 6] = [b"Y", b"Yes", b"N", b"No", b"M", b"Maybe"];

/// The values of a property that code points have or have not, each by four names.
const TRUTH: [&[u8]; 8] = [b"Y", b"Yes", b"T", b"True", b"N", b"No", b"F", b"False"];

/// The two names of each property that is built in, the long one first.
pub(crate) fn built_in_names() -> &'static [&'static [u8]]
    ensures { map (λ n. n.now) result.now ≡ built_in_names }
{
    &BUILT_IN
}

/// The two letters of the categories, then the groups.
pub(crate) fn category_names() -> &'static [&'static [u8]]
    ensures { map (λ n. n.now) result.now ≡ category_names }
{
    &CATEGORIES
}

/// The kinds of decompositions.
pub(crate) fn decomposition_names() -> &'static [&'static [u8]]
    ensures { map (λ n. n.now) result.now ≡ decomposition_names }
{
    &DECOMPOSITIONS
}

/// The values of a quick check, each by two names.
pub(crate) fn quick_names() -> &'static [&'static [u8]]
    ensures { map (λ n. n.now) result.now ≡ quick_names }
{
    &QUICK
}

/// The values of a property that code points have or have not, each by four names.
pub(crate) fn truth_names() -> &'static [&'static [u8]]
    ensures { map (λ n. n.now) result.now ≡ truth_names }
{
    &TRUTH
}

/// Puts copies of names at the end.
///
/// - `Memory`: memory ran out.
pub(crate) fn push_names(alloc: Global, texts: &mut Texts, names: &[&[u8]]) -> Result<(), Memory>
    ensures { OnOk result (texts.new ≡ texts.old ++ map (λ n. n.now) names.now) }
{
    'names: for name in names {
        push_name(alloc, texts, *name)?;
    }
    Ok(())
}

/// Puts a copy of a name at the end.
///
/// - `Memory`: memory ran out.
pub(crate) fn push_name(alloc: Global, texts: &mut Texts, name: &[u8]) -> Result<(), Memory>
    ensures { OnOk result (texts.new ≡ texts.old ++ name.now ∷ []) }
{
    let mut text = ListOf::new(alloc);
    text.append(name)?;
    texts.push(text)
}

/// Puts copies of numbered names at the end.
///
/// - `Memory`: memory ran out.
fn push_numbered_names(alloc: Global, texts: &mut Texts, keys: &[Vec<u8>]) -> Result<(), Memory>
    ensures { OnOk result (texts.new ≡ texts.old ++ map (λ k. k.items) keys.now) }
{
    'keys: for key in keys {
        push_name(alloc, texts, key.as_slice())?;
    }
    Ok(())
}

/// Built-in names, and numbered ones behind them.
///
/// - `Memory`: memory ran out.
pub(crate) fn table_of(alloc: Global, built_in: &[&[u8]], keys: &[Vec<u8>]) -> Result<Texts, Memory>
    ensures { IfOk result (λ texts. texts ≡ map (λ n. n.now) built_in.now
        ++ map (λ k. k.items) keys.now) }
{
    let mut texts = ListOf::new(alloc);
    push_names(alloc, &mut texts, built_in)?;
    push_numbered_names(alloc, &mut texts, keys)?;
    Ok(texts)
}
