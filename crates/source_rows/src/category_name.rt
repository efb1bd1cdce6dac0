//! Reads the names of general categories. UAX #44, section 5.7.1, table 12.

ghost use Rattle.std.specs.Prelude.{◌≡◌};
ghost use Rattle.ucd_facts.specs.Names.{letter_of, mark_of, number_of, punctuation_of, symbol_of, separator_of, other_of, category_of};

use ucd_facts::Category;

fn letter_of(kind: u8) -> Option<Category>
    ensures { result ≡ letter_of kind }
{
    match kind {
        b'u' => Some(Category::Lu),
        b'l' => Some(Category::Ll),
        b't' => Some(Category::Lt),
        b'm' => Some(Category::Lm),
        b'o' => Some(Category::Lo),
        _ => None,
    }
}

fn mark_of(kind: u8) -> Option<Category>
    ensures { result ≡ mark_of kind }
{
    match kind {
        b'n' => Some(Category::Mn),
        b'c' => Some(Category::Mc),
        b'e' => Some(Category::Me),
        _ => None,
    }
}

fn number_of(kind: u8) -> Option<Category>
    ensures { result ≡ number_of kind }
{
    match kind {
        b'd' => Some(Category::Nd),
        b'l' => Some(Category::Nl),
        b'o' => Some(Category::No),
        _ => None,
    }
}

fn punctuation_of(kind: u8) -> Option<Category>
    ensures { result ≡ punctuation_of kind }
{
    match kind {
        b'c' => Some(Category::Pc),
        b'd' => Some(Category::Pd),
        b's' => Some(Category::Ps),
        b'e' => Some(Category::Pe),
        b'i' => Some(Category::Pi),
        b'f' => Some(Category::Pf),
        b'o' => Some(Category::Po),
        _ => None,
    }
}

fn symbol_of(kind: u8) -> Option<Category>
    ensures { result ≡ symbol_of kind }
{
    match kind {
        b'm' => Some(Category::Sm),
        b'c' => Some(Category::Sc),
        b'k' => Some(Category::Sk),
        b'o' => Some(Category::So),
        _ => None,
    }
}

fn separator_of(kind: u8) -> Option<Category>
    ensures { result ≡ separator_of kind }
{
    match kind {
        b's' => Some(Category::Zs),
        b'l' => Some(Category::Zl),
        b'p' => Some(Category::Zp),
        _ => None,
    }
}

fn other_of(kind: u8) -> Option<Category>
    ensures { result ≡ other_of kind }
{
    match kind {
        b'c' => Some(Category::Cc),
        b'f' => Some(Category::Cf),
        b's' => Some(Category::Cs),
        b'o' => Some(Category::Co),
        _ => None,
    }
}

/// The General_Category that two bytes name. `None` for all other bytes, `Cn` among them.
pub fn category_of(name: &[u8]) -> Option<Category>
    ensures { result ≡ category_of name.now }
{
    let [group, kind] = name else {
        return None;
    };
    match *group {
        b'L' => letter_of(*kind),
        b'M' => mark_of(*kind),
        b'N' => number_of(*kind),
        b'P' => punctuation_of(*kind),
        b'S' => symbol_of(*kind),
        b'Z' => separator_of(*kind),
        b'C' => other_of(*kind),
        _ => None,
    }
}
