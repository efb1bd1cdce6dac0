//! The laws of the text of code points: each function here does nothing, and its contract is a law.

ghost use Rattle.ucd_points.specs.HexTextLaws.{HexTextHasFourToSixDigits, HexTextHasNoSpareDigit, HexTextIsUpperCase, HexTextSpellsItsNumber, HexTextSpellsItsPoint, SpanTextSpellsItsSpan};

/// The text of a number has four, five or six digits.
pub fn hex_text_has_four_to_six_digits()
    ensures { HexTextHasFourToSixDigits }
{}

/// If the text has more than four digits, the first is not `0`.
pub fn hex_text_has_no_spare_digit()
    ensures { HexTextHasNoSpareDigit }
{}

/// Each byte of the text is one of `0` to `9` and `A` to `F`.
pub fn hex_text_is_upper_case()
    ensures { HexTextIsUpperCase }
{}

/// Read as hexadecimal digits, the text of a number is that number.
pub fn hex_text_spells_its_number()
    ensures { HexTextSpellsItsNumber }
{}

/// Read as a code point, the text of a code point is that point.
pub fn hex_text_spells_its_point()
    ensures { HexTextSpellsItsPoint }
{}

/// Read as a span, the text of a span is that span.
pub fn span_text_spells_its_span()
    ensures { SpanTextSpellsItsSpan }
{}
