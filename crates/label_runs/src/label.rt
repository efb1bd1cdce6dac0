//! What stands after a span.

ghost use Rattle.std.specs.Prelude.{◌≡◌, ◌++◌, Some, None, OnOk, codes};
ghost use Rattle.ucd_model.specs.Labels.{same_label};
ghost use Rattle.ucd_model.specs.DerivedFiles.{listed};
ghost use Rattle.ucd_facts.specs.RowTexts.{spaced};
ghost use Rattle.label_runs.specs.Runs.{text_shown};

use std::alloc::Global;
use std::marker::Model;
use ucd_lines::put_hex;
use ucd_model::{Memory, Point, Text};

/// The text behind a span, or none for the default value, which is not listed. The buffer is kept from one label to
/// the next.
#[derive(Drop)]
pub struct LabelText {
    is_listed: bool,
    text: Text,
}

impl Model for LabelText {
    ghost use Rattle.std.specs.Prelude.{Some, None, if◌then◌else◌};
    ghost use Rattle.ucd_model.specs.Labels.{Label};

    ghost Value = { Label };

    ghost view = { λ l. if l.is_listed then Some l.text else None };
}

impl LabelText {
    /// The label of the default value.
    pub fn none(alloc: Global) -> LabelText
        ensures { result ≡ None }
    {
        LabelText {
            is_listed: false,
            text: Text::new(alloc),
        }
    }

    /// Makes it the label of the default value.
    pub fn clear(&mut self)
        ensures { self.new ≡ None }
    {
        self.is_listed = false;
    }

    /// Makes it the label of a value: ` ; VALUE`.
    ///
    /// - `Memory`: memory ran out. Nothing is then known of the label.
    pub fn set_value(&mut self, value: &[u8]) -> Result<(), Memory>
        ensures { OnOk result (self.new ≡ listed value.now) }
    {
        self.text.truncate(0);
        self.text.append(b" ; ")?;
        self.text.append(value)?;
        self.is_listed = true;
        Ok(())
    }

    /// Makes it the label of a value in two parts.
    ///
    /// - `Memory`: memory ran out. Nothing is then known of the label.
    pub fn set_value_parts(&mut self, front: &[u8], back: &[u8]) -> Result<(), Memory>
        ensures { OnOk result (self.new ≡ listed (front.now ++ back.now)) }
    {
        self.set_value(front)?;
        self.text.append(back)
    }

    /// Makes it the label of a name, ` ;` and code points after it, each with a space before it.
    ///
    /// - `Memory`: memory ran out. Nothing is then known of the label.
    pub fn set_name_and_points(&mut self, name: &[u8], points: &[Point]) -> Result<(), Memory>
        ensures { OnOk result (self.new ≡ listed (name.now ++ codes " ;" ++ spaced points.now)) }
    {
        self.set_value_parts(name, b" ;")?;
        put_spaced(points, &mut self.text)
    }

    /// Whether the two are one label.
    pub fn is_same(&self, other: &LabelText) -> bool
        ensures { result ≡ same_label self.now other.now }
    {
        match (self.text(), other.text()) {
            (Some(text), Some(other)) => text == other,
            (None, None) => true,
            _ => false,
        }
    }

    /// The text; `None` for the default value.
    pub fn text(&self) -> Option<&[u8]>
        ensures { text_shown result ≡ self.now }
    {
        if self.is_listed {
            Some(self.text.as_slice())
        } else {
            None
        }
    }
}

/// Puts code points, each with a space before it.
///
/// - `Memory`: memory ran out. A part of them may stand at the end of the text then.
pub fn put_spaced(points: &[Point], text: &mut Text) -> Result<(), Memory>
    ensures { OnOk result (text.new ≡ text.old ++ spaced points.now) }
{
    'points: for point in points {
        text.push(b' ')?;
        put_hex(*point, text)?;
    }
    Ok(())
}
