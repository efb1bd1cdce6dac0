//! The labels of values: what stands after a span, and which value is the default.

ghost use Rattle.std.specs.Prelude.{◌≡◌, OnOk};
ghost use Rattle.ucd_model.specs.DerivedFiles.{binary_label, category_label, class_label, kind_label, quick_label, casefold_label};

use label_runs::LabelText;
use std::alloc::Global;
use ucd_model::{Category, Image, Kind, Memory, Quick};

/// A property of two values is listed by its name if it holds. UAX #44, section 5.3.
///
/// - `Memory`: memory ran out. Nothing is then known of the label.
pub fn set_binary(name: &[u8], holds: bool, label: &mut LabelText) -> Result<(), Memory>
    ensures { OnOk result (label.new ≡ binary_label name.now holds) }
{
    if holds {
        label.set_value(name)
    } else {
        label.clear();
        Ok(())
    }
}

/// A general category is listed by its two letters, unless it is `Cn`. UAX #44, section 5.7.1.
///
/// - `Memory`: memory ran out. Nothing is then known of the label.
pub fn set_category(category: Category, label: &mut LabelText) -> Result<(), Memory>
    ensures { OnOk result (label.new ≡ category_label category) }
{
    if matches!(category, Category::Cn) {
        label.clear();
        Ok(())
    } else {
        label.set_value(category.code())
    }
}

/// A combining class is listed in decimal, unless it is 0. UAX #44, section 5.7.4.
///
/// - `Memory`: memory ran out. Nothing is then known of the label.
pub fn set_class(alloc: Global, class: u8, label: &mut LabelText) -> Result<(), Memory>
    ensures { OnOk result (label.new ≡ class_label class) }
{
    if class == 0 {
        label.clear();
        return Ok(());
    }
    let digits = class.to_string(alloc)?;
    label.set_value(digits.as_bytes())
}

/// A decomposition type is listed as `canonical` or by the name of its tag, unless there is no mapping.
/// UAX #44, section 5.7.3.
///
/// - `Memory`: memory ran out. Nothing is then known of the label.
pub fn set_kind(kind: Kind, label: &mut LabelText) -> Result<(), Memory>
    ensures { OnOk result (label.new ≡ kind_label kind) }
{
    match kind {
        Kind::Plain => {
            label.clear();
            Ok(())
        }
        Kind::Canonical => label.set_value(b"canonical"),
        Kind::Compat(tag) => label.set_value(tag.name()),
    }
}

/// A quick check is listed by its name with `N` for No and `M` for Maybe, unless it is Yes. UAX #15, section 9.
///
/// - `Memory`: memory ran out. Nothing is then known of the label.
pub fn set_quick(name: &[u8], quick: Quick, label: &mut LabelText) -> Result<(), Memory>
    ensures { OnOk result (label.new ≡ quick_label name.now quick) }
{
    match quick {
        Quick::Yes => {
            label.clear();
            Ok(())
        }
        Quick::No => label.set_value_parts(name, b" ; N"),
        Quick::Maybe => label.set_value_parts(name, b" ; M"),
    }
}

/// A folding is listed by its name, ` ;` and its code points, which may be none, unless it is the point itself.
/// UAX #44, section 5.3.
///
/// - `Memory`: memory ran out. Nothing is then known of the label.
#[tactic(auto, using(crate::proofs::PointLemmas::casefold_is))]
pub fn set_casefold(name: &[u8], image: &Image, label: &mut LabelText) -> Result<(), Memory>
    ensures { OnOk result (label.new ≡ casefold_label name.now image.now) }
{
    match image {
        Image::Same => {
            label.clear();
            Ok(())
        }
        Image::To(points) => label.set_name_and_points(name, points.as_slice()),
    }
}
