//! The law of labels: the function here does nothing, and its contract is a law.

ghost use Rattle.ucd_model.specs.LabelLaws.{LabelsTellValues};

/// Two values that the derived files list under one label are one.
pub fn labels_tell_values()
    ensures { LabelsTellValues }
{}
