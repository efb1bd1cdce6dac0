//! The laws of records: each function here does nothing, and its contract is a law.

ghost use Rattle.identifier_closure.specs.UniformLaws.{UniformDerived};

/// Two code points without a mapping whose other facts are the same have the same record, if both are second members of
/// primary composites' mappings or neither is, and both are format characters that are shown or neither is.
pub fn uniform_points_are_derived_alike()
    ensures { UniformDerived }
{}
