//! Laws of histories: each function here does nothing, and its contract is a law.

ghost use Rattle.bench_undo.specs.Laws.{SamePointsChange, UndoRestores};

use ucd_model::sameness_laws::records_are_told;

/// An undo after an accepted group leaves the files as they were before it, and the earlier states but for an oldest one
/// that the group dropped.
pub fn undo_restores()
    ensures { UndoRestores }
{}

/// The code points whose records differ are the same both ways.
pub fn same_points_change()
    ensures { SamePointsChange }
{
    records_are_told();
}
