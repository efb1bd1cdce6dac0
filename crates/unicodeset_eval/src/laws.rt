//! What holds of all sets.

ghost use Rattle.unicodeset_eval.specs.Faults.{FirstFaultIsTold, LeastFaultIsTold};
ghost use Rattle.unicodeset_eval.specs.Laws.{EqualMembersHaveEqualEdges};

use unicodeset_parser::places_ascend;

/// Sets with the same members have the same edges.
pub fn equal_members_have_equal_edges()
    ensures { EqualMembersHaveEqualEdges }
{}

/// There are members exactly if each name means something. Otherwise the first name that means nothing is named, in the
/// order of the tree.
pub fn first_fault_is_told()
    ensures { FirstFaultIsTold }
{}

/// In the tree of a text, the fault that is named is that of the name without meaning with the least place.
pub fn least_fault_is_told()
    ensures { LeastFaultIsTold }
{
    places_ascend();
}
