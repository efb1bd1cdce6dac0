//! Laws of desks.

ghost use Rattle.bench_editors.specs.Laws.{GroupsReplay, RepliesAreThoseOfALoneEditor};

/// If the accepted groups are applied alone, one after the other, each is accepted, with the same code points whose
/// records differ, and the rows are the same.
pub fn groups_replay()
    ensures { GroupsReplay }
{}

/// If a reply to a proposal is neither `Absent` nor `Ahead` nor `Stale`, it is the one that a lone editor gets on the
/// rows at that point, its revision aside.
pub fn replies_are_those_of_a_lone_editor()
    ensures { RepliesAreThoseOfALoneEditor }
{}
