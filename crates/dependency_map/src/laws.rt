//! The laws of who asks: each function here does nothing, and its contract is a law.

ghost use Rattle.dependency_map.specs.Laws.{AskersAreThose};

/// The askers of a question, and of questions, are all code points that ask, no others, and ascend.
pub fn askers_are_those()
    ensures { AskersAreThose }
{}
