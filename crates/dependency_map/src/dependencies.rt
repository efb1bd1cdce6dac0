//! The map of dependants, and a listing that it can be made of.

ghost use Rattle.number_sets.specs.Keys.{has, is_in};
ghost use Rattle.dependency_map.specs.Index.{Lists, kept_at};

use number_sets::KeySet;
use point_store::Store;
use std::alloc::Global;
use ucd_facts::Queries;

/// The questions that each code point asks, now and next, and the code points that ask a question.
/// `prepare` changes what is next, `commit` makes it what is now, and `discard` drops it.
///
/// A code point is plain until questions are prepared for it: then it asks for its own row, and whether it is a second
/// member, and takes no room. The questions of the others lie in a store of type `S`. Those of earlier states stay
/// until [`DependencyMap::sweep`] lets them go.
#[derive(Drop)]
pub struct DependencyMap<S: Store<Option<Queries>>> {
    pub(crate) alloc: Global,
    // the questions of the code points that are not plain, once there were any
    pub(crate) lists: Option<S>,
    // the code points under the questions that they ask now or next, except their own ones; they may be under others
    // too
    pub(crate) askers: KeySet,
    // how many questions were prepared since the code points were listed under all
    pub(crate) prepared: usize,
    // how many of these are few
    pub(crate) few: usize,
    ghost now_listed: { Lists (has askers) (kept_at S.now lists) },
    ghost next_listed: { Lists (has askers) (kept_at S.next lists) },
}

/// The questions of code points that are listed one after another, before a map is made of them. A listing takes less time
/// than a map in which the same questions are prepared: the code points that ask a question are put in order once.
#[derive(Drop)]
pub struct Listing<S: Store<Option<Queries>>> {
    pub(crate) alloc: Global,
    // the questions of the code points that are not plain, once there were any
    pub(crate) lists: Option<S>,
    // the keys of the code points under the questions that they ask, except their own ones; there may be others too
    pub(crate) keys: Vec<u64>,
    ghost listed: { Lists (is_in keys.items) (kept_at S.next lists) },
}
