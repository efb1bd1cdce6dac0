//! A bench, and the ways back from its accepted groups.

ghost use Rattle.std.specs.Prelude.{◌≡◌, ◌<◌, ◌≤◌, [], length, OnOk};
ghost use Rattle.std.specs.List.{All};
ghost use Rattle.std.specs.VecDeque.{deque_capacity, deque_len};
ghost use Rattle.release_rows.specs.Operations.{IsOp};
ghost use Rattle.edit_session.specs.Groups.{CountsAs, after_ops, files_facts, group_answer, group_limit};
ghost use Rattle.bench_undo.specs.Histories.{AppliesIn, AreSound, UndoCounts, UndoesAs};

use crate::undone::Undone;
use edit_session::{Accepted, ApplyStop, Bench};
use release_rows::{Op, Patch};
use std::alloc::Global;
use std::collections::VecDeque;
use std::marker::Model;
use std::sync::ledger::Ledger;
use ucd_model::{Memory, Steps};

/// A bench, and the ways back from its latest accepted groups, at most `depth` of them. Contracts see the items of the
/// files now, and those of the earlier states to which the ways lead.
///
/// A way holds what a group exchanged, and no whole file.
#[derive(Drop)]
pub struct History {
    bench: Bench,
    /// The way from the bench to the state before the latest group, then from there to the one before that, and so on.
    ways: VecDeque<Patch>,
    depth: u32,
}

impl Model for History {
    ghost use Rattle.std.specs.Prelude.{◌≤◌, length};
    ghost use Rattle.bench_undo.specs.Histories.{HistoryState};
    ghost use Rattle.bench_undo.specs.Ways.{AreWays, states};

    ghost Value = { HistoryState };

    ghost view = { λ h. record { depth = h.depth; files = h.bench.current; earlier = states h.ways.items h.bench.current } };

    ghost invariant = { λ h. AreWays h.ways.items h.bench.current × (length h.ways.items ≤ h.depth) × (1 ≤ h.depth) × (h.depth ≤ 1024) };
}

/// Makes room for one more way.
///
/// - `Memory`: memory ran out.
fn make_room(ways: &mut VecDeque<Patch>) -> Result<(), Memory>
    ensures items { ways.new.items ≡ ways.old.items }
    ensures room { OnOk result (deque_len ways.new < deque_capacity ways.new) }
{
    ways.reserve(1)?;
    Ok(())
}

impl History {
    /// A history of a bench that keeps so many earlier states at most, and none so far. It takes no memory.
    pub fn new(alloc: Global, bench: Bench, depth: u32) -> History
        requires some { 1 ≤ depth }
        requires few { depth ≤ 1024 }
        ensures { result ≡ record { depth = depth; files = bench.current; earlier = [] } }
    {
        History {
            bench,
            ways: VecDeque::new(alloc),
            depth,
        }
    }

    /// Carries the operations of a group out, as `Bench::apply` does, and keeps the way back from it if it is accepted.
    /// The oldest one is dropped if there are too many. The counter of steps rises by at most the number of code points
    /// that depend on the change, and not if an operation is refused.
    ///
    /// - `Refused(why)`: an operation or the rows after all break a rule.
    /// - `Memory`: memory ran out.
    ///
    /// After each the history is as it was.
    pub fn apply<L: Ledger>(
        &mut self,
        alloc: Global,
        group: &[Op],
        steps: &mut Steps<L>,
    ) -> Result<Accepted, ApplyStop>
        requires operations { All IsOp group.now }
        requires few { length group.now ≤ group_limit }
        ensures answer { AppliesIn result
            (group_answer self.old.files group.now) self.old self.new }
        ensures counted { CountsAs (after_ops self.old.files 0 group.now)
            (files_facts self.old.files) steps.old steps.new }
    {
        make_room(&mut self.ways)?;
        let (accepted, way) = self.bench.apply_kept(alloc, group, steps)?;
        self.ways.push_front_reserved(way);
        self.ways.truncate(self.depth as usize);
        Ok(accepted)
    }

    /// Goes back to the latest of the earlier states: its items come back to their places, with their bytes. The counter
    /// of steps rises by at most the number of code points that depend on the change, and not if there is none.
    ///
    /// - `Memory`: memory ran out. The history is as it was.
    pub fn undo<L: Ledger>(&mut self, alloc: Global, steps: &mut Steps<L>) -> Result<Undone, Memory>
        ensures answer { UndoesAs result self.old.earlier self.old self.new }
        ensures counted { UndoCounts self.old.earlier self.old steps.old steps.new }
    {
        let Some(way) = self.ways.front() else {
            return Ok(Undone::Nothing);
        };
        let accepted = self.bench.revert(alloc, way, steps)?;
        self.ways.pop_front();
        Ok(Undone::Back(accepted))
    }

    /// How many earlier states are kept.
    pub fn kept(&self) -> u32
        ensures { result ≡ length self.now.earlier }
    {
        self.ways.len() as u32
    }

    /// The bench.
    pub fn bench(&self) -> &Bench
        ensures { result.now ≡ record { current = self.now.files; prepared = self.now.files } }
    {
        self.bench.has_nothing_prepared();
        &self.bench
    }

    /// Each earlier state is one that a release keeps and whose rows are valid, and there are at most as many as the
    /// history keeps.
    pub fn is_sound(&self)
        ensures states { AreSound self.now }
        ensures few { length self.now.earlier ≤ self.now.depth }
    {
        let _ways = &self.ways;
    }
}
