//! The desk: a bench, the editors who are present, and the last revision that touched each row.

ghost use Rattle.std.specs.Prelude.{◌≡◌, ◌<◌, ◌≤◌, ℕ, ◌+◌, map, length, IfOk, OnOk, OnErr};
ghost use Rattle.std.specs.List.{All};
ghost use Rattle.release_rows.specs.Operations.{IsOp};
ghost use Rattle.edit_session.specs.Groups.{CountsAs, after_ops, files_facts, group_answer, group_limit};
ghost use Rattle.bench_editors.specs.Rows.{row_of};
ghost use Rattle.bench_editors.specs.RowKeys.{key_parts, row_parts};
ghost use Rattle.bench_editors.specs.Desks.{DeskState, EventCounts, EventsCount, IsEvent, after_events, answer, replies, started};
ghost use Rattle.bench_editors.specs.Standing.{GroupAnswered, IsAsBefore, StandsFor, StopsWithin, desk_bench, desk_last, desk_revision};
ghost use Rattle.bench_editors.specs.declared.event.Event.TheVariants.{Enter, Leave, Propose};

use crate::event::Event;
use crate::reply::{Replies, Reply};
use crate::row_key::{RowKey, keys_of_ops};
use crate::row_revisions::RowRevisions;
use edit_session::{ApplyStop, Bench};
use release_rows::Op;
use source_rows::Key;
use std::alloc::Global;
use std::collections::BTreeSet;
use std::sync::ledger::Ledger;
use ucd_model::{Memory, SourceFile, Steps};

/// A bench at which several editors work. A proposal is carried out only if no group that was accepted after the revision
/// that its editor has seen touched one of its rows.
#[derive(Drop)]
pub struct Desk {
    alloc: Global,
    bench: Bench,
    editors: BTreeSet<u32>,
    revision: u32,
    rows: RowRevisions,
}

impl Desk {
    /// A desk with no editor and no revision. It takes no memory.
    pub fn new(alloc: Global, bench: Bench) -> Desk
        ensures bench { desk_bench result ≡ bench }
        ensures state { StandsFor result (started bench.current) }
    {
        Desk {
            alloc,
            bench,
            editors: BTreeSet::new(alloc),
            revision: 0,
            rows: RowRevisions::new(alloc),
        }
    }

    /// The last revision: how many groups were accepted.
    pub fn revision(&self) -> u32
        ensures { result ≡ desk_revision self.now }
    {
        self.revision
    }

    /// The bench.
    pub fn bench(&self) -> &Bench
        ensures { result.now ≡ desk_bench self.now }
    {
        &self.bench
    }

    /// The last revision that touched the row with this key; 0 if none did. It takes no memory, and time in proportion
    /// to the number of rows that were touched.
    pub fn touched(&self, file: SourceFile, key: &Key) -> u32
        ensures { result ≡ desk_last self.now (record { file = file; key = key.now }) }
    {
        self.rows.last_of(file, key)
    }

    /// Handles one event. If it is a proposal that comes to its operations, and none of them is refused, the counter of
    /// steps rises by at most the number of code points that depend on the change. Otherwise it does not rise.
    ///
    /// - `Memory`: memory ran out.
    ///
    /// After it the desk is as it was.
    pub fn step<L: Ledger>(&mut self, event: &Event, steps: &mut Steps<L>) -> Result<Reply, Memory>
        requires event { IsEvent event.now }
        requires room { desk_revision self.old < 4294967295 }
        ensures reply { IfOk result (λ reply. (s : DeskState) → StandsFor self.old s
            → reply ≡ (answer s event.now).reply) }
        ensures state { OnOk result ((s : DeskState) → StandsFor self.old s
            → StandsFor self.new (answer s event.now).state) }
        ensures err { OnErr result (IsAsBefore self.old self.new) }
        ensures revision { desk_revision self.new ≤ desk_revision self.old + 1 }
        ensures counted { (s : DeskState) → StandsFor self.old s
            → EventCounts s event.now steps.old steps.new }
    {
        match event {
            Event::Enter { editor } => self.enter(*editor),
            Event::Propose {
                editor,
                base,
                group,
            } => self.propose(*editor, *base, group.as_slice(), steps),
            Event::Leave { editor } => Ok(self.leave(*editor)),
        }
    }

    /// Handles events, one after the other. The counter of steps rises as each of them may raise it.
    ///
    /// - `Memory`: memory ran out. The desk is as some of the events leave it, from the first on.
    pub fn run_events<L: Ledger>(
        &mut self,
        events: &[Event],
        steps: &mut Steps<L>,
    ) -> Result<Replies, Memory>
        requires events { All IsEvent events.now }
        requires room { desk_revision self.old + length events.now ≤ 4294967295 }
        ensures replies { IfOk result (λ told. (s : DeskState) → StandsFor self.old s
            → told ≡ replies s events.now) }
        ensures state { OnOk result ((s : DeskState) → StandsFor self.old s
            → StandsFor self.new (after_events s events.now)) }
        ensures counted { OnOk result ((s : DeskState) → StandsFor self.old s
            → EventsCount s events.now steps.old steps.new) }
        ensures err { OnErr result ((s : DeskState) → StandsFor self.old s
            → StopsWithin s events.now self.new steps.old steps.new) }
    {
        let mut replies = Vec::with_capacity(self.alloc, events.len())?;
        'events: for event in events {
            let reply = self.step(event, steps)?;
            replies.push(reply)?;
        }
        Ok(Replies::from_vec(replies))
    }

    /// An editor comes: [`Desk::step`] of [`Event::Enter`].
    ///
    /// - `Memory`: memory ran out. The desk is as it was.
    pub fn enter(&mut self, editor: u32) -> Result<Reply, Memory>
        ensures reply { IfOk result (λ reply. (s : DeskState) → StandsFor self.old s
            → reply ≡ (answer s (Enter editor)).reply) }
        ensures state { OnOk result ((s : DeskState) → StandsFor self.old s
            → StandsFor self.new (answer s (Enter editor)).state) }
        ensures err { OnErr result (IsAsBefore self.old self.new) }
        ensures revision { desk_revision self.new ≡ desk_revision self.old }
    {
        if self.editors.insert(editor)? {
            Ok(Reply::Entered {
                revision: self.revision,
            })
        } else {
            Ok(Reply::Present)
        }
    }

    /// An editor leaves: [`Desk::step`] of [`Event::Leave`].
    pub fn leave(&mut self, editor: u32) -> Reply
        ensures reply { (s : DeskState) → StandsFor self.old s
            → result ≡ (answer s (Leave editor)).reply }
        ensures state { (s : DeskState) → StandsFor self.old s
            → StandsFor self.new (answer s (Leave editor)).state }
        ensures revision { desk_revision self.new ≡ desk_revision self.old }
    {
        if self.editors.remove(&editor) {
            Reply::Left
        } else {
            Reply::Absent
        }
    }

    /// An editor proposes a group, which is lent: [`Desk::step`] of [`Event::Propose`].
    ///
    /// - `Memory`: memory ran out. The desk is as it was.
    pub fn propose<L: Ledger>(
        &mut self,
        editor: u32,
        base: u32,
        group: &[Op],
        steps: &mut Steps<L>,
    ) -> Result<Reply, Memory>
        requires operations { All IsOp group.now }
        requires few { length group.now ≤ group_limit }
        requires room { desk_revision self.old < 4294967295 }
        ensures reply { IfOk result (λ reply. (s : DeskState) → StandsFor self.old s
            → reply ≡ (answer s (Propose editor base group.now)).reply) }
        ensures state { OnOk result ((s : DeskState) → StandsFor self.old s
            → StandsFor self.new (answer s (Propose editor base group.now)).state) }
        ensures err { OnErr result (IsAsBefore self.old self.new) }
        ensures revision { desk_revision self.new ≤ desk_revision self.old + 1 }
        ensures counted { (s : DeskState) → StandsFor self.old s
            → EventCounts s (Propose editor base group.now) steps.old steps.new }
    {
        if !self.editors.contains(&editor) {
            return Ok(Reply::Absent);
        }
        if base > self.revision {
            return Ok(Reply::Ahead {
                revision: self.revision,
            });
        }
        let keys = keys_of_ops(self.alloc, group)?;
        match self.rows.first_touched_after(keys.as_slice(), base) {
            Some(first) => Ok(Reply::Stale {
                revision: self.rows.greatest(keys.as_slice()),
                op: first as u32 + 1,
            }),
            None => self.carry_out(keys.as_slice(), group, steps),
        }
    }

    /// Carries out the operations of a group, whose rows have these keys.
    ///
    /// - `Memory`: memory ran out. The desk is as it was.
    fn carry_out<L: Ledger>(
        &mut self,
        keys: &[RowKey],
        group: &[Op],
        steps: &mut Steps<L>,
    ) -> Result<Reply, Memory>
        requires keys { map key_parts keys.now ≡ map (λ op. row_parts (row_of op)) group.now }
        requires operations { All IsOp group.now }
        requires few { length group.now ≤ group_limit }
        requires room { desk_revision self.old < 4294967295 }
        ensures answer { GroupAnswered result
            (group_answer (desk_bench self.old).current group.now) group.now self.old self.new }
        ensures counted { CountsAs (after_ops (desk_bench self.old).current 0 group.now)
            (files_facts (desk_bench self.old).current) steps.old steps.new }
    {
        // nothing can fail behind an accepted group: its rows have their entries before it
        self.rows.make_entries(self.alloc, group)?;
        match self.bench.apply(self.alloc, group, steps) {
            Ok(accepted) => {
                self.revision += 1;
                self.rows.put_all(keys, self.revision);
                Ok(Reply::Accepted {
                    revision: self.revision,
                    changed: accepted.changed,
                })
            }
            Err(ApplyStop::Refused(why)) => Ok(Reply::Refused(why)),
            Err(ApplyStop::Memory) => Err(Memory),
        }
    }
}
