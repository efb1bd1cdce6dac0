//! What stands of a script so far.

ghost use Rattle.std.specs.Prelude.{◌≡◌, ◌∷◌, [], IfOk, OnOk};
ghost use Rattle.script_lines.specs.Scripts.{StepsAs, asked, begun, empty_script, ended, is_full, question, with_op};

use crate::command::{Command, Commands, What};
use crate::group::OpenGroup;
use crate::stop::{ScriptRule, ScriptStop};
use release_rows::{Op, Ops};
use std::alloc::Global;
use ucd_facts::{Memory, Text};

/// The greatest number of operations in a group.
const GROUP_LIMIT: usize = 4096;

/// The commands so far, and the group that is open.
#[derive(Drop)]
pub struct Script {
    /// The commands that are whole.
    pub commands: Commands,
    /// The group that is not closed yet.
    pub group: Option<OpenGroup>,
}

/// The list of one operation, which has room for no more.
fn one_op(alloc: Global, op: Op) -> Result<Ops, Memory>
    ensures { IfOk result (λ ops. ops ≡ op ∷ []) }
{
    Ok(Ops::from_vec(vec![in alloc; op]?))
}

/// The command that asks a question.
fn question_of(alloc: Global, line: u32, text: &[u8]) -> Result<Command, Memory>
    ensures { IfOk result (λ command. command ≡ question line text.now) }
{
    let mut question = Text::new(alloc);
    question.append(text)?;
    Ok(Command {
        line,
        what: What::Question(question),
    })
}

impl Script {
    /// No commands, and no group. It takes no memory.
    pub fn new(alloc: Global) -> Script
        ensures { result ≡ empty_script }
    {
        Script {
            commands: Commands::new(alloc),
            group: None,
        }
    }

    /// Opens a group.
    ///
    /// - `Fault`: `E3`, if one is open.
    pub fn begin(&mut self, alloc: Global, line: u32) -> Result<(), ScriptStop>
        ensures { StepsAs result self.new (begun line self.old) }
    {
        if self.group.is_some() {
            return Err(ScriptStop::Fault {
                line,
                rule: ScriptRule::E3,
            });
        }
        self.group = Some(OpenGroup {
            line,
            ops: Ops::new(alloc),
        });
        Ok(())
    }

    /// Closes the group.
    ///
    /// - `Fault`: `E1`, if none is open.
    /// - `Memory`: memory ran out. The group is dropped.
    pub fn end(&mut self, line: u32) -> Result<(), ScriptStop>
        ensures { StepsAs result self.new (ended line self.old) }
    {
        let Some(OpenGroup { line: begin, ops }) = self.group.take() else {
            return Err(ScriptStop::Fault {
                line,
                rule: ScriptRule::E1,
            });
        };
        self.commands.push(Command {
            line: begin,
            what: What::Group(ops),
        })?;
        Ok(())
    }

    /// Puts a question.
    ///
    /// - `Fault`: `E4`, if a group is open.
    /// - `Memory`: memory ran out.
    pub fn ask(&mut self, alloc: Global, line: u32, text: &[u8]) -> Result<(), ScriptStop>
        ensures { StepsAs result self.new (asked line text.now self.old) }
    {
        match &self.group {
            Some(_) => Err(ScriptStop::Fault {
                line,
                rule: ScriptRule::E4,
            }),
            None => Ok(self.commands.push(question_of(alloc, line, text)?)?),
        }
    }

    /// Whether the open group takes no more operations.
    pub fn is_group_full(&self) -> bool
        ensures { result ≡ is_full self.now.group }
    {
        match &self.group {
            Some(group) => group.ops.len() == GROUP_LIMIT,
            None => false,
        }
    }

    /// Puts an operation into the open group, or as a group of its own if none is open.
    ///
    /// - `Memory`: memory ran out.
    pub fn put(&mut self, alloc: Global, line: u32, op: Op) -> Result<(), Memory>
        ensures { OnOk result (self.new ≡ with_op line op self.old) }
    {
        match &mut self.group {
            Some(group) => group.ops.push(op),
            None => self.commands.push(Command {
                line,
                what: What::Group(one_op(alloc, op)?),
            }),
        }
    }
}
