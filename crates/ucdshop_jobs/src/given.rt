//! The texts that a run works on.

ghost use Rattle.std.specs.Prelude.{◌≡◌, ◌≤◌, ℕ, ◌++◌, IfOk, OnOk, Some, map};
ghost use Rattle.ucd_points.specs.SourceFiles.{source_files};
ghost use Rattle.ucdshop_jobs.specs.Run.{made_held, made_text, made_texts};

use release_maker::{Made, make};
use std::alloc::Global;
use ucd_model::{Memory, SOURCE_FILES, SourceFile, Text};

/// The texts that a run works on.
#[derive(Drop)]
pub struct Given {
    /// What is held at each path that is needed, in their order, with `None` for a path that is not held; or the texts
    /// that are made.
    pub held: Vec<Option<Text>>,
    /// The release that is made, and its script.
    pub made: Option<Made>,
}

/// The release of a number, and its script.
///
/// - `Memory`: memory ran out.
pub fn given_of_made_release(alloc: Global, number: u8) -> Result<Given, Memory>
    requires least { 1 ≤ number }
    requires most { number ≤ 50 }
    ensures held { IfOk result (λ given. given.held.items ≡ made_texts number) }
    ensures made { IfOk result (λ given. given.made ≡ Some number) }
{
    let made = make(alloc, number)?;
    let mut held = Vec::new(alloc);
    put_made_texts(alloc, &made, &mut held)?;
    held.push(Some(Text::of(alloc, made.script())?))?;
    Ok(Given {
        held,
        made: Some(made),
    })
}

/// Puts copies of the source files of a release that is made.
fn put_made_texts(alloc: Global, made: &Made, held: &mut Vec<Option<Text>>) -> Result<(), Memory>
    ensures { OnOk result (held.new.items ≡ held.old.items
        ++ map (made_held made.now) source_files) }
{
    'files: for file in &SOURCE_FILES {
        let text = made_copy(alloc, made, *file)?;
        held.push(Some(text))?;
    }
    Ok(())
}

/// A copy of a source file of a release that is made.
#[tactic(auto, unfolding(crate::specs::Run::made_text))]
fn made_copy(alloc: Global, made: &Made, file: SourceFile) -> Result<Text, Memory>
    ensures { IfOk result (λ text. text ≡ made_text made.now file) }
{
    Text::of(alloc, made.text(file))
}
