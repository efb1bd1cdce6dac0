//! Chaining the releases of folders, one after another.

ghost use Rattle.std.specs.Prelude.{◌≡◌, ◌<◌, ◌≤◌, ◌+◌, ◌++◌, ◌∷◌, [], List, length, IfOk, OnOk};
ghost use Rattle.release_rows.specs.Releases.{ReleaseItems};
ghost use Rattle.run_endings.specs.Planning.{OnRefused, OnlyRead, UnreadAs};
ghost use Rattle.run_endings.specs.Promises.{shelf_seen};
ghost use Rattle.ucdshop_more_core.specs.Chaining.{AreChained, AreRefused, Follows, folders_paths};
ghost use Rattle.ucdshop_more_core.specs.Order.{IsReached, NamesPath, OnUnread};

use crate::reading::read_folder;
use crate::step_text::put_step;
use age_chain::Chain;
use edit_session::Bench;
use run_endings::Stop;
use shelf_io::Shelf;
use stability_policies::Breaks;
use std::alloc::Global;
use std::sync::ledger::Ledger;
use ucd_model::{Memory, Steps, Text};

/// The releases that were read so far, as a chain, and its steps from each release to the next.
#[derive(Drop)]
pub struct Chained {
    /// The chain of the releases.
    pub chain: Chain,
    /// The text of the steps.
    pub steps: Text,
    /// How many breaks of policies they have together.
    pub breaks: usize,
}

impl Chained {
    /// No release.
    ///
    /// - `Memory`: memory ran out.
    pub fn new(alloc: Global) -> Result<Chained, Memory>
        ensures { IfOk result (λ chained. Follows chained []) }
    {
        Ok(Chained {
            chain: Chain::new(alloc)?,
            steps: Text::new(alloc),
            breaks: 0,
        })
    }

    /// Puts the release of a bench behind the others, and if it is not the first, the step that leads to it.
    ///
    /// - `Memory`: memory ran out, or there are 2^64 breaks or more. Nothing is then known of the chain.
    pub fn add(&mut self, alloc: Global, bench: Bench) -> Result<(), Memory>
        requires room { self.old.chain.count < 255 }
        ensures follows { OnOk result ((releases : List ReleaseItems) → Follows self.old releases
            → Follows self.new (releases ++ bench ∷ [])) }
    {
        let breaks = self.chain.add(alloc, bench)?;
        let number = self.chain.count();
        if number > 1 {
            put_step(alloc, number, &breaks, &mut self.steps)?;
        }
        self.breaks = sum(self.breaks, breaks.len())?;
        Ok(())
    }
}

/// The sum of two counts.
///
/// - `Memory`: it is 2^64 or more.
fn sum(a: usize, b: usize) -> Result<usize, Memory>
    ensures { IfOk result (λ sum. sum ≡ a + b) }
{
    match a.checked_add(b) {
        Some(sum) => Ok(sum),
        None => Err(Memory),
    }
}

/// Chains the releases in these folders. None is chained before. Each is read, judged and put behind the others before
/// a file of the next one is read, so that at most two are held.
///
/// - `Refused(line)`: a file or a code point of a folder breaks a rule. The first such folder is refused.
/// - `ReadFailed(line)`: a file could not be read.
/// - `Memory`: memory ran out.
///
/// After each, nothing is known of the chain.
pub fn chain_folders<S: Shelf, L: Ledger>(
    alloc: Global,
    folders: &[Text],
    shelf: &mut S,
    steps: &mut Steps<L>,
    chained: &mut Chained,
) -> Result<(), Stop>
    requires few { length folders.now ≤ 16 }
    requires none { Follows chained.old [] }
    ensures chained { OnOk result (AreChained S.tells (S.holds shelf.old) folders.now chained.new) }
    ensures refused { OnRefused result
        (λ line. AreRefused S.tells (S.holds shelf.old) folders.now line) }
    ensures unread { UnreadAs result (folders_paths folders.now)
        (shelf_seen S.Shelf shelf.old shelf.new) }
    ensures in_order { OnUnread result
        (λ line. NamesPath (IsReached S.tells (S.holds shelf.old) folders.now)
        (shelf_seen S.Shelf shelf.old shelf.new) line) }
    ensures only_read { OnlyRead (shelf_seen S.Shelf shelf.old shelf.new) }
{
    'folders: for folder in folders {
        let bench = read_folder(alloc, folder.as_slice(), shelf, steps)?;
        chained.add(alloc, bench)?;
    }
    Ok(())
}
