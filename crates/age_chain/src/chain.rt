//! A chain of releases.

ghost use Rattle.std.specs.Prelude.{◌≡◌, ◌<◌, ◌+◌, ◌++◌, ◌∷◌, [], List, IfOk, OnOk, OnErr};
ghost use Rattle.std.specs.Option.{option_map};
ghost use Rattle.release_rows.specs.Releases.{ReleaseItems};
ghost use Rattle.ucd_model.specs.Labels.{labelled};
ghost use Rattle.ucd_points.specs.Limits.{point_count};
ghost use Rattle.age_chain.specs.Ages.{SameChain, StandsFor, age, age_label, age_text, ages_in, breaks_since};

use crate::giving::prepare_ages;
use crate::listing::{count_aged, put_ages};
use edit_session::Bench;
use range_table::{RunTable, Table};
use stability_policies::Breaks;
use std::alloc::Global;
use std::marker::Model;
use ucd_model::{Memory, Point, Text};

/// A chain of releases, in order: the bench of the last one, and the age of each code point, which is the number of the
/// first release in which it is assigned. A code point that is removed keeps its age. UAX #44, section 5.14.
#[derive(Drop)]
pub struct Chain {
    last: Option<Bench>,
    count: u32,
    // 0 stands for no age
    ages: RunTable<u8>,
}

impl Model for Chain {
    ghost use Rattle.range_table.specs.RunTable.{values_now, values_next};
    ghost use Rattle.range_table.specs.Values.{SameValues};
    ghost use Rattle.age_chain.specs.Ages.{ChainState};

    ghost Value = { ChainState };

    ghost view = { λ c. record { count = c.count; last = c.last; table = c.ages } };

    ghost invariant = { λ c. SameValues (values_next c.ages) (values_now c.ages) };
}

impl Chain {
    /// The chain of no release.
    ///
    /// - `Memory`: memory ran out.
    pub fn new(alloc: Global) -> Result<Chain, Memory>
        ensures { IfOk result (λ chain. StandsFor chain []) }
    {
        Ok(Chain {
            last: None,
            count: 0,
            ages: RunTable::filled(alloc, 0)?,
        })
    }

    /// Puts the release of a bench after the others, and answers its breaks of the stability policies against the last
    /// one; none if it is the first. A chain has room for 255 releases. Unicode Character Encoding Stability Policies.
    ///
    /// - `Memory`: memory ran out. The chain stays as it was, and the bench is dropped.
    pub fn add(&mut self, alloc: Global, bench: Bench) -> Result<Breaks, Memory>
        requires room { self.old.count < 255 }
        ensures breaks { IfOk result (λ breaks. breaks ≡ breaks_since self.old.last bench) }
        ensures chain { OnOk result ((releases : List ReleaseItems) → StandsFor self.old releases
            → StandsFor self.new (releases ++ bench ∷ [])) }
        ensures count { OnOk result (self.new.count ≡ self.old.count + 1) }
        ensures err { OnErr result (SameChain self.new self.old) }
    {
        let count = self.count + 1;
        let breaks = prepare_ages(alloc, &self.last, &bench, count as u8, &mut self.ages)?;
        self.ages.commit();
        self.last = Some(bench);
        self.count = count;
        Ok(breaks)
    }

    /// The number of releases.
    pub fn count(&self) -> u32
        ensures { result ≡ self.now.count }
    {
        self.count
    }

    /// The bench of the last release; `None` exactly if there is none.
    pub fn last(&self) -> Option<&Bench>
        ensures { option_map (λ bench. bench.now) result ≡ self.now.last }
    {
        self.last.as_ref()
    }

    /// The age of a code point: the number of the first release in which it is assigned, counted from 1; `None` if it is
    /// assigned in none.
    pub fn age(&self, c: Point) -> Option<u32>
        ensures { result ≡ ages_in self.now c }
    {
        let _number = c.number();
        match self.ages.get(c) {
            0 => None,
            age => Some(age as u32),
        }
    }

    /// The text of DerivedAge.txt: `# Age`, a line for each maximal span of one age, `# total N`, and an empty line.
    /// UAX #44, section 5.14.
    ///
    /// - `Memory`: memory ran out.
    pub fn age_text(&self, alloc: Global) -> Result<Text, Memory>
        ensures { IfOk result (λ text. (releases : List ReleaseItems) → StandsFor self.now releases
            → text ≡ age_text releases) }
    {
        let mut text = Text::new(alloc);
        put_ages(alloc, &self.ages, &mut text)?;
        Ok(text)
    }

    /// The number of code points that have an age, which `age_text` gives as its total.
    pub fn aged_points(&self) -> u32
        ensures { (releases : List ReleaseItems) → StandsFor self.now releases
            → result ≡ labelled point_count (λ c. age_label (age releases c)) }
    {
        count_aged(&self.ages)
    }
}
