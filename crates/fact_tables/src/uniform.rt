//! How far code points have no mapping and the same other facts.

ghost use Rattle.std.specs.Prelude.{◌≡◌, ◌↔◌, IfSome, IsSome};
ghost use Rattle.ucd_facts.specs.Composites.{second_of};
ghost use Rattle.ucd_facts.specs.Uniform.{Alike, IsPlain, Uniform};
ghost use Rattle.fact_tables.specs.FactTables.{tables_facts};
ghost use Rattle.ucd_points.specs.Stretches.{HoldsTo};

use crate::fact_tables::FactTables;
use crate::pair_keys::second_member_base;
use crate::points::{lesser, point};
use range_table::Stretches;
use ucd_facts::{FactView, Point};

impl<T: Stretches<u64>> FactTables<T> {
    /// A code point up to which all from `c` on are without a mapping of any kind and have the same other facts now, and
    /// are second members of primary composites' mappings alike; `None` exactly if `c` has a mapping. UAX #44,
    /// sections 5.6 and 5.7; The Unicode Standard, section 3.11, D114.
    ///
    /// It is found by a few look-ups, and need not be the last such code point: the stretch also ends where a row maps
    /// a code point to itself, and a second member is alone.
    pub fn last_uniform(&self, c: Point) -> Option<Point>
        ensures plain { IsSome result
            ↔ IsPlain c (⟦<FactTables<T> as FactView>⟧.facts_of self.now c) }
        ensures stretch { IfSome result (HoldsTo (λ d.
            Uniform (⟦<FactTables<T> as FactView>⟧.facts_of self.now) c d) c) }
    {
        let plain = self.last_plain(c)?;
        let alike = self.last_alike_but_mappings(c);
        let seconds = self.last_alike_second(c);
        Some(lesser(plain, lesser(alike, seconds)))
    }

    /// A code point up to which the facts of all from `c` on differ from those of `c` in mappings and images alone.
    fn last_alike_but_mappings(&self, c: Point) -> Point
        ensures { HoldsTo (λ d. Alike (tables_facts T.now self.now d)
            (tables_facts T.now self.now c)) c result }
    {
        let last = self.words.last_of_stretch(c);
        let _first = c.number();
        let _last = last.number();
        last
    }

    /// A code point up to which all from `c` on are second members alike: `c` itself if one is listed under it, or else
    /// the last before the next one.
    fn last_alike_second(&self, c: Point) -> Point
        ensures { HoldsTo (λ d. second_of (tables_facts T.now self.now) d
            ≡ second_of (tables_facts T.now self.now) c) c result }
    {
        let first = u64::from(c.number());
        let Some(key) = self.index.seconds.next(second_member_base(c)) else {
            return point(Point::COUNT - 1);
        };
        // the bits of the second member
        let next = key / 2_097_152;
        if first < next && next < 1_114_112 {
            point(next as u32 - 1)
        } else {
            c
        }
    }
}
