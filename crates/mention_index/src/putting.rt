//! What a code point mentions.

ghost use Rattle.std.specs.Prelude.{◌≡◌, ℕ, ◌+◌, ◌<◌, ◌*◌, ◌++◌, [], ◌∷◌, true, List, OnOk};
ghost use Rattle.number_sets.specs.Keys.{is_in as has_key};
ghost use Rattle.ucd_facts.specs.Facts.{image_points};
ghost use Rattle.ucd_facts.specs.Shown.{image_shown, shown_facts};
ghost use Rattle.mention_index.specs.Mentions.{puts};
ghost use Rattle.mention_index.specs.Reached.{members_of};
ghost use Rattle.mention_index.specs.Steps.{HasStepsTo, LeadFrom, image_members, key, simple_members};

use crate::mentions::MentionsBuilder;
use ucd_model::{FactView, FactsRef, Memory, Point};

impl MentionsBuilder {
    /// Puts the steps to a code point from the members of its mappings, and, if it is a primary composite, from it to the first
    /// member of its mapping. The Unicode Standard, section 3.11, D114.
    ///
    /// - `Memory`: memory ran out. No step that was put is lost, and some of these may be put.
    pub fn put<W: FactView>(&mut self, view: &W, c: Point) -> Result<(), Memory>
        ensures grows { (x d : ℕ) → puts self.old x d ≡ true → puts self.new x d ≡ true }
        ensures put { OnOk result (HasStepsTo (puts self.new) (W.facts_of view.now) c) }
    {
        let facts = view.facts(c);
        put_members(&mut self.keys, &facts, c)?;
        if facts.is_primary(view) {
            put_first_member_step(&mut self.keys, c, facts.mapping)?;
        }
        Ok(())
    }
}

/// Puts the key of the step from a primary composite to the first member of its mapping.
fn put_first_member_step(keys: &mut Vec<u64>, c: Point, mapping: &[Point]) -> Result<(), Memory>
    ensures grows { (k : ℕ) → has_key keys.old.items k ≡ true → has_key keys.new.items k ≡ true }
    ensures put { OnOk result ((s : ℕ) (rest : List ℕ) → mapping.now ≡ s ∷ rest
        → (s < 1114112) × (has_key keys.new.items (key c s) ≡ true)) }
{
    match mapping {
        [first, ..] => {
            let _number = first.number();
            keys.push(step_key(c, *first))?;
            Ok(())
        }
        [] => Ok(()),
    }
}

/// Puts the keys of the steps to a code point from the members of its mappings.
fn put_members(keys: &mut Vec<u64>, facts: &FactsRef<'_>, c: Point) -> Result<(), Memory>
    ensures grows { (k : ℕ) → has_key keys.old.items k ≡ true → has_key keys.new.items k ≡ true }
    ensures put { OnOk result (LeadFrom (has_key keys.new.items)
        (members_of c (shown_facts facts.now)) c) }
{
    put_steps(keys, facts.mapping, c)?;
    put_simple(keys, facts, c)?;
    put_images(keys, facts, c)?;
    Ok(())
}

/// Puts the keys of the steps to a code point from its simple case mappings and its simple folding.
fn put_simple(keys: &mut Vec<u64>, facts: &FactsRef<'_>, c: Point) -> Result<(), Memory>
    ensures grows { (k : ℕ) → has_key keys.old.items k ≡ true → has_key keys.new.items k ≡ true }
    ensures put { OnOk result (LeadFrom (has_key keys.new.items)
        (simple_members (shown_facts facts.now)) c) }
{
    let simple = [
        facts.simple_upper,
        facts.simple_lower,
        facts.simple_title,
        facts.simple_fold,
    ];
    put_steps(keys, &simple, c)
}

/// Puts the keys of the steps to a code point from the members of its full case mappings and its full folding.
fn put_images(keys: &mut Vec<u64>, facts: &FactsRef<'_>, c: Point) -> Result<(), Memory>
    ensures grows { (k : ℕ) → has_key keys.old.items k ≡ true → has_key keys.new.items k ≡ true }
    ensures put { OnOk result (LeadFrom (has_key keys.new.items)
        (image_members c (shown_facts facts.now)) c) }
{
    put_image(keys, facts.upper, c)?;
    put_image(keys, facts.lower, c)?;
    put_image(keys, facts.title, c)?;
    put_image(keys, facts.fold, c)?;
    Ok(())
}

/// Puts the keys of the steps to a code point from the members of one of its images.
fn put_image(keys: &mut Vec<u64>, image: Option<&[Point]>, c: Point) -> Result<(), Memory>
    ensures grows { (k : ℕ) → has_key keys.old.items k ≡ true → has_key keys.new.items k ≡ true }
    ensures put { OnOk result (LeadFrom (has_key keys.new.items)
        (image_points c (image_shown image.entry)) c) }
{
    match image {
        Some(points) => put_steps(keys, points, c),
        None => Ok(()),
    }
}

/// Puts the keys of the steps to a code point from these, without itself.
fn put_steps(keys: &mut Vec<u64>, points: &[Point], c: Point) -> Result<(), Memory>
    ensures grows { (k : ℕ) → has_key keys.old.items k ≡ true → has_key keys.new.items k ≡ true }
    ensures put { OnOk result (LeadFrom (has_key keys.new.items) points.now c) }
{
    'points: for x in points {
        put_step(keys, *x, c)?;
    }
    Ok(())
}

/// Puts the key of the step from a code point to another one, if they are two.
fn put_step(keys: &mut Vec<u64>, x: Point, c: Point) -> Result<(), Memory>
    ensures grows { (k : ℕ) → has_key keys.old.items k ≡ true → has_key keys.new.items k ≡ true }
    ensures put { OnOk result (LeadFrom (has_key keys.new.items) (x ∷ []) c) }
{
    if x != c {
        keys.push(step_key(x, c))?;
    }
    Ok(())
}

/// The key of the step from one code point to another.
fn step_key(x: Point, c: Point) -> u64
    ensures { result ≡ key x c }
{
    u64::from(x.number()) * 2_097_152 + u64::from(c.number())
}
