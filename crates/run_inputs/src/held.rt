//! What is held at the paths that were read.

ghost use Rattle.std.specs.Prelude.{◌≡◌, ◌≢◌, ℕ, None};
ghost use Rattle.std.specs.Option.{option_map};
ghost use Rattle.run_inputs.specs.Held.{held_at};

use ucd_model::Text;

/// What is held at a place; `None` if nothing is, and past the last.
pub fn held_at(held: &[Option<Text>], at: usize) -> Option<&[u8]>
    ensures { option_map (λ bytes. bytes.now) result ≡ held_at held.now at }
{
    match held.get(at) {
        Some(Some(text)) => Some(text.as_slice()),
        _ => None,
    }
}

/// Takes what is held at a place; `None` if nothing is, and past the last. Nothing is held there any longer.
pub fn take_held(held: &mut Vec<Option<Text>>, at: usize) -> Option<Text>
    ensures taken { result ≡ held_at held.old.items at }
    ensures emptied { held_at held.new.items at ≡ None }
    ensures others { (k : ℕ) → k ≢ at → held_at held.new.items k ≡ held_at held.old.items k }
{
    if at < held.len() {
        return held[at].take();
    }
    None
}
