//! The block of a pool: the two functions that reach it through raw pointers, and what is made of them.

ghost use Rattle.std.specs.Prelude.{◌≡◌, ℕ, ◌+◌, ◌<◌, ◌≤◌, ◌⊎◌, length, slice_index, slice_set};

/// The words of a page.
pub const WORDS: usize = 256;

/// Writes the word at an index.
pub fn put(words: &mut [u64], at: usize, word: u64)
    requires { at < length words.old }
    ensures { words.new ≡ slice_set words.old at word }
{
    let start = words.as_mut_ptr();
    unsafe {
        *start.add(at) = word;
    }
}

/// The word at an index.
pub fn read(words: &[u64], at: usize) -> u64
    requires { at < length words.now }
    ensures { result ≡ slice_index words.now at }
{
    let start = words.as_ptr();
    unsafe { *start.add(at) }
}

/// Writes 0 from an index on, over the words of a page.
pub fn clear_page(words: &mut [u64], from: usize)
    requires { from + 256 ≤ length words.old }
    ensures zeros { (a : ℕ) → a < 256 → slice_index words.new (from + a) ≡ 0 }
    ensures before { (k : ℕ) → k < from → slice_index words.new k ≡ slice_index words.old k }
    ensures behind { (k : ℕ) → from + 256 ≤ k → slice_index words.new k ≡ slice_index words.old k }
{
    for at in 0..WORDS {
        put(words, from + at, 0);
    }
}

/// Copies the words of a page from an index on over those of another page.
pub fn copy_page(words: &mut [u64], from: usize, to: usize)
    requires from { from + 256 ≤ length words.old }
    requires to { to + 256 ≤ length words.old }
    requires apart { (from + 256 ≤ to) ⊎ (to + 256 ≤ from) }
    ensures copied { (a : ℕ) → a < 256
        → slice_index words.new (to + a) ≡ slice_index words.old (from + a) }
    ensures before { (k : ℕ) → k < to → slice_index words.new k ≡ slice_index words.old k }
    ensures behind { (k : ℕ) → to + 256 ≤ k → slice_index words.new k ≡ slice_index words.old k }
{
    for at in 0..WORDS {
        let word = read(words, from + at);
        put(words, to + at, word);
    }
}
