//! The name beside a path, for a file that is to take the place of the one at the path.

ghost use Rattle.std.specs.Prelude.{◌≡◌, ◌≤◌, IfSome, IsSome, IsUtf8, codes, length};
ghost use Rattle.shelf_io.specs.Beside.{beside, is_beside};

use std::str::from_utf8;

/// How many bytes the longest name has that a system takes: PATH_MAX of Linux without the zero behind it.
pub const LONGEST: usize = 4095;

/// What the name beside a path has behind the path.
fn beside_ending() -> &'static [u8]
    ensures bytes { result.now ≡ codes ".ucdshop-new" }
    ensures text { IsUtf8 result.now }
{
    ".ucdshop-new".as_bytes()
}

/// Whether a path ends as the names beside others do.
pub fn is_beside(path: &[u8]) -> bool
    ensures { result ≡ is_beside path.now }
{
    path.ends_with(beside_ending())
}

/// Puts the name beside a path into a buffer of its length.
fn put_beside(path: &[u8], name: &mut [u8])
    requires { length (beside path.now) ≡ length name.old }
    ensures { name.new ≡ beside path.now }
{
    let (front, back) = name.split_at_mut(path.len());
    front.copy_from_slice(path);
    back.copy_from_slice(beside_ending());
}

/// The name beside a path, in this buffer, or `None` if it does not fit.
pub fn beside_in<'a>(path: &[u8], buffer: &'a mut [u8]) -> Option<&'a str>
    requires { IsUtf8 path.now }
    ensures name { IfSome result (λ name. name.now ≡ beside path.now) }
    ensures fits { length (beside path.now) ≤ length buffer.old → IsSome result }
{
    let end = path.len() + beside_ending().len();
    if end > buffer.len() {
        return None;
    }
    let name = &mut buffer[..end];
    put_beside(path, name);
    match from_utf8(name) {
        Ok(name) => Some(name),
        Err(_) => None,
    }
}
