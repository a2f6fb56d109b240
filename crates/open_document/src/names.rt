//! Whether names are the same.

ghost use Rattle.std.specs.Prelude.{◌≡◌, length};
ghost use Rattle.std.specs.Str.{bytes_eq};

use lunit::Name;

/// How many bytes a name has at most that is compared byte by byte: so few are compared faster so.
const SHORT: usize = 16;

#[tactic(auto, using(crate::proofs::SameNames::bytes_laws))]
/// Whether texts of one length are the same.
fn same_bytes(a: &[u8], b: &[u8]) -> bool
    requires { length a.now ≡ length b.now }
    ensures { result ≡ bytes_eq a.now b.now }
{
    for index in 0..a.len() {
        if a[index] != b[index] {
            return false;
        }
    }
    true
}

#[inline(always)]
/// Whether names are the same.
pub(crate) fn same_name(a: &Name, b: &Name) -> bool
    ensures { result ≡ bytes_eq a.now b.now }
{
    if a.bytes().len() == b.bytes().len() && a.bytes().len() <= SHORT {
        same_bytes(a.bytes(), b.bytes())
    } else {
        a == b
    }
}
