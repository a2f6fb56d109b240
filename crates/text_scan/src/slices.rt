ghost use Rattle.std.specs.Prelude.{◌≡◌, ◌≤◌, length, drop};

/// The bytes from an index on.
pub(crate) fn from_index(bytes: &[u8], index: usize) -> &[u8]
    requires { index ≤ length bytes.now }
    ensures { result.now ≡ drop index bytes.now }
{
    let (_, rest) = bytes.split_at(index);
    rest
}
