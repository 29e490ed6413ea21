// Parts of bytes.
ghost use Rattle.std.specs.Prelude.{◌≡◌, take, drop};

// The first n bytes, or all, and the others.
pub fn split(bytes: &[u8], n: usize) -> (&[u8], &[u8])
    ensures front { result.0.now ≡ take n bytes.now }
    ensures back { result.1.now ≡ drop n bytes.now }
{
    bytes.split_at(n.min(bytes.len()))
}
