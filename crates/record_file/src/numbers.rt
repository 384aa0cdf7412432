// The numbers that parts of a record hold.
ghost use Rattle.std.specs.Prelude.{◌≡◌, ℕ, ◌+◌, ◌<◌, drop, slice_index};
ghost use Rattle.record_file.specs.Layout.{word_in};

use std::array;

/// A byte of a part of a record, 0 past the part's end.
pub fn byte_of(part: &[u8], at: usize) -> u8
    ensures { result ≡ slice_index part.now at }
{
    part.get(at).copied().unwrap_or(0)
}

/// The `N` bytes of a part of a record from byte `at` on, each 0 past the part's end.
pub fn bytes_of<const N: usize>(part: &[u8], at: usize) -> [u8; N]
    ensures { (k : ℕ) → k < N → slice_index result k ≡ slice_index part.now (at + k) }
{
    let rest = rest_of(part, at);
    array::from_fn(|k| byte_of(rest, k))
}

// The bytes of a part from byte `at` on, none past its end.
fn rest_of(part: &[u8], at: usize) -> &[u8]
    ensures { result.now ≡ drop at part.now }
{
    part.get(at..).unwrap_or_default()
}

/// The number in the first four bytes of a part of a record, the lowest first.
pub fn word_of(part: &[u8]) -> u32
    ensures { result ≡ word_in part.now }
{
    u32::from_le_bytes(bytes_of(part, 0))
}
