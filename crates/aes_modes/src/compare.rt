//! Equality of two blocks, without a branch on where they differ.
ghost use Rattle.std.specs.Prelude.{◌≡◌, ◌↔◌, IsTrue};

use std::simd::prelude::*;

/// Whether the blocks are the same: for a tag or a code that somebody may be guessing. All octets are read and compared, wherever they
/// differ first.
#[inline(always)]
pub fn is_same(a: &[u8; 16], b: &[u8; 16]) -> bool
    ensures { IsTrue result ↔ (a.now ≡ b.now) }
{
    let x: Simd<u8, 16> = Simd::from_array(*a);
    let y: Simd<u8, 16> = Simd::from_array(*b);
    x.simd_ne(y).to_bitmask() == 0
}
