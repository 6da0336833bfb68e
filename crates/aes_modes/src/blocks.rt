//! Blocks of 16 octets.
ghost use Rattle.std.specs.Prelude.{◌≡◌, ℕ, ◌+◌, ◌-◌, ◌<◌, ◌≤◌, ◌++◌, length, take, drop, replicate, bit_xor, slice_index};
ghost use Rattle.aes_modes.specs.Cipher.{xor_bytes};

/// The sum of two blocks.
#[inline(always)]
pub(crate) fn xor_blocks(a: &[u8; 16], b: &[u8; 16]) -> [u8; 16]
    ensures { result ≡ xor_bytes a.now b.now }
{
    [
        a[0] ^ b[0],
        a[1] ^ b[1],
        a[2] ^ b[2],
        a[3] ^ b[3],
        a[4] ^ b[4],
        a[5] ^ b[5],
        a[6] ^ b[6],
        a[7] ^ b[7],
        a[8] ^ b[8],
        a[9] ^ b[9],
        a[10] ^ b[10],
        a[11] ^ b[11],
        a[12] ^ b[12],
        a[13] ^ b[13],
        a[14] ^ b[14],
        a[15] ^ b[15],
    ]
}

/// The 16 octets of `text` from `at` on.
#[inline(always)]
pub(crate) fn block_at(text: &[u8], at: usize) -> [u8; 16]
    requires { at + 16 ≤ length text.now }
    ensures { result ≡ take 16 (drop at text.now) }
{
    let mut block = [0; 16];
    block.copy_from_slice(&text[at..at + 16]);
    block
}

/// The octets of `text` from `at` on, and zeros up to a block.
#[inline(always)]
pub(crate) fn padded_block(text: &[u8], at: usize) -> [u8; 16]
    requires low { at ≤ length text.now }
    requires high { length text.now ≤ at + 16 }
    ensures { result ≡ drop at text.now ++ replicate (16 - (length text.now - at)) 0 }
{
    let rest = &text[at..];
    let mut block = [0; 16];
    block[..rest.len()].copy_from_slice(rest);
    block
}

/// Adds the front of `stream` to the `count` octets of `text` from `at` on.
#[inline(always)]
pub(crate) fn mask_block(text: &mut [u8], at: usize, count: usize, stream: &[u8; 16])
    requires fits { count ≤ 16 }
    requires inside { at + count ≤ length text.old }
    ensures block { (k : ℕ) → k < count →
        slice_index text.new (at + k) ≡ bit_xor (slice_index text.old (at + k)) (slice_index stream.now k) }
    ensures before { (k : ℕ) → k < at → slice_index text.new k ≡ slice_index text.old k }
    ensures after { (k : ℕ) → at + count ≤ k → slice_index text.new k ≡ slice_index text.old k }
{
    for i in 0..count {
        text[at + i] ^= stream[i];
    }
}
