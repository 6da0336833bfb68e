//! Chains of blocks, and CMAC over them (RFC 4493).
ghost use Rattle.std.specs.Prelude.{◌≡◌, ◌+◌, ◌-◌, ◌*◌, ◌/◌, ◌<◌, ◌≤◌, length, drop};
ghost use Rattle.std.specs.Int.{to_be_bytes};
ghost use Rattle.aes_modes.specs.Chains.{chained, chained_all, padded};
ghost use Rattle.aes_modes.specs.Cmac.{doubled, first_subkey, last_block, cmac};
ghost use Rattle.aes_modes.specs.Resumed.{mac_from};

use crate::Aes;
use crate::blocks::{block_at, padded_block, xor_blocks};

/// Takes the first `count` blocks of `text`, all whole, into `x`.
///
/// `x` changes in place here and below: by value it would be copied octet by octet.
pub(crate) fn chain(aes: &Aes, x: &mut [u8; 16], text: &[u8], count: usize)
    requires { 16 * count ≤ length text.now }
    ensures { x.new ≡ chained aes.now x.old text.now count }
{
    'whole: for i in 0..count {
        let next = aes.encrypt_block(&xor_blocks(x, &block_at(text, 16 * i)));
        *x = next;
    }
}

/// Takes all of `text` into `x`, with zeros up to a whole block.
pub(crate) fn absorb(aes: &Aes, x: &mut [u8; 16], text: &[u8])
    ensures { x.new ≡ chained_all aes.now x.old (padded text.now) }
{
    let count = text.len() / 16;
    chain(aes, x, text, count);
    if text.len() % 16 == 0 {
        return;
    }
    let next = aes.encrypt_block(&xor_blocks(x, &padded_block(text, 16 * count)));
    *x = next;
}

/// Twice an element of GF(2^128) (section 2.3), without a branch: the top bit of a subkey is secret.
fn double(x: u128) -> u128
    ensures { result ≡ doubled x }
{
    (x << 1) ^ (0x87 * (x >> 127))
}

/// The subkey K1 (section 2.3).
pub(crate) fn first_subkey(aes: &Aes) -> u128
    ensures { result ≡ first_subkey aes.now }
{
    double(u128::from_be_bytes(aes.encrypt_block(&[0; 16])))
}

/// The octets of `text` from `at` on as M_last: padded where they are no whole block, with their subkey added (section 2.4).
/// `subkey` is K1.
fn last_block(aes: &Aes, subkey: u128, text: &[u8], at: usize) -> [u8; 16]
    requires low { at ≤ length text.now }
    requires high { length text.now ≤ at + 16 }
    requires subkey { subkey ≡ first_subkey aes.now }
    ensures { result ≡ last_block aes.now (drop at text.now) }
{
    let count = text.len() - at;
    let mut block = padded_block(text, at);
    if count == 16 {
        return xor_blocks(&block, &subkey.to_be_bytes());
    }
    block[count] = 0x80;
    xor_blocks(&block, &double(subkey).to_be_bytes())
}

/// The CMAC of some whole blocks and `text`, where those blocks gave `x`. `subkey` is K1.
pub(crate) fn mac_from(aes: &Aes, subkey: u128, x: [u8; 16], text: &[u8]) -> [u8; 16]
    requires { subkey ≡ first_subkey aes.now }
    ensures { result ≡ mac_from aes.now x text.now }
{
    let count = text.len().saturating_sub(1) / 16;
    let mut x = x;
    chain(aes, &mut x, text, count);
    let last = last_block(aes, subkey, text, 16 * count);
    aes.encrypt_block(&xor_blocks(&x, &last))
}

/// The tag of a text of any length under the key of `aes`: AES-CMAC of RFC 4493, all 16 octets of it.
pub fn cmac(aes: &Aes, text: &[u8]) -> [u8; 16]
    ensures { result ≡ cmac aes.now text.now }
{
    mac_from(aes, first_subkey(aes), [0; 16], text)
}
