//! Two blocks of a key stream, or one of a chain beside one of a key stream, for a cipher that makes two at once.
ghost use Rattle.std.specs.Prelude.{◌≡◌, ◌≤◌, ◌<◌, ◌+◌, length};
ghost use Rattle.aes_modes.specs.Chains.{chained_all, padded};
ghost use Rattle.aes_modes.specs.Ccm.{ccm_stream_block, ccm_text};
ghost use Rattle.aes_modes.specs.Pairs.{following};

use crate::Aes;
use crate::blocks::{block_at, mask_block, padded_block, xor_blocks};
use crate::ccm::counter;

/// Encrypts or decrypts `text` in place: adds the key stream from S_1 on to it (RFC 3610, section 2.3), two blocks at once.
pub(crate) fn mask_pairs(aes: &Aes, nonce: &[u8; 13], text: &mut [u8])
    requires { length text.old < 65536 }
    ensures { text.new ≡ ccm_text aes.now nonce.now text.old }
{
    let pairs = text.len() / 32;
    'pairs: for i in 0..pairs {
        let number = 2 * i + 1;
        let (one, two) = aes.encrypt_two(&counter(nonce, number), &counter(nonce, number + 1));
        mask_block(text, 16 * (2 * i), 16, &one);
        mask_block(text, 16 * (2 * i + 1), 16, &two);
    }
    let count = 2 * pairs;
    let rest = text.len() % 32;
    if rest == 0 {
        return;
    }
    if rest <= 16 {
        let stream = aes.encrypt_block(&counter(nonce, count + 1));
        mask_block(text, 16 * count, rest, &stream);
        return;
    }
    let number = count + 1;
    let (one, two) = aes.encrypt_two(&counter(nonce, number), &counter(nonce, number + 1));
    mask_block(text, 16 * count, 16, &one);
    mask_block(text, 16 * (count + 1), rest - 16, &two);
}

/// Takes `text`, with zeros up to a whole block, into the chain `x`, and encrypts it in place.
pub(crate) fn chain_and_encrypt(aes: &Aes, nonce: &[u8; 13], x: &mut [u8; 16], text: &mut [u8])
    requires { length text.old < 65536 }
    ensures chain { x.new ≡ chained_all aes.now x.old (padded text.old) }
    ensures text { text.new ≡ ccm_text aes.now nonce.now text.old }
{
    let count = text.len() / 16;
    'whole: for i in 0..count {
        let block = xor_blocks(x, &block_at(text, 16 * i));
        let (next, stream) = aes.encrypt_two(&block, &counter(nonce, i + 1));
        *x = next;
        mask_block(text, 16 * i, 16, &stream);
    }
    let rest = text.len() % 16;
    if rest == 0 {
        return;
    }
    let block = xor_blocks(x, &padded_block(text, 16 * count));
    let (next, stream) = aes.encrypt_two(&block, &counter(nonce, count + 1));
    *x = next;
    mask_block(text, 16 * count, rest, &stream);
}

/// The number of the stream block that is made beside block `i` of the chain: the next one, and after the last of `blocks` the first of all.
#[inline(always)]
fn following(i: usize, blocks: usize) -> usize
    requires within { i ≤ blocks }
    requires small { blocks < 65535 }
    ensures { result ≡ following i blocks }
{
    if i == blocks { 0 } else { i + 1 }
}

/// Decrypts `text` in place, and takes what it is then, with zeros up to a whole block, into the chain `x`. `first` is S_1; the answer is S_0.
pub(crate) fn decrypt_and_chain(
    aes: &Aes,
    nonce: &[u8; 13],
    x: &mut [u8; 16],
    first: &[u8; 16],
    text: &mut [u8],
) -> [u8; 16]
    requires text { length text.old < 65536 }
    requires first { first.now ≡ ccm_stream_block aes.now nonce.now 1 }
    ensures chain { x.new ≡ chained_all aes.now x.old (padded text.new) }
    ensures text { text.new ≡ ccm_text aes.now nonce.now text.old }
    ensures stream { result ≡ ccm_stream_block aes.now nonce.now 0 }
{
    let count = text.len() / 16;
    let rest = text.len() % 16;
    let blocks = (text.len() + 15) / 16;
    let mut stream = *first;
    'whole: for i in 0..count {
        mask_block(text, 16 * i, 16, &stream);
        let block = xor_blocks(x, &block_at(text, 16 * i));
        let (next, after) = aes.encrypt_two(&block, &counter(nonce, following(i + 1, blocks)));
        *x = next;
        stream = after;
    }
    if rest == 0 {
        if count == 0 {
            return aes.encrypt_block(&counter(nonce, 0));
        }
        return stream;
    }
    mask_block(text, 16 * count, rest, &stream);
    let block = xor_blocks(x, &padded_block(text, 16 * count));
    let (next, last) = aes.encrypt_two(&block, &counter(nonce, 0));
    *x = next;
    last
}
