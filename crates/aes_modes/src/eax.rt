//! EAX with tags of 16 octets (Bellare, Rogaway and Wagner: The EAX Mode of Operation, 2004).
ghost use Rattle.std.specs.Prelude.{◌≡◌, ◌↔◌, ◌<◌, OnOk, OnErr, IsOk};
ghost use Rattle.std.specs.Int.{to_be_bytes};
ghost use Rattle.aes_modes.specs.Cmac.{first_subkey};
ghost use Rattle.aes_modes.specs.KeyStream.{masked};
ghost use Rattle.aes_modes.specs.Eax.{numbered_mac, eax_stream_block, eax_text, eax_tag};

use crate::blocks::{mask_block, xor_blocks};
use crate::compare::is_same;
use crate::mac::{first_subkey, mac_from};
use crate::{Aes, BadTag};

/// OMAC^t: the CMAC of a block with `number`, and `text`. `subkey` is K1.
fn numbered_mac(aes: &Aes, subkey: u128, number: u8, text: &[u8]) -> [u8; 16]
    requires { subkey ≡ first_subkey aes.now }
    ensures { result ≡ numbered_mac aes.now number text.now }
{
    let block = u128::from(number).to_be_bytes();
    if text.is_empty() {
        mac_from(aes, subkey, [0; 16], &block)
    } else {
        let x = aes.encrypt_block(&block);
        mac_from(aes, subkey, x, text)
    }
}

/// Adds the key stream whose counter begins at `start` to `text`.
fn mask(aes: &Aes, start: u128, text: &mut [u8])
    ensures { text.new ≡ masked (eax_stream_block aes.now start) text.old }
{
    let count = text.len() / 16;
    'whole: for i in 0..count {
        let stream = aes.encrypt_block(&start.wrapping_add(i as u128).to_be_bytes());
        mask_block(text, 16 * i, 16, &stream);
    }
    let rest = text.len() % 16;
    if rest == 0 {
        return;
    }
    let stream = aes.encrypt_block(&start.wrapping_add(count as u128).to_be_bytes());
    mask_block(text, 16 * count, rest, &stream);
}

/// Encrypts `text` in place, and answers the tag, of 16 octets, of the nonce, the header and the encrypted text.
///
/// The header and the text have any length; the header is authenticated and not encrypted. A nonce may serve once
/// under a key.
#[tactic(auto, unfolding(crate::specs::Eax::eax_text, crate::specs::Eax::eax_tag))]
pub fn eax_seal(aes: &Aes, nonce: &[u8; 16], header: &[u8], text: &mut [u8]) -> [u8; 16]
    ensures text { text.new ≡ eax_text aes.now nonce.now text.old }
    ensures tag { result ≡ eax_tag aes.now nonce.now header.now text.new }
{
    let subkey = first_subkey(aes);
    let start = numbered_mac(aes, subkey, 0, nonce);
    let head = numbered_mac(aes, subkey, 1, header);
    mask(aes, u128::from_be_bytes(start), text);
    let body = numbered_mac(aes, subkey, 2, text);
    xor_blocks(&xor_blocks(&start, &head), &body)
}

/// Decrypts `text` in place.
///
/// [`BadTag`] comes exactly where `tag` is not the tag of the nonce, the header and the text as it was given. The text
/// is unchanged then.
#[tactic(auto, unfolding(crate::specs::Eax::eax_text, crate::specs::Eax::eax_tag))]
pub fn eax_open(
    aes: &Aes,
    nonce: &[u8; 16],
    header: &[u8],
    text: &mut [u8],
    tag: &[u8; 16],
) -> Result<(), BadTag>
    ensures tag { IsOk result ↔ (tag.now ≡ eax_tag aes.now nonce.now header.now text.old) }
    ensures opened { OnOk result (text.new ≡ eax_text aes.now nonce.now text.old) }
    ensures unchanged { OnErr result (text.new ≡ text.old) }
{
    let subkey = first_subkey(aes);
    let start = numbered_mac(aes, subkey, 0, nonce);
    let head = numbered_mac(aes, subkey, 1, header);
    let body = numbered_mac(aes, subkey, 2, text);
    if !is_same(&xor_blocks(&xor_blocks(&start, &head), &body), tag) {
        return Err(BadTag);
    }
    mask(aes, u128::from_be_bytes(start), text);
    Ok(())
}
