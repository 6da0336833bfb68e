//! The protected channel: EAX under TEK (RFC 4764, 3.3).
ghost use Rattle.std.specs.Prelude.{◌≡◌, ◌<◌, ◌≤◌, ◌+◌, ◌++◌, length, true, false, IsTrue, MatchResult, Ok, Err};
ghost use Rattle.eap_psk.specs.Keys.{nonce_block, channel, channel_tag, channel_text};
ghost use Rattle.eap_psk.specs.Faults.{same};

use crate::fault::EapFault;
use aes_modes::{Aes, eax_open, eax_seal};
use plc_base::{EapBuf, four_octets};

// The nonce of EAX.
#[tactic(auto, unfolding(crate::specs::Keys::nonce_block))]
fn nonce_block(nonce: u32) -> [u8; 16]
    ensures { result ≡ nonce_block nonce }
{
    let [a, b, c, d] = four_octets(nonce);
    [0, 0, 0, 0, 0, 0, 0, 0, 0, 0, 0, 0, a, b, c, d]
}

// Appends a channel with this plain text, whose tag covers the header.
#[tactic(auto, unfolding(crate::specs::Keys::channel))]
pub(crate) fn write_channel(tek: &Aes, nonce: u32, header: &[u8], text: &[u8], out: &mut EapBuf)
    requires text { length text.now ≤ 64 }
    requires room { length out.old + (20 + length text.now) ≤ 128 }
    ensures spelled { out.new ≡ out.old ++ channel tek.now nonce header.now text.now }
    ensures longer { length out.new ≡ length out.old + (20 + length text.now) }
{
    let mut buffer = [0; 64];
    let sealed = &mut buffer[..text.len()];
    sealed.copy_from_slice(text);
    let tag = eax_seal(tek, &nonce_block(nonce), header, sealed);
    out.append(&four_octets(nonce));
    out.append(&tag);
    out.append(sealed);
}

// Decrypts a channel's text in place, where the tag is right.
#[tactic(auto, using(crate::proofs::Same::same_from))]
fn opens(tek: &Aes, nonce: u32, header: &[u8], tag: &[u8; 16], text: &mut [u8]) -> bool
    ensures tag { result ≡ same tag.now (channel_tag tek.now nonce header.now text.old) }
    ensures text { IsTrue result → text.new ≡ channel_text tek.now nonce text.old }
{
    eax_open(tek, &nonce_block(nonce), header, text, tag).is_ok()
}

// The plain text of a channel.
#[tactic(auto, using(crate::proofs::Same::same_is))]
pub(crate) fn open_channel(
    tek: &Aes,
    nonce: u32,
    header: &[u8],
    tag: &[u8; 16],
    sealed: &[u8],
) -> Result<EapBuf, EapFault>
    requires { length sealed.now ≤ 128 }
    ensures { MatchResult result
        (λ x. (same tag.now (channel_tag tek.now nonce header.now sealed.now) ≡ true)
        × (tag.now ≡ channel_tag tek.now nonce header.now sealed.now)
        × (x ≡ channel_text tek.now nonce sealed.now) × (length x ≡ length sealed.now))
        (λ e. (same tag.now (channel_tag tek.now nonce header.now sealed.now) ≡ false) × (e ≡ EapFault.BadChannel)) }
{
    let mut buffer = [0; 128];
    let text = &mut buffer[..sealed.len()];
    text.copy_from_slice(sealed);
    if !opens(tek, nonce, header, tag, text) {
        return Err(EapFault::BadChannel);
    }
    Ok(EapBuf::from_octets(text))
}
