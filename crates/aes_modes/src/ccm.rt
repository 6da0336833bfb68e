//! CCM of RFC 3610 with L = 2 and tags of 4 or 8 octets, which is CCM* of IEEE 802.15.4-2006, annex B, where it encrypts
//! and authenticates.
ghost use Rattle.std.specs.Prelude.{◌≡◌, ◌↔◌, ◌+◌, ◌-◌, ◌*◌, ◌/◌, ◌==◌, if◌then◌else◌, ◌<◌, ◌≤◌, ◌⊎◌, length, take, IsTrue, OnOk, OnErr, IsOk};
ghost use Rattle.aes_modes.specs.Chains.{chained_all};
ghost use Rattle.aes_modes.specs.Ccm.{ccm_first_block, ccm_header_blocks, ccm_counter_block, ccm_text, ccm_tag};

use crate::blocks::{mask_block, padded_block, xor_blocks};
use crate::compare::is_same;
use crate::mac::absorb;
use crate::pairs::{chain_and_encrypt, decrypt_and_chain, mask_pairs};
use crate::{Aes, BadTag};

/// The counter block A_i (RFC 3610, section 2.3).
#[inline(always)]
pub(crate) fn counter(nonce: &[u8; 13], i: usize) -> [u8; 16]
    requires { i < 65536 }
    ensures { result ≡ ccm_counter_block nonce.now i }
{
    let [high, low] = (i as u16).to_be_bytes();
    [
        1, nonce[0], nonce[1], nonce[2], nonce[3], nonce[4], nonce[5], nonce[6], nonce[7],
        nonce[8], nonce[9], nonce[10], nonce[11], nonce[12], high, low,
    ]
}

/// Encrypts or decrypts `text` in place, without a tag: adds the key stream from S_1 on to it (section 2.3).
///
/// The text has at most 65,535 octets. Nothing is known of a text that was decrypted so: whoever does not know from elsewhere that it was sealed under
/// this key and this nonce takes [`ccm_open`].
pub fn ccm_mask(aes: &Aes, nonce: &[u8; 13], text: &mut [u8])
    requires { length text.old < 65536 }
    ensures { text.new ≡ ccm_text aes.now nonce.now text.old }
{
    if Aes::MAKES_PAIRS {
        mask_pairs(aes, nonce, text);
        return;
    }
    let count = text.len() / 16;
    'whole: for i in 0..count {
        let stream = aes.encrypt_block(&counter(nonce, i + 1));
        mask_block(text, 16 * i, 16, &stream);
    }
    let rest = text.len() % 16;
    if rest == 0 {
        return;
    }
    let stream = aes.encrypt_block(&counter(nonce, count + 1));
    mask_block(text, 16 * count, rest, &stream);
}

/// The bit Adata of the first octet: a header is there (section 2.2).
fn header_flag(header: &[u8]) -> u8
    ensures { result ≡ (if length header.now == 0 then 0 else 64) }
{
    if header.is_empty() { 0 } else { 64 }
}

/// The field M' of the first octet: the tag's length (section 2.2).
fn tag_flag(tag_len: usize) -> u8
    requires { (tag_len ≡ 4) ⊎ (tag_len ≡ 8) }
    ensures value { result ≡ 8 * ((tag_len - 2) / 2) }
    ensures small { result < 32 }
{
    if tag_len == 4 { 8 } else { 24 }
}

/// The first block B_0: flags, nonce, and the length of the text (section 2.2).
fn first_block(nonce: &[u8; 13], header: &[u8], text: &[u8], tag_len: usize) -> [u8; 16]
    requires text { length text.now < 65536 }
    requires tag { (tag_len ≡ 4) ⊎ (tag_len ≡ 8) }
    ensures { result ≡ ccm_first_block tag_len nonce.now header.now text.now }
{
    let [high, low] = (text.len() as u16).to_be_bytes();
    [
        header_flag(header) + tag_flag(tag_len) + 1,
        nonce[0],
        nonce[1],
        nonce[2],
        nonce[3],
        nonce[4],
        nonce[5],
        nonce[6],
        nonce[7],
        nonce[8],
        nonce[9],
        nonce[10],
        nonce[11],
        nonce[12],
        high,
        low,
    ]
}

/// Takes the blocks of the header into `x`: its length, the header, and zeros; none for an empty header (section 2.2).
fn absorb_header(aes: &Aes, x: &mut [u8; 16], header: &[u8])
    requires { length header.now < 65280 }
    ensures { x.new ≡ chained_all aes.now x.old (ccm_header_blocks header.now) }
{
    if header.is_empty() {
        return;
    }
    let [high, low] = (header.len() as u16).to_be_bytes();
    let mut block = [0; 16];
    block[0] = high;
    block[1] = low;
    let count = header.len().min(14);
    block[2..2 + count].copy_from_slice(&header[..count]);
    let next = aes.encrypt_block(&xor_blocks(x, &block));
    *x = next;
    absorb(aes, x, &header[count..]);
}

/// The tag for `tag_len` octets before it is cut to them: the CBC-MAC with S_0 added (section 2.3). `text` is the plain text.
fn whole_tag(aes: &Aes, nonce: &[u8; 13], header: &[u8], text: &[u8], tag_len: usize) -> [u8; 16]
    requires header { length header.now < 65280 }
    requires text { length text.now < 65536 }
    requires tag { (tag_len ≡ 4) ⊎ (tag_len ≡ 8) }
    ensures { take tag_len result ≡ ccm_tag tag_len aes.now nonce.now header.now text.now }
{
    let mut x = aes.encrypt_block(&first_block(nonce, header, text, tag_len));
    absorb_header(aes, &mut x, header);
    absorb(aes, &mut x, text);
    xor_blocks(&x, &aes.encrypt_block(&counter(nonce, 0)))
}

/// Encrypts `text` in place. Returns the tag of the plain text, as [`whole_tag`] does.
fn sealed_tag(
    aes: &Aes,
    nonce: &[u8; 13],
    header: &[u8],
    text: &mut [u8],
    tag_len: usize,
) -> [u8; 16]
    requires header { length header.now < 65280 }
    requires text { length text.old < 65536 }
    requires tag { (tag_len ≡ 4) ⊎ (tag_len ≡ 8) }
    ensures text { text.new ≡ ccm_text aes.now nonce.now text.old }
    ensures tag { take tag_len result ≡ ccm_tag tag_len aes.now nonce.now header.now text.old }
{
    if !Aes::MAKES_PAIRS {
        let whole = whole_tag(aes, nonce, header, text, tag_len);
        ccm_mask(aes, nonce, text);
        return whole;
    }
    let (begun, first) = aes.encrypt_two(
        &first_block(nonce, header, text, tag_len),
        &counter(nonce, 0),
    );
    let mut x = begun;
    absorb_header(aes, &mut x, header);
    chain_and_encrypt(aes, nonce, &mut x, text);
    xor_blocks(&x, &first)
}

/// Encrypts `text` in place, and fills `tag` with the tag of the nonce, the header and the plain text.
///
/// The header has fewer than 65,280 octets and is authenticated and not encrypted; the text has at most 65,535; the tag
/// has 4 or 8. A nonce may serve once under a key.
pub fn ccm_seal(aes: &Aes, nonce: &[u8; 13], header: &[u8], text: &mut [u8], tag: &mut [u8])
    requires header { length header.now < 65280 }
    requires text { length text.old < 65536 }
    requires tag { (length tag.old ≡ 4) ⊎ (length tag.old ≡ 8) }
    ensures text { text.new ≡ ccm_text aes.now nonce.now text.old }
    ensures tag { tag.new ≡ ccm_tag (length tag.old) aes.now nonce.now header.now text.old }
{
    let tag_len = tag.len();
    let whole = sealed_tag(aes, nonce, header, text, tag_len);
    tag.copy_from_slice(&whole[..tag_len]);
}

/// Decrypts `text` in place. Returns the tag of the plain text, as [`whole_tag`] does.
fn opened_tag(
    aes: &Aes,
    nonce: &[u8; 13],
    header: &[u8],
    text: &mut [u8],
    tag_len: usize,
) -> [u8; 16]
    requires header { length header.now < 65280 }
    requires text { length text.old < 65536 }
    requires tag { (tag_len ≡ 4) ⊎ (tag_len ≡ 8) }
    ensures text { text.new ≡ ccm_text aes.now nonce.now text.old }
    ensures tag { take tag_len result ≡ ccm_tag tag_len aes.now nonce.now header.now text.new }
{
    if !Aes::MAKES_PAIRS {
        ccm_mask(aes, nonce, text);
        return whole_tag(aes, nonce, header, text, tag_len);
    }
    let (begun, stream) = aes.encrypt_two(
        &first_block(nonce, header, text, tag_len),
        &counter(nonce, 1),
    );
    let mut x = begun;
    absorb_header(aes, &mut x, header);
    let first = decrypt_and_chain(aes, nonce, &mut x, &stream, text);
    xor_blocks(&x, &first)
}

/// Whether `whole` begins with `tag`. All octets of `tag` are compared, wherever they differ first.
#[inline(always)]
fn is_tag(whole: &[u8; 16], tag: &[u8]) -> bool
    requires { length tag.now ≤ 16 }
    ensures { IsTrue result ↔ (tag.now ≡ take (length tag.now) whole.now) }
{
    let front = padded_block(&whole[..tag.len()], 0);
    let given = padded_block(tag, 0);
    is_same(&front, &given)
}

/// Decrypts `text` in place.
///
/// The lengths are those of [`ccm_seal`]. [`BadTag`] comes exactly where `tag` is not the tag of the nonce, the header and
/// the decrypted text. The text is unchanged then.
pub fn ccm_open(
    aes: &Aes,
    nonce: &[u8; 13],
    header: &[u8],
    text: &mut [u8],
    tag: &[u8],
) -> Result<(), BadTag>
    requires header { length header.now < 65280 }
    requires text { length text.old < 65536 }
    requires tag { (length tag.now ≡ 4) ⊎ (length tag.now ≡ 8) }
    ensures tag { IsOk result
        ↔ (tag.now ≡ ccm_tag (length tag.now) aes.now nonce.now header.now (ccm_text aes.now nonce.now text.old)) }
    ensures opened { OnOk result (text.new ≡ ccm_text aes.now nonce.now text.old) }
    ensures unchanged { OnErr result (text.new ≡ text.old) }
{
    let whole = opened_tag(aes, nonce, header, text, tag.len());
    if !is_tag(&whole, tag) {
        ccm_mask(aes, nonce, text);
        return Err(BadTag);
    }
    Ok(())
}
