//! Seals and opens frames.
ghost use Rattle.std.specs.Prelude.{◌≡◌, ◌≤◌, ◌↔◌, ◌++◌, ℕ, List, [], length, take, drop, IsOk, OnOk, OnErr, MatchResult, Some, None};
ghost use Rattle.aes_modes.specs.Ccm.{ccm_tag, ccm_text};
ghost use Rattle.mac_frames.specs.Grammar.{Frame, IsAllowed, IsHead, IsSealed, header};
ghost use Rattle.mac_frames.specs.SealedFrames.{HasTag, SealedFrame, nonce, nonce_of, opened_in, payload_in};
ghost use Rattle.plc_base.specs.declared.limits.TheConstants.{LONGEST_FRAME};

use crate::head::MacHead;
use crate::reading::RawFrame;
use crate::writing::write_header;
use aes_modes::{Aes, BadTag, ccm_mask, ccm_open, ccm_seal};
use plc_base::{FrameBuf, Short, four_octets, two_octets};

// How many octets a tag has.
const TAG: usize = 4;

// How many octets a header has.
const HEADER: usize = 15;

// The nonce: the extended address that the PAN id and the short address make, the frame counter, the security level.
fn nonce(pan: u16, from: Short, counter: u32) -> [u8; 13]
    ensures { result ≡ nonce pan from counter }
{
    let [p0, p1] = two_octets(pan);
    let [s0, s1] = two_octets(from.number());
    let [c0, c1, c2, c3] = four_octets(counter);
    [p0, p1, 0x00, 0xFF, 0xFE, 0x00, s0, s1, c0, c1, c2, c3, 0x05]
}

// The nonce of a sealed head.
fn nonce_of(head: &MacHead) -> [u8; 13]
    requires { IsSealed head.now }
    ensures { result ≡ nonce_of head.now }
{
    match head {
        MacHead::Sealed {
            pan,
            from,
            counter,
            ..
        } => nonce(*pan, *from, *counter),
        _ => unreachable!(),
    }
}

/// Seals a payload: writes the frame of a head `Sealed`, which replaces what `out` held.
///
/// The body is the payload, encrypted, and a tag of 4 octets: CCM* under the key of `aes`, with all octets before the body as
/// its header. A short target is not FFFE, the key index is 0 or 1, and the payload has at most 381 octets. A frame counter may
/// serve once for a sender under a key.
pub fn seal_frame(aes: &Aes, head: &MacHead, payload: &[u8], out: &mut FrameBuf)
    requires sealed { IsSealed head.now }
    requires allowed { IsAllowed head.now }
    requires room { length payload.now ≤ 381 }
    ensures frame { SealedFrame head.now aes.now payload.now out.new }
    // A sealed payload has one spelling.
    ensures one_spelling { (octets : List ℕ) → SealedFrame head.now aes.now payload.now octets → octets ≡ out.new }
{
    write_header(head, out);
    out.append(payload);
    seal_written(aes, head, out);
}

/// Seals a frame in place, whose payload stands in the clear after the header of a head `Sealed`.
///
/// So a payload is spelled right after what [`write_header`] writes, and not copied. What it has to be, and what a frame counter
/// may serve for, is as for [`seal_frame`].
pub fn seal_written(aes: &Aes, head: &MacHead, out: &mut FrameBuf)
    requires sealed { IsSealed head.now }
    requires fields { IsHead head.now }
    requires header { take 15 out.old ≡ header head.now }
    requires room { length out.old ≤ 396 }
    ensures { SealedFrame head.now aes.now (drop 15 out.old) out.new }
{
    let mut tag = [0; TAG];
    seal_tail(aes, &nonce_of(head), out, &mut tag);
    out.append(&tag);
}

// Encrypts what stands after a header, in place, and makes the tag of both.
fn seal_tail(aes: &Aes, nonce: &[u8; 13], out: &mut FrameBuf, tag: &mut [u8; 4])
    requires { 15 ≤ length out.old }
    ensures text { out.new ≡ take 15 out.old ++ ccm_text aes.now nonce.now (drop 15 out.old) }
    ensures tag { tag.new ≡ ccm_tag 4 aes.now nonce.now (take 15 out.old) (drop 15 out.old) }
{
    let (header, text) = out.octets_mut().split_at_mut(HEADER);
    ccm_seal(aes, nonce, header, text, tag);
}

// Opens an encrypted payload: what it is replaces what `out` held, and nothing does where the tag is another.
fn open_text(
    aes: &Aes,
    nonce: &[u8; 13],
    header: &[u8],
    sealed: &[u8],
    tag: &[u8],
    out: &mut FrameBuf,
) -> Result<(), BadTag>
    requires header { length header.now ≤ LONGEST_FRAME }
    requires sealed { length sealed.now ≤ 381 }
    requires tag { length tag.now ≡ 4 }
    ensures tag { IsOk result
        ↔ (tag.now ≡ ccm_tag 4 aes.now nonce.now header.now (ccm_text aes.now nonce.now sealed.now)) }
    ensures opened { OnOk result (out.new ≡ ccm_text aes.now nonce.now sealed.now) }
    ensures bad_tag { OnErr result (out.new ≡ []) }
    ensures fits { length out.new ≤ 381 }
{
    out.clear();
    out.append(sealed);
    if let Err(bad) = ccm_open(aes, nonce, header, out.octets_mut(), tag) {
        out.clear();
        return Err(bad);
    }
    Ok(())
}

/// Opens a sealed frame that was read: its payload replaces what `out` held.
///
/// [`BadTag`] comes exactly where the tag is not that of the key of `aes`, the header and the payload. `out` is empty then.
pub fn open_frame(aes: &Aes, raw: &RawFrame<'_>, out: &mut FrameBuf) -> Result<(), BadTag>
    requires sealed { IsSealed raw.now.head }
    requires frame { Frame raw.now.head raw.now.body.now (raw.now.header.now ++ raw.now.body.now) }
    // It opens exactly where the tag is right.
    ensures tag { IsOk result ↔ HasTag aes.now raw.now.head raw.now.header.now raw.now.body.now }
    ensures payload { OnOk result (out.new ≡ payload_in aes.now raw.now.head raw.now.body.now) }
    // What opens was sealed so.
    ensures opened { OnOk result (SealedFrame raw.now.head aes.now out.new (raw.now.header.now ++ raw.now.body.now)) }
    // What was sealed so opens.
    ensures only { (payload : List ℕ)
        → SealedFrame raw.now.head aes.now payload (raw.now.header.now ++ raw.now.body.now)
        → IsOk result × (out.new ≡ payload) }
    ensures bad_tag { OnErr result (out.new ≡ []) }
    // It is the payload that the key opens, if it opens one.
    ensures exact { MatchResult result
        (λ _. opened_in aes.now raw.now.head raw.now.header.now raw.now.body.now ≡ Some out.new)
        (λ _. opened_in aes.now raw.now.head raw.now.header.now raw.now.body.now ≡ None) }
    ensures fits { length out.new ≤ 381 }
{
    let (sealed, tag) = raw.body.split_at(raw.body.len() - TAG);
    open_text(aes, &nonce_of(&raw.head), raw.header, sealed, tag, out)
}

// Decrypts a payload: what it is replaces what `out` held.
fn decrypt_text(aes: &Aes, nonce: &[u8; 13], sealed: &[u8], out: &mut FrameBuf)
    requires { length sealed.now ≤ 381 }
    ensures text { out.new ≡ ccm_text aes.now nonce.now sealed.now }
    ensures fits { length out.new ≤ 381 }
{
    out.clear();
    out.append(sealed);
    ccm_mask(aes, nonce, out.octets_mut());
}

/// Decrypts the payload of a sealed frame that was read, without a look at its tag: it replaces what `out` held.
///
/// It is half the work of [`open_frame`], for whoever knows that the frame was sealed under the key of `aes`, as a program that looks at a run of its
/// own. What a node hears is opened by [`open_frame`] alone: nothing is known of a payload before its tag was found right.
pub fn decrypt_payload(aes: &Aes, raw: &RawFrame<'_>, out: &mut FrameBuf)
    requires sealed { IsSealed raw.now.head }
    requires frame { Frame raw.now.head raw.now.body.now (raw.now.header.now ++ raw.now.body.now) }
    ensures payload { out.new ≡ payload_in aes.now raw.now.head raw.now.body.now }
    // Of what was sealed so it is the payload.
    ensures only { (payload : List ℕ)
        → SealedFrame raw.now.head aes.now payload (raw.now.header.now ++ raw.now.body.now) → out.new ≡ payload }
    ensures fits { length out.new ≤ 381 }
{
    let (sealed, _) = raw.body.split_at(raw.body.len() - TAG);
    decrypt_text(aes, &nonce_of(&raw.head), sealed, out);
}
