//! Seals a payload.
ghost use Rattle.std.specs.Prelude.{◌≡◌, ◌≢◌, ◌+◌, length, take, drop, None, Some, OnErr, MatchResult, IfOk};
ghost use Rattle.mac_frames.specs.SealedFrames.{SealedFrame};
ghost use Rattle.frames_c.specs.Exports.{seal_refusal, status_of};
ghost use Rattle.frames_c.specs.Heads.{mac_head};

use crate::copying::write_front;
use crate::head::{FramesHead, sealed_head};
use crate::key::schedule_of;
use crate::refusal::Refusal;
use mac_frames::seal_frame;
use plc_base::FrameBuf;

/// How many octets the header and the tag of a sealed frame have.
pub const AROUND: usize = 19;

// The longest payload of a sealed frame.
const LONGEST_PAYLOAD: usize = 381;

// Writes the sealed frame of a payload to `out`, and answers its length.
#[tactic(auto, unfolding(crate::specs::Exports::seal_refusal))]
fn seal(key: &[u8], head: &FramesHead, payload: &[u8], out: &mut [u8]) -> Result<usize, Refusal>
    ensures exact { MatchResult result (λ _. seal_refusal key.now head.now payload.now (length out.old) ≡ None)
        (λ e. seal_refusal key.now head.now payload.now (length out.old) ≡ Some e) }
    ensures sealed { IfOk result (λ n. SealedFrame (mac_head head.now) key.now payload.now (take n out.new)) }
    ensures size { IfOk result (λ n. n ≡ length payload.now + 19) }
    ensures rest { IfOk result (λ n. drop n out.new ≡ drop n out.old) }
    ensures refused { OnErr result (out.new ≡ out.old) }
{
    let Some(aes) = schedule_of(key) else {
        return Err(Refusal::Key);
    };
    let Some(head) = sealed_head(head) else {
        return Err(Refusal::Head);
    };
    if payload.len() > LONGEST_PAYLOAD {
        return Err(Refusal::Payload);
    }
    if out.len() < payload.len() + AROUND {
        return Err(Refusal::Room);
    }
    let mut frame = FrameBuf::new();
    seal_frame(&aes, &head, payload, &mut frame);
    write_front(out, frame.octets());
    Ok(frame.len())
}

/// Seals a payload of at most 381 octets under a key of 16: writes the frame of the head, 19 octets longer than the payload, to the start of
/// `out`, and its length to `written` (IEEE 802.15.4-2006, section 7.6.3: CCM* with a tag of 4 octets, security level 5).
///
/// 0, or a number of [`Refusal`]: Key, Head, Payload, Room, the first of them in this order. `out` is as it was then, and `written` is 0. A frame
/// counter may serve once for a sender under a key.
#[unsafe(no_mangle)]
pub extern "C" fn frames_seal(
    key: &[u8],
    head: &FramesHead,
    payload: &[u8],
    out: &mut [u8],
    written: &mut usize,
) -> u32
    ensures status { result ≡ status_of (seal_refusal key.now head.now payload.now (length out.old)) }
    ensures sealed { result ≡ 0 → SealedFrame (mac_head head.now) key.now payload.now (take written.new out.new) }
    ensures size { result ≡ 0 → written.new ≡ length payload.now + 19 }
    ensures rest { drop written.new out.new ≡ drop written.new out.old }
    ensures refused { result ≢ 0 → written.new ≡ 0 }
{
    match seal(key, head, payload, out) {
        Ok(sealed) => {
            *written = sealed;
            0
        }
        Err(refusal) => {
            *written = 0;
            refusal.number()
        }
    }
}
