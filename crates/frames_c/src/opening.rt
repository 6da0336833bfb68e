//! Opens a sealed frame.
ghost use Rattle.std.specs.Prelude.{◌≡◌, ◌≢◌, ◌+◌, ◌++◌, length, take, drop, None, Some, OnErr, MatchOption, MatchResult, IfOk, IfSome, true, false};
ghost use Rattle.mac_frames.specs.Grammar.{Frame, IsSealed};
ghost use Rattle.mac_frames.specs.Reader.{body_in, head_in};
ghost use Rattle.mac_frames.specs.SealedFrames.{SealedFrame};
ghost use Rattle.frames_c.specs.Exports.{is_sealed_frame, open_refusal, status_of};

use crate::copying::write_front;
use crate::key::schedule_of;
use crate::refusal::Refusal;
use crate::sealing::AROUND;
use mac_frames::{MacHead, RawFrame, open_frame, read_frame};
use plc_base::FrameBuf;

// The sealed frame that the octets are.
#[tactic(auto, unfolding(crate::specs::Exports::is_sealed_frame, mac_frames::specs::Reader::head_in))]
fn sealed_frame<'a>(frame: &'a [u8]) -> Option<RawFrame<'a>>
    ensures exact { MatchOption result (is_sealed_frame frame.now ≡ false) (λ _. is_sealed_frame frame.now ≡ true) }
    ensures sealed { IfSome result (λ raw. IsSealed raw.head) }
    ensures frame { IfSome result (λ raw. Frame raw.head raw.body.now (raw.header.now ++ raw.body.now)) }
    ensures places { IfSome result (λ raw. (raw.head ≡ head_in frame.now) × (raw.body.now ≡ body_in frame.now)
        × (raw.header.now ≡ take 15 frame.now) × (frame.now ≡ raw.header.now ++ raw.body.now)) }
{
    match read_frame(frame) {
        Ok(raw) => match raw.head {
            MacHead::Sealed { .. } => Some(raw),
            _ => None,
        },
        Err(_) => None,
    }
}

// Writes the payload of a sealed frame to `payload`, and answers its length.
#[tactic(auto, unfolding(crate::specs::Exports::open_refusal))]
fn open(key: &[u8], frame: &[u8], payload: &mut [u8]) -> Result<usize, Refusal>
    ensures exact { MatchResult result (λ _. open_refusal key.now frame.now (length payload.old) ≡ None)
        (λ e. open_refusal key.now frame.now (length payload.old) ≡ Some e) }
    ensures opened { IfOk result (λ n. SealedFrame (head_in frame.now) key.now (take n payload.new) frame.now) }
    ensures size { IfOk result (λ n. n + 19 ≡ length frame.now) }
    ensures rest { IfOk result (λ n. drop n payload.new ≡ drop n payload.old) }
    ensures refused { OnErr result (payload.new ≡ payload.old) }
{
    let Some(aes) = schedule_of(key) else {
        return Err(Refusal::Key);
    };
    let Some(raw) = sealed_frame(frame) else {
        return Err(Refusal::NotSealed);
    };
    if payload.len() + AROUND < frame.len() {
        return Err(Refusal::Room);
    }
    let mut text = FrameBuf::new();
    if open_frame(&aes, &raw, &mut text).is_err() {
        return Err(Refusal::Tag);
    }
    write_front(payload, text.octets());
    Ok(text.len())
}

/// Opens a sealed frame under a key of 16 octets: writes its payload, 19 octets shorter than the frame, to the start of `payload`, and its length
/// to `written` (IEEE 802.15.4-2006, section 7.6.3).
///
/// 0, or a number of [`Refusal`]: Key, NotSealed, Room, Tag, the first of them in this order. `payload` is as it was then, and `written` is 0.
/// [`frames_read`](crate::frames_read) says what is wrong with octets that are no sealed frame.
#[unsafe(no_mangle)]
pub extern "C" fn frames_open(
    key: &[u8],
    frame: &[u8],
    payload: &mut [u8],
    written: &mut usize,
) -> u32
    ensures status { result ≡ status_of (open_refusal key.now frame.now (length payload.old)) }
    ensures opened { result ≡ 0 → SealedFrame (head_in frame.now) key.now (take written.new payload.new) frame.now }
    ensures size { result ≡ 0 → written.new + 19 ≡ length frame.now }
    ensures rest { drop written.new payload.new ≡ drop written.new payload.old }
    ensures refused { result ≢ 0 → written.new ≡ 0 }
{
    match open(key, frame, payload) {
        Ok(opened) => {
            *written = opened;
            0
        }
        Err(refusal) => {
            *written = 0;
            refusal.number()
        }
    }
}
