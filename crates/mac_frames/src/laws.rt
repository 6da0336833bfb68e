//! Laws of frames: what was sealed opens, and is what it was; frames of octets seal and open to octets.
//!
//! The functions without arguments do nothing: each states a law over the definitions as its contract.
ghost use Rattle.std.specs.Prelude.{◌≡◌, ◌≤◌, length, IsOk};
ghost use Rattle.mac_frames.specs.Grammar.{IsAllowed, IsSealed};
ghost use Rattle.mac_frames.specs.Laws.{BodiesAreOctets, FramesAreRead, HeadersAreOctets, OpenedPayloadsAreOctets, PlainHeadsAreNotSealed};
ghost use Rattle.mac_frames.specs.Laws.{ReadNoncesAreInRange, SealedBodiesAreLonger, SealedBodiesAreOctets, SealedBodiesOpen, SealedHeadsSayTheirNonces};

use crate::head::MacHead;
use crate::reading::read_frame;
use crate::sealing::{open_frame, seal_frame};
use aes_modes::{Aes, BadTag};
use plc_base::FrameBuf;

/// Seals a payload, reads the frame and opens it: it opens, and the payload is what it was.
pub fn seal_and_open(
    aes: &Aes,
    head: &MacHead,
    payload: &[u8],
    out: &mut FrameBuf,
) -> Result<(), BadTag>
    requires sealed { IsSealed head.now }
    requires allowed { IsAllowed head.now }
    requires room { length payload.now ≤ 381 }
    ensures opened { IsOk result }
    ensures same { out.new ≡ payload.now }
{
    let mut frame = FrameBuf::new();
    seal_frame(aes, head, payload, &mut frame);
    match read_frame(frame.octets()) {
        Ok(raw) => open_frame(aes, &raw, out),
        Err(_) => unreachable!(),
    }
}

/// The header of a head of octets is octets.
pub fn headers_are_octets()
    ensures { HeadersAreOctets }
{}

/// Under a key of octets a payload of octets is sealed to octets.
pub fn sealed_bodies_are_octets()
    ensures { SealedBodiesAreOctets }
{}

/// The body of a frame in octets is octets, and so is what a key of octets opens of it.
pub fn opened_payloads_are_octets()
    ensures body { BodiesAreOctets }
    ensures payload { OpenedPayloadsAreOctets }
{}

/// What a key sealed under a head, the same key opens under this head; a sealed body is four octets longer than
/// its payload.
pub fn sealed_bodies_open()
    ensures opens { SealedBodiesOpen }
    ensures longer { SealedBodiesAreLonger }
{}

/// The head and the body of a frame are read out of its octets, which have no fault.
pub fn frames_are_read()
    ensures { FramesAreRead }
{}

/// The sender and the counter of a sealed head stand at their places, whatever its other fields are; a plain head is not taken for a
/// sealed one; and what a sealed head says of them is in range where the octets have no fault.
pub fn heads_say_their_nonces()
    ensures sealed { SealedHeadsSayTheirNonces }
    ensures plain { PlainHeadsAreNotSealed }
    ensures range { ReadNoncesAreInRange }
{}
