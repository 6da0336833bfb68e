//! Reads the head of a frame.
ghost use Rattle.std.specs.Prelude.{◌≡◌, ◌≢◌};
ghost use Rattle.mac_frames.specs.Faults.{frame_fault};
ghost use Rattle.mac_frames.specs.Grammar.{Frame};
ghost use Rattle.mac_frames.specs.Reader.{body_in, head_in};
ghost use Rattle.frames_c.specs.Exports.{read_place, read_status};
ghost use Rattle.frames_c.specs.Heads.{c_head};

use crate::head::{FramesHead, fields_of};
use crate::refusal::fault_number;
use mac_frames::read_frame;

/// Reads the head of the frame that the octets are, of any kind. Its header has 15 octets, the body is what follows them; that of a sealed
/// frame is the encrypted payload and a tag of 4 octets.
///
/// 0, and `place` is 0; or the number of what is wrong first from the left ([`fault_number`](crate::refusal::fault_number)), and `place` says at
/// which octet, from 0. `head` is as it was then.
#[unsafe(no_mangle)]
pub extern "C" fn frames_read(frame: &[u8], head: &mut FramesHead, place: &mut u32) -> u32
    ensures status { result ≡ read_status (frame_fault frame.now) }
    ensures place { place.new ≡ read_place (frame_fault frame.now) }
    ensures read { result ≡ 0 → head.new ≡ c_head (head_in frame.now) }
    ensures frame { result ≡ 0 → Frame (head_in frame.now) (body_in frame.now) frame.now }
    ensures refused { result ≢ 0 → head.new ≡ head.old }
{
    match read_frame(frame) {
        Ok(raw) => {
            *head = fields_of(&raw.head);
            *place = 0;
            0
        }
        Err(fault) => {
            *place = u32::from(fault.place);
            fault_number(fault.kind)
        }
    }
}
