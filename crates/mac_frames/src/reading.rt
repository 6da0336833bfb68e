//! Reads frames.
ghost use Rattle.std.specs.Prelude.{◌≡◌, ◌≤◌, ◌<◌, ◌+◌, ◌∷◌, ◌++◌, ℕ, List, true, false, length, take, IfOk, IsOkAnd, MatchResult, Some};
ghost use Rattle.std.specs.Prelude.{None, Ok};
ghost use Rattle.byteorder.specs.Endian.{little_bytes};
ghost use Rattle.plc_base.specs.Fields.{after};
ghost use Rattle.plc_base.specs.Addresses.{IsAddress};
ghost use Rattle.plc_base.specs.Faults.{ReadsUnless};
ghost use Rattle.mac_frames.specs.Reader.{head_in, body_in};
ghost use Rattle.mac_frames.specs.Grammar.{Frame, IsBody, IsHead, IsTarget, header, header_then, high_control, low_control};
ghost use Rattle.mac_frames.specs.Faults.{down_fault, fields_fault, frame_fault, index_fault, level_fault, sealed_fault, sender_fault, target_fault, up_fault};
ghost use Rattle.mac_frames.specs.declared.head.MacHead.{MacHead};

use crate::control::{FrameKind, high_of, low_of};
use crate::fault::{FrameFault, FrameFaultKind};
use crate::head::MacHead;
use plc_base::{
    Destination, Eui, Fault, KeyIndex, LONGEST_FRAME, Short, little_four_at, little_two_at,
    octet_at, reversed_at,
};

/// A frame that was read, over the octets that it was read from.
#[derive(Clone, Copy, Debug)]
pub struct RawFrame<'a> {
    /// The fields of the header.
    pub head: MacHead,
    /// The octets of the header: all before the body.
    pub header: &'a [u8],
    /// The octets of the body. Of a sealed frame: the encrypted payload, and a tag of 4 octets.
    pub body: &'a [u8],
}

#[tactic(auto, unfolding(crate::specs::Faults::target_fault, plc_base::specs::Faults::cut_off))]
fn target_at(octets: &[u8], at: usize) -> Result<Destination, FrameFault>
    requires { at ≤ 100 }
    ensures { ReadsUnless (target_fault at octets.now) result
        (λ x. IsTarget x × (at + 2 ≤ length octets.now)
        × (after at octets.now ≡ little_bytes 2 x ++ after (at + 2) octets.now)) }
{
    match Destination::new(little_two_at(octets, at)?) {
        None => Err(Fault::at(FrameFaultKind::Address, at)),
        Some(to) => Ok(to),
    }
}

#[tactic(auto, unfolding(crate::specs::Faults::sender_fault, plc_base::specs::Faults::cut_off))]
fn sender_at(octets: &[u8], at: usize) -> Result<Short, FrameFault>
    requires { at ≤ 100 }
    ensures { ReadsUnless (sender_fault at octets.now) result
        (λ x. IsAddress x × (at + 2 ≤ length octets.now)
        × (after at octets.now ≡ little_bytes 2 x ++ after (at + 2) octets.now)) }
{
    match Short::new(little_two_at(octets, at)?) {
        None => Err(Fault::at(FrameFaultKind::Address, at)),
        Some(from) => Ok(from),
    }
}

// The security control: level 5 and key identifier mode 1.
#[tactic(auto, unfolding(crate::specs::Faults::level_fault, plc_base::specs::Faults::cut_off))]
fn level_at(octets: &[u8], at: usize) -> Result<(), FrameFault>
    requires { at ≤ 100 }
    ensures { ReadsUnless (level_fault at octets.now) result
        (λ _. (at + 1 ≤ length octets.now) × (after at octets.now ≡ 0x0D ∷ after (at + 1) octets.now)) }
{
    if octet_at(octets, at)? != 0x0D {
        return Err(Fault::at(FrameFaultKind::Level, at));
    }
    Ok(())
}

#[tactic(auto, unfolding(crate::specs::Faults::index_fault, plc_base::specs::Faults::cut_off))]
fn index_at(octets: &[u8], at: usize) -> Result<KeyIndex, FrameFault>
    requires { at ≤ 100 }
    ensures { ReadsUnless (index_fault at octets.now) result
        (λ x. (x ≤ 1) × (at + 1 ≤ length octets.now)
        × (after at octets.now ≡ x ∷ after (at + 1) octets.now)) }
{
    match KeyIndex::new(octet_at(octets, at)?) {
        None => Err(Fault::at(FrameFaultKind::Level, at)),
        Some(index) => Ok(index),
    }
}

// The head of a sealed frame, after its PAN id, where a tag follows it.
#[tactic(auto, unfolding(crate::specs::Faults::sealed_fault, plc_base::specs::Faults::cut_off))]
fn sealed_of(octets: &[u8], ack: bool, seq: u8, pan: u16) -> Result<MacHead, FrameFault>
    requires { octets.now ≡ low_control true ack ∷ high_control 2 1 2 ∷ seq ∷ little_bytes 2 pan ++ after 5 octets.now }
    ensures { ReadsUnless (sealed_fault octets.now) result
        (λ head. IsHead head × (19 ≤ length octets.now) × (octets.now ≡ header_then head (after 15 octets.now))
        × IsBody head (after 15 octets.now)) }
{
    let to = target_at(octets, 5)?;
    let from = sender_at(octets, 7)?;
    level_at(octets, 9)?;
    let counter = little_four_at(octets, 10)?;
    let index = index_at(octets, 14)?;
    if octets.len() < 19 {
        return Err(Fault::at(FrameFaultKind::Short, octets.len()));
    }
    Ok(MacHead::Sealed {
        ack,
        seq,
        pan,
        to,
        from,
        counter,
        index,
    })
}

// The head of a plain frame from a device without a short address, after its PAN id.
#[tactic(auto, unfolding(crate::specs::Faults::up_fault, plc_base::specs::Faults::cut_off))]
fn up_of(octets: &[u8], ack: bool, version: u8, seq: u8, pan: u16) -> Result<MacHead, FrameFault>
    requires version { version ≤ 1 }
    requires there { octets.now
        ≡ low_control false ack ∷ high_control 2 version 3 ∷ seq ∷ little_bytes 2 pan ++ after 5 octets.now }
    ensures { ReadsUnless (up_fault octets.now) result
        (λ head. IsHead head × (15 ≤ length octets.now) × (octets.now ≡ header_then head (after 15 octets.now))
        × IsBody head (after 15 octets.now)) }
{
    let to = target_at(octets, 5)?;
    let from = Eui(reversed_at(octets, 7)?);
    Ok(MacHead::Up {
        ack,
        version,
        seq,
        pan,
        to,
        from,
    })
}

// The head of a plain frame to a device without a short address, after its PAN id.
#[tactic(auto, unfolding(crate::specs::Faults::down_fault, plc_base::specs::Faults::cut_off))]
fn down_of(octets: &[u8], ack: bool, version: u8, seq: u8, pan: u16) -> Result<MacHead, FrameFault>
    requires version { version ≤ 1 }
    requires there { octets.now
        ≡ low_control false ack ∷ high_control 3 version 2 ∷ seq ∷ little_bytes 2 pan ++ after 5 octets.now }
    ensures { ReadsUnless (down_fault octets.now) result
        (λ head. IsHead head × (15 ≤ length octets.now) × (octets.now ≡ header_then head (after 15 octets.now))
        × IsBody head (after 15 octets.now)) }
{
    let to = Eui(reversed_at(octets, 5)?);
    let from = sender_at(octets, 13)?;
    Ok(MacHead::Down {
        ack,
        version,
        seq,
        pan,
        to,
        from,
    })
}

// The head, or the first fault of a field.
#[tactic(auto, unfolding(crate::specs::Faults::fields_fault, plc_base::specs::Faults::cut_off))]
fn head_of(octets: &[u8]) -> Result<MacHead, FrameFault>
    ensures { ReadsUnless (fields_fault octets.now) result
        (λ head. IsHead head × (15 ≤ length octets.now) × (octets.now ≡ header_then head (after 15 octets.now))
        × IsBody head (after 15 octets.now)) }
{
    let (sealed, ack) = low_of(octets)?;
    let (kind, version) = high_of(octets, sealed)?;
    let seq = octet_at(octets, 2)?;
    let pan = little_two_at(octets, 3)?;
    match kind {
        FrameKind::Sealed => sealed_of(octets, ack, seq, pan),
        FrameKind::Up => up_of(octets, ack, version, seq, pan),
        FrameKind::Down => down_of(octets, ack, version, seq, pan),
    }
}

// The frame that the octets are, or the first fault.
fn frame_of<'a>(octets: &'a [u8]) -> Result<RawFrame<'a>, FrameFault>
    ensures found { IfOk result (λ raw. Frame raw.head raw.body.now octets.now) }
    ensures parts { IfOk result
        (λ raw. (raw.header.now ≡ header raw.head) × (octets.now ≡ raw.header.now ++ raw.body.now)) }
    ensures front { IfOk result (λ raw. raw.header.now ≡ take 15 octets.now) }
    ensures exact { MatchResult result (λ raw. frame_fault octets.now ≡ None) (λ e. frame_fault octets.now ≡ Some e) }
{
    if octets.len() > LONGEST_FRAME {
        return Err(Fault::at(FrameFaultKind::Long, LONGEST_FRAME));
    }
    let head = head_of(octets)?;
    let (header, body) = octets.split_at(15);
    Ok(RawFrame { head, header, body })
}

/// The frame that the octets are, all of them. Where they are none, the first fault, with its place.
pub fn read_frame<'a>(octets: &'a [u8]) -> Result<RawFrame<'a>, FrameFault>
    // What is read is spelled so.
    ensures found { IfOk result (λ raw. Frame raw.head raw.body.now octets.now) }
    // It is what stands at the places of its fields.
    ensures places { IfOk result (λ raw. (raw.head ≡ head_in octets.now) × (raw.body.now ≡ body_in octets.now)) }
    // The header and the body are the two parts of the octets.
    ensures parts { IfOk result
        (λ raw. (raw.header.now ≡ header raw.head) × (octets.now ≡ raw.header.now ++ raw.body.now)) }
    ensures front { IfOk result (λ raw. raw.header.now ≡ take 15 octets.now) }
    // A fault is the first one.
    ensures exact { MatchResult result (λ raw. frame_fault octets.now ≡ None) (λ e. frame_fault octets.now ≡ Some e) }
    // What is spelled so is read.
    ensures only { (head : MacHead) (body : List ℕ) → Frame head body octets.now
        → IsOkAnd result (λ raw. (raw.head ≡ head) × (raw.body.now ≡ body)) }
    // A spelling is of one value.
    ensures one_value { (a b : MacHead) (x y : List ℕ)
        → Frame a x octets.now → Frame b y octets.now → (a ≡ b) × (x ≡ y) }
{
    frame_of(octets)
}
