//! The head of a frame as a struct of numbers.
ghost use Rattle.std.specs.Prelude.{◌≡◌, MatchOption, true, false};
ghost use Rattle.frames_c.specs.Heads.{is_sealed_head, mac_head, c_head};
ghost use Rattle.mac_frames.specs.Grammar.{IsAllowed, IsSealed};

use mac_frames::MacHead;
use plc_base::{Destination, KeyIndex, Short};

/// The head of a frame (IEEE 802.15.4-2006, section 7.2), of any kind.
#[repr(C)]
#[derive(Clone, Copy, Debug, PartialEq, Eq)]
pub struct FramesHead {
    /// The EUI-64 of the device without a short address, the first octet of its text highest: the sender of kind 1, the target of kind 2. 0 in kind 0.
    pub device: u64,
    /// The frame counter of kind 0. 0 in the others.
    pub counter: u32,
    /// The identifier of the network.
    pub pan: u16,
    /// The target's short address, FFFF for all; 0 in kind 2, whose target is `device`.
    pub to: u16,
    /// The sender's short address; 0 in kind 1, whose sender is `device`.
    pub from: u16,
    /// The kind: 0 sealed, 1 plain from a device without a short address, 2 plain to one.
    pub kind: u8,
    /// The frame version: 1 in kind 0, 0 or 1 in the others.
    pub version: u8,
    /// Whether an acknowledgement is asked for: 0 or 1.
    pub ack: u8,
    /// The sequence number.
    pub seq: u8,
    /// The key index of kind 0: 0 or 1. 0 in the others.
    pub index: u8,
}

/// The head of a sealed frame, where the fields say one.
#[tactic(auto, unfolding(crate::specs::Heads::is_sealed_head))]
pub fn sealed_head(head: &FramesHead) -> Option<MacHead>
    ensures { MatchOption result (is_sealed_head head.now ≡ false)
        (λ mac. (is_sealed_head head.now ≡ true) × (mac ≡ mac_head head.now) × IsSealed mac × IsAllowed mac) }
{
    let to = Destination::new(head.to)?;
    let from = Short::new(head.from)?;
    let index = KeyIndex::new(head.index)?;
    if head.kind != 0 || head.version != 1 || head.ack > 1 || head.device != 0 {
        return None;
    }
    Some(MacHead::Sealed {
        ack: head.ack == 1,
        seq: head.seq,
        pan: head.pan,
        to,
        from,
        counter: head.counter,
        index,
    })
}

/// The fields of a head that was read.
pub fn fields_of(head: &MacHead) -> FramesHead
    ensures { result ≡ c_head head.now }
{
    match head {
        MacHead::Sealed {
            ack,
            seq,
            pan,
            to,
            from,
            counter,
            index,
        } => FramesHead {
            device: 0,
            counter: *counter,
            pan: *pan,
            to: to.number(),
            from: from.number(),
            kind: 0,
            version: 1,
            ack: u8::from(*ack),
            seq: *seq,
            index: index.number(),
        },
        MacHead::Up {
            ack,
            version,
            seq,
            pan,
            to,
            from,
        } => FramesHead {
            device: from.number(),
            counter: 0,
            pan: *pan,
            to: to.number(),
            from: 0,
            kind: 1,
            version: *version,
            ack: u8::from(*ack),
            seq: *seq,
            index: 0,
        },
        MacHead::Down {
            ack,
            version,
            seq,
            pan,
            to,
            from,
        } => FramesHead {
            device: to.number(),
            counter: 0,
            pan: *pan,
            to: 0,
            from: from.number(),
            kind: 2,
            version: *version,
            ack: u8::from(*ack),
            seq: *seq,
            index: 0,
        },
    }
}
