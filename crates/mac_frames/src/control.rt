//! The frame control: the first two octets of a header (IEEE 802.15.4-2006, section 7.2.1.1).
ghost use Rattle.std.specs.Prelude.{◌≡◌, ◌≤◌, ◌<◌, ◌+◌, ◌∷◌, length};
ghost use Rattle.plc_base.specs.Fields.{after};
ghost use Rattle.plc_base.specs.Faults.{ReadsUnless};
ghost use Rattle.mac_frames.specs.Grammar.{high_control, low_control};
ghost use Rattle.mac_frames.specs.Faults.{bits, high_fault, is_sealed, low_fault};
ghost use Rattle.mac_frames.specs.Control.{IsOfKind, sender_mode, target_mode};

use crate::fault::{FrameFault, FrameFaultKind};
use plc_base::{Fault, octet_at};

/// The kinds of frame, by what their frame control says.
#[derive(Clone, Copy)]
pub(crate) enum FrameKind {
    Sealed,
    Up,
    Down,
}

// The number in `count` bits of an octet, from bit `first` on.
fn bits(octet: u8, first: u32, count: u32) -> u8
    requires within { first + count ≤ 8 }
    requires some { 0 < count }
    requires few { count < 8 }
    ensures { result ≡ bits first count octet }
{
    (octet >> first) % (1 << count)
}

/// Whether the frame is sealed, and whether it asks for an acknowledgement, by octet 0.
#[tactic(auto, unfolding(crate::specs::Faults::low_fault, plc_base::specs::Faults::cut_off))]
pub(crate) fn low_of(octets: &[u8]) -> Result<(bool, bool), FrameFault>
    ensures { ReadsUnless (low_fault octets.now) result
        (λ x. (x.0 ≡ is_sealed octets.now) × (1 ≤ length octets.now)
        × (octets.now ≡ low_control x.0 x.1 ∷ after 1 octets.now)) }
{
    let low = octet_at(octets, 0)?;
    if bits(low, 0, 3) != 1 || bits(low, 4, 1) == 1 || bits(low, 7, 1) == 1 {
        return Err(Fault::at(FrameFaultKind::Kind, 0));
    }
    if bits(low, 6, 1) == 0 {
        return Err(Fault::at(FrameFaultKind::Mode, 0));
    }
    Ok((bits(low, 3, 1) == 1, bits(low, 5, 1) == 1))
}

/// The kind of frame and its version, by octet 1.
#[tactic(auto, unfolding(crate::specs::Faults::high_fault, plc_base::specs::Faults::cut_off))]
pub(crate) fn high_of(octets: &[u8], sealed: bool) -> Result<(FrameKind, u8), FrameFault>
    requires { sealed ≡ is_sealed octets.now }
    ensures { ReadsUnless (high_fault octets.now) result
        (λ x. IsOfKind x.0 x.1 octets.now × (x.1 ≤ 1) × (2 ≤ length octets.now)
        × (after 1 octets.now ≡ high_control (target_mode x.0) x.1 (sender_mode x.0) ∷ after 2 octets.now)) }
{
    let high = octet_at(octets, 1)?;
    let version = bits(high, 4, 2);
    if bits(high, 0, 2) > 0 || version > 1 || (sealed && version == 0) {
        return Err(Fault::at(FrameFaultKind::Kind, 1));
    }
    let kind = match (sealed, bits(high, 2, 2), bits(high, 6, 2)) {
        (true, 2, 2) => FrameKind::Sealed,
        (false, 2, 3) => FrameKind::Up,
        (false, 3, 2) => FrameKind::Down,
        _ => return Err(Fault::at(FrameFaultKind::Mode, 1)),
    };
    Ok((kind, version))
}
