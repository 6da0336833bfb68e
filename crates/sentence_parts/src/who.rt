//! Which node an address or an EUI-64 belongs to.
ghost use Rattle.std.specs.Prelude.{◌≡◌, ◌≤◌, length, position};
ghost use Rattle.std.specs.Option.{ForSome, option_copied};
ghost use Rattle.plc_base.specs.declared.limits.TheConstants.{LONGEST_FRAME};
ghost use Rattle.sentence_parts.specs.Whos as spec_whos;

use crate::part::Who;
use frame_facts::{FrameTarget, Gist, payload_gist};
use plc_base::Eui;

/// The node with a short address. `homes` has the node of each address.
pub fn who_at(address: u16, homes: &[u32]) -> Who
    ensures { result ≡ spec_whos.who_at address homes.now }
{
    if address == 0xFFFF {
        return Who::All;
    }
    match homes.get(address as usize) {
        Some(node) => Who::Node { node: *node },
        None => Who::Address { address },
    }
}

fn is_same(eui: Eui, other: &Eui) -> bool
    ensures { result ≡ spec_whos.is_same eui other.now }
{
    other.number() == eui.number()
}

// The place of the first node with an EUI-64.
fn place_with(eui: Eui, euis: &[Eui]) -> Option<usize>
    ensures { result ≡ position (spec_whos.is_same eui) euis.now }
{
    euis.iter().position(|other| is_same(eui, other))
}

/// The node with an EUI-64, of the first 2^32. `euis` has that of each node.
pub fn node_with(eui: Eui, euis: &[Eui]) -> Option<u32>
    ensures { result ≡ spec_whos.node_with eui euis.now }
{
    let Some(place) = place_with(eui, euis) else {
        return None;
    };
    if (place as u64) < 1 << 32 {
        return Some(place as u32);
    }
    None
}

/// The node with an EUI-64, or the EUI-64 where no node has it.
pub fn who_with(eui: Eui, euis: &[Eui]) -> Who
    ensures { result ≡ spec_whos.who_with eui euis.now }
{
    match node_with(eui, euis) {
        Some(node) => Who::Node { node },
        None => Who::Device { eui },
    }
}

/// The node that a frame is for.
pub fn who_of(target: &FrameTarget, homes: &[u32], euis: &[Eui]) -> Who
    ensures { result ≡ spec_whos.who_of target.now homes.now euis.now }
{
    match target {
        FrameTarget::Nobody => Who::Nobody,
        FrameTarget::All => Who::All,
        FrameTarget::Node { address } => who_at(*address, homes),
        FrameTarget::Device { eui } => who_with(*eui, euis),
    }
}

fn target_device(target: &FrameTarget, euis: &[Eui]) -> Option<u32>
    ensures { result ≡ spec_whos.target_device target.now euis.now }
{
    match target {
        FrameTarget::Device { eui } => node_with(*eui, euis),
        _ => None,
    }
}

fn gist_device(gist: &Gist, target: &FrameTarget, euis: &[Eui]) -> Option<u32>
    ensures { result ≡ spec_whos.gist_device gist.now target.now euis.now }
{
    match gist {
        Gist::Joins { eui } => node_with(*eui, euis),
        _ => target_device(target, euis),
    }
}

/// The node with the EUI-64 that a joining message is about, or that a frame is for. The payload has at most 400 octets.
pub fn device_of(target: &FrameTarget, payload: Option<&[u8]>, euis: &[Eui]) -> Option<u32>
    requires { ForSome payload (λ p. length p.now ≤ LONGEST_FRAME) }
    ensures { result ≡ spec_whos.device_of target.now (option_copied payload.entry) euis.now }
{
    match payload {
        Some(octets) => gist_device(&payload_gist(octets), target, euis),
        None => target_device(target, euis),
    }
}
