//! The frame of an event, as its sentence needs it: from whom, for whom, and what it carries.
ghost use Rattle.std.specs.Prelude.{◌≡◌, ◌≤◌, length};
ghost use Rattle.std.specs.Option.{ForSome, option_copied};
ghost use Rattle.plc_base.specs.declared.limits.TheConstants.{LONGEST_FRAME};
ghost use Rattle.frame_facts.specs.Payloads as payloads;
ghost use Rattle.event_sentences.specs.Heards as heards;

use frame_facts::{FlightMore, FrameTarget, Gist, PayloadKind, more_of, open_octets};
use line_record::{RecordedFlight, recorded_flight};
use mac_frames::{MacHead, read_frame};
use plc_base::{Eui, FrameBuf, Key};
use sentence_parts::{Who, who_at, who_of, who_with};

/// A group key of the script, at its index.
#[derive(Clone, Copy)]
pub struct DrawnKey {
    /// The index: 0 or 1.
    pub index: u8,
    /// The key.
    pub key: Key,
}

/// A frame that comes to a node.
#[derive(Clone, Copy)]
pub struct Heard {
    /// The flight, 0 where no node sent it.
    pub flight: u32,
    /// The node that sent it, as its header says.
    pub by: Who,
    /// The node that it is for, as its header says.
    pub to: Who,
    /// The short address that it is for, if it is for one.
    pub to_address: Option<u16>,
    /// What is kept of it beside the record.
    pub more: FlightMore,
    /// What its payload is, Unknown where no key of the script opens it.
    pub kind: PayloadKind,
    /// What its payload is about.
    pub gist: Gist,
    /// The key that sealed it, if one of the script did.
    pub key: Option<Key>,
}

fn address_of(target: &FrameTarget) -> Option<u16>
    ensures { result ≡ heards.address_of target.now }
{
    match target {
        FrameTarget::Node { address } => Some(*address),
        FrameTarget::All => Some(0xFFFF),
        _ => None,
    }
}

fn head_sender(head: &MacHead, homes: &[u32], euis: &[Eui]) -> Who
    ensures { result ≡ heards.head_sender head.now homes.now euis.now }
{
    match head {
        MacHead::Sealed { from, .. } => who_at(from.number(), homes),
        MacHead::Up { from, .. } => who_with(*from, euis),
        MacHead::Down { from, .. } => who_at(from.number(), homes),
    }
}

// The node that sent a frame.
fn sender_of(octets: &[u8], homes: &[u32], euis: &[Eui]) -> Who
    ensures { result ≡ heards.sender_of octets.now homes.now euis.now }
{
    match read_frame(octets) {
        Err(_) => Who::Nobody,
        Ok(raw) => head_sender(&raw.head, homes, euis),
    }
}

/// A flight as it comes to a node.
pub fn heard_flight(
    number: u32,
    octets: &[u8],
    key: Option<Key>,
    flight: &RecordedFlight,
    more: FlightMore,
    homes: &[u32],
    euis: &[Eui],
) -> Heard
    ensures { result ≡ heards.heard_flight number octets.now key flight.now more homes.now euis.now }
{
    Heard {
        flight: number,
        by: sender_of(octets, homes, euis),
        to: who_of(&flight.target, homes, euis),
        to_address: address_of(&flight.target),
        more,
        kind: flight.kind,
        gist: flight.gist,
        key,
    }
}

// Whether a key stands at the index of a frame and opens it. Its payload is in `out` then.
fn opens(octets: &[u8], index: u8, drawn: &DrawnKey, out: &mut FrameBuf) -> bool
    ensures { result ≡ heards.opens octets.now index drawn.now }
{
    if drawn.index != index {
        return false;
    }
    open_octets(octets, &Some(drawn.key), out)
}

// The first key at the index of a frame that opens it.
fn opening_key(octets: &[u8], index: u8, keys: &[DrawnKey], out: &mut FrameBuf) -> Option<Key>
    ensures { result ≡ heards.opening_key octets.now index keys.now }
{
    for drawn in keys {
        if opens(octets, index, drawn, out) {
            return Some(drawn.key);
        }
    }
    None
}

// The key that opens octets, where they are a sealed frame.
fn injected_key(octets: &[u8], keys: &[DrawnKey], out: &mut FrameBuf) -> Option<Key>
    ensures { result ≡ heards.injected_key octets.now keys.now }
{
    let bare = more_of(octets, None);
    if bare.sealed {
        return opening_key(octets, bare.index, keys, out);
    }
    None
}

fn payload_in(is_open: bool, out: &FrameBuf) -> Option<&[u8]>
    ensures payload { option_copied result ≡ payloads.held is_open out.now }
    ensures fits { ForSome result (λ p. length p.now ≤ LONGEST_FRAME) }
{
    if is_open {
        return Some(out.octets());
    }
    None
}

/// Octets that no node sent, as they come to a node: opened with one of the keys of the script, where they are a sealed frame.
pub fn heard_octets(
    octets: &[u8],
    keys: &[DrawnKey],
    homes: &[u32],
    euis: &[Eui],
    out: &mut FrameBuf,
) -> Heard
    ensures { result ≡ heards.heard_octets octets.now keys.now homes.now euis.now }
{
    let key = injected_key(octets, keys, out);
    let is_open = open_octets(octets, &key, out);
    let payload = payload_in(is_open, out);
    let recorded = recorded_flight(0, 0, octets, payload, None);
    let more = more_of(octets, payload);
    heard_flight(0, octets, key, &recorded, more, homes, euis)
}
