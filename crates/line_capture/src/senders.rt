//! The addresses of a run, as Wireshark reads them.
ghost use Rattle.std.specs.Prelude.{◌≡◌, ◌++◌, ◌≤◌, false, IfOk, OnOk, length, replicate, string_bytes};
ghost use Rattle.line_capture.specs.Profiles as profiles;
ghost use Rattle.line_capture.specs.declared.senders.TheConstants.{ADDRESSES};

use crate::recording::Recording;
use mac_frames::{MacHead, read_frame};
use plc_base::OctetRef;
use sentence_parts::{Part, push_parts, words};
use std::alloc::{AllocError, Global};

/// There are this many short addresses, of 16 bits each.
pub const ADDRESSES: usize = 65_536;

fn head_sender(head: &MacHead) -> Option<u16>
    ensures { result ≡ profiles.head_sender head.now }
{
    match head {
        MacHead::Sealed { from, .. } => Some(from.number()),
        MacHead::Down { from, .. } => Some(from.number()),
        MacHead::Up { .. } => None,
    }
}

/// The short address of the node that sent a frame, by its header. None where it has none, or the octets are no frame.
pub fn frame_sender(octets: &[u8]) -> Option<u16>
    ensures { result ≡ profiles.frame_sender octets.now }
{
    match read_frame(octets) {
        Err(_) => None,
        Ok(raw) => head_sender(&raw.head),
    }
}

// A function of the count: a table of this many is not computed in a proof.
fn no_addresses(alloc: Global, count: usize) -> Result<Vec<bool>, AllocError>
    ensures { IfOk result (λ seen. seen.items ≡ replicate count false) }
{
    let mut seen = Vec::new(alloc);
    seen.resize(count, false)?;
    Ok(seen)
}

fn mark(seen: &mut [bool], octets: &[u8])
    ensures { seen.new ≡ profiles.marked (profiles.frame_sender octets.now) seen.old }
{
    let Some(address) = frame_sender(octets) else {
        return;
    };
    let place = usize::from(address);
    if place < seen.len() {
        seen[place] = true;
    }
}

fn mark_all(seen: &mut [bool], frames: &[OctetRef<'_>])
    ensures { seen.new ≡ profiles.marked_by frames.now seen.old }
{
    for frame in frames {
        mark(seen, frame.octets());
    }
}

// Wireshark wants a short address, its PAN, and the extended address that stands for it in the nonce of a sealed frame.
fn push_address(text: &mut String, alloc: Global, address: u16) -> Result<(), AllocError>
    ensures { OnOk result (string_bytes text.new ≡ string_bytes text.old ++ profiles.address_text address) }
{
    push_parts(
        text,
        alloc,
        &[
            words("\""),
            Part::Short { address },
            words("\",\"781d\",781d00fffe00"),
            Part::Short { address },
            words("\n"),
        ],
    )
}

// The lines of the addresses that were seen.
fn push_addresses(text: &mut String, alloc: Global, seen: &[bool]) -> Result<(), AllocError>
    requires { length seen.now ≤ 65536 }
    ensures { OnOk result (string_bytes text.new ≡ string_bytes text.old ++ profiles.seen_text 0 seen.now) }
{
    for (place, is_seen) in seen.iter().enumerate() {
        if *is_seen {
            push_address(text, alloc, place as u16)?;
        }
    }
    Ok(())
}

// The lines of this many addresses.
fn text_of(alloc: Global, count: usize, run: &Recording<'_>) -> Result<String, AllocError>
    requires { count ≤ 65536 }
    ensures { IfOk result (λ text. string_bytes text ≡ profiles.addresses_text count run.now.octets.now run.now.injected.now) }
{
    let mut seen = no_addresses(alloc, count)?;
    mark_all(seen.as_mut_slice(), run.octets);
    mark_all(seen.as_mut_slice(), run.injected);
    let mut text = String::new(alloc);
    push_addresses(&mut text, alloc, seen.as_slice())?;
    Ok(text)
}

/// The short addresses of all that sent a frame, as the file `802154_addresses` of a profile of Wireshark: a line for each, in their order.
///
/// It fails only where memory runs out.
pub fn addresses_text(alloc: Global, run: &Recording<'_>) -> Result<String, AllocError>
    ensures { IfOk result (λ text. string_bytes text ≡ profiles.addresses_text ADDRESSES run.now.octets.now run.now.injected.now) }
{
    text_of(alloc, ADDRESSES, run)
}
