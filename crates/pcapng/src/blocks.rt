//! Sections, interfaces and packets.
ghost use Rattle.std.specs.Prelude.{◌≡◌, ◌++◌, ◌+◌, ◌<◌, ◌^◌, OnOk, length};
ghost use Rattle.byteorder.specs.Endian.{little_bytes};
ghost use Rattle.pcapng.specs.Blocks.{INTERFACE, PACKET, SECTION, block_spelling, ended, interface_body, interface_head, packet_body, packet_front};
ghost use Rattle.pcapng.specs.Blocks.{packet_head, packet_length, section_body, section_head, time_halves};

use crate::numbers::{padding_length, push_four, push_padded, push_two};
use crate::options::Options;
use std::alloc::AllocError;

// What the body of a section begins with.
const SECTION_HEAD: [u8; 16] = [
    0x4d, 0x3c, 0x2b, 0x1a, 1, 0, 0, 0, 0xff, 0xff, 0xff, 0xff, 0xff, 0xff, 0xff, 0xff,
];

/// A packet of a capture.
#[derive(Clone, Copy, Debug)]
pub struct Packet<'a> {
    /// Which interface it passed: 0 is the first that the section describes.
    pub interface: u32,
    /// When it passed, in the unit of its interface.
    pub time: u64,
    /// What passed, whole.
    pub octets: &'a [u8],
}

// The first octets of each block: its type, and how many octets it has.
fn push_head(out: &mut Vec<u8>, kind: u32, length: u32) -> Result<(), AllocError>
    ensures { OnOk result (out.new.items ≡ out.old.items ++ (little_bytes 4 kind ++ little_bytes 4 length)) }
{
    push_four(out, kind)?;
    push_four(out, length)
}

#[tactic(auto, unfolding(crate::specs::Blocks::ended))]
// The last octets of each block: its options, their end, and again how many octets it has.
fn push_tail(out: &mut Vec<u8>, options: &Options, length: u32) -> Result<(), AllocError>
    ensures { OnOk result (out.new.items ≡ out.old.items ++ (ended options.now ++ little_bytes 4 length)) }
{
    out.extend_from_slice(options.octets())?;
    push_four(out, 0)?;
    push_four(out, length)
}

// How many octets the block of a section has.
#[tactic(auto, using(crate::proofs::Lengths::length_of_section, crate::proofs::Lengths::length_of_ended))]
fn section_length(options: &Options) -> u32
    requires { 32 + length options.now < 2 ^ 32 }
    ensures { result ≡ 12 + length (section_body (ended options.now)) }
{
    32 + options.octets().len() as u32
}

// How many octets the block of an interface has.
#[tactic(auto, using(crate::proofs::Lengths::length_of_interface, crate::proofs::Lengths::length_of_ended))]
fn interface_length(link: u16, options: &Options) -> u32
    requires { 24 + length options.now < 2 ^ 32 }
    ensures { result ≡ 12 + length (interface_body link (ended options.now)) }
{
    24 + options.octets().len() as u32
}

// How many octets the block of a packet has.
#[tactic(auto, using(crate::proofs::Lengths::length_of_packet, crate::proofs::Lengths::length_of_ended))]
fn length_of(packet: &Packet<'_>, options: &Options) -> u32
    requires { packet_length (length packet.now.octets.now) (length options.now) < 2 ^ 32 }
    ensures { result ≡ 12 + length (packet_body packet.now.interface packet.now.time packet.now.octets.now (ended options.now)) }
{
    let octets = packet.octets.len();
    (36 + octets + padding_length(octets) + options.octets().len()) as u32
}

// The order of the octets, version 1.0, and no length.
fn push_section_head(out: &mut Vec<u8>) -> Result<(), AllocError>
    ensures { OnOk result (out.new.items ≡ out.old.items ++ section_head) }
{
    out.extend_from_slice(&SECTION_HEAD)
}

// The link type, and that no packet is cut.
fn push_interface_head(out: &mut Vec<u8>, link: u16) -> Result<(), AllocError>
    ensures { OnOk result (out.new.items ≡ out.old.items ++ interface_head link) }
{
    push_two(out, link)?;
    push_two(out, 0)?;
    push_four(out, 0)
}

// A time in its two halves, the higher first.
fn push_time(out: &mut Vec<u8>, time: u64) -> Result<(), AllocError>
    ensures { OnOk result (out.new.items ≡ out.old.items ++ time_halves time) }
{
    push_four(out, (time / 0x1_0000_0000) as u32)?;
    push_four(out, (time % 0x1_0000_0000) as u32)
}

// The interface, the time, how many octets were kept and how many passed.
fn push_packet_head(out: &mut Vec<u8>, packet: &Packet<'_>) -> Result<(), AllocError>
    requires { length packet.now.octets.now < 2 ^ 32 }
    ensures { OnOk result (out.new.items ≡ out.old.items
        ++ packet_head packet.now.interface packet.now.time (length packet.now.octets.now)) }
{
    let octets = packet.octets.len() as u32;
    push_four(out, packet.interface)?;
    push_time(out, packet.time)?;
    push_four(out, octets)?;
    push_four(out, octets)
}

// All of the body of a packet but its options.
#[tactic(auto, unfolding(crate::specs::Blocks::packet_front))]
fn push_packet_front(out: &mut Vec<u8>, packet: &Packet<'_>) -> Result<(), AllocError>
    requires { length packet.now.octets.now < 2 ^ 32 }
    ensures { OnOk result (out.new.items ≡ out.old.items
        ++ packet_front packet.now.interface packet.now.time packet.now.octets.now) }
{
    push_packet_head(out, packet)?;
    push_padded(out, packet.octets)
}

/// Appends the block that begins a section, which has version 1.0 and does not say how long the section is (section 4.1).
///
/// After an error `out` may end anywhere within the block.
#[tactic(auto, unfolding(crate::specs::Blocks::block_spelling, crate::specs::Blocks::section_body))]
pub fn append_section(out: &mut Vec<u8>, options: &Options) -> Result<(), AllocError>
    requires { 32 + length options.now < 2 ^ 32 }
    ensures { OnOk result (out.new.items ≡ out.old.items ++ block_spelling SECTION (section_body (ended options.now))) }
{
    let length = section_length(options);
    push_head(out, 0x0a0d_0d0a, length)?;
    push_section_head(out)?;
    push_tail(out, options, length)
}

/// Appends the description of an interface with the link type `link`, whose packets are never cut (section 4.2). The first that
/// is described has number 0.
///
/// After an error `out` may end anywhere within the block.
#[tactic(auto, unfolding(crate::specs::Blocks::block_spelling, crate::specs::Blocks::interface_body))]
pub fn append_interface(out: &mut Vec<u8>, link: u16, options: &Options) -> Result<(), AllocError>
    requires { 24 + length options.now < 2 ^ 32 }
    ensures { OnOk result (out.new.items
        ≡ out.old.items ++ block_spelling INTERFACE (interface_body link (ended options.now))) }
{
    let length = interface_length(link, options);
    push_head(out, 1, length)?;
    push_interface_head(out, link)?;
    push_tail(out, options, length)
}

/// Appends a packet (section 4.3, an enhanced packet block).
///
/// After an error `out` may end anywhere within the block.
#[tactic(auto, unfolding(crate::specs::Blocks::block_spelling, crate::specs::Blocks::packet_body))]
pub fn append_packet(
    out: &mut Vec<u8>,
    packet: &Packet<'_>,
    options: &Options,
) -> Result<(), AllocError>
    requires { packet_length (length packet.now.octets.now) (length options.now) < 2 ^ 32 }
    ensures { OnOk result (out.new.items ≡ out.old.items
        ++ block_spelling PACKET (packet_body packet.now.interface packet.now.time packet.now.octets.now (ended options.now))) }
{
    let length = length_of(packet, options);
    push_head(out, 6, length)?;
    push_packet_front(out, packet)?;
    push_tail(out, options, length)
}
