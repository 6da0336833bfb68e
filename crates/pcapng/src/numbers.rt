//! Numbers and padding, as all blocks have them.
ghost use Rattle.std.specs.Prelude.{◌≡◌, ◌++◌, OnOk, length};
ghost use Rattle.byteorder.specs.Endian.{little_bytes};
ghost use Rattle.pcapng.specs.Blocks.{padding, padding_length};

use byteorder::{ByteOrder, LittleEndian};
use std::alloc::AllocError;

// Appends a number of two octets, the lowest first.
pub fn push_two(out: &mut Vec<u8>, number: u16) -> Result<(), AllocError>
    ensures { OnOk result (out.new.items ≡ out.old.items ++ little_bytes 2 number) }
{
    let mut octets = [0; 2];
    LittleEndian::write_u16(&mut octets, number);
    out.extend_from_slice(&octets)
}

// Appends a number of four octets, the lowest first.
pub fn push_four(out: &mut Vec<u8>, number: u32) -> Result<(), AllocError>
    ensures { OnOk result (out.new.items ≡ out.old.items ++ little_bytes 4 number) }
{
    let mut octets = [0; 4];
    LittleEndian::write_u32(&mut octets, number);
    out.extend_from_slice(&octets)
}

// How many zeros follow this many octets, up to a multiple of four.
pub fn padding_length(octets: usize) -> usize
    ensures { result ≡ padding_length octets }
{
    (4 - octets % 4) % 4
}

#[tactic(auto, unfolding(crate::specs::Blocks::padding))]
// Appends octets, and zeros up to a multiple of four.
pub fn push_padded(out: &mut Vec<u8>, octets: &[u8]) -> Result<(), AllocError>
    ensures { OnOk result (out.new.items ≡ out.old.items ++ (octets.now ++ padding (length octets.now))) }
{
    out.extend_from_slice(octets)?;
    let zeros = [0, 0, 0];
    out.extend_from_slice(&zeros[..padding_length(octets.len())])
}
