//! The fields of a call, where there are octets enough.
ghost use Rattle.std.specs.Prelude.{◌≡◌, ◌+◌, ◌≤◌, length, drop, slice_index};
ghost use Rattle.host_calls.specs.Calls.{number_at, address_of, cost_of, index_of};

use byteorder::{BigEndian, ByteOrder};
use plc_base::{KeyIndex, LinkCost, Short};

/// The octets from a place on.
pub fn rest(octets: &[u8], at: usize) -> &[u8]
    requires { at ≤ length octets.now }
    ensures { result.now ≡ drop at octets.now }
{
    octets.split_at(at).1
}

/// The number in the two octets from a place on, the highest octet first.
pub fn two_at(octets: &[u8], at: usize) -> u16
    requires { at + 2 ≤ length octets.now }
    ensures { result ≡ number_at 2 at octets.now }
{
    BigEndian::read_u16(&octets[at..])
}

/// The number in the four octets from a place on, the highest octet first.
pub fn four_at(octets: &[u8], at: usize) -> u32
    requires { at + 4 ≤ length octets.now }
    ensures { result ≡ number_at 4 at octets.now }
{
    BigEndian::read_u32(&octets[at..])
}

/// The number in the eight octets from a place on, the highest octet first.
pub fn eight_at(octets: &[u8], at: usize) -> u64
    requires { at + 8 ≤ length octets.now }
    ensures { result ≡ number_at 8 at octets.now }
{
    BigEndian::read_u64(&octets[at..])
}

/// The address in the two octets from a place on, None where it is one of no node.
pub fn address_at(octets: &[u8], at: usize) -> Option<Short>
    requires { at + 2 ≤ length octets.now }
    ensures { result ≡ address_of (number_at 2 at octets.now) }
{
    Short::new(two_at(octets, at))
}

/// The cost in the octet at a place, None where it is none.
pub fn cost_at(octets: &[u8], at: usize) -> Option<LinkCost>
    requires { at + 1 ≤ length octets.now }
    ensures { result ≡ cost_of (slice_index octets.now at) }
{
    LinkCost::new(octets[at])
}

/// The index of a group key in the octet at a place, None where it is none.
pub fn index_at(octets: &[u8], at: usize) -> Option<KeyIndex>
    requires { at + 1 ≤ length octets.now }
    ensures { result ≡ index_of (slice_index octets.now at) }
{
    KeyIndex::new(octets[at])
}
