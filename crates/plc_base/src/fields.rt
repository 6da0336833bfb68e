//! Reads fields at their places; the octets of numbers.
ghost use Rattle.std.specs.Prelude.{◌≡◌, ◌≤◌, ◌<◌, ◌+◌, ◌/◌, ◌∷◌, [], length, reverse, MatchResult};
ghost use Rattle.byteorder.specs.Endian.{big_bytes, little_bytes};
ghost use Rattle.plc_base.specs.Addresses.{IsAddress};
ghost use Rattle.plc_base.specs.Faults.{ReadsUnless, address_fault};
ghost use Rattle.plc_base.specs.Fields.{EndsBefore, Stands, octet, two, four, little_two, little_four, part, after};

use crate::address::Short;
use byteorder::{BigEndian, ByteOrder, LittleEndian};
use std::fmt::Display;
use thiserror::Error;

/// The octets end before the field does.
#[derive(Clone, Copy, Debug, PartialEq, Eq, Drop, Error)]
#[error("the octets end at {place}")]
pub struct Ended {
    /// Where they end: how many there are.
    pub place: u16,
}

/// The kinds of fault that octets of a format may have: one of them is that the octets end inside a field.
pub trait FaultKind: Drop {
    /// The octets end inside a field.
    const SHORT: Self;

    // The octets end inside a field.
    ghost SHORT: { Self };
}

/// The first fault from the left of octets that spell no value of a format.
#[derive(Clone, Copy, Debug, PartialEq, Eq, Drop, Error)]
#[error_bound(K: Display)]
#[error("{kind}, at octet {place}")]
pub struct Fault<K> {
    /// What is wrong.
    pub kind: K,
    /// Where, counted from 0.
    pub place: u16,
}

impl<K> Fault<K> {
    /// The fault of this kind at this place, counted from 0.
    pub fn at(kind: K, place: usize) -> Fault<K>
        requires { place ≤ 1004 }
        ensures { result ≡ record { kind = kind; place = place } }
    {
        Fault {
            kind,
            place: place as u16,
        }
    }
}

impl<K: FaultKind> From<Ended> for Fault<K> {
    ghost from_gives = { λ e f. f ≡ record { kind = K.SHORT; place = e.place } };

    fn from(e: Ended) -> Fault<K> {
        Fault {
            kind: K::SHORT,
            place: e.place,
        }
    }
}

// The octets go as far as this place, or end before it.
fn reach(octets: &[u8], end: usize) -> Result<(), Ended>
    requires { end ≤ 1004 }
    ensures { MatchResult result (λ _. end ≤ length octets.now) (EndsBefore end octets.now) }
{
    if octets.len() < end {
        return Err(Ended {
            place: octets.len() as u16,
        });
    }
    Ok(())
}

/// The octet at a place.
pub fn octet_at(octets: &[u8], at: usize) -> Result<u8, Ended>
    requires { at ≤ 1000 }
    ensures { MatchResult result (λ x. (x ≡ octet at octets.now) × Stands (x ∷ []) at octets.now)
        (EndsBefore (at + 1) octets.now) }
{
    reach(octets, at + 1)?;
    Ok(octets[at])
}

/// The number in the two octets from a place on, the highest octet first.
pub fn two_at(octets: &[u8], at: usize) -> Result<u16, Ended>
    requires { at ≤ 1000 }
    ensures { MatchResult result
        (λ x. (x ≡ two at octets.now) × Stands (big_bytes 2 x) at octets.now × (x / 256 ≡ octet at octets.now))
        (EndsBefore (at + 2) octets.now) }
{
    reach(octets, at + 2)?;
    Ok(BigEndian::read_u16(&octets[at..]))
}

/// The number in the four octets from a place on, the highest octet first.
pub fn four_at(octets: &[u8], at: usize) -> Result<u32, Ended>
    requires { at ≤ 1000 }
    ensures { MatchResult result (λ x. (x ≡ four at octets.now) × Stands (big_bytes 4 x) at octets.now)
        (EndsBefore (at + 4) octets.now) }
{
    reach(octets, at + 4)?;
    Ok(BigEndian::read_u32(&octets[at..]))
}

/// The number in the two octets from a place on, the lowest octet first.
pub fn little_two_at(octets: &[u8], at: usize) -> Result<u16, Ended>
    requires { at ≤ 1000 }
    ensures { MatchResult result (λ x. (x ≡ little_two at octets.now) × Stands (little_bytes 2 x) at octets.now)
        (EndsBefore (at + 2) octets.now) }
{
    reach(octets, at + 2)?;
    Ok(LittleEndian::read_u16(&octets[at..]))
}

/// The number in the four octets from a place on, the lowest octet first.
pub fn little_four_at(octets: &[u8], at: usize) -> Result<u32, Ended>
    requires { at ≤ 1000 }
    ensures { MatchResult result (λ x. (x ≡ little_four at octets.now) × Stands (little_bytes 4 x) at octets.now)
        (EndsBefore (at + 4) octets.now) }
{
    reach(octets, at + 4)?;
    Ok(LittleEndian::read_u32(&octets[at..]))
}

/// The `N` octets from a place on, in their order: an EUI-64 or a key as its text has it.
pub fn octets_at<const N: usize>(octets: &[u8], at: usize) -> Result<[u8; N], Ended>
    requires { at + N ≤ 1000 }
    ensures { MatchResult result (λ x. (x ≡ part at N octets.now) × Stands x at octets.now)
        (EndsBefore (at + N) octets.now) }
{
    reach(octets, at + N)?;
    let mut field = [0; N];
    field.copy_from_slice(&octets[at..at + N]);
    Ok(field)
}

/// The `N` octets from a place on, the last one first: an EUI-64 that stands least first.
pub fn reversed_at<const N: usize>(octets: &[u8], at: usize) -> Result<[u8; N], Ended>
    requires { at + N ≤ 1000 }
    ensures { MatchResult result (λ x. (x ≡ reverse (part at N octets.now)) × Stands (reverse x) at octets.now)
        (EndsBefore (at + N) octets.now) }
{
    let mut field = octets_at(octets, at)?;
    field.reverse();
    Ok(field)
}

/// The octets from a place on.
#[tactic(auto, unfolding(crate::specs::Fields::after))]
pub fn rest_at(octets: &[u8], at: usize) -> &[u8]
    requires { at ≤ length octets.now }
    ensures value { result.now ≡ after at octets.now }
    ensures length { length result.now + at ≡ length octets.now }
{
    octets.split_at(at).1
}

/// The short address in the two octets from a place on, the highest octet first. Where it is one of no node, the fault has this
/// kind and this place.
#[tactic(auto, unfolding(crate::specs::Faults::address_fault, crate::specs::Faults::cut_off))]
pub fn address_at<K: FaultKind>(octets: &[u8], at: usize, no_node: K) -> Result<Short, Fault<K>>
    requires { at ≤ 1000 }
    ensures { ReadsUnless (address_fault K.SHORT no_node at octets.now) result
        (λ x. IsAddress x × Stands (big_bytes 2 x) at octets.now) }
{
    match Short::new(two_at(octets, at)?) {
        None => Err(Fault::at(no_node, at)),
        Some(address) => Ok(address),
    }
}

/// The two octets of a number, the highest first.
pub fn two_octets(number: u16) -> [u8; 2]
    ensures { result ≡ big_bytes 2 number }
{
    let mut octets = [0; 2];
    BigEndian::write_u16(&mut octets, number);
    octets
}

/// The four octets of a number, the highest first.
pub fn four_octets(number: u32) -> [u8; 4]
    ensures { result ≡ big_bytes 4 number }
{
    let mut octets = [0; 4];
    BigEndian::write_u32(&mut octets, number);
    octets
}
