//! The words of a line, and what each stands for.
ghost use Rattle.std.specs.Prelude.{◌≡◌, ◌==◌, ◌<◌, ◌≤◌, ◌/◌, length, position, IfSome};
ghost use Rattle.std.specs.Option.{option_map};
ghost use Rattle.line_script.specs.Words.{Field, field, digit_more, number_from, number, number_within, cost, eui, sixteen_octets, hex_octets};
ghost use Rattle.line_script.specs.Words.{keeps_new};

use crate::digit_values::decode;
use plc_base::{Eui, LinkCost, OctetRef};

/// The most octets that a line has in hexadecimal.
pub const LINE_OCTETS: usize = 2048;

/// The word that a space ends, and what comes after the space.
#[tactic(auto, unfolding(crate::specs::Words::field))]
pub fn field(octets: &[u8]) -> Option<(&[u8], &[u8])>
    ensures { option_map (λ f. let found : Field = record { word = f.0.now; rest = f.1.now } in found) result
        ≡ field octets.now }
{
    let at = space_at(octets)?;
    Some((&octets[..at], &octets[at + 1..]))
}

fn space_at(octets: &[u8]) -> Option<usize>
    ensures at { result ≡ position (λ c. c == 32) octets.now }
    ensures within { IfSome result (λ at. at < length octets.now) }
{
    octets.iter().position(|octet| *octet == b' ')
}

/// A number below 2^32 in decimal digits, with no sign and no leading zero. None for any other word.
#[tactic(auto, unfolding(crate::specs::Words::number))]
pub fn number(digits: &[u8]) -> Option<u32>
    ensures { result ≡ number digits.now }
{
    let first = *digits.first()?;
    if first == b'0' && digits.len() > 1 {
        return None;
    }
    number_of(digits)
}

fn number_of(digits: &[u8]) -> Option<u32>
    ensures { result ≡ number_from 0 digits.now }
{
    let mut value = 0u32;
    for digit in digits {
        value = digit_more(value, *digit)?;
    }
    Some(value)
}

fn digit_more(value: u32, digit: u8) -> Option<u32>
    ensures { result ≡ digit_more value digit }
{
    if digit < b'0' {
        return None;
    }
    if digit > b'9' {
        return None;
    }
    let next = u64::from(value) * 10 + u64::from(digit - b'0');
    if next >= 4_294_967_296 {
        return None;
    }
    Some(next as u32)
}

/// A number from `low` to `high`.
#[tactic(auto, unfolding(crate::specs::Words::number_within))]
pub fn number_within(low: u32, high: u32, word: &[u8]) -> Option<u32>
    ensures value { result ≡ number_within low high word.now }
    ensures within { IfSome result (λ n. (low ≤ n) × (n ≤ high)) }
{
    let value = number(word)?;
    if value < low {
        return None;
    }
    if value > high {
        return None;
    }
    Some(value)
}

/// The cost of a link: 1 to 255.
#[tactic(auto, unfolding(crate::specs::Words::cost))]
pub fn cost(word: &[u8]) -> Option<LinkCost>
    ensures { result ≡ cost word.now }
{
    let value = number_within(1, 255, word)?;
    LinkCost::new(value as u8)
}

/// An EUI: 16 digits in hexadecimal.
#[tactic(auto, unfolding(crate::specs::Words::eui))]
pub fn eui(digits: &[u8]) -> Option<Eui>
    ensures { result ≡ eui digits.now }
{
    if digits.len() != 16 {
        return None;
    }
    let mut octets = [0u8; 8];
    hex::decode_to_slice(digits, &mut octets).ok()?;
    Some(Eui(octets))
}

/// A key or a random value: 32 digits in hexadecimal.
#[tactic(auto, unfolding(crate::specs::Words::sixteen_octets))]
pub fn sixteen_octets(digits: &[u8]) -> Option<[u8; 16]>
    ensures { result ≡ sixteen_octets digits.now }
{
    if digits.len() != 32 {
        return None;
    }
    let mut octets = [0u8; 16];
    hex::decode_to_slice(digits, &mut octets).ok()?;
    Some(octets)
}

/// The octets, 1 to 2,048, that digits in hexadecimal stand for. They are written to `space`.
#[tactic(auto, unfolding(crate::specs::Words::hex_octets))]
pub fn hex_octets<'a>(digits: &[u8], space: &'a mut [u8]) -> Option<OctetRef<'a>>
    requires { length space.old ≡ LINE_OCTETS }
    ensures { result ≡ hex_octets digits.now }
{
    if digits.is_empty() || digits.len() > 2 * LINE_OCTETS {
        return None;
    }
    decode(digits, &mut space[..digits.len() / 2])
}

/// Whether a store that fails keeps the new record of the slot, or the old one.
#[tactic(auto, unfolding(crate::specs::Words::keeps_new))]
pub fn keeps_new(word: &[u8]) -> Option<bool>
    ensures { result ≡ keeps_new word.now }
{
    if word == b"new".as_slice() {
        return Some(true);
    }
    if word == b"old".as_slice() {
        return Some(false);
    }
    None
}
