//! Reads broadcasts.
ghost use Rattle.std.specs.Prelude.{◌≡◌, ◌↔◌, ◌<◌, length, IsSome, IsTrue, IfSome, Some};
ghost use Rattle.broadcast_log.specs.declared.broadcast.Broadcast.{Broadcast};
ghost use Rattle.broadcast_log.specs.Grammar.{Spells, is_body, has_length, hops_stand, origin_stands, sequence_stands};
ghost use Rattle.broadcast_log.specs.Reader.{broadcast_in, fields_in};
ghost use Rattle.plc_base.specs.Faults.{ReadsWhen};
ghost use Rattle.plc_base.specs.Fields.{octet, two, four};

use crate::broadcast::{Broadcast, BroadcastBuf};
use plc_base::{Short, four_at, octet_at, rest_at, two_at};

/// The broadcast that the octets spell, all of them. None exactly where they are no body of a broadcast: 10 to 369 octets, the
/// hops 1 to 14, an origin of at most FFFD, and 50 with the low octet of the number.
pub fn read_broadcast(octets: &[u8]) -> Option<Broadcast>
    // What is read is spelled so.
    ensures found { IfSome result (λ broadcast. Spells broadcast octets.now) }
    // What is read is the broadcast that stands in the octets, if they are one.
    ensures value { broadcast_in octets.now ≡ result }
    // What is spelled so is read.
    ensures only { (broadcast : Broadcast) → Spells broadcast octets.now → result ≡ Some broadcast }
    // The test says whether there is one.
    ensures exact { IsSome result ↔ IsTrue (is_body octets.now) }
    // A spelling is of one value.
    ensures one_value { (a b : Broadcast) → Spells a octets.now → Spells b octets.now → a ≡ b }
{
    broadcast_of(octets)
}

// 10 octets to 369.
#[tactic(auto, unfolding(crate::specs::Grammar::has_length))]
fn expect_length(octets: &[u8]) -> Option<()>
    ensures { ReadsWhen (has_length octets.now) result (λ _. (9 < length octets.now) × (length octets.now < 370)) }
{
    if octets.len() < 10 || octets.len() > 369 {
        return None;
    }
    Some(())
}

#[tactic(auto, unfolding(crate::specs::Grammar::hops_stand))]
fn hops_of(octets: &[u8]) -> Option<u8>
    requires { 9 < length octets.now }
    ensures { ReadsWhen (hops_stand octets.now) result (λ hops. hops ≡ octet 0 octets.now) }
{
    let hops = octet_at(octets, 0).ok()?;
    if hops == 0 || hops > 14 {
        return None;
    }
    Some(hops)
}

#[tactic(auto, unfolding(crate::specs::Grammar::origin_stands))]
fn origin_of(octets: &[u8]) -> Option<Short>
    requires { 9 < length octets.now }
    ensures { ReadsWhen (origin_stands octets.now) result (λ origin. origin ≡ two 1 octets.now) }
{
    Short::new(two_at(octets, 1).ok()?)
}

// The number, where LOWPAN_BC0 with its low octet stands before it.
#[tactic(auto, unfolding(crate::specs::Grammar::sequence_stands))]
fn number_of(octets: &[u8]) -> Option<u32>
    requires { 9 < length octets.now }
    ensures { ReadsWhen (sequence_stands octets.now) result (λ number. number ≡ four 5 octets.now) }
{
    if octet_at(octets, 3).ok()? != 0x50 {
        return None;
    }
    let number = four_at(octets, 5).ok()?;
    if u32::from(octet_at(octets, 4).ok()?) != number % 256 {
        return None;
    }
    Some(number)
}

// The broadcast that stands in the octets, where they pass the test.
#[tactic(auto, unfolding(crate::specs::Grammar::is_body))]
fn broadcast_of(octets: &[u8]) -> Option<Broadcast>
    ensures { ReadsWhen (is_body octets.now) result (λ broadcast. broadcast ≡ fields_in octets.now) }
{
    expect_length(octets)?;
    let hops = hops_of(octets)?;
    let origin = origin_of(octets)?;
    let number = number_of(octets)?;
    Some(Broadcast {
        hops,
        origin,
        number,
        octets: BroadcastBuf::from_octets(rest_at(octets, 9)),
    })
}
