//! Reads discovery messages.
ghost use Rattle.std.specs.Prelude.{◌≡◌, IfSome, Some};
ghost use Rattle.plc_base.specs.Faults.{ReadsWhen};
ghost use Rattle.plc_base.specs.Fields.{octet, two, little_two};
ghost use Rattle.pan_discovery.specs.Messages.{SpellsDiscovery, role};
ghost use Rattle.pan_discovery.specs.Reader.{is_request, is_beacon, discovery_in};
ghost use Rattle.pan_discovery.specs.declared.message.Discovery.{Discovery};
ghost use Rattle.pan_discovery.specs.declared.message.Discovery.TheVariants.{Request, Beacon};

use crate::message::Discovery;
use plc_base::{Short, TO_ALL, little_two_at, octet_at, two_at};

/// The octets of a beacon request.
const REQUEST_LEN: usize = 8;

/// The octets of a beacon.
const BEACON_LEN: usize = 13;

/// The second octet of a beacon's superframe specification: the coordinator's at 0000, and another node's at any other
/// address. Both admit nodes.
pub(crate) fn role_of(from: Short) -> u8
    ensures { result ≡ role from }
{
    if from.number() == 0 {
        return 0xCF;
    }
    0x8F
}

// The request that octets are.
#[tactic(auto, unfolding(crate::specs::Reader::is_request))]
fn request_of(octets: &[u8]) -> Option<Discovery>
    ensures { ReadsWhen (is_request octets.now) result (λ message. message ≡ Request (octet 2 octets.now)) }
{
    if octets.len() != REQUEST_LEN {
        return None;
    }
    if two_at(octets, 0).ok()? != 0x0308 {
        return None;
    }
    let seq = octet_at(octets, 2).ok()?;
    if two_at(octets, 3).ok()? != TO_ALL {
        return None;
    }
    if two_at(octets, 5).ok()? != TO_ALL {
        return None;
    }
    if octet_at(octets, 7).ok()? != 0x07 {
        return None;
    }
    Some(Discovery::Request { seq })
}

// The beacon that octets are.
#[tactic(auto, unfolding(crate::specs::Reader::is_beacon))]
fn beacon_of(octets: &[u8]) -> Option<Discovery>
    ensures { ReadsWhen (is_beacon octets.now) result
        (λ message. message
        ≡ Beacon (octet 2 octets.now) (little_two 3 octets.now) (little_two 5 octets.now) (two 11 octets.now)) }
{
    if octets.len() != BEACON_LEN {
        return None;
    }
    if two_at(octets, 0).ok()? != 0x0080 {
        return None;
    }
    let seq = octet_at(octets, 2).ok()?;
    let pan = little_two_at(octets, 3).ok()?;
    let from = Short::new(little_two_at(octets, 5).ok()?)?;
    if octet_at(octets, 7).ok()? != 0xFF {
        return None;
    }
    if octet_at(octets, 8).ok()? != role_of(from) {
        return None;
    }
    if two_at(octets, 9).ok()? != 0 {
        return None;
    }
    let cost = two_at(octets, 11).ok()?;
    Some(Discovery::Beacon {
        seq,
        pan,
        from,
        cost,
    })
}

// The request or the beacon that octets are.
#[tactic(auto, unfolding(crate::specs::Reader::discovery_in))]
fn discovery_of(octets: &[u8]) -> Option<Discovery>
    ensures { discovery_in octets.now ≡ result }
{
    if octets.len() == REQUEST_LEN {
        return request_of(octets);
    }
    beacon_of(octets)
}

/// The request or the beacon that the octets, a whole frame without its check sequence, spell. None exactly where they
/// are neither.
pub fn read_discovery(octets: &[u8]) -> Option<Discovery>
    // What is read is spelled so.
    ensures found { IfSome result (λ message. SpellsDiscovery message octets.now) }
    // What is read is what stands in the octets, if they are a request or a beacon.
    ensures value { discovery_in octets.now ≡ result }
    // What is spelled so is read.
    ensures only { (message : Discovery) → SpellsDiscovery message octets.now → result ≡ Some message }
    // A spelling is of one value.
    ensures one_value { (a b : Discovery) → SpellsDiscovery a octets.now → SpellsDiscovery b octets.now → a ≡ b }
{
    discovery_of(octets)
}
