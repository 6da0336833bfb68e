//! Reads path messages.
ghost use Rattle.std.specs.Prelude.{◌≡◌, ◌≤◌, ◌<◌, ◌+◌, ◌*◌, ◌++◌, ◌∷◌, [], length, IfSome, Some, true, false, not, ◌&&◌, if◌then◌else◌};
ghost use Rattle.plc_base.specs.Addresses.{is_address};
ghost use Rattle.plc_base.specs.Faults.{ReadsWhen};
ghost use Rattle.plc_base.specs.Fields.{octet, two};
ghost use Rattle.path_requests.specs.Walks.{has, is_walk, walk_at};
ghost use Rattle.path_requests.specs.Messages.{SpellsPath};
ghost use Rattle.path_requests.specs.Reader.{is_ask, is_tell, asked_walk, tell_walk, path_in};
ghost use Rattle.path_requests.specs.declared.message.PathMessage.{PathMessage};
ghost use Rattle.path_requests.specs.declared.message.PathMessage.TheVariants.{Ask, Tell};

use crate::message::PathMessage;
use crate::walk::Walk;
use plc_base::{Short, octet_at, two_at};

// Appends the address at a place, if it is one and not yet in the walk; whether it was.
fn extend(walk: &mut Walk, octets: &[u8], at: usize) -> bool
    requires within { at + 2 ≤ length octets.now }
    requires room { length walk.old < 16 }
    requires near { at ≤ 40 }
    ensures answer { result ≡ (is_address (two at octets.now) && not (has (two at octets.now) walk.old)) }
    ensures walk { walk.new ≡ (if result then walk.old ++ two at octets.now ∷ [] else walk.old) }
{
    let Ok(number) = two_at(octets, at) else {
        return false;
    };
    let Some(address) = Short::new(number) else {
        return false;
    };
    if walk.has(address) {
        return false;
    }
    walk.push(address);
    true
}

// The walk of this many addresses from a place on.
fn walk_of(octets: &[u8], at: usize, count: usize) -> Option<Walk>
    requires within { at + 2 * count ≤ length octets.now }
    requires count { count ≤ 16 }
    requires near { at ≤ 4 }
    ensures { ReadsWhen (is_walk (walk_at count at octets.now)) result (λ walk. walk ≡ walk_at count at octets.now) }
{
    let mut walk = Walk::new();
    for k in 0..count {
        if !extend(&mut walk, octets, at + 2 * k) {
            return None;
        }
    }
    Some(walk)
}

// The ask that octets are whose first is 01.
#[tactic(auto, unfolding(crate::specs::Reader::is_ask))]
fn ask_of(octets: &[u8]) -> Option<PathMessage>
    ensures { ReadsWhen (is_ask octets.now) result
        (λ message. message ≡ Ask (two 1 octets.now) (asked_walk octets.now)) }
{
    if octets.len() < 4 {
        return None;
    }
    let target = Short::new(two_at(octets, 1).ok()?)?;
    let count = usize::from(octet_at(octets, 3).ok()?);
    if count == 0 {
        return None;
    }
    if count > 15 {
        return None;
    }
    if octets.len() != 4 + 2 * count {
        return None;
    }
    let walk = walk_of(octets, 4, count)?;
    if walk.has(target) {
        return None;
    }
    Some(PathMessage::Ask { target, walk })
}

// The tell that octets are whose first is 02.
#[tactic(auto, unfolding(crate::specs::Reader::is_tell))]
fn tell_of(octets: &[u8]) -> Option<PathMessage>
    ensures { ReadsWhen (is_tell octets.now) result (λ message. message ≡ Tell (tell_walk octets.now)) }
{
    if octets.len() < 2 {
        return None;
    }
    let count = usize::from(octet_at(octets, 1).ok()?);
    if count < 2 {
        return None;
    }
    if count > 16 {
        return None;
    }
    if octets.len() != 2 + 2 * count {
        return None;
    }
    let walk = walk_of(octets, 2, count)?;
    Some(PathMessage::Tell { walk })
}

// The first octet, 0 if there is none.
#[tactic(auto, unfolding(plc_base::specs::Fields::octet))]
fn kind_of(octets: &[u8]) -> u8
    ensures { result ≡ octet 0 octets.now }
{
    if octets.is_empty() {
        return 0;
    }
    octets[0]
}

// The message that the octets are.
#[tactic(auto, unfolding(crate::specs::Reader::path_in))]
fn path_of(octets: &[u8]) -> Option<PathMessage>
    ensures { path_in octets.now ≡ result }
{
    match kind_of(octets) {
        1 => ask_of(octets),
        2 => tell_of(octets),
        _ => None,
    }
}

/// The message that the octets, the body of a command 05, spell. None exactly where they are no path message.
pub fn read_path(octets: &[u8]) -> Option<PathMessage>
    // What is read is spelled so.
    ensures found { IfSome result (λ message. SpellsPath message octets.now) }
    // What is read is the message that stands in the octets, if they are one.
    ensures value { path_in octets.now ≡ result }
    // What is spelled so is read.
    ensures only { (message : PathMessage) → SpellsPath message octets.now → result ≡ Some message }
    // A spelling is of one value.
    ensures one_value { (a b : PathMessage) → SpellsPath a octets.now → SpellsPath b octets.now → a ≡ b }
{
    path_of(octets)
}
