//! Reads and writes acknowledgements of route replies.
ghost use Rattle.std.specs.Prelude.{ℕ, ◌≡◌, ◌≤◌, ◌<◌, ◌+◌, ◌++◌, ◌↔◌, List, length, IsSome, IsTrue, IfSome, MatchOption, Some, true, false};
ghost use Rattle.neighbour_checks.specs.Acks.{IsAck, SpellsAck, ack_spelling, is_ack, ack_in};
ghost use Rattle.plc_base.specs.declared.limits.TheConstants.{LONGEST_FRAME};

use plc_base::{FrameBuf, Short, octet_at, two_at};

/// The octets of an acknowledgement.
const ACK_LEN: usize = 5;

/// The first octet of an acknowledgement.
const ACK: u8 = 1;

// The number and the origin that the octets spell, where they pass the test.
#[tactic(auto, using(plc_base::proofs::Places::after_none, plc_base::proofs::Places::after_all))]
fn ack_of(octets: &[u8]) -> Option<(u16, Short)>
    ensures found { IfSome result (λ ack. SpellsAck ack.0 ack.1 octets.now) }
    ensures exact { MatchOption result (is_ack octets.now ≡ false) (λ _. is_ack octets.now ≡ true) }
{
    if octets.len() != ACK_LEN {
        return None;
    }
    if octet_at(octets, 0).ok()? != ACK {
        return None;
    }
    let number = two_at(octets, 1).ok()?;
    if number == 0 {
        return None;
    }
    let origin = Short::new(two_at(octets, 3).ok()?)?;
    Some((number, origin))
}

/// The acknowledgement that the octets, the body of a command 03, spell: the number of the route reply, 1 to 65,535, and the
/// node that gave it. None exactly where they are no acknowledgement.
pub fn read_ack(octets: &[u8]) -> Option<(u16, Short)>
    // What is read is spelled so.
    ensures found { IfSome result (λ ack. SpellsAck ack.0 ack.1 octets.now) }
    // What is read is what stands in the octets, if they are an acknowledgement.
    ensures value { ack_in octets.now ≡ result }
    // What is spelled so is read.
    ensures only { (number origin : ℕ) → SpellsAck number origin octets.now → result ≡ Some (number, origin) }
    // The test says whether there is one.
    ensures exact { IsSome result ↔ IsTrue (is_ack octets.now) }
    // A spelling is of one value.
    ensures one_value { (m a n b : ℕ) → SpellsAck m a octets.now → SpellsAck n b octets.now → (m ≡ n) × (a ≡ b) }
{
    ack_of(octets)
}

/// Appends the one spelling of an acknowledgement, 5 octets, of the route reply with this number, which is not 0, and this
/// origin.
pub fn write_ack(number: u16, origin: Short, out: &mut FrameBuf)
    requires number { 0 < number }
    requires room { length out.old + 5 ≤ LONGEST_FRAME }
    ensures spelled { out.new ≡ out.old ++ ack_spelling number origin }
    ensures ack { IsAck number origin }
    // A value has one spelling.
    ensures one_spelling { (octets : List ℕ) → SpellsAck number origin octets → out.new ≡ out.old ++ octets }
{
    out.push(ACK);
    out.push_be_u16(number);
    out.push_be_u16(origin.number());
}
