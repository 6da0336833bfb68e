//! Reads route messages.
ghost use Rattle.std.specs.Prelude.{◌≡◌, ◌≤◌, ◌<◌, ◌+◌, ◌∷◌, [], IfOk, MatchResult, Some, None, Ok};
ghost use Rattle.std.specs.Result.{result_ok};
ghost use Rattle.byteorder.specs.Endian.{big_bytes};
ghost use Rattle.plc_base.specs.Fields.{Stands, octet, after};
ghost use Rattle.plc_base.specs.Faults.{ReadsUnless, cut_off};
ghost use Rattle.loadng_messages.specs.Grammar.{IsNumber, Spells};
ghost use Rattle.loadng_messages.specs.declared.message.Message.{Message};
ghost use Rattle.loadng_messages.specs.Reader.{message_in};
ghost use Rattle.loadng_messages.specs.Faults.{number_fault, long, message_fault};

use crate::fault::{MessageFault, MessageFaultKind};
use crate::message::Message;
use plc_base::{Fault, address_at, octet_at, two_at};

#[tactic(auto, unfolding(plc_base::specs::Faults::cut_off), using(plc_base::proofs::Places::after_none))]
fn kind_of(octets: &[u8]) -> Result<u8, MessageFault>
    ensures { ReadsUnless (cut_off MessageFaultKind.Short 1 octets.now) result
        (λ x. (x ≡ octet 0 octets.now) × (octets.now ≡ x ∷ after 1 octets.now)) }
{
    Ok(octet_at(octets, 0)?)
}

#[tactic(auto, unfolding(plc_base::specs::Faults::cut_off))]
fn cost_at(octets: &[u8], at: usize) -> Result<u16, MessageFault>
    requires { at ≤ 9 }
    ensures { ReadsUnless (cut_off MessageFaultKind.Short (at + 2) octets.now) result
        (λ x. Stands (big_bytes 2 x) at octets.now) }
{
    Ok(two_at(octets, at)?)
}

#[tactic(auto, unfolding(crate::specs::Faults::number_fault, plc_base::specs::Faults::cut_off))]
fn number_at(octets: &[u8], at: usize) -> Result<u16, MessageFault>
    requires { at ≤ 9 }
    ensures { ReadsUnless (number_fault at octets.now) result (λ x. IsNumber x × Stands (big_bytes 2 x) at octets.now) }
{
    let number = two_at(octets, at)?;
    if number == 0 {
        return Err(Fault::at(MessageFaultKind::Zero, at));
    }
    Ok(number)
}

#[tactic(auto, unfolding(crate::specs::Faults::long), using(plc_base::proofs::Places::after_all))]
fn end_at(octets: &[u8], end: usize) -> Result<(), MessageFault>
    requires { end ≤ 9 }
    ensures { ReadsUnless (long end octets.now) result (λ x. (after end octets.now ≡ [])) }
{
    if octets.len() > end {
        return Err(Fault::at(MessageFaultKind::Long, end));
    }
    Ok(())
}

// The message that the octets spell, or the first fault.
fn message_of(octets: &[u8]) -> Result<Message, MessageFault>
    ensures found { IfOk result (λ message. Spells message octets.now) }
    ensures exact { MatchResult result (λ _. message_fault octets.now ≡ None) (λ e. message_fault octets.now ≡ Some e) }
{
    match kind_of(octets)? {
        1 => {
            let number = number_at(octets, 1)?;
            let cost = cost_at(octets, 3)?;
            let origin = address_at(octets, 5, MessageFaultKind::Address)?;
            let dest = address_at(octets, 7, MessageFaultKind::Address)?;
            end_at(octets, 9)?;
            Ok(Message::Rreq {
                number,
                cost,
                origin,
                dest,
            })
        }
        2 => {
            let number = number_at(octets, 1)?;
            let cost = cost_at(octets, 3)?;
            let origin = address_at(octets, 5, MessageFaultKind::Address)?;
            let to = address_at(octets, 7, MessageFaultKind::Address)?;
            end_at(octets, 9)?;
            Ok(Message::Rrep {
                number,
                cost,
                origin,
                to,
            })
        }
        3 => {
            let lost = address_at(octets, 1, MessageFaultKind::Address)?;
            let to = address_at(octets, 3, MessageFaultKind::Address)?;
            end_at(octets, 5)?;
            Ok(Message::Rerr { lost, to })
        }
        _ => Err(Fault::at(MessageFaultKind::Kind, 0)),
    }
}

/// The message that the octets spell, all of them. Where they spell none, the first fault from the left, with its place.
pub fn read_message(octets: &[u8]) -> Result<Message, MessageFault>
    // What is read is spelled so.
    ensures found { IfOk result (λ message. Spells message octets.now) }
    // What is read is the value that stands in the octets, if they are one.
    ensures value { message_in octets.now ≡ result_ok result }
    // What is spelled so is read.
    ensures only { (message : Message) → Spells message octets.now → result ≡ Ok message }
    // A fault is the first one.
    ensures exact { MatchResult result (λ _. message_fault octets.now ≡ None) (λ e. message_fault octets.now ≡ Some e) }
    // A spelling is of one value.
    ensures one_value { (a b : Message) → Spells a octets.now → Spells b octets.now → a ≡ b }
{
    message_of(octets)
}
