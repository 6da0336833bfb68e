//! Reads joining messages.
ghost use Rattle.std.specs.Prelude.{◌≡◌, ◌≤◌, ◌<◌, ◌+◌, ◌∷◌, ◌++◌, [], length, IfOk, MatchResult, Some, None, Ok};
ghost use Rattle.std.specs.Result.{result_ok};
ghost use Rattle.plc_base.specs.Fields.{octet, after};
ghost use Rattle.plc_base.specs.Faults.{ReadsUnless};
ghost use Rattle.joining_messages.specs.Reader.{join_in};
ghost use Rattle.joining_messages.specs.Messages.{IsBody, Spells, rest_of, code_of};
ghost use Rattle.joining_messages.specs.Faults.{code_fault, eui_fault, join_rest_fault, challenge_rest_fault, accept_rest_fault, activate_rest_fault};
ghost use Rattle.joining_messages.specs.Faults.{no_rest_fault, rest_fault, join_fault};
ghost use Rattle.joining_messages.specs.declared.message.JoinMessage.{JoinMessage};

use crate::fault::{JoinFault, JoinFaultKind};
use crate::message::{JoinBody, JoinMessage};
use plc_base::{EapBuf, Eui, Fault, KeyIndex, octet_at, octets_at, rest_at};

#[tactic(auto, unfolding(crate::specs::Faults::code_fault, plc_base::specs::Faults::cut_off), using(plc_base::proofs::Places::after_none))]
fn code_at_front(octets: &[u8]) -> Result<u8, JoinFault>
    ensures { ReadsUnless (code_fault octets.now) result
        (λ x. (0 < x) × (x ≤ 6) × (x ≡ octet 0 octets.now) × (octets.now ≡ x ∷ after 1 octets.now)) }
{
    let code = octet_at(octets, 0)?;
    if code == 0 || code > 6 {
        return Err(Fault::at(JoinFaultKind::Code, 0));
    }
    Ok(code)
}

#[tactic(auto, unfolding(crate::specs::Faults::eui_fault, plc_base::specs::Faults::cut_off))]
fn eui_behind_the_code(octets: &[u8]) -> Result<Eui, JoinFault>
    ensures { ReadsUnless (eui_fault octets.now) result
        (λ x. (9 ≤ length octets.now) × (length x.0 ≡ 8) × (after 1 octets.now ≡ x.0 ++ after 9 octets.now)) }
{
    Ok(Eui(octets_at(octets, 1)?))
}

// Nothing, or a packet.
#[tactic(auto, unfolding(crate::specs::Faults::join_rest_fault))]
fn join_rest(octets: &[u8]) -> Result<EapBuf, JoinFault>
    requires { 9 ≤ length octets.now }
    ensures { ReadsUnless (join_rest_fault octets.now) result
        (λ x. (length x ≤ 128) × (x ≡ after 9 octets.now)) }
{
    let rest = rest_at(octets, 9);
    if rest.len() > 128 {
        return Err(Fault::at(JoinFaultKind::Body, 9));
    }
    Ok(EapBuf::from_octets(rest))
}

// A packet.
#[tactic(auto, unfolding(crate::specs::Faults::challenge_rest_fault))]
fn challenge_rest(octets: &[u8]) -> Result<EapBuf, JoinFault>
    requires { 9 ≤ length octets.now }
    ensures { ReadsUnless (challenge_rest_fault octets.now) result
        (λ x. (0 < length x) × (length x ≤ 128) × (x ≡ after 9 octets.now)) }
{
    let rest = rest_at(octets, 9);
    if rest.is_empty() || rest.len() > 128 {
        return Err(Fault::at(JoinFaultKind::Body, 9));
    }
    Ok(EapBuf::from_octets(rest))
}

// An EAP success, and its identifier.
#[tactic(auto, unfolding(crate::specs::Faults::accept_rest_fault), using(crate::proofs::Rests::four_are))]
fn accept_rest(octets: &[u8]) -> Result<u8, JoinFault>
    requires { 9 ≤ length octets.now }
    ensures { ReadsUnless (accept_rest_fault octets.now) result
        (λ x. (after 9 octets.now ≡ 3 ∷ x ∷ 0 ∷ 4 ∷ [])) }
{
    match rest_at(octets, 9) {
        [3, identifier, 0, 4] => Ok(*identifier),
        _ => Err(Fault::at(JoinFaultKind::Body, 9)),
    }
}

// An index.
#[tactic(auto, unfolding(crate::specs::Faults::activate_rest_fault), using(crate::proofs::Rests::one_is))]
fn activate_rest(octets: &[u8]) -> Result<KeyIndex, JoinFault>
    requires { 9 ≤ length octets.now }
    ensures { ReadsUnless (activate_rest_fault octets.now) result
        (λ x. (x ≤ 1) × (after 9 octets.now ≡ x ∷ [])) }
{
    let [index] = rest_at(octets, 9) else {
        return Err(Fault::at(JoinFaultKind::Body, 9));
    };
    match KeyIndex::new(*index) {
        None => Err(Fault::at(JoinFaultKind::Body, 9)),
        Some(index) => Ok(index),
    }
}

// Nothing.
#[tactic(auto, unfolding(crate::specs::Faults::no_rest_fault), using(plc_base::proofs::Places::after_all))]
fn no_rest(octets: &[u8]) -> Result<(), JoinFault>
    requires { 9 ≤ length octets.now }
    ensures { ReadsUnless (no_rest_fault octets.now) result
        (λ _. (after 9 octets.now ≡ [])) }
{
    if octets.len() > 9 {
        return Err(Fault::at(JoinFaultKind::Body, 9));
    }
    Ok(())
}

// What follows the EUI, by the code.
fn body_of(octets: &[u8], code: u8) -> Result<JoinBody, JoinFault>
    requires head { 9 ≤ length octets.now }
    requires low { 0 < code }
    requires high { code ≤ 6 }
    ensures { ReadsUnless (rest_fault code octets.now) result
        (λ x. IsBody x × (code_of x ≡ code) × (after 9 octets.now ≡ rest_of x)) }
{
    match code {
        1 => Ok(JoinBody::Join {
            eap: join_rest(octets)?,
        }),
        2 => Ok(JoinBody::Accept {
            identifier: accept_rest(octets)?,
        }),
        3 => Ok(JoinBody::Challenge {
            eap: challenge_rest(octets)?,
        }),
        6 => Ok(JoinBody::Activate {
            index: activate_rest(octets)?,
        }),
        4 => {
            no_rest(octets)?;
            Ok(JoinBody::Decline)
        }
        _ => {
            no_rest(octets)?;
            Ok(JoinBody::Kick)
        }
    }
}

// The message that the octets spell, or the first fault.
fn message_of(octets: &[u8]) -> Result<JoinMessage, JoinFault>
    ensures found { IfOk result (λ message. Spells message octets.now) }
    ensures exact { MatchResult result (λ message. join_fault octets.now ≡ None) (λ e. join_fault octets.now ≡ Some e) }
{
    let code = code_at_front(octets)?;
    let eui = eui_behind_the_code(octets)?;
    let body = body_of(octets, code)?;
    Ok(JoinMessage { eui, body })
}

/// The joining message that the octets spell, all of them. Where they spell none, the first fault from the left, with its
/// place.
pub fn read_join(octets: &[u8]) -> Result<JoinMessage, JoinFault>
    // What is read is spelled so.
    ensures found { IfOk result (λ message. Spells message octets.now) }
    // What is read is the message that stands in the octets, if they are one.
    ensures value { join_in octets.now ≡ result_ok result }
    // What is spelled so is read.
    ensures only { (message : JoinMessage) → Spells message octets.now → result ≡ Ok message }
    // A fault is the first one.
    ensures exact { MatchResult result (λ message. join_fault octets.now ≡ None) (λ e. join_fault octets.now ≡ Some e) }
    // A spelling is of one value.
    ensures one_value { (a b : JoinMessage) → Spells a octets.now → Spells b octets.now → a ≡ b }
{
    message_of(octets)
}
