//! Reads the fields of the four messages.
ghost use Rattle.std.specs.Prelude.{◌≡◌, ◌<◌, ◌≤◌, ◌+◌, ◌*◌, ◌++◌, length, true, false, MatchResult, Ok, Err, Some, None};
ghost use Rattle.byteorder.specs.Endian.{big_bytes};
ghost use Rattle.plc_base.specs.Fields.{after, octet, part};
ghost use Rattle.joining_messages.specs.Reader.{grant_in};
ghost use Rattle.eap_psk.specs.Messages.{First, granting_text, head};
ghost use Rattle.eap_psk.specs.Faults.{same, is_granting, head_stands, is_first, is_second, is_third, is_fourth};

use crate::fault::EapFault;
use joining_messages::read_grant;
use plc_base::{Eui, Grant, RandomOctets, four_at, octet_at, octets_at, rest_at, two_at};

// Whether two octet strings are the same.
#[tactic(auto, unfolding(crate::specs::Faults::same))]
fn is_same(a: &[u8], b: &[u8]) -> bool
    ensures { result ≡ same a.now b.now }
{
    a == b
}

// The octets are these, or this is the fault.
#[tactic(auto, using(crate::proofs::Same::same_is))]
pub(crate) fn check_same(a: &[u8], b: &[u8], fault: EapFault) -> Result<(), EapFault>
    ensures { MatchResult result (λ _. (same a.now b.now ≡ true) × (a.now ≡ b.now))
        (λ e. (same a.now b.now ≡ false) × (e ≡ fault)) }
{
    if !is_same(a, b) {
        return Err(fault);
    }
    Ok(())
}

// Whether a code is the right one. All octets are read and compared, wherever they differ first.
fn is_code(code: &[u8; 16], right: &[u8; 16]) -> bool
    ensures { result ≡ same code.now right.now }
{
    aes_modes::is_same(code, right)
}

// The code is the right one, or it is a bad one.
#[tactic(auto, using(crate::proofs::Same::same_is))]
pub(crate) fn check_code(code: &[u8; 16], right: &[u8; 16]) -> Result<(), EapFault>
    ensures { MatchResult result (λ _. (same code.now right.now ≡ true) × (code.now ≡ right.now))
        (λ e. (same code.now right.now ≡ false) × (e ≡ EapFault.BadMac)) }
{
    if !is_code(code, right) {
        return Err(EapFault::BadMac);
    }
    Ok(())
}

// The fields in which the heads of messages differ.
#[derive(Clone, Copy)]
struct Fields {
    identifier: u8,
    rand_s: RandomOctets,
}

// What every message begins with: all of it, and the two fields that differ.
#[derive(Clone, Copy)]
pub(crate) struct Head {
    pub(crate) octets: [u8; 22],
    pub(crate) identifier: u8,
    pub(crate) rand_s: RandomOctets,
}

// The fields that differ, of the head of the message of this code and number.
#[tactic(auto, unfolding(crate::specs::Faults::head_stands), using(plc_base::proofs::Places::after_none))]
fn fields_of(packet: &[u8], code: u8, number: u8) -> Result<Fields, EapFault>
    requires number { number ≤ 3 }
    requires long { 22 ≤ length packet.now }
    ensures { MatchResult result
        (λ x. (head_stands code number packet.now ≡ true) × (x.identifier ≡ octet 1 packet.now)
        × (x.rand_s.0 ≡ part 6 16 packet.now) × (length x.rand_s.0 ≡ 16)
        × (packet.now ≡ head code x.identifier (length packet.now) number x.rand_s.0 ++ after 22 packet.now))
        (λ e. (head_stands code number packet.now ≡ false) × (e ≡ EapFault.Form)) }
{
    let first = octet_at(packet, 0)?;
    let identifier = octet_at(packet, 1)?;
    let count = two_at(packet, 2)?;
    let kind = octet_at(packet, 4)?;
    let flags = octet_at(packet, 5)?;
    let rand_s = RandomOctets(octets_at(packet, 6)?);
    if first != code || count as usize != packet.len() || kind != 0x2F || flags != 64 * number {
        return Err(EapFault::Form);
    }
    Ok(Fields { identifier, rand_s })
}

// The head of the message of this code and number.
fn head_of(packet: &[u8], code: u8, number: u8) -> Result<Head, EapFault>
    requires number { number ≤ 3 }
    requires long { 22 ≤ length packet.now }
    ensures { MatchResult result
        (λ x. (head_stands code number packet.now ≡ true) × (x.identifier ≡ octet 1 packet.now)
        × (x.rand_s.0 ≡ part 6 16 packet.now) × (length x.rand_s.0 ≡ 16)
        × (x.octets ≡ part 0 22 packet.now) × (x.octets ≡ head code x.identifier (length packet.now) number x.rand_s.0)
        × (packet.now ≡ head code x.identifier (length packet.now) number x.rand_s.0 ++ after 22 packet.now))
        (λ e. (head_stands code number packet.now ≡ false) × (e ≡ EapFault.Form)) }
{
    let fields = fields_of(packet, code, number)?;
    let octets = octets_at(packet, 0)?;
    Ok(Head {
        octets,
        identifier: fields.identifier,
        rand_s: fields.rand_s,
    })
}

// The first message.
#[derive(Clone, Copy)]
pub(crate) struct FirstMessage {
    pub(crate) head: Head,
    pub(crate) id_s: Eui,
}

#[tactic(auto, unfolding(crate::specs::Faults::is_first), using(plc_base::proofs::Places::after_all))]
pub(crate) fn first_of(packet: &[u8]) -> Result<FirstMessage, EapFault>
    ensures { MatchResult result
        (λ x. (is_first packet.now ≡ true) × (x.head.identifier ≡ octet 1 packet.now) × (length x.head.rand_s.0 ≡ 16)
        × (length x.id_s.0 ≡ 8) × First x.head.identifier x.head.rand_s.0 x.id_s.0 packet.now
        × (x.head.rand_s.0 ≡ part 6 16 packet.now) × (x.id_s.0 ≡ part 22 8 packet.now))
        (λ e. (is_first packet.now ≡ false) × (e ≡ EapFault.Form)) }
{
    if packet.len() != 30 {
        return Err(EapFault::Form);
    }
    let head = head_of(packet, 1, 0)?;
    let id_s = Eui(octets_at(packet, 22)?);
    Ok(FirstMessage { head, id_s })
}

// The second message.
#[derive(Clone, Copy)]
pub(crate) struct SecondMessage {
    pub(crate) rand_s: RandomOctets,
    pub(crate) rand_p: RandomOctets,
    pub(crate) mac_p: [u8; 16],
    pub(crate) id_p: Eui,
}

#[tactic(auto, unfolding(crate::specs::Faults::is_second), using(plc_base::proofs::Places::after_all))]
pub(crate) fn second_of(packet: &[u8]) -> Result<SecondMessage, EapFault>
    ensures { MatchResult result
        (λ x. (is_second packet.now ≡ true) × (x.rand_s.0 ≡ part 6 16 packet.now) × (x.rand_p.0 ≡ part 22 16 packet.now)
        × (x.mac_p ≡ part 38 16 packet.now) × (x.id_p.0 ≡ part 54 8 packet.now)
        × (packet.now ≡ head 2 1 62 1 x.rand_s.0 ++ (x.rand_p.0 ++ (x.mac_p ++ x.id_p.0))))
        (λ e. (is_second packet.now ≡ false) × (e ≡ EapFault.Form)) }
{
    if packet.len() != 62 {
        return Err(EapFault::Form);
    }
    let head = head_of(packet, 2, 1)?;
    if head.identifier != 1 {
        return Err(EapFault::Form);
    }
    let rand_p = RandomOctets(octets_at(packet, 22)?);
    let mac_p = octets_at(packet, 38)?;
    let id_p = Eui(octets_at(packet, 54)?);
    Ok(SecondMessage {
        rand_s: head.rand_s,
        rand_p,
        mac_p,
        id_p,
    })
}

// The third message, up to its encrypted text.
#[derive(Clone, Copy)]
pub(crate) struct ThirdMessage {
    pub(crate) head: Head,
    pub(crate) mac_s: [u8; 16],
    pub(crate) tag: [u8; 16],
}

#[tactic(auto, unfolding(crate::specs::Faults::is_third))]
pub(crate) fn third_of(packet: &[u8]) -> Result<ThirdMessage, EapFault>
    ensures { MatchResult result
        (λ x. (is_third packet.now ≡ true) × (x.head.octets ≡ part 0 22 packet.now)
        × (x.head.octets ≡ head 1 x.head.identifier (length packet.now) 2 x.head.rand_s.0)
        × (58 ≤ length packet.now) × (length packet.now ≤ 128) × (x.head.identifier ≡ octet 1 packet.now)
        × (x.head.rand_s.0 ≡ part 6 16 packet.now) × (length x.head.rand_s.0 ≡ 16)
        × (x.mac_s ≡ part 22 16 packet.now) × (x.tag ≡ part 42 16 packet.now)
        × (packet.now ≡ head 1 x.head.identifier (length packet.now) 2 x.head.rand_s.0
        ++ (x.mac_s ++ (big_bytes 4 0 ++ (x.tag ++ after 58 packet.now)))))
        (λ e. (is_third packet.now ≡ false) × (e ≡ EapFault.Form)) }
{
    if packet.len() < 58 || packet.len() > 128 {
        return Err(EapFault::Form);
    }
    let head = head_of(packet, 1, 2)?;
    let mac_s = octets_at(packet, 22)?;
    if four_at(packet, 38)? != 0 {
        return Err(EapFault::Form);
    }
    let tag = octets_at(packet, 42)?;
    Ok(ThirdMessage { head, mac_s, tag })
}

// The fourth message, up to its encrypted text.
#[derive(Clone, Copy)]
pub(crate) struct FourthMessage {
    pub(crate) head: Head,
    pub(crate) tag: [u8; 16],
}

#[tactic(auto, unfolding(crate::specs::Faults::is_fourth))]
pub(crate) fn fourth_of(packet: &[u8]) -> Result<FourthMessage, EapFault>
    ensures { MatchResult result
        (λ x. (is_fourth packet.now ≡ true) × (length packet.now ≡ 43) × (x.head.octets ≡ part 0 22 packet.now)
        × (x.head.octets ≡ head 2 2 43 3 x.head.rand_s.0) × (x.head.rand_s.0 ≡ part 6 16 packet.now)
        × (length x.head.rand_s.0 ≡ 16) × (x.tag ≡ part 26 16 packet.now)
        × (packet.now ≡ head 2 2 43 3 x.head.rand_s.0 ++ (big_bytes 4 1 ++ (x.tag ++ after 42 packet.now))))
        (λ e. (is_fourth packet.now ≡ false) × (e ≡ EapFault.Form)) }
{
    if packet.len() != 43 {
        return Err(EapFault::Form);
    }
    let head = head_of(packet, 2, 3)?;
    if head.identifier != 2 || four_at(packet, 22)? != 1 {
        return Err(EapFault::Form);
    }
    let tag = octets_at(packet, 26)?;
    Ok(FourthMessage { head, tag })
}

// The grant in the plain text of a third message.
#[tactic(auto, unfolding(crate::specs::Faults::is_granting), using(plc_base::proofs::Places::after_none))]
pub(crate) fn granting_of(text: &[u8]) -> Result<Grant, EapFault>
    ensures { MatchResult result
        (λ grant. (is_granting text.now ≡ true) × (text.now ≡ granting_text grant)
        × (grant_in (after 2 text.now) ≡ Some grant))
        (λ e. (is_granting text.now ≡ false) × (e ≡ EapFault.NoSuccess)) }
{
    if text.len() < 2 {
        return Err(EapFault::NoSuccess);
    }
    let flags = octet_at(text, 0)?;
    let kind = octet_at(text, 1)?;
    if flags != 0xA0 || kind != 2 {
        return Err(EapFault::NoSuccess);
    }
    match read_grant(rest_at(text, 2)) {
        Some(grant) => Ok(grant),
        None => Err(EapFault::NoSuccess),
    }
}
