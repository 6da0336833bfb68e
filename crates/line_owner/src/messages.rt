//! The datagrams between the coordinator and its meters.
ghost use Rattle.std.specs.Prelude.{◌≡◌, ◌++◌, OnOk, replicate};
ghost use Rattle.line_owner.specs.Messages.{kind_octet, kind_of, message_length, message_octets, message_in, WrittenIsRead};

use std::alloc::AllocError;

/// What a message of the owner's is, by its first octet.
#[derive(Clone, Copy, Debug, PartialEq, Eq)]
pub enum Kind {
    /// A meter's reading, which it sends by itself.
    Reading,
    /// A meter's reading, which was asked for.
    Reply,
    /// The coordinator asks a meter for its reading.
    Ask,
    /// The coordinator has a reading.
    Receipt,
}

/// A datagram between the coordinator and a meter.
#[derive(Clone, Copy, Debug, PartialEq, Eq)]
pub struct Message {
    pub kind: Kind,
    /// The meter.
    pub node: u32,
    /// Which of its readings, from 1 on.
    pub round: u32,
}

fn kind_octet(kind: Kind) -> u8
    ensures { result ≡ kind_octet kind }
{
    match kind {
        Kind::Reading => 1,
        Kind::Reply => 1,
        Kind::Ask => 2,
        Kind::Receipt => 3,
    }
}

fn kind_of(octet: u8) -> Option<Kind>
    ensures { result ≡ kind_of octet }
{
    match octet {
        1 => Some(Kind::Reading),
        2 => Some(Kind::Ask),
        3 => Some(Kind::Receipt),
        _ => None,
    }
}

fn message_length(octets: usize, kind: Kind) -> usize
    ensures { result ≡ message_length octets kind }
{
    match kind {
        Kind::Ask => 8,
        Kind::Receipt => 8,
        _ => {
            if octets == 0 {
                return 5;
            }
            octets.max(6)
        }
    }
}

fn fill(count: usize, out: &mut Vec<u8>) -> Result<(), AllocError>
    ensures { OnOk result (out.new.items ≡ out.old.items ++ replicate count 90) }
{
    for k in 0..count {
        out.push(90)?;
    }
    Ok(())
}

impl Message {
    /// Appends its octets. A reading has this many octets.
    #[tactic(auto, unfolding(crate::specs::Messages::message_octets))]
    pub fn write(&self, octets: usize, out: &mut Vec<u8>) -> Result<(), AllocError>
        ensures { OnOk result (out.new.items ≡ out.old.items ++ message_octets octets self.now) }
    {
        out.extend_from_slice(&[
            kind_octet(self.kind),
            (self.node / 256 % 256) as u8,
            (self.node % 256) as u8,
            (self.round / 256 % 256) as u8,
            (self.round % 256) as u8,
        ])?;
        fill(message_length(octets, self.kind) - 5, out)
    }

    /// The message that octets are, where they are one.
    #[tactic(auto, unfolding(crate::specs::Messages::message_in))]
    pub fn read(octets: &[u8]) -> Option<Message>
        ensures { result ≡ message_in octets.now }
    {
        if octets.len() < 5 {
            return None;
        }
        let kind = kind_of(octets[0])?;
        Some(Message {
            kind,
            node: u32::from(octets[1]) * 256 + u32::from(octets[2]),
            round: u32::from(octets[3]) * 256 + u32::from(octets[4]),
        })
    }
}

/// A message whose meter and round are below 65,536 is read as it was written, but for whether a reading was asked for: a reply is read as a reading.
pub fn written_messages_are_read()
    ensures { WrittenIsRead }
{}
