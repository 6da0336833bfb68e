//! The words for what stands in the way of a packet or of a command, and the joining commands that a station hands on.
ghost use Rattle.std.specs.Prelude.{◌≡◌, Some, None, MatchOption};
ghost use Rattle.node_rules.specs.MemoryDrafts as drafts;
ghost use Rattle.joining_base.specs.Reasons as reasons;

use eap_psk::EapFault;
use node_rules::{Dropped, Heard, SendRefusal, Way};
use plc_base::OctetRef;

/// A joining command that a station hands on, unread. Its octets stay where they are.
#[derive(Drop)]
pub struct JoiningCommand<'a> {
    /// Where it comes from, and where its answer goes.
    pub way: Way,
    /// What stands after the code 02.
    pub body: OctetRef<'a>,
}

/// The joining command that a station hands on, None where it made something else of the frame. Nothing is moved.
pub fn joining_command<'a>(heard: &Result<Heard<'a>, Dropped>) -> Option<JoiningCommand<'a>>
    ensures { MatchOption result (drafts.unread heard.now ≡ None)
        (λ u. drafts.unread heard.now ≡ Some (record { way = u.way; body = u.body })) }
{
    match heard {
        Ok(Heard::Joining { way, body }) => Some(JoiningCommand {
            way: *way,
            body: OctetRef::new(body.octets()),
        }),
        _ => None,
    }
}

/// The fault of a packet, as the reason of a drop.
pub fn dropped_packet(fault: EapFault) -> Dropped
    ensures { result ≡ drafts.packet_fault fault }
{
    match fault {
        EapFault::Form => Dropped::Form,
        EapFault::OtherSession => Dropped::OtherSession,
        EapFault::BadMac => Dropped::BadMac,
        EapFault::BadChannel => Dropped::BadChannel,
        EapFault::NoSuccess => Dropped::NoSuccess,
    }
}

/// What a command lacks, as the reason of a drop. A refusal that no joined station gives for want of room counts as a failed write.
pub fn dropped_send(reason: SendRefusal) -> Dropped
    ensures { result ≡ reasons.dropped_send reason }
{
    match reason {
        SendRefusal::WaitingFull => Dropped::BufferFull,
        SendRefusal::SeqSpent => Dropped::SeqSpent,
        SendRefusal::CounterSpent => Dropped::CounterSpent,
        SendRefusal::Halted => Dropped::Store,
        SendRefusal::NotJoined => Dropped::Store,
        SendRefusal::BadSize => Dropped::Store,
        SendRefusal::ToSelf => Dropped::Store,
        SendRefusal::Store => Dropped::Store,
    }
}
