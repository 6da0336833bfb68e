//! Writes route messages.
ghost use Rattle.std.specs.Prelude.{ℕ, ◌≡◌, ◌≤◌, ◌+◌, ◌++◌, List, length};
ghost use Rattle.loadng_messages.specs.Grammar.{IsAllowed, IsMessage, Spells, spelling};

use crate::message::Message;
use plc_base::Octets;

/// Appends the one spelling of the message: 9 octets, or 5 for a route error. The number is not 0.
pub fn write_message<const N: usize>(message: &Message, out: &mut Octets<N>)
    requires number { IsAllowed message.now }
    requires room { length out.old + 9 ≤ N }
    ensures spelled { out.new ≡ out.old ++ spelling message.now }
    ensures message { IsMessage message.now }
    // A value has one spelling.
    ensures one_spelling { (octets : List ℕ) → Spells message.now octets → out.new ≡ out.old ++ octets }
{
    match *message {
        Message::Rreq {
            number,
            cost,
            origin,
            dest,
        } => {
            out.push(1);
            out.push_be_u16(number);
            out.push_be_u16(cost);
            out.push_be_u16(origin.number());
            out.push_be_u16(dest.number());
        }
        Message::Rrep {
            number,
            cost,
            origin,
            to,
        } => {
            out.push(2);
            out.push_be_u16(number);
            out.push_be_u16(cost);
            out.push_be_u16(origin.number());
            out.push_be_u16(to.number());
        }
        Message::Rerr { lost, to } => {
            out.push(3);
            out.push_be_u16(lost.number());
            out.push_be_u16(to.number());
        }
    }
}
