//! Writes joining messages.
ghost use Rattle.std.specs.Prelude.{ℕ, ◌≡◌, ◌≤◌, ◌+◌, ◌++◌, List, length};
ghost use Rattle.joining_messages.specs.Messages.{IsAllowed, IsBody, IsMessage, Spells, rest_length, rest_of, spelling};

use crate::message::{JoinBody, JoinMessage};
use plc_base::Octets;

fn code_of(body: &JoinBody) -> u8
    ensures { result ≡ Rattle.joining_messages.specs.Messages.code_of body.now }
{
    match body {
        JoinBody::Join { .. } => 1,
        JoinBody::Accept { .. } => 2,
        JoinBody::Challenge { .. } => 3,
        JoinBody::Decline => 4,
        JoinBody::Kick => 5,
        JoinBody::Activate { .. } => 6,
    }
}

fn write_rest<const N: usize>(body: &JoinBody, out: &mut Octets<N>)
    requires allowed { IsAllowed body.now }
    requires room { length out.old + rest_length body.now ≤ N }
    ensures spelled { out.new ≡ out.old ++ rest_of body.now }
    ensures longer { length out.new ≡ length out.old + rest_length body.now }
    ensures body { IsBody body.now }
{
    match body {
        JoinBody::Join { eap } | JoinBody::Challenge { eap } => out.append(eap.octets()),
        JoinBody::Accept { identifier } => {
            out.push(3);
            out.push(*identifier);
            out.push(0);
            out.push(4);
        }
        JoinBody::Decline | JoinBody::Kick => {}
        JoinBody::Activate { index } => out.push(index.number()),
    }
}

/// Appends the one spelling of the message: 9 octets, and what its body has after them.
///
/// A challenge has a packet, and an index is 0 or 1.
pub fn write_join<const N: usize>(message: &JoinMessage, out: &mut Octets<N>)
    requires allowed { IsAllowed message.now.body }
    requires room { length out.old + (9 + rest_length message.now.body) ≤ N }
    ensures spelled { out.new ≡ out.old ++ spelling message.now }
    ensures longer { length out.new ≡ length out.old + (9 + rest_length message.now.body) }
    ensures message { IsMessage message.now }
    // A value has one spelling.
    ensures one_spelling { (octets : List ℕ) → Spells message.now octets → out.new ≡ out.old ++ octets }
{
    out.push(code_of(&message.body));
    out.append(&message.eui.0);
    write_rest(&message.body, out);
}
