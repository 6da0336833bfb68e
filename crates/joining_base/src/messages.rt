//! Joining messages on their way: in a plain frame, or as the body of a command.
ghost use Rattle.std.specs.Prelude.{◌≡◌, ◌<◌, ◌≤◌, ◌++◌, ◌∷◌, [], IfSome, length};
ghost use Rattle.joining_messages.specs.Messages.{IsMessage};
ghost use Rattle.joining_messages.specs.Reader.{join_in};
ghost use Rattle.mac_frames.specs.Grammar.{IsPlain};
ghost use Rattle.mac_frames.specs.Grammar as heads;
ghost use Rattle.node_rules.specs.Ciphers.{network};
ghost use Rattle.node_rules.specs.Frames.{spelled};
ghost use Rattle.node_rules.specs.Frames as frames;
ghost use Rattle.node_rules.specs.JoiningPackets.{command_of};
ghost use Rattle.plc_base.specs.declared.limits.TheConstants.{MOST_FRAMES};

use joining_messages::{JoinBody, JoinMessage, read_join, write_join};
use mac_frames::{MacHead, write_header};
use plc_base::{Destination, Eui, FrameBuf, Octets, Out, PAN, Short};

/// The message that octets are, None where they are none.
pub fn read_message(octets: &[u8]) -> Option<JoinMessage>
    ensures message { result ≡ join_in octets.now }
    ensures valid { IfSome result (λ message. IsMessage message) }
{
    match read_join(octets) {
        Ok(message) => Some(message),
        Err(_) => None,
    }
}

/// The command that carries a joining message: at most 138 octets.
pub type CommandBuf = Octets<138>;

/// Writes the octets of the command that carries a message, its code 02 first. They replace what `out` held.
pub fn write_command(message: &JoinMessage, out: &mut CommandBuf)
    requires { IsMessage message.now }
    ensures command { out.new ≡ command_of message.now }
    ensures fits { length out.new ≤ 138 }
{
    out.clear();
    out.push(2);
    write_join(message, out);
}

/// How many octets the command that carries a message is: 10, and what its body has after them.
pub fn command_length(message: &JoinMessage) -> u16
    requires message { IsMessage message.now }
    ensures length { result ≡ length (command_of message.now) }
    ensures fits { result ≤ 138 }
{
    let rest = match &message.body {
        JoinBody::Join { eap } | JoinBody::Challenge { eap } => eap.len(),
        JoinBody::Accept { .. } => 4,
        JoinBody::Decline | JoinBody::Kick => 0,
        JoinBody::Activate { .. } => 1,
    };
    10 + rest as u16
}

// Appends a plain frame with this head, whose payload is a joining command.
fn push_plain(head: &MacHead, message: &JoinMessage, out: &mut Out)
    requires message { IsMessage message.now }
    requires plain { IsPlain head.now }
    requires head { heads.IsAllowed head.now }
    requires room { length out.old.frames < MOST_FRAMES }
    ensures { out.new ≡ record out.old {
      frames = out.old.frames ++ frames.plain_frame head.now message.now ∷ [];
    } }
{
    let Some(frame) = out.frames.push_blank() else {
        unreachable!()
    };
    write_plain(head, message, &mut frame.octets);
}

// Writes the octets of a plain frame with this head, whose payload is a joining command. They replace what `out` held.
fn write_plain(head: &MacHead, message: &JoinMessage, out: &mut FrameBuf)
    requires message { IsMessage message.now }
    requires head { heads.IsAllowed head.now }
    ensures { out.new ≡ (frames.plain_frame head.now message.now).octets }
{
    write_header(head, out);
    out.push(0x40);
    out.push(2);
    write_join(message, out);
}

/// Appends the plain frame that carries a message of a node up to an agent.
#[tactic(auto, unfolding(node_rules::specs::Frames::spelled))]
pub fn push_up(message: &JoinMessage, agent: Short, from: Eui, out: &mut Out)
    requires message { IsMessage message.now }
    requires room { length out.old.frames < MOST_FRAMES }
    ensures { out.new ≡ record out.old {
      frames = out.old.frames ++ spelled network (frames.Up agent from message.now) ∷ [];
    } }
{
    let head = MacHead::Up {
        ack: true,
        version: 1,
        seq: 0,
        pan: PAN,
        to: Destination::one(agent),
        from,
    };
    push_plain(&head, message, out);
}

/// Appends the plain frame that carries a message down to the node that it is about. `from` is the sender's address.
#[tactic(auto, unfolding(node_rules::specs::Frames::spelled))]
pub fn push_down(message: &JoinMessage, from: Short, out: &mut Out)
    requires message { IsMessage message.now }
    requires room { length out.old.frames < MOST_FRAMES }
    ensures { out.new ≡ record out.old {
      frames = out.old.frames ++ spelled network (frames.Down from message.now) ∷ [];
    } }
{
    let head = MacHead::Down {
        ack: true,
        version: 1,
        seq: 0,
        pan: PAN,
        to: message.eui,
        from,
    };
    push_plain(&head, message, out);
}
