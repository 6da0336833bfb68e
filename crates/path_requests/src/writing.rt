//! Writes path messages.
ghost use Rattle.std.specs.Prelude.{ℕ, ◌≡◌, ◌≤◌, ◌+◌, ◌*◌, ◌++◌, List, length};
ghost use Rattle.path_requests.specs.Walks.{walk_octets};
ghost use Rattle.path_requests.specs.Messages.{IsPath, SpellsPath, path_spelling};
ghost use Rattle.plc_base.specs.declared.limits.TheConstants.{LONGEST_FRAME};

use crate::message::PathMessage;
use plc_base::{FrameBuf, Short};

// Appends addresses, two octets each.
fn write_addresses(addresses: &[Short], out: &mut FrameBuf)
    requires { length out.old + 2 * length addresses.now ≤ LONGEST_FRAME }
    ensures { out.new ≡ out.old ++ walk_octets addresses.now }
{
    for address in addresses {
        out.push_be_u16(address.number());
    }
}

/// Appends the one spelling of the message: 4 octets and two for each address of an ask, 2 and two for each of a tell, so 34 at
/// most. The message is as its fields say.
pub fn write_path(message: &PathMessage, out: &mut FrameBuf)
    requires path { IsPath message.now }
    requires room { length out.old + 34 ≤ LONGEST_FRAME }
    ensures spelled { out.new ≡ out.old ++ path_spelling message.now }
    // A value has one spelling.
    ensures one_spelling { (octets : List ℕ) → SpellsPath message.now octets → out.new ≡ out.old ++ octets }
{
    match message {
        PathMessage::Ask { target, walk } => {
            out.push(1);
            out.push_be_u16(target.number());
            out.push(walk.len() as u8);
            write_addresses(walk.addresses(), out);
        }
        PathMessage::Tell { walk } => {
            out.push(2);
            out.push(walk.len() as u8);
            write_addresses(walk.addresses(), out);
        }
    }
}
