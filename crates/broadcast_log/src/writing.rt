//! Writes broadcasts.
ghost use Rattle.std.specs.Prelude.{ℕ, ◌≡◌, ◌≤◌, ◌+◌, ◌++◌, List, length};
ghost use Rattle.broadcast_log.specs.Grammar.{IsAllowed, IsBroadcast, Spells, spelling};
ghost use Rattle.plc_base.specs.declared.limits.TheConstants.{LONGEST_FRAME};

use crate::broadcast::Broadcast;
use plc_base::FrameBuf;

/// Appends the one spelling of the broadcast: 9 octets and the datagram. The hops are 1 to 14, and the datagram is not empty.
pub fn write_broadcast(value: &Broadcast, out: &mut FrameBuf)
    requires allowed { IsAllowed value.now }
    requires room { length out.old + 369 ≤ LONGEST_FRAME }
    ensures spelled { out.new ≡ out.old ++ spelling value.now }
    ensures broadcast { IsBroadcast value.now }
    // A value has one spelling.
    ensures one_spelling { (octets : List ℕ) → Spells value.now octets → out.new ≡ out.old ++ octets }
{
    out.push(value.hops);
    out.push_be_u16(value.origin.number());
    out.push(0x50);
    out.push((value.number % 256) as u8);
    out.push_be_u32(value.number);
    out.append(value.octets.octets());
}
