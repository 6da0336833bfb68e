//! Writes discovery messages.
ghost use Rattle.std.specs.Prelude.{ℕ, ◌≡◌, ◌≤◌, ◌+◌, ◌++◌, List, length};
ghost use Rattle.byteorder.specs.Endian.{little_bytes};
ghost use Rattle.pan_discovery.specs.Messages.{IsDiscovery, SpellsDiscovery, beacon_spelling, discovery_spelling};
ghost use Rattle.pan_discovery.specs.declared.message.Discovery.TheVariants.{Beacon};
ghost use Rattle.plc_base.specs.declared.limits.TheConstants.{LONGEST_FRAME};

use crate::message::Discovery;
use crate::reading::role_of;
use byteorder::{ByteOrder, LittleEndian};
use plc_base::{FrameBuf, Short, TO_ALL};

// Appends a number of two octets, the lowest first.
fn push_little(number: u16, out: &mut FrameBuf)
    requires { length out.old + 2 ≤ LONGEST_FRAME }
    ensures { out.new ≡ out.old ++ little_bytes 2 number }
{
    let mut octets = [0; 2];
    LittleEndian::write_u16(&mut octets, number);
    out.append(&octets);
}

// Appends the octets of a beacon.
fn push_beacon(seq: u8, pan: u16, from: Short, cost: u16, out: &mut FrameBuf)
    requires { length out.old + 13 ≤ LONGEST_FRAME }
    ensures spelled { out.new ≡ out.old ++ beacon_spelling seq pan from cost }
    ensures beacon { IsDiscovery (Beacon seq pan from cost) }
{
    out.push_be_u16(0x0080);
    out.push(seq);
    push_little(pan, out);
    push_little(from.number(), out);
    out.push(0xFF);
    out.push(role_of(from));
    out.push_be_u16(0);
    out.push_be_u16(cost);
}

/// Makes `out` the one spelling of a request, 8 octets, or of a beacon, 13; `out` may have held anything.
pub fn write_discovery(value: &Discovery, out: &mut FrameBuf)
    ensures spelled { out.new ≡ discovery_spelling value.now }
    // What is written is a request or a beacon.
    ensures discovery { IsDiscovery value.now }
    // A value has one spelling.
    ensures one_spelling { (octets : List ℕ) → SpellsDiscovery value.now octets → out.new ≡ octets }
{
    out.clear();
    match value {
        Discovery::Request { seq } => {
            out.push_be_u16(0x0308);
            out.push(*seq);
            out.push_be_u16(TO_ALL);
            out.push_be_u16(TO_ALL);
            out.push(0x07);
        }
        Discovery::Beacon {
            seq,
            pan,
            from,
            cost,
        } => push_beacon(*seq, *pan, *from, *cost, out),
    }
}
