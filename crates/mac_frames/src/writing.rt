//! Writes headers and plain frames.
ghost use Rattle.std.specs.Prelude.{◌≡◌, ◌≤◌, ◌+◌, ◌++◌, ◌∷◌, ℕ, List, [], length, reverse};
ghost use Rattle.byteorder.specs.Endian.{little_bytes};
ghost use Rattle.plc_base.specs.Addresses.{IsAddress};
ghost use Rattle.mac_frames.specs.Grammar.{IsTarget, Frame, IsAllowed, IsEightOctets, IsEui, IsHead, IsPlain, header, low_control};
ghost use Rattle.mac_frames.specs.declared.head.MacHead.TheVariants.{Sealed, Up, Down};
ghost use Rattle.plc_base.specs.declared.limits.TheConstants.{LONGEST_FRAME};

use crate::head::MacHead;
use byteorder::{ByteOrder, LittleEndian};
use plc_base::{Destination, Eui, FrameBuf, KeyIndex, Short};

// The first octet of the frame control.
fn low_control(sealed: bool, ack: bool) -> u8
    ensures { result ≡ low_control sealed ack }
{
    match (sealed, ack) {
        (false, false) => 0x41,
        (false, true) => 0x61,
        (true, false) => 0x49,
        (true, true) => 0x69,
    }
}

// Appends a number of two octets, the lowest first.
fn push_u16(out: &mut FrameBuf, number: u16)
    requires { length out.old + 2 ≤ LONGEST_FRAME }
    ensures { out.new ≡ out.old ++ little_bytes 2 number }
{
    let mut octets = [0; 2];
    LittleEndian::write_u16(&mut octets, number);
    out.append(&octets);
}

// Appends a number of four octets, the lowest first.
fn push_u32(out: &mut FrameBuf, number: u32)
    requires { length out.old + 4 ≤ LONGEST_FRAME }
    ensures { out.new ≡ out.old ++ little_bytes 4 number }
{
    let mut octets = [0; 4];
    LittleEndian::write_u32(&mut octets, number);
    out.append(&octets);
}

// Appends the octets of an EUI, the last of its text first.
fn push_reversed(out: &mut FrameBuf, octets: &[u8; 8])
    requires { length out.old + 8 ≤ LONGEST_FRAME }
    ensures spelled { out.new ≡ out.old ++ reverse octets.now }
    ensures octets { IsEightOctets octets.now }
{
    let mut reversed = *octets;
    reversed.reverse();
    out.append(&reversed);
}

// Appends what each header begins with: the frame control, the sequence number and the PAN id.
fn push_front(out: &mut FrameBuf, low: u8, high: u8, seq: u8, pan: u16)
    requires { length out.old + 5 ≤ LONGEST_FRAME }
    ensures { out.new ≡ out.old ++ low ∷ high ∷ seq ∷ little_bytes 2 pan }
{
    out.push(low);
    out.push(high);
    out.push(seq);
    push_u16(out, pan);
}

// Writes the header of a sealed frame.
fn write_sealed(
    out: &mut FrameBuf,
    ack: bool,
    seq: u8,
    pan: u16,
    to: Destination,
    from: Short,
    counter: u32,
    index: KeyIndex,
)
    requires { out.old ≡ [] }
    ensures spelled { out.new ≡ header (Sealed ack seq pan to from counter index) }
    ensures target { IsTarget to }
    ensures address { IsAddress from }
{
    push_front(out, low_control(true, ack), 0x98, seq, pan);
    push_u16(out, to.number());
    push_u16(out, from.number());
    out.push(0x0D);
    push_u32(out, counter);
    out.push(index.number());
}

// Writes the header of a frame from a device without a short address.
fn write_up(
    out: &mut FrameBuf,
    ack: bool,
    version: u8,
    seq: u8,
    pan: u16,
    to: Destination,
    from: &Eui,
)
    requires empty { out.old ≡ [] }
    requires version { version ≤ 1 }
    ensures spelled { out.new ≡ header (Up ack version seq pan to from.now) }
    ensures target { IsTarget to }
    ensures octets { IsEui from.now }
{
    let high = 0xC8 + 0x10 * version;
    push_front(out, low_control(false, ack), high, seq, pan);
    push_u16(out, to.number());
    push_reversed(out, &from.0);
}

// Writes the header of a frame to a device without a short address.
fn write_down(out: &mut FrameBuf, ack: bool, version: u8, seq: u8, pan: u16, to: &Eui, from: Short)
    requires empty { out.old ≡ [] }
    requires version { version ≤ 1 }
    ensures spelled { out.new ≡ header (Down ack version seq pan to.now from) }
    ensures octets { IsEui to.now }
    ensures address { IsAddress from }
{
    let high = 0x8C + 0x10 * version;
    push_front(out, low_control(false, ack), high, seq, pan);
    push_reversed(out, &to.0);
    push_u16(out, from.number());
}

/// Writes the header of 15 octets, which replaces what `out` held.
pub fn write_header(head: &MacHead, out: &mut FrameBuf)
    requires { IsAllowed head.now }
    ensures spelled { out.new ≡ header head.now }
    ensures fields { IsHead head.now }
    ensures longer { length out.new ≡ 15 }
{
    out.clear();
    match head {
        MacHead::Sealed {
            ack,
            seq,
            pan,
            to,
            from,
            counter,
            index,
        } => write_sealed(out, *ack, *seq, *pan, *to, *from, *counter, *index),
        MacHead::Up {
            ack,
            version,
            seq,
            pan,
            to,
            from,
        } => write_up(out, *ack, *version, *seq, *pan, *to, from),
        MacHead::Down {
            ack,
            version,
            seq,
            pan,
            to,
            from,
        } => write_down(out, *ack, *version, *seq, *pan, to, *from),
    }
}

/// Writes the plain frame of a head `Up` or `Down` and a payload, which replaces what `out` held.
///
/// The version is 0 or 1, a short target is not FFFE, and the payload has at most 385 octets.
pub fn plain_frame(head: &MacHead, payload: &[u8], out: &mut FrameBuf)
    requires plain { IsPlain head.now }
    requires allowed { IsAllowed head.now }
    requires room { length payload.now ≤ 385 }
    ensures frame { Frame head.now payload.now out.new }
    // A frame has one spelling.
    ensures one_spelling { (octets : List ℕ) → Frame head.now payload.now octets → octets ≡ out.new }
{
    write_header(head, out);
    out.append(payload);
}
