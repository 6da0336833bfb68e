//! Seals the units of a step.
ghost use Rattle.std.specs.Prelude.{◌≡◌, ◌+◌, ◌<◌, ◌≤◌, ◌++◌, ◌∷◌, [], None, length, map};
ghost use Rattle.mesh_header.specs.declared.unit.Unit.TheVariants as mesh;
ghost use Rattle.mesh_header.specs.Grammar.{IsAllowed, spelled_length};
ghost use Rattle.fragment_buffers.specs.Fragmentation.{pieces_of, pieces_cut};
ghost use Rattle.fragment_buffers.specs.Loads as loads;
ghost use Rattle.station_queues.specs.Frames.{unit_frame, frames_of, with_frames};
ghost use Rattle.plc_base.specs.declared.limits.TheConstants.{GREATEST_COUNTER, LONGEST_DATAGRAM, MOST_FRAMES};
ghost use Rattle.station_queues.specs.declared.bodies.TheConstants.{LONGEST_COMMAND};

use aes_modes::Aes;
use fragment_buffers::{piece_at, pieces};
use mac_frames::{MacHead, seal_written, write_header};
use mesh_header::{LONGEST_WHOLE, Mesh, Unit, append_unit};
use plc_base::{Destination, Grant, Key, OctetRef, Out, OutFrame, PAN, Short};

/// Seals a unit under a key, of which `aes` is the schedule, and appends its frame to the others. The frame has the counter, and the
/// address and the active index of the grant.
pub fn seal(
    grant: &Grant,
    key: &Key,
    aes: &Aes,
    counter: u32,
    to: Destination,
    unit: &Unit<'_>,
    note: u32,
    out: &mut Out,
)
    requires aes { aes.now ≡ key.now.0 }
    requires allowed { IsAllowed unit.now }
    requires fits { spelled_length unit.now ≤ 381 }
    requires room { length out.old.frames < MOST_FRAMES }
    ensures { out.new ≡ with_frames (out.old.frames ++ unit_frame grant.now key.now counter
        (record { to = to; unit = unit.now; note = note }) ∷ []) out.old }
{
    let Some(frame) = out.frames.push_blank() else {
        unreachable!()
    };
    write_frame(grant, key, aes, counter, to, unit, note, frame);
}

// Writes the frame of a unit where it stays: the header, the unit after it, and then all of it sealed in place.
fn write_frame(
    grant: &Grant,
    key: &Key,
    aes: &Aes,
    counter: u32,
    to: Destination,
    unit: &Unit<'_>,
    note: u32,
    frame: &mut OutFrame,
)
    requires aes { aes.now ≡ key.now.0 }
    requires allowed { IsAllowed unit.now }
    requires fits { spelled_length unit.now ≤ 381 }
    ensures { frame.new ≡ unit_frame grant.now key.now counter
        (record { to = to; unit = unit.now; note = note }) }
{
    let head = MacHead::Sealed {
        ack: !to.is_all(),
        seq: (counter % 256) as u8,
        pan: PAN,
        to,
        from: grant.address,
        counter,
        index: grant.active,
    };
    write_header(&head, &mut frame.octets);
    append_unit(unit, &mut frame.octets);
    seal_written(aes, &head, &mut frame.octets);
    frame.note = note;
    frame.key = Some(*key);
}

/// The mesh header of a unit that a node originates.
pub fn own_mesh(grant: &Grant, to: Short) -> Mesh
    ensures { result ≡ loads.own_mesh grant.now.address to }
{
    Mesh {
        hops: 14,
        origin: grant.address,
        to,
    }
}

// Seals a datagram in pieces, after the other frames.
fn seal_pieces(
    grant: &Grant,
    key: &Key,
    aes: &Aes,
    first: u32,
    hop: Short,
    to: Short,
    note: u32,
    tag: u16,
    datagram: &[u8],
    out: &mut Out,
)
    requires aes { aes.now ≡ key.now.0 }
    requires long { 376 ≤ length datagram.now }
    requires fits { length datagram.now ≤ LONGEST_DATAGRAM }
    requires left { first + pieces_of (length datagram.now) ≤ GREATEST_COUNTER }
    requires room { length out.old.frames + pieces_of (length datagram.now) ≤ MOST_FRAMES }
    ensures { out.new ≡ with_frames (out.old.frames ++ frames_of grant.now key.now first
        (loads.all_go hop note (map (λ piece. mesh.Part (loads.own_mesh grant.now.address to) piece)
        (pieces_cut datagram.now tag)))) out.old }
{
    for k in 0..pieces(datagram.len() as u16) {
        let piece = piece_at(datagram, tag, k);
        let unit = Unit::Part {
            mesh: own_mesh(grant, to),
            piece,
        };
        seal(
            grant,
            key,
            aes,
            first + u32::from(k),
            Destination::one(hop),
            &unit,
            note,
            out,
        );
    }
}

/// Seals the units of a load for a next hop, with counters from `first` on, and appends their frames to the others, as [`seal`]
/// does. The load is a datagram with its tag, or a command, which has none.
pub fn seal_load(
    grant: &Grant,
    key: &Key,
    aes: &Aes,
    first: u32,
    hop: Short,
    to: Short,
    note: u32,
    tag: Option<u16>,
    octets: &[u8],
    out: &mut Out,
)
    requires aes { aes.now ≡ key.now.0 }
    requires some { 1 ≤ length octets.now }
    requires fits { length octets.now ≤ LONGEST_DATAGRAM }
    requires command { tag ≡ None → length octets.now ≤ LONGEST_COMMAND }
    requires left { first + loads.units_in (loads.load_of tag octets.now) ≤ GREATEST_COUNTER }
    requires room { length out.old.frames + loads.units_in (loads.load_of tag octets.now) ≤ MOST_FRAMES }
    ensures { out.new ≡ with_frames (out.old.frames ++ frames_of grant.now key.now first
        (loads.all_go hop note (loads.units_of grant.now.address to (loads.load_of tag octets.now)))) out.old }
{
    let Some(tag) = tag else {
        let unit = Unit::Carried {
            mesh: own_mesh(grant, to),
            body: OctetRef::new(&octets[1..]),
        };
        seal(
            grant,
            key,
            aes,
            first,
            Destination::one(hop),
            &unit,
            note,
            out,
        );
        return;
    };
    if octets.len() > LONGEST_WHOLE {
        seal_pieces(grant, key, aes, first, hop, to, note, tag, octets, out);
        return;
    }
    let unit = Unit::Whole {
        mesh: own_mesh(grant, to),
        octets: OctetRef::new(octets),
    };
    seal(
        grant,
        key,
        aes,
        first,
        Destination::one(hop),
        &unit,
        note,
        out,
    );
}
