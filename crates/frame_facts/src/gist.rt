//! What the story of a frame goes by: whom the frame is for, and what its payload is about.
ghost use Rattle.std.specs.Prelude.{◌≡◌, ◌≤◌, length};
ghost use Rattle.plc_base.specs.declared.limits.TheConstants.{LONGEST_FRAME};
ghost use Rattle.frame_facts.specs.Gists.{command_gist, frame_target, head_target, joining_gist, message_gist, payload_gist, route_gist, short_target};
ghost use Rattle.frame_facts.specs.Gists.{unit_gist};

use crate::reading::{join_in, message_in, unit_in};
use loadng_messages::Message;
use mac_frames::{MacHead, read_frame};
use mesh_header::Unit;
use plc_base::{Destination, Eui};

/// Whom a frame is for.
#[derive(Clone, Copy, Debug, PartialEq, Eq)]
pub enum FrameTarget {
    /// Nobody: the octets are no frame.
    Nobody,
    /// All that hear it.
    All,
    /// The node with this short address.
    Node { address: u16 },
    /// The device with this EUI-64, which has no short address yet.
    Device { eui: Eui },
}

/// What a payload is about, as far as a story goes by it.
#[derive(Clone, Copy, Debug, PartialEq, Eq)]
pub enum Gist {
    /// No unit, or a command whose body is none of its code's.
    Unread,
    /// A datagram or a piece of one, with this many hops left to it.
    Bears { hops: u8 },
    /// A route request: by the node with the address `origin`, for the one with the address `sought`, with the cost so far.
    Seeks { origin: u16, sought: u16, cost: u16 },
    /// A route reply: of the node with the address `origin`, to the one that asked.
    Replies { origin: u16, to: u16 },
    /// A route error: the node with the address `lost` can't be reached, and `to` is told.
    Ends { lost: u16, to: u16 },
    /// A joining message about the device with this EUI-64.
    Joins { eui: Eui },
    /// An acknowledgement, a broadcast, a path request or the answer to one.
    Reaches,
}

fn short_target(to: Destination) -> FrameTarget
    ensures { result ≡ short_target to }
{
    let address = to.number();
    if address == 0xFFFF {
        return FrameTarget::All;
    }
    FrameTarget::Node { address }
}

fn head_target(head: &MacHead) -> FrameTarget
    ensures { result ≡ head_target head.now }
{
    match head {
        MacHead::Sealed { to, .. } => short_target(*to),
        MacHead::Up { to, .. } => short_target(*to),
        MacHead::Down { to, .. } => FrameTarget::Device { eui: *to },
    }
}

/// Whom a frame is for, by its header. Nobody exactly where the octets are no frame.
pub fn frame_target(octets: &[u8]) -> FrameTarget
    ensures { result ≡ frame_target octets.now }
{
    match read_frame(octets) {
        Err(_) => FrameTarget::Nobody,
        Ok(frame) => head_target(&frame.head),
    }
}

fn message_gist(message: &Message) -> Gist
    ensures { result ≡ message_gist message.now }
{
    match message {
        Message::Rreq {
            cost,
            origin,
            dest,
            ..
        } => Gist::Seeks {
            origin: origin.number(),
            sought: dest.number(),
            cost: *cost,
        },
        Message::Rrep { origin, to, .. } => Gist::Replies {
            origin: origin.number(),
            to: to.number(),
        },
        Message::Rerr { lost, to } => Gist::Ends {
            lost: lost.number(),
            to: to.number(),
        },
    }
}

fn route_gist(body: &[u8]) -> Gist
    ensures { result ≡ route_gist body.now }
{
    match message_in(body) {
        None => Gist::Unread,
        Some(message) => message_gist(&message),
    }
}

fn joining_gist(body: &[u8]) -> Gist
    ensures { result ≡ joining_gist body.now }
{
    match join_in(body) {
        None => Gist::Unread,
        Some(message) => Gist::Joins { eui: message.eui },
    }
}

fn command_gist(code: u8, body: &[u8]) -> Gist
    ensures { result ≡ command_gist code body.now }
{
    match code {
        1 => route_gist(body),
        2 => joining_gist(body),
        _ => Gist::Reaches,
    }
}

fn unit_gist(unit: &Unit<'_>) -> Gist
    ensures { result ≡ unit_gist unit.now }
{
    match unit {
        Unit::Whole { mesh, .. } => Gist::Bears { hops: mesh.hops },
        Unit::Part { mesh, .. } => Gist::Bears { hops: mesh.hops },
        Unit::Carried { body, .. } => joining_gist(body.octets()),
        Unit::Local { code, body } => command_gist(*code, body.octets()),
    }
}

/// What a payload is about: at most 400 octets, opened where they were sealed.
pub fn payload_gist(payload: &[u8]) -> Gist
    requires { length payload.now ≤ LONGEST_FRAME }
    ensures { result ≡ payload_gist payload.now }
{
    match unit_in(payload) {
        None => Gist::Unread,
        Some(unit) => unit_gist(&unit),
    }
}
