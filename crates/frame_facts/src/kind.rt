//! The kinds of payloads.
ghost use Rattle.std.specs.Prelude.{◌≡◌, ◌≤◌, length};
ghost use Rattle.plc_base.specs.declared.limits.TheConstants.{LONGEST_FRAME};
ghost use Rattle.frame_facts.specs.Kinds.{ack_kind, bare_or_eap, body_kind, broadcast_kind, command_kind, eap_kind, joining_kind, kind_word, message_kind};
ghost use Rattle.frame_facts.specs.Kinds.{path_kind, payload_kind, route_kind, unit_kind, walk_kind};

use crate::reading::{join_in, message_in, unit_in};
use broadcast_log::read_broadcast;
use joining_messages::JoinBody;
use loadng_messages::Message;
use mesh_header::Unit;
use neighbour_checks::read_ack;
use path_requests::{PathMessage, read_path};

/// What the payload of a frame is, as nodes read it.
#[derive(Clone, Copy, Debug, PartialEq, Eq)]
pub enum PayloadKind {
    /// No unit, or a command whose body is none of its code's.
    Unknown,
    /// A whole datagram.
    Datagram,
    /// A piece of a datagram.
    Piece,
    /// A route request.
    RouteRequest,
    /// A route reply.
    RouteReply,
    /// A route error.
    RouteError,
    /// An acknowledgement of a route reply.
    Acknowledgement,
    /// A broadcast.
    Broadcast,
    /// A path request.
    PathRequest,
    /// An answer to a path request.
    PathAnswer,
    /// A meter asks to join, with no packet.
    Join,
    /// A meter is accepted.
    Accept,
    /// A joining message with a packet that is no message of EAP-PSK.
    Packet,
    /// The four messages of EAP-PSK.
    FirstEap,
    SecondEap,
    ThirdEap,
    FourthEap,
    /// A meter is declined.
    Decline,
    /// A meter has to leave.
    Kick,
    /// A meter has to seal with another key.
    Activate,
}

/// The word for a kind, as a chart has it at an arrow.
pub fn kind_word(kind: PayloadKind) -> &'static str
    ensures { result.now ≡ kind_word kind }
{
    match kind {
        PayloadKind::Unknown => "?",
        PayloadKind::Datagram => "data",
        PayloadKind::Piece => "piece",
        PayloadKind::RouteRequest => "RREQ",
        PayloadKind::RouteReply => "RREP",
        PayloadKind::RouteError => "RERR",
        PayloadKind::Acknowledgement => "ack",
        PayloadKind::Broadcast => "bcast",
        PayloadKind::PathRequest => "path?",
        PayloadKind::PathAnswer => "path",
        PayloadKind::Join => "JOIN",
        PayloadKind::Accept => "ACCEPT",
        PayloadKind::Packet => "EAP",
        PayloadKind::FirstEap => "EAP 1",
        PayloadKind::SecondEap => "EAP 2",
        PayloadKind::ThirdEap => "EAP 3",
        PayloadKind::FourthEap => "EAP 4",
        PayloadKind::Decline => "DECLINE",
        PayloadKind::Kick => "KICK",
        PayloadKind::Activate => "ACTIVATE",
    }
}

/// Which message of EAP-PSK a packet is, by its type and the two highest bits of its flags (RFC 4764, 5.1).
fn eap_kind(packet: &[u8]) -> PayloadKind
    ensures { result ≡ eap_kind packet.now }
{
    if packet.len() < 6 {
        return PayloadKind::Packet;
    }
    if packet[4] != 47 {
        return PayloadKind::Packet;
    }
    match packet[5] / 64 {
        0 => PayloadKind::FirstEap,
        1 => PayloadKind::SecondEap,
        2 => PayloadKind::ThirdEap,
        _ => PayloadKind::FourthEap,
    }
}

fn message_kind(message: &Message) -> PayloadKind
    ensures { result ≡ message_kind message.now }
{
    match message {
        Message::Rreq { .. } => PayloadKind::RouteRequest,
        Message::Rrep { .. } => PayloadKind::RouteReply,
        Message::Rerr { .. } => PayloadKind::RouteError,
    }
}

fn route_kind(body: &[u8]) -> PayloadKind
    ensures { result ≡ route_kind body.now }
{
    match message_in(body) {
        None => PayloadKind::Unknown,
        Some(message) => message_kind(&message),
    }
}

// A request with no packet is a bare one.
fn bare_or_eap(packet: &[u8]) -> PayloadKind
    ensures { result ≡ bare_or_eap packet.now }
{
    if packet.is_empty() {
        return PayloadKind::Join;
    }
    eap_kind(packet)
}

fn body_kind(body: &JoinBody) -> PayloadKind
    ensures { result ≡ body_kind body.now }
{
    match body {
        JoinBody::Join { eap } => bare_or_eap(eap.octets()),
        JoinBody::Accept { .. } => PayloadKind::Accept,
        JoinBody::Challenge { eap } => eap_kind(eap.octets()),
        JoinBody::Decline => PayloadKind::Decline,
        JoinBody::Kick => PayloadKind::Kick,
        JoinBody::Activate { .. } => PayloadKind::Activate,
    }
}

fn joining_kind(body: &[u8]) -> PayloadKind
    ensures { result ≡ joining_kind body.now }
{
    match join_in(body) {
        None => PayloadKind::Unknown,
        Some(message) => body_kind(&message.body),
    }
}

fn ack_kind(body: &[u8]) -> PayloadKind
    ensures { result ≡ ack_kind body.now }
{
    match read_ack(body) {
        None => PayloadKind::Unknown,
        Some(_) => PayloadKind::Acknowledgement,
    }
}

fn broadcast_kind(body: &[u8]) -> PayloadKind
    ensures { result ≡ broadcast_kind body.now }
{
    match read_broadcast(body) {
        None => PayloadKind::Unknown,
        Some(_) => PayloadKind::Broadcast,
    }
}

fn walk_kind(message: &PathMessage) -> PayloadKind
    ensures { result ≡ walk_kind message.now }
{
    match message {
        PathMessage::Ask { .. } => PayloadKind::PathRequest,
        PathMessage::Tell { .. } => PayloadKind::PathAnswer,
    }
}

fn path_kind(body: &[u8]) -> PayloadKind
    ensures { result ≡ path_kind body.now }
{
    match read_path(body) {
        None => PayloadKind::Unknown,
        Some(message) => walk_kind(&message),
    }
}

fn command_kind(code: u8, body: &[u8]) -> PayloadKind
    ensures { result ≡ command_kind code body.now }
{
    match code {
        1 => route_kind(body),
        2 => joining_kind(body),
        3 => ack_kind(body),
        4 => broadcast_kind(body),
        5 => path_kind(body),
        _ => PayloadKind::Unknown,
    }
}

fn unit_kind(unit: &Unit<'_>) -> PayloadKind
    ensures { result ≡ unit_kind unit.now }
{
    match unit {
        Unit::Whole { .. } => PayloadKind::Datagram,
        Unit::Part { .. } => PayloadKind::Piece,
        Unit::Carried { body, .. } => joining_kind(body.octets()),
        Unit::Local { code, body } => command_kind(*code, body.octets()),
    }
}

/// What a payload is: at most 400 octets.
pub fn payload_kind(payload: &[u8]) -> PayloadKind
    requires { length payload.now ≤ LONGEST_FRAME }
    ensures { result ≡ payload_kind payload.now }
{
    match unit_in(payload) {
        None => PayloadKind::Unknown,
        Some(unit) => unit_kind(&unit),
    }
}
