//! Events and flights as a record has them.
ghost use Rattle.std.specs.Prelude.{◌≡◌, ◌≤◌, length};
ghost use Rattle.std.specs.Option.{ForSome, option_copied};
ghost use Rattle.plc_base.specs.declared.limits.TheConstants.{LONGEST_FRAME};
ghost use Rattle.line_record.specs.RunRecords.{address_of, recorded_event, recorded_flight, gist_of, kind_of, made_by, note_of};

use crate::act::{Act, act_of, flight_come};
use frame_facts::{FrameTarget, Gist, PayloadKind, frame_target, payload_gist, payload_kind};
use line_events::{Admission, Answer, Event, Handed, Happenings};

/// An event that was taken, and how it ended.
#[derive(Clone, Copy)]
pub struct RecordedEvent {
    /// The number of its line in the script, from 1.
    pub line: u32,
    /// What it was.
    pub act: Act,
    /// The flight that came to a node, by its number from 1: one that was delivered, or whose octets were injected. 0 where none did.
    pub came: u32,
    /// How it ended.
    pub answer: Answer,
    /// Whether a tag that a node found right was made by nobody.
    pub forged: bool,
    /// The clock after it, in seconds.
    pub clock: u64,
    /// The number of the send whose datagram was handed up, 0 where no node of the run sent it. None where none was handed up.
    pub up: Option<u32>,
    /// The short address of the meter that was allowed, if one was.
    pub address: Option<u16>,
    /// The node of the meter that took its grant, if one did.
    pub took: Option<u16>,
    /// The node of the meter whose joining is done, if one is.
    pub done: Option<u16>,
    /// One more than the number of flights before it.
    pub first_flight: u32,
    /// How many flights are new.
    pub flights: u8,
}

/// A frame that flew.
#[derive(Clone, Copy)]
pub struct RecordedFlight {
    /// The node that sent it.
    pub from: u16,
    /// The number of the send whose datagram it carries on its way, or a part of it; 0 for all others.
    pub note: u32,
    /// Whom it is for.
    pub target: FrameTarget,
    /// The kind of its payload.
    pub kind: PayloadKind,
    /// What its payload is about.
    pub gist: Gist,
    /// The node with the EUI-64 that its payload or its target names, where there is such a node.
    pub device: Option<u32>,
}

fn note_of(up: &Option<Handed<'_>>) -> Option<u32>
    ensures { result ≡ note_of up.now }
{
    match up {
        None => None,
        Some(handed) => Some(handed.note),
    }
}

fn address_of(grant: &Option<Admission>) -> Option<u16>
    ensures { result ≡ address_of grant.now }
{
    match grant {
        None => None,
        Some(admission) => Some(admission.address.number()),
    }
}

/// An event that was taken, by the number of its line, what happened, the clock after it, and the flight before it that has the octets which are
/// injected, 0 where none has.
pub fn recorded_event(
    line: u32,
    event: &Event<'_>,
    happenings: &Happenings<'_>,
    clock: u64,
    same: u32,
) -> RecordedEvent
    ensures { result ≡ recorded_event line event.now happenings.now clock same }
{
    let act = act_of(event);
    RecordedEvent {
        line,
        act,
        came: flight_come(&act, same),
        answer: happenings.answer,
        forged: happenings.forged,
        clock,
        up: note_of(&happenings.up),
        address: address_of(&happenings.grant),
        took: happenings.took,
        done: happenings.done,
        first_flight: happenings.first_flight,
        flights: happenings.flights,
    }
}

fn kind_of(payload: Option<&[u8]>) -> PayloadKind
    requires { ForSome payload (λ p. length p.now ≤ LONGEST_FRAME) }
    ensures { result ≡ kind_of (option_copied payload.entry) }
{
    match payload {
        None => PayloadKind::Unknown,
        Some(octets) => payload_kind(octets),
    }
}

fn gist_of(payload: Option<&[u8]>) -> Gist
    requires { ForSome payload (λ p. length p.now ≤ LONGEST_FRAME) }
    ensures { result ≡ gist_of (option_copied payload.entry) }
{
    match payload {
        None => Gist::Unread,
        Some(octets) => payload_gist(octets),
    }
}

/// A frame that flew: its sender, its note, its octets, its payload where that is plain or a key opens it, at most 400 octets, and the node
/// with the EUI-64 that it names.
pub fn recorded_flight(
    from: u16,
    note: u32,
    octets: &[u8],
    payload: Option<&[u8]>,
    device: Option<u32>,
) -> RecordedFlight
    requires { ForSome payload (λ p. length p.now ≤ LONGEST_FRAME) }
    ensures { result ≡ recorded_flight from note octets.now (option_copied payload.entry) device }
{
    RecordedFlight {
        from,
        note,
        target: frame_target(octets),
        kind: kind_of(payload),
        gist: gist_of(payload),
        device,
    }
}

/// Of the flights of a run, or of what is kept of each, the part of those that an event made.
pub fn made_by<'a, T>(event: &RecordedEvent, items: &'a [T]) -> &'a [T]
    ensures { result.now ≡ made_by event.now items.now }
{
    let start = (event.first_flight as usize)
        .saturating_sub(1)
        .min(items.len());
    let rest = &items[start..];
    let count = (event.flights as usize).min(rest.len());
    &rest[..count]
}
