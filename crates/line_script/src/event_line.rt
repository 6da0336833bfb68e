//! The line of an event: what [`crate::read_line`] reads as that event.
ghost use Rattle.std.specs.Prelude.{◌≡◌, ◌++◌, OnOk, codes, decimal, string_bytes};
ghost use Rattle.hex.specs.Hex.{encode_lower};
ghost use Rattle.line_script.specs.Kinds.{kind_word};
ghost use Rattle.line_script.specs.Lines.{kept_word, line_of, spaced};

use crate::digits::push_digits;
use crate::kind::EventKind as Kind;
use crate::report::push_number;
use line_events::Event;
use plc_base::LinkCost;
use std::alloc::AllocError;

// A space and a number.
fn push_next(text: &mut String, number: u32) -> Result<(), AllocError>
    ensures { OnOk result (string_bytes text.new ≡ string_bytes text.old ++ (codes " " ++ decimal number)) }
{
    text.push_str(" ")?;
    push_number(text, number)
}

// A space and octets in hexadecimal.
fn push_hex(text: &mut String, octets: &[u8]) -> Result<(), AllocError>
    ensures { OnOk result (string_bytes text.new ≡ string_bytes text.old ++ (codes " " ++ encode_lower octets.now)) }
{
    text.push_str(" ")?;
    push_digits(text, octets)
}

// A word and a number.
fn push_one(text: &mut String, kind: Kind, number: u32) -> Result<(), AllocError>
    ensures { OnOk result (string_bytes text.new
        ≡ string_bytes text.old ++ spaced (kind_word kind) (decimal number)) }
{
    text.push_str(kind.word())?;
    push_next(text, number)
}

// A word and two numbers.
fn push_two(text: &mut String, kind: Kind, first: u32, second: u32) -> Result<(), AllocError>
    ensures { OnOk result (string_bytes text.new
        ≡ string_bytes text.old ++ spaced (kind_word kind) (spaced (decimal first) (decimal second))) }
{
    push_one(text, kind, first)?;
    push_next(text, second)
}

// A word, two numbers and a cost.
fn push_link(
    text: &mut String,
    kind: Kind,
    first: u32,
    second: u32,
    cost: LinkCost,
) -> Result<(), AllocError>
    ensures { OnOk result (string_bytes text.new
        ≡ string_bytes text.old ++ spaced (kind_word kind) (spaced (decimal first) (spaced (decimal second) (decimal cost)))) }
{
    push_two(text, kind, first, second)?;
    push_next(text, u32::from(cost.number()))
}

// A word, a number, and octets.
fn push_one_hex(text: &mut String, kind: Kind, number: u32, octets: &[u8]) -> Result<(), AllocError>
    ensures { OnOk result (string_bytes text.new
        ≡ string_bytes text.old ++ spaced (kind_word kind) (spaced (decimal number) (encode_lower octets.now))) }
{
    push_one(text, kind, number)?;
    push_hex(text, octets)
}

// A word, two numbers, and octets.
fn push_two_hex(
    text: &mut String,
    kind: Kind,
    first: u32,
    second: u32,
    octets: &[u8],
) -> Result<(), AllocError>
    ensures { OnOk result (string_bytes text.new
        ≡ string_bytes text.old ++ spaced (kind_word kind) (spaced (decimal first) (spaced (decimal second) (encode_lower octets.now)))) }
{
    push_two(text, kind, first, second)?;
    push_hex(text, octets)
}

// A word, and octets twice.
fn push_hex_pair(
    text: &mut String,
    kind: Kind,
    first: &[u8],
    second: &[u8],
) -> Result<(), AllocError>
    ensures { OnOk result (string_bytes text.new
        ≡ string_bytes text.old ++ spaced (kind_word kind) (spaced (encode_lower first.now) (encode_lower second.now))) }
{
    text.push_str(kind.word())?;
    push_hex(text, first)?;
    push_hex(text, second)
}

fn kept_word(keeps_new: bool) -> &'static str
    ensures { result.now ≡ kept_word keeps_new }
{
    if keeps_new { "new" } else { "old" }
}

// The line of a write that fails.
fn push_cut(text: &mut String, node: u32, nth: u16, keeps_new: bool) -> Result<(), AllocError>
    ensures { OnOk result (string_bytes text.new
        ≡ string_bytes text.old ++ spaced (kind_word Kind.Cut) (spaced (decimal node) (spaced (decimal nth) (kept_word keeps_new)))) }
{
    push_two(text, Kind::Cut, node, u32::from(nth))?;
    text.push_str(" ")?;
    text.push_str(kept_word(keeps_new))
}

// The line of an event, without its line feed.
fn push_event(text: &mut String, event: &Event<'_>) -> Result<(), AllocError>
    ensures { OnOk result (string_bytes text.new ≡ string_bytes text.old ++ line_of event.now) }
{
    match event {
        Event::Coordinator { eui, key } => push_hex_pair(text, Kind::Coordinator, &eui.0, &key.0),
        Event::Meter { eui, psk } => push_hex_pair(text, Kind::Meter, &eui.0, &psk.0),
        Event::Depot { node } => push_one(text, Kind::Depot, *node),
        Event::Near { a, b, cost } => push_link(text, Kind::Near, *a, *b, *cost),
        Event::Counter { node, value } => push_two(text, Kind::Counter, *node, *value),
        Event::Number { node, value } => push_two(text, Kind::Number, *node, u32::from(*value)),
        Event::Allow { node } => push_one(text, Kind::Allow, *node),
        Event::RandomOctets { node, value } => push_one_hex(
            text,
            Kind::RandomOctets,
            *node,
            &value.0,
        ),
        Event::Join { node, agent } => push_two(text, Kind::Join, *node, *agent),
        Event::Leave { node } => push_one(text, Kind::Leave, *node),
        Event::Send { from, to, datagram } => {
            push_two_hex(text, Kind::Send, *from, *to, datagram.octets())
        }
        Event::Deliver { flight, node, cost } => {
            push_link(text, Kind::Deliver, *flight, *node, *cost)
        }
        Event::Inject { node, cost, octets } => {
            let cost = u32::from(cost.number());
            push_two_hex(text, Kind::Inject, *node, cost, octets.octets())
        }
        Event::Lose { flight } => push_one(text, Kind::Lose, *flight),
        Event::Break { node, next } => push_two(text, Kind::Break, *node, *next),
        Event::Tick { seconds } => push_one(text, Kind::Tick, *seconds),
        Event::Restart { node } => push_one(text, Kind::Restart, *node),
        Event::Cut {
            node,
            nth,
            keeps_new,
        } => push_cut(text, *node, *nth, *keeps_new),
        Event::Rekey { index, key } => {
            push_one_hex(text, Kind::Rekey, u32::from(index.number()), &key.0)
        }
        Event::Challenge { node } => push_one(text, Kind::Challenge, *node),
        Event::Activate { node, index } => {
            push_two(text, Kind::Activate, *node, u32::from(index.number()))
        }
        Event::Kick { node } => push_one(text, Kind::Kick, *node),
        Event::Show { node } => push_one(text, Kind::Show, *node),
        Event::Checks => text.push_str(Kind::Checks.word()),
        Event::Bcast { node, datagram } => {
            push_one_hex(text, Kind::Bcast, *node, datagram.octets())
        }
        Event::Scan { node } => push_one(text, Kind::Scan, *node),
        Event::Choose { node, k } => push_two(text, Kind::Choose, *node, u32::from(*k)),
        Event::Path { from, to } => push_two(text, Kind::Path, *from, *to),
    }
}

/// Appends the line that says an event, with its line feed: the word of its kind and its fields, numbers in decimal, octets in lower case, one space
/// between two words. Where the fields are in their ranges, [`crate::read_line`] reads the line as the event ([`crate::lines_are_read_back`]).
///
/// `AllocError` where the text cannot grow; a part of the line may then stand in it.
pub fn push_line(text: &mut String, event: &Event<'_>) -> Result<(), AllocError>
    ensures { OnOk result (string_bytes text.new ≡ string_bytes text.old ++ (line_of event.now ++ codes "\n")) }
{
    push_event(text, event)?;
    text.push_str("\n")
}
