//! Headings, bands and spans.
ghost use Rattle.std.specs.Prelude.{◌≡◌, ◌++◌, OnOk};
ghost use Rattle.markup.specs.Markups.{markup_text};
ghost use Rattle.markup.specs.Parts as parts;

use crate::{Attribute, Element, count, end, given, open, push_pieces, start, text};
use std::alloc::AllocError;

/// Appends the heading of a section. It fails only where memory runs out, as all of these calls.
#[tactic(auto, unfolding(crate::specs::Parts::heading))]
pub fn push_heading(out: &mut Vec<u8>, words: &str) -> Result<(), AllocError>
    ensures { OnOk result (out.new.items ≡ out.old.items ++ markup_text (parts.heading words.now)) }
{
    push_pieces(
        out,
        &[
            start(Element::Heading2),
            open(),
            text(words),
            end(Element::Heading2),
        ],
    )
}

/// Appends the heading of a part of a section.
#[tactic(auto, unfolding(crate::specs::Parts::subheading))]
pub fn push_subheading(out: &mut Vec<u8>, words: &str) -> Result<(), AllocError>
    ensures { OnOk result (out.new.items ≡ out.old.items ++ markup_text (parts.subheading words.now)) }
{
    push_pieces(
        out,
        &[
            start(Element::Heading3),
            open(),
            text(words),
            end(Element::Heading3),
        ],
    )
}

/// Appends the name of the page.
#[tactic(auto, unfolding(crate::specs::Parts::name))]
pub fn push_name(out: &mut Vec<u8>, words: &str) -> Result<(), AllocError>
    ensures { OnOk result (out.new.items ≡ out.old.items ++ markup_text (parts.name words.now)) }
{
    push_pieces(
        out,
        &[
            start(Element::Heading1),
            open(),
            text(words),
            end(Element::Heading1),
        ],
    )
}

// The words after a number: those of one, or those of none or more.
fn noun(number: usize, one: &'static str, more: &'static str) -> &'static str
    ensures { result.now ≡ parts.noun number one.now more.now }
{
    if number == 1 {
        return one;
    }
    more
}

#[tactic(auto, unfolding(crate::specs::Parts::sizes))]
fn push_sizes(
    out: &mut Vec<u8>,
    nodes: usize,
    events: usize,
    frames: usize,
) -> Result<(), AllocError>
    ensures { OnOk result (out.new.items ≡ out.old.items ++ markup_text (parts.sizes nodes events frames)) }
{
    push_pieces(
        out,
        &[
            count(nodes),
            text(noun(nodes, " node, ", " nodes, ")),
            count(events),
            text(noun(events, " event, ", " events, ")),
            count(frames),
            text(noun(frames, " frame, ", " frames, ")),
        ],
    )
}

#[tactic(auto, unfolding(crate::specs::Parts::clock))]
fn push_clock(out: &mut Vec<u8>, seconds: usize) -> Result<(), AllocError>
    ensures { OnOk result (out.new.items ≡ out.old.items ++ markup_text (parts.clock seconds)) }
{
    push_pieces(out, &[count(seconds), text(" s of the line's clock")])
}

/// Appends how large a run is: its nodes, events and frames, and the seconds that passed on the line's clock.
#[tactic(auto, unfolding(crate::specs::Parts::totals))]
pub fn push_totals(
    out: &mut Vec<u8>,
    nodes: usize,
    events: usize,
    frames: usize,
    seconds: usize,
) -> Result<(), AllocError>
    ensures { OnOk result (out.new.items ≡ out.old.items ++ markup_text (parts.totals nodes events frames seconds)) }
{
    push_pieces(
        out,
        &[
            start(Element::Paragraph),
            given(Attribute::Class, "sub"),
            open(),
        ],
    )?;
    push_sizes(out, nodes, events, frames)?;
    push_clock(out, seconds)?;
    push_pieces(out, &[end(Element::Paragraph)])
}

/// Appends a band across the page: what is to be seen before all else.
#[tactic(auto, unfolding(crate::specs::Parts::band))]
pub fn push_band(out: &mut Vec<u8>, words: &str) -> Result<(), AllocError>
    ensures { OnOk result (out.new.items ≡ out.old.items ++ markup_text (parts.band words.now)) }
{
    push_pieces(
        out,
        &[
            start(Element::Paragraph),
            given(Attribute::Class, "band"),
            open(),
            text(words),
            end(Element::Paragraph),
        ],
    )
}

/// Appends words of a class.
#[tactic(auto, unfolding(crate::specs::Parts::span))]
pub fn push_span(out: &mut Vec<u8>, class: &str, words: &str) -> Result<(), AllocError>
    ensures { OnOk result (out.new.items ≡ out.old.items ++ markup_text (parts.span class.now words.now)) }
{
    push_pieces(
        out,
        &[
            start(Element::Span),
            given(Attribute::Class, class),
            open(),
            text(words),
            end(Element::Span),
        ],
    )
}

#[tactic(auto, unfolding(crate::specs::Parts::sealing))]
fn push_sealing(out: &mut Vec<u8>) -> Result<(), AllocError>
    ensures { OnOk result (out.new.items ≡ out.old.items ++ markup_text parts.sealing) }
{
    push_span(out, "k0", "joined, seals with key 0")
}

#[tactic(auto, unfolding(crate::specs::Parts::states))]
fn push_states(out: &mut Vec<u8>) -> Result<(), AllocError>
    ensures { OnOk result (out.new.items ≡ out.old.items ++ markup_text parts.states) }
{
    push_sealing(out)?;
    push_span(out, "k1", "key 1")?;
    push_span(out, "out", "not joined")?;
    push_span(out, "halt", "halted")
}

#[tactic(auto, unfolding(crate::specs::Parts::outcomes))]
fn push_outcomes(out: &mut Vec<u8>) -> Result<(), AllocError>
    ensures { OnOk result (out.new.items ≡ out.old.items ++ markup_text parts.outcomes) }
{
    push_span(out, "any", "event")?;
    push_span(out, "up", "handed up, took, done")?;
    push_span(out, "no", "refused")?;
    push_span(out, "f", "forged")?;
    push_span(out, "q", "not meant")
}

/// Appends what the colours of lanes and charts are.
#[tactic(auto, unfolding(crate::specs::Parts::keys))]
pub fn push_keys(out: &mut Vec<u8>) -> Result<(), AllocError>
    ensures { OnOk result (out.new.items ≡ out.old.items ++ markup_text parts.keys) }
{
    push_pieces(
        out,
        &[
            start(Element::Paragraph),
            given(Attribute::Class, "key"),
            open(),
        ],
    )?;
    push_states(out)?;
    push_outcomes(out)?;
    push_pieces(out, &[end(Element::Paragraph)])
}

#[tactic(auto, unfolding(crate::specs::Parts::line_both_ways))]
fn push_line_both_ways(out: &mut Vec<u8>) -> Result<(), AllocError>
    ensures { OnOk result (out.new.items ≡ out.old.items ++ markup_text parts.line_both_ways) }
{
    push_span(out, "w", "hear each other")
}

#[tactic(auto, unfolding(crate::specs::Parts::line_one_way))]
fn push_line_one_way(out: &mut Vec<u8>) -> Result<(), AllocError>
    ensures { OnOk result (out.new.items ≡ out.old.items ++ markup_text parts.line_one_way) }
{
    push_span(out, "w1", "one hears the other")
}

#[tactic(auto, unfolding(crate::specs::Parts::line_to_hop))]
fn push_line_to_hop(out: &mut Vec<u8>) -> Result<(), AllocError>
    ensures { OnOk result (out.new.items ≡ out.old.items ++ markup_text parts.line_to_hop) }
{
    push_span(out, "hop", "next hop to the coordinator, as shown last")
}

#[tactic(auto, unfolding(crate::specs::Parts::lines))]
fn push_lines(out: &mut Vec<u8>) -> Result<(), AllocError>
    ensures { OnOk result (out.new.items ≡ out.old.items ++ markup_text parts.lines) }
{
    push_line_both_ways(out)?;
    push_line_one_way(out)?;
    push_line_to_hop(out)
}

/// Appends what the lines and the colours of a map are.
#[tactic(auto, unfolding(crate::specs::Parts::map_keys))]
pub fn push_map_keys(out: &mut Vec<u8>) -> Result<(), AllocError>
    ensures { OnOk result (out.new.items ≡ out.old.items ++ markup_text parts.map_keys) }
{
    push_pieces(
        out,
        &[
            start(Element::Paragraph),
            given(Attribute::Class, "key"),
            open(),
        ],
    )?;
    push_lines(out)?;
    push_states(out)?;
    push_pieces(out, &[end(Element::Paragraph)])
}

/// Appends the paragraph of a story without a chart, which names the command that explains it.
#[tactic(auto, unfolding(crate::specs::Parts::not_drawn))]
pub fn push_not_drawn(out: &mut Vec<u8>) -> Result<(), AllocError>
    ensures { OnOk result (out.new.items ≡ out.old.items ++ markup_text parts.not_drawn) }
{
    push_pieces(
        out,
        &[
            start(Element::Paragraph),
            given(Attribute::Class, "sub"),
            open(),
            text(
                "Not drawn, since there are many. line_view explain --all tells it event by event.",
            ),
            end(Element::Paragraph),
        ],
    )
}

#[tactic(auto, unfolding(crate::specs::Parts::one_event))]
fn push_one_event(out: &mut Vec<u8>, event: usize) -> Result<(), AllocError>
    ensures { OnOk result (out.new.items ≡ out.old.items ++ markup_text (parts.one_event event)) }
{
    push_pieces(
        out,
        &[
            start(Element::Span),
            given(Attribute::Class, "n"),
            open(),
            text("event "),
            count(event),
            end(Element::Span),
        ],
    )
}

#[tactic(auto, unfolding(crate::specs::Parts::more_events))]
fn push_more_events(out: &mut Vec<u8>, first: usize, last: usize) -> Result<(), AllocError>
    ensures { OnOk result (out.new.items ≡ out.old.items ++ markup_text (parts.more_events first last)) }
{
    push_pieces(
        out,
        &[
            start(Element::Span),
            given(Attribute::Class, "n"),
            open(),
            text("events "),
            count(first),
            text("–"),
            count(last),
            end(Element::Span),
        ],
    )
}

/// Appends the numbers of the first and the last event of a story.
pub fn push_event_numbers(out: &mut Vec<u8>, first: usize, last: usize) -> Result<(), AllocError>
    ensures { OnOk result (out.new.items ≡ out.old.items ++ markup_text (parts.event_numbers first last)) }
{
    if first == last {
        return push_one_event(out, first);
    }
    push_more_events(out, first, last)
}
