//! What is drawn of the links.
ghost use Rattle.std.specs.Prelude.{◌≡◌, ◌++◌, IfOk, OnOk, string_bytes};
ghost use Rattle.markup.specs.Markups.{markup_text};
ghost use Rattle.run_maps.specs.Ties as spec_ties;

use crate::drawing::{push_cost, push_titled_path, straight};
use crate::layout::{Layout, Spot};
use crate::links::{Heard, Link, Links};
use sentence_parts::{node, number, sentence, words};
use std::alloc::{AllocError, Global};

/// Two nodes of which one hears the other one, or both do.
#[derive(Clone, Copy, Debug, PartialEq, Eq)]
pub struct Tie {
    /// The node that is heard.
    pub from: u32,
    /// The node that hears it.
    pub to: u32,
    /// The least cost of a frame, if one came.
    pub least: Option<u8>,
    /// How many frames came.
    pub frames: u32,
    /// Whether it is so the other way round too.
    pub both: bool,
}

/// A line with the places of its nodes.
#[derive(Clone, Copy, Debug, PartialEq, Eq)]
pub struct PlacedTie {
    /// The line.
    pub tie: Tie,
    /// Where the node is that is heard.
    pub a: Spot,
    /// Where the one is that hears it.
    pub b: Spot,
}

// The less of two costs, where they are known.
fn least_of(least: Option<u8>, other: Option<u8>) -> Option<u8>
    ensures { result ≡ spec_ties.least_of least other }
{
    let Some(least) = least else {
        return other;
    };
    match other {
        None => Some(least),
        Some(other) => Some(least.min(other)),
    }
}

fn one_way(heard: &Heard) -> Tie
    ensures { result ≡ spec_ties.one_way heard.now }
{
    Tie {
        from: heard.from,
        to: heard.to,
        least: heard.link.least,
        frames: heard.link.frames,
        both: false,
    }
}

fn both_ways(heard: &Heard, back: Link) -> Tie
    ensures { result ≡ spec_ties.both_ways heard.now back }
{
    Tie {
        from: heard.from,
        to: heard.to,
        least: least_of(heard.link.least, back.least),
        frames: heard.link.frames.min(2_000_000) + back.frames.min(2_000_000),
        both: true,
    }
}

// By the link back, if there is one: then the first of the two nodes has the line.
fn tie_by(back: Option<Link>, heard: &Heard) -> Option<Tie>
    ensures { result ≡ spec_ties.tie_by back heard.now }
{
    let Some(back) = back else {
        return Some(one_way(heard));
    };
    if heard.to < heard.from {
        return None;
    }
    Some(both_ways(heard, back))
}

// The line of a link, if that has one.
#[tactic(auto, unfolding(crate::specs::Ties::tie_of))]
fn tie_of(links: &Links, heard: &Heard) -> Option<Tie>
    ensures { result ≡ spec_ties.tie_of links.now heard.now }
{
    tie_by(links.link(heard.to, heard.from), heard)
}

// One more where the count of frames has two bits more.
fn thickness(frames: u32) -> usize
    ensures { result ≡ spec_ties.thickness frames }
{
    if frames < 2 {
        return 1;
    }
    if frames < 8 {
        return 2;
    }
    if frames < 32 {
        return 3;
    }
    if frames < 128 {
        return 4;
    }
    if frames < 512 {
        return 5;
    }
    6
}

fn dash(both: bool) -> &'static str
    ensures { result.now ≡ spec_ties.dash both }
{
    if both {
        return "";
    }
    " one"
}

#[tactic(auto, unfolding(crate::specs::Ties::tie_class))]
fn tie_class(alloc: Global, tie: &Tie) -> Result<String, AllocError>
    ensures { IfOk result (λ text. string_bytes text ≡ spec_ties.tie_class tie.now) }
{
    sentence(
        alloc,
        &[
            words("W w"),
            number(thickness(tie.frames)),
            words(dash(tie.both)),
        ],
    )
}

fn hearing(both: bool) -> &'static str
    ensures { result.now ≡ spec_ties.hearing both }
{
    if both {
        return " and ";
    }
    " is heard by "
}

#[tactic(auto, unfolding(crate::specs::Ties::known_words))]
fn known_words(alloc: Global, tie: &Tie, least: u8) -> Result<String, AllocError>
    ensures { IfOk result (λ text. string_bytes text ≡ spec_ties.known_words tie.now least) }
{
    sentence(
        alloc,
        &[
            node(tie.from),
            words(hearing(tie.both)),
            node(tie.to),
            words(": cost "),
            number(least as usize),
            words(", frames: "),
            number(tie.frames as usize),
        ],
    )
}

#[tactic(auto, unfolding(crate::specs::Ties::unknown_words))]
fn unknown_words(alloc: Global, tie: &Tie) -> Result<String, AllocError>
    ensures { IfOk result (λ text. string_bytes text ≡ spec_ties.unknown_words tie.now) }
{
    sentence(
        alloc,
        &[
            node(tie.from),
            words(hearing(tie.both)),
            node(tie.to),
            words(": a route, no frame"),
        ],
    )
}

// What is said of a line.
#[tactic(auto, unfolding(crate::specs::Ties::tie_words))]
fn tie_words(alloc: Global, tie: &Tie) -> Result<String, AllocError>
    ensures { IfOk result (λ text. string_bytes text ≡ spec_ties.tie_words tie.now) }
{
    match tie.least {
        None => unknown_words(alloc, tie),
        Some(least) => known_words(alloc, tie, least),
    }
}

// A line, if its nodes have a place.
#[tactic(auto, unfolding(crate::specs::Ties::placed_tie))]
fn place_tie(placed: &mut Vec<PlacedTie>, layout: &Layout, tie: Tie) -> Result<(), AllocError>
    ensures { OnOk result (placed.new.items ≡ placed.old.items ++ spec_ties.placed_tie layout.now tie) }
{
    let Some(a) = layout.spot(tie.from) else {
        return Ok(());
    };
    let Some(b) = layout.spot(tie.to) else {
        return Ok(());
    };
    placed.push(PlacedTie { tie, a, b })?;
    Ok(())
}

#[tactic(auto, unfolding(crate::specs::Ties::placed_heard))]
fn place_heard(
    placed: &mut Vec<PlacedTie>,
    links: &Links,
    layout: &Layout,
    heard: &Heard,
) -> Result<(), AllocError>
    ensures { OnOk result (placed.new.items ≡ placed.old.items ++ spec_ties.placed_heard links.now layout.now heard.now) }
{
    match tie_of(links, heard) {
        None => Ok(()),
        Some(tie) => place_tie(placed, layout, tie),
    }
}

/// The lines of the links, each with the places of its nodes.
pub fn placed_ties(
    alloc: Global,
    links: &Links,
    layout: &Layout,
    heards: &[Heard],
) -> Result<Vec<PlacedTie>, AllocError>
    ensures { IfOk result (λ placed. placed.items ≡ spec_ties.placed_ties links.now layout.now heards.now) }
{
    let mut placed = Vec::new(alloc);
    for heard in heards {
        place_heard(&mut placed, links, layout, heard)?;
    }
    Ok(placed)
}

#[tactic(auto, unfolding(crate::specs::Ties::line))]
fn push_line(out: &mut Vec<u8>, alloc: Global, placed: &PlacedTie) -> Result<(), AllocError>
    ensures { OnOk result (out.new.items ≡ out.old.items ++ markup_text (spec_ties.line placed.now)) }
{
    let class = tie_class(alloc, &placed.tie)?;
    let outline = straight(alloc, placed.a, placed.b)?;
    let said = tie_words(alloc, &placed.tie)?;
    push_titled_path(out, class.as_str(), outline.as_str(), said.as_str())
}

/// Appends the lines.
pub fn push_lines(out: &mut Vec<u8>, alloc: Global, ties: &[PlacedTie]) -> Result<(), AllocError>
    ensures { OnOk result (out.new.items ≡ out.old.items ++ markup_text (spec_ties.lines ties.now)) }
{
    for placed in ties {
        push_line(out, alloc, placed)?;
    }
    Ok(())
}

#[tactic(auto, unfolding(crate::specs::Ties::cost_of))]
fn push_cost_of(out: &mut Vec<u8>, placed: &PlacedTie) -> Result<(), AllocError>
    ensures { OnOk result (out.new.items ≡ out.old.items ++ markup_text (spec_ties.cost_of placed.now)) }
{
    match placed.tie.least {
        None => Ok(()),
        Some(least) => push_cost(out, placed.a, placed.b, least),
    }
}

fn push_costs(out: &mut Vec<u8>, ties: &[PlacedTie]) -> Result<(), AllocError>
    ensures { OnOk result (out.new.items ≡ out.old.items ++ markup_text (spec_ties.costs ties.now)) }
{
    for placed in ties {
        push_cost_of(out, placed)?;
    }
    Ok(())
}

/// Up to 20 nodes each line has its cost.
pub fn has_costs(layout: &Layout) -> bool
    ensures { result ≡ spec_ties.has_costs layout.now }
{
    layout.nodes <= 20
}

/// Appends the costs of the lines, if they are shown.
pub fn push_costs_if(out: &mut Vec<u8>, shown: bool, ties: &[PlacedTie]) -> Result<(), AllocError>
    ensures { OnOk result (out.new.items ≡ out.old.items ++ markup_text (spec_ties.costs_if shown ties.now)) }
{
    if !shown {
        return Ok(());
    }
    push_costs(out, ties)
}
