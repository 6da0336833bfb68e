//! The whole map.
ghost use Rattle.std.specs.Prelude.{◌≡◌, ◌++◌, IfOk, OnOk, string_bytes};
ghost use Rattle.markup.specs.Markups.{markup_text};
ghost use Rattle.run_maps.specs.Maps as maps;

use crate::drawing::{push_circle, push_number_in, push_title};
use crate::layout::{Layout, Spot, layout_of};
use crate::links::{Heard, Links, links_of};
use crate::route::push_routes;
use crate::search::search_of;
use crate::tie::{PlacedTie, has_costs, placed_ties, push_costs_if, push_lines};
use line_record::{Change, Mode, Pasts, RunRecord};
use markup::{Attribute, Element, end, given, given_number, open, push_pieces, start};
use sentence_parts::{number, sentence, words};
use std::alloc::{AllocError, Global};

// What a node was at the end.
fn mode_at_end(changes: &[Change]) -> Mode
    ensures { result ≡ maps.mode_at_end changes.now }
{
    match changes.last() {
        None => Mode::Out,
        Some(change) => change.mode,
    }
}

fn node_class(mode: Mode) -> &'static str
    ensures { result.now ≡ maps.node_class mode }
{
    match mode {
        Mode::Out => "N out",
        Mode::Key0 => "N k0",
        Mode::Key1 => "N k1",
        Mode::Halted => "N halt",
    }
}

fn push_number_if(out: &mut Vec<u8>, holds: bool, node: u32, spot: Spot) -> Result<(), AllocError>
    ensures { OnOk result (out.new.items ≡ out.old.items ++ markup_text (maps.number_if holds node spot)) }
{
    if holds {
        return push_number_in(out, node, spot);
    }
    Ok(())
}

// Up to 120 nodes each has its number.
fn has_numbers(layout: &Layout) -> bool
    ensures { result ≡ maps.has_numbers layout.now }
{
    layout.nodes <= 120
}

#[tactic(auto, unfolding(crate::specs::Maps::node_drawing))]
fn push_node_drawing(
    out: &mut Vec<u8>,
    layout: &Layout,
    mode: Mode,
    node: u32,
    spot: Spot,
) -> Result<(), AllocError>
    ensures { OnOk result (out.new.items ≡ out.old.items ++ markup_text (maps.node_drawing layout.now mode node spot)) }
{
    push_circle(out, node_class(mode), layout.radius(), node, spot)?;
    push_number_if(out, has_numbers(layout), node, spot)
}

#[tactic(auto, unfolding(crate::specs::Maps::node_at))]
fn push_node(out: &mut Vec<u8>, layout: &Layout, pasts: &Pasts, node: u32) -> Result<(), AllocError>
    ensures { OnOk result (out.new.items ≡ out.old.items ++ markup_text (maps.node_at layout.now pasts.now node)) }
{
    let mode = mode_at_end(pasts.changes(node as usize));
    match layout.spot(node) {
        None => Ok(()),
        Some(spot) => push_node_drawing(out, layout, mode, node, spot),
    }
}

// This many nodes.
fn push_nodes(
    out: &mut Vec<u8>,
    layout: &Layout,
    pasts: &Pasts,
    nodes: u32,
) -> Result<(), AllocError>
    ensures { OnOk result (out.new.items ≡ out.old.items ++ markup_text (maps.nodes layout.now pasts.now nodes)) }
{
    for node in 0..nodes {
        push_node(out, layout, pasts, node)?;
    }
    Ok(())
}

#[tactic(auto, unfolding(crate::specs::Maps::title_words))]
fn title_words(alloc: Global, nodes: usize, links: usize) -> Result<String, AllocError>
    ensures { IfOk result (λ text. string_bytes text ≡ maps.title_words nodes links) }
{
    sentence(
        alloc,
        &[
            words("Who hears whom, and each next hop to the coordinator (nodes: "),
            number(nodes),
            words(", links: "),
            number(links),
            words(")"),
        ],
    )
}

// What a screen reader says of the map.
#[tactic(auto, unfolding(crate::specs::Maps::title))]
fn push_map_title(
    out: &mut Vec<u8>,
    alloc: Global,
    nodes: usize,
    links: usize,
) -> Result<(), AllocError>
    ensures { OnOk result (out.new.items ≡ out.old.items ++ markup_text (maps.title nodes links)) }
{
    let said = title_words(alloc, nodes, links)?;
    push_title(out, said.as_str())
}

// The lines, over them the arrows and the costs, and the nodes on top.
#[tactic(auto, unfolding(crate::specs::Maps::content))]
fn push_content(
    out: &mut Vec<u8>,
    alloc: Global,
    links: usize,
    ties: &[PlacedTie],
    layout: &Layout,
    pasts: &Pasts,
    homes: &[u32],
) -> Result<(), AllocError>
    ensures { OnOk result (out.new.items
        ≡ out.old.items ++ markup_text (maps.content links ties.now layout.now pasts.now homes.now)) }
{
    push_map_title(out, alloc, layout.nodes as usize, links)?;
    push_lines(out, alloc, ties)?;
    push_routes(out, alloc, layout, pasts, homes)?;
    push_costs_if(out, has_costs(layout), ties)?;
    push_nodes(out, layout, pasts, layout.nodes)
}

#[tactic(auto, unfolding(crate::specs::Maps::drawing))]
fn push_drawing(
    out: &mut Vec<u8>,
    alloc: Global,
    links: usize,
    ties: &[PlacedTie],
    layout: &Layout,
    pasts: &Pasts,
    homes: &[u32],
) -> Result<(), AllocError>
    ensures { OnOk result (out.new.items
        ≡ out.old.items ++ markup_text (maps.drawing links ties.now layout.now pasts.now homes.now)) }
{
    push_pieces(
        out,
        &[
            start(Element::Svg),
            given_number(Attribute::Width, layout.width()),
            given_number(Attribute::Height, layout.height()),
            given(Attribute::Role, "img"),
            open(),
        ],
    )?;
    push_content(out, alloc, links, ties, layout, pasts, homes)?;
    push_pieces(out, &[end(Element::Svg)])
}

// A map shows at most 1,000 nodes.
fn nodes_of(pasts: &Pasts) -> u32
    ensures { result ≡ maps.nodes_of pasts.now }
{
    pasts.len().min(1000) as u32
}

#[tactic(auto, unfolding(crate::specs::Maps::layout_by))]
fn layout_by(alloc: Global, heards: &[Heard], nodes: u32) -> Result<Layout, AllocError>
    ensures { IfOk result (λ l. l ≡ maps.layout_by heards.now nodes) }
{
    let search = search_of(alloc, nodes, heards)?;
    layout_of(alloc, nodes, search)
}

#[tactic(auto, unfolding(crate::specs::Maps::map_over))]
fn push_map_over(
    out: &mut Vec<u8>,
    alloc: Global,
    links: &Links,
    heards: &[Heard],
    layout: &Layout,
    pasts: &Pasts,
    homes: &[u32],
) -> Result<(), AllocError>
    ensures { OnOk result (out.new.items
        ≡ out.old.items ++ markup_text (maps.map_over links.now heards.now layout.now pasts.now homes.now)) }
{
    let ties = placed_ties(alloc, links, layout, heards)?;
    push_drawing(
        out,
        alloc,
        heards.len(),
        ties.as_slice(),
        layout,
        pasts,
        homes,
    )
}

#[tactic(auto, unfolding(crate::specs::Maps::map_by))]
fn push_map_by(
    out: &mut Vec<u8>,
    alloc: Global,
    links: &Links,
    pasts: &Pasts,
    homes: &[u32],
) -> Result<(), AllocError>
    ensures { OnOk result (out.new.items ≡ out.old.items ++ markup_text (maps.map_by links.now pasts.now homes.now)) }
{
    let heards = links.list(alloc)?;
    let layout = layout_by(alloc, heards.as_slice(), nodes_of(pasts))?;
    push_map_over(out, alloc, links, heards.as_slice(), &layout, pasts, homes)
}

/// Appends the map of a run: who hears whom, what each node was at the end, and its next hop to the coordinator, by the node of each short
/// address.
///
/// It fails only where memory runs out; `out` may end anywhere within the map then.
#[tactic(auto, unfolding(crate::specs::Maps::run_map))]
pub fn push_map(
    out: &mut Vec<u8>,
    alloc: Global,
    run_record: &RunRecord,
    pasts: &Pasts,
    homes: &[u32],
) -> Result<(), AllocError>
    ensures { OnOk result (out.new.items
        ≡ out.old.items ++ markup_text (maps.run_map run_record.now.events.items run_record.now.flights.items pasts.now homes.now)) }
{
    let links = links_of(alloc, run_record)?;
    push_map_by(out, alloc, &links, pasts, homes)
}
