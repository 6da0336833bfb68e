//! What is drawn of the routes to the coordinator.
ghost use Rattle.std.specs.Prelude.{◌≡◌, ◌++◌, IfOk, OnOk, string_bytes};
ghost use Rattle.markup.specs.Markups.{markup_text};
ghost use Rattle.run_maps.specs.Routes as spec_routes;

use crate::drawing::{push_title, straight};
use crate::layout::{Layout, Spot, is_tree};
use line_record::Pasts;
use markup::{Attribute, Element, end, given, given_number, leaf, open, push_pieces, start};
use sentence_parts::{node, sentence, words};
use std::alloc::{AllocError, Global};

// The node of a short address.
fn home_by(address: Option<u16>, homes: &[u32]) -> Option<u32>
    ensures { result ≡ spec_routes.home_by address homes.now }
{
    let Some(address) = address else {
        return None;
    };
    homes.get(address as usize).copied()
}

// The node that is the next hop of another one.
fn hop_of(pasts: &Pasts, homes: &[u32], node: u32) -> Option<u32>
    ensures { result ≡ spec_routes.hop_of pasts.now homes.now node }
{
    home_by(pasts.next_hop(node as usize), homes)
}

// Thinner where there are many.
fn route_class(few: bool) -> &'static str
    ensures { result.now ≡ spec_routes.route_class few }
{
    if few {
        return "R";
    }
    "R thin"
}

// Where the head of an arrow ends, in widths of its line: before the circle of the next hop.
#[tactic(auto, unfolding(crate::specs::Routes::tip))]
fn tip(layout: &Layout) -> usize
    ensures { result ≡ spec_routes.tip layout.now }
{
    if is_tree(layout.nodes) {
        return 14;
    }
    7 + layout.radius().min(15)
}

#[tactic(auto, unfolding(crate::specs::Routes::head_path))]
fn push_head_path(out: &mut Vec<u8>) -> Result<(), AllocError>
    ensures { OnOk result (out.new.items ≡ out.old.items ++ markup_text spec_routes.head_path) }
{
    push_pieces(
        out,
        &[
            start(Element::Path),
            given(Attribute::Class, "Z"),
            given(Attribute::Outline, "M0 -3L6 0L0 3z"),
            leaf(),
        ],
    )
}

// It has the direction of its line.
#[tactic(auto, unfolding(crate::specs::Routes::head_marker))]
fn push_head_marker(out: &mut Vec<u8>, tip: usize) -> Result<(), AllocError>
    ensures { OnOk result (out.new.items ≡ out.old.items ++ markup_text (spec_routes.head_marker tip)) }
{
    push_pieces(
        out,
        &[
            start(Element::Marker),
            given(Attribute::Id, "hop"),
            given(Attribute::Orientation, "auto"),
            given_number(Attribute::ReferenceX, tip),
            open(),
        ],
    )?;
    push_head_path(out)?;
    push_pieces(out, &[end(Element::Marker)])
}

// The head of all arrows.
#[tactic(auto, unfolding(crate::specs::Routes::head))]
fn push_head(out: &mut Vec<u8>, tip: usize) -> Result<(), AllocError>
    ensures { OnOk result (out.new.items ≡ out.old.items ++ markup_text (spec_routes.head tip)) }
{
    push_pieces(out, &[start(Element::Definitions), open()])?;
    push_head_marker(out, tip)?;
    push_pieces(out, &[end(Element::Definitions)])
}

#[tactic(auto, unfolding(crate::specs::Routes::route_words))]
fn route_words(alloc: Global, from: u32, hop: u32) -> Result<String, AllocError>
    ensures { IfOk result (λ text. string_bytes text ≡ spec_routes.route_words from hop) }
{
    sentence(
        alloc,
        &[
            words("route of "),
            node(from),
            words(" to the coordinator, next hop "),
            node(hop),
        ],
    )
}

#[tactic(auto, unfolding(crate::specs::Routes::arrow))]
fn push_arrow(out: &mut Vec<u8>, class: &str, outline: &str, said: &str) -> Result<(), AllocError>
    ensures { OnOk result (out.new.items ≡ out.old.items ++ markup_text (spec_routes.arrow class.now outline.now said.now)) }
{
    push_pieces(
        out,
        &[
            start(Element::Path),
            given(Attribute::Class, class),
            given(Attribute::Outline, outline),
            given(Attribute::MarkerEnd, "url(#hop)"),
            open(),
        ],
    )?;
    push_title(out, said)?;
    push_pieces(out, &[end(Element::Path)])
}

#[tactic(auto, unfolding(crate::specs::Routes::route_between))]
fn push_route_between(
    out: &mut Vec<u8>,
    alloc: Global,
    layout: &Layout,
    from: u32,
    hop: u32,
    a: Spot,
    b: Spot,
) -> Result<(), AllocError>
    ensures { OnOk result (out.new.items ≡ out.old.items ++ markup_text (spec_routes.route_between layout.now from hop a b)) }
{
    let outline = straight(alloc, a, b)?;
    let said = route_words(alloc, from, hop)?;
    let class = route_class(is_tree(layout.nodes));
    push_arrow(out, class, outline.as_str(), said.as_str())
}

// Between the places of two nodes, if they have one.
#[tactic(auto, unfolding(crate::specs::Routes::route_to))]
fn push_route_to(
    out: &mut Vec<u8>,
    alloc: Global,
    layout: &Layout,
    from: u32,
    hop: u32,
) -> Result<(), AllocError>
    ensures { OnOk result (out.new.items ≡ out.old.items ++ markup_text (spec_routes.route_to layout.now from hop)) }
{
    let Some(a) = layout.spot(from) else {
        return Ok(());
    };
    let Some(b) = layout.spot(hop) else {
        return Ok(());
    };
    push_route_between(out, alloc, layout, from, hop, a, b)
}

#[tactic(auto, unfolding(crate::specs::Routes::route_of))]
fn push_route_of(
    out: &mut Vec<u8>,
    alloc: Global,
    layout: &Layout,
    pasts: &Pasts,
    homes: &[u32],
    node: u32,
) -> Result<(), AllocError>
    ensures { OnOk result (out.new.items
        ≡ out.old.items ++ markup_text (spec_routes.route_of layout.now pasts.now homes.now node)) }
{
    match hop_of(pasts, homes, node) {
        None => Ok(()),
        Some(hop) => push_route_to(out, alloc, layout, node, hop),
    }
}

// Those of this many nodes.
fn push_routes_from(
    out: &mut Vec<u8>,
    alloc: Global,
    layout: &Layout,
    pasts: &Pasts,
    homes: &[u32],
    nodes: u32,
) -> Result<(), AllocError>
    ensures { OnOk result (out.new.items
        ≡ out.old.items ++ markup_text (spec_routes.routes_from layout.now pasts.now homes.now nodes)) }
{
    for node in 0..nodes {
        push_route_of(out, alloc, layout, pasts, homes, node)?;
    }
    Ok(())
}

/// Appends an arrow from each node that shows a route to the coordinator to its next hop.
#[tactic(auto, unfolding(crate::specs::Routes::routes))]
pub fn push_routes(
    out: &mut Vec<u8>,
    alloc: Global,
    layout: &Layout,
    pasts: &Pasts,
    homes: &[u32],
) -> Result<(), AllocError>
    ensures { OnOk result (out.new.items ≡ out.old.items ++ markup_text (spec_routes.routes layout.now pasts.now homes.now)) }
{
    push_head(out, tip(layout))?;
    push_routes_from(out, alloc, layout, pasts, homes, layout.nodes)
}
