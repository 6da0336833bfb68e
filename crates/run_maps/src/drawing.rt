//! Lines, circles and words.
ghost use Rattle.std.specs.Prelude.{◌≡◌, ◌++◌, IfOk, OnOk, string_bytes};
ghost use Rattle.markup.specs.Markups.{markup_text};
ghost use Rattle.run_maps.specs.Maps as maps;
ghost use Rattle.run_maps.specs.Ties as spec_ties;

use crate::layout::Spot;
use markup::{
    Attribute, Element, count, end, given, given_number, leaf, open, push_pieces, start, text,
};
use sentence_parts::{number, sentence, words};
use std::alloc::{AllocError, Global};

/// From a place to another one.
#[tactic(auto, unfolding(crate::specs::Ties::straight))]
pub fn straight(alloc: Global, a: Spot, b: Spot) -> Result<String, AllocError>
    ensures { IfOk result (λ text. string_bytes text ≡ spec_ties.straight a b) }
{
    sentence(
        alloc,
        &[
            words("M"),
            number(a.x),
            words(" "),
            number(a.y),
            words("L"),
            number(b.x),
            words(" "),
            number(b.y),
        ],
    )
}

/// A path of this class, and what is said of it.
#[tactic(auto, unfolding(crate::specs::Ties::titled_path))]
pub fn push_titled_path(
    out: &mut Vec<u8>,
    class: &str,
    outline: &str,
    said: &str,
) -> Result<(), AllocError>
    ensures { OnOk result (out.new.items ≡ out.old.items ++ markup_text (spec_ties.titled_path class.now outline.now said.now)) }
{
    push_pieces(
        out,
        &[
            start(Element::Path),
            given(Attribute::Class, class),
            given(Attribute::Outline, outline),
            open(),
            start(Element::Title),
            open(),
            text(said),
            end(Element::Title),
            end(Element::Path),
        ],
    )
}

#[tactic(auto, unfolding(crate::specs::Ties::cost_at))]
fn push_cost_at(out: &mut Vec<u8>, x: usize, y: usize, least: u8) -> Result<(), AllocError>
    ensures { OnOk result (out.new.items ≡ out.old.items ++ markup_text (spec_ties.cost_at x y least)) }
{
    push_pieces(
        out,
        &[
            start(Element::Text),
            given(Attribute::Class, "c H"),
            given_number(Attribute::X, x),
            given_number(Attribute::Y, y),
            given(Attribute::Anchor, "middle"),
            open(),
            count(usize::from(least)),
            end(Element::Text),
        ],
    )
}

// Between two numbers.
fn middle(a: usize, b: usize) -> usize
    ensures { result ≡ spec_ties.middle a b }
{
    (a.min(1_000_000) + b.min(1_000_000)) / 2
}

/// A cost, between two places.
#[tactic(auto, unfolding(crate::specs::Ties::cost_between))]
pub fn push_cost(out: &mut Vec<u8>, a: Spot, b: Spot, least: u8) -> Result<(), AllocError>
    ensures { OnOk result (out.new.items ≡ out.old.items ++ markup_text (spec_ties.cost_between a b least)) }
{
    push_cost_at(out, middle(a.x, b.x), middle(a.y, b.y), least)
}

/// The circle of a node, by its class.
#[tactic(auto, unfolding(crate::specs::Maps::circle))]
pub fn push_circle(
    out: &mut Vec<u8>,
    class: &str,
    radius: usize,
    node: u32,
    spot: Spot,
) -> Result<(), AllocError>
    ensures { OnOk result (out.new.items ≡ out.old.items ++ markup_text (maps.circle class.now radius node spot)) }
{
    push_pieces(
        out,
        &[
            start(Element::Circle),
            given(Attribute::Class, class),
            given_number(Attribute::Node, node as usize),
            given_number(Attribute::CentreX, spot.x),
            given_number(Attribute::CentreY, spot.y),
            given_number(Attribute::Radius, radius),
            leaf(),
        ],
    )
}

#[tactic(auto, unfolding(crate::specs::Maps::number_at))]
fn push_number_at(out: &mut Vec<u8>, node: u32, x: usize, y: usize) -> Result<(), AllocError>
    ensures { OnOk result (out.new.items ≡ out.old.items ++ markup_text (maps.number_at node x y)) }
{
    push_pieces(
        out,
        &[
            start(Element::Text),
            given_number(Attribute::Node, node as usize),
            given_number(Attribute::X, x),
            given_number(Attribute::Y, y),
            given(Attribute::Anchor, "middle"),
            open(),
            count(node as usize),
            end(Element::Text),
        ],
    )
}

/// The number of a node, in its circle.
#[tactic(auto, unfolding(crate::specs::Maps::number_in))]
pub fn push_number_in(out: &mut Vec<u8>, node: u32, spot: Spot) -> Result<(), AllocError>
    ensures { OnOk result (out.new.items ≡ out.old.items ++ markup_text (maps.number_in node spot)) }
{
    push_number_at(out, node, spot.x, spot.y.min(1_000_000) + 4)
}

/// What is said of a drawing, or of a part of it.
#[tactic(auto, unfolding(crate::specs::Ties::titled))]
pub fn push_title(out: &mut Vec<u8>, said: &str) -> Result<(), AllocError>
    ensures { OnOk result (out.new.items ≡ out.old.items ++ markup_text (spec_ties.titled said.now)) }
{
    push_pieces(
        out,
        &[
            start(Element::Title),
            open(),
            text(said),
            end(Element::Title),
        ],
    )
}
