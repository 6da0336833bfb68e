//! Tiles: a number, and what it counts.
ghost use Rattle.std.specs.Prelude.{◌≡◌, ◌++◌, OnOk};
ghost use Rattle.markup.specs.Markups.{markup_text};
ghost use Rattle.markup.specs.Parts as parts;

use crate::{Attribute, Element, count, end, given, open, push_pieces, start, text};
use std::alloc::AllocError;

// A tile is green where all is well, and red where not.
fn tile_class(good: bool) -> &'static str
    ensures { result.now ≡ parts.tile_class good }
{
    if good {
        return "tile g";
    }
    "tile r"
}

#[tactic(auto, unfolding(crate::specs::Parts::share_of))]
fn push_share_of(
    out: &mut Vec<u8>,
    class: &str,
    good: usize,
    all: usize,
    words: &str,
) -> Result<(), AllocError>
    ensures { OnOk result (out.new.items ≡ out.old.items ++ markup_text (parts.share_of class.now good all words.now)) }
{
    push_pieces(
        out,
        &[
            start(Element::Division),
            given(Attribute::Class, class),
            open(),
            start(Element::Strong),
            open(),
            count(good),
            text(" / "),
            count(all),
            end(Element::Strong),
            start(Element::Span),
            open(),
            text(words),
            end(Element::Span),
            end(Element::Division),
        ],
    )
}

/// Appends a tile that says how many of all are good, and what they are. It fails only where memory runs out.
pub fn push_share(out: &mut Vec<u8>, good: usize, all: usize, words: &str) -> Result<(), AllocError>
    ensures { OnOk result (out.new.items ≡ out.old.items ++ markup_text (parts.share good all words.now)) }
{
    push_share_of(out, tile_class(good == all), good, all, words)
}

#[tactic(auto, unfolding(crate::specs::Parts::tile_of))]
fn push_tile_of(
    out: &mut Vec<u8>,
    class: &str,
    number: usize,
    words: &str,
) -> Result<(), AllocError>
    ensures { OnOk result (out.new.items ≡ out.old.items ++ markup_text (parts.tile_of class.now number words.now)) }
{
    push_pieces(
        out,
        &[
            start(Element::Division),
            given(Attribute::Class, class),
            open(),
            start(Element::Strong),
            open(),
            count(number),
            end(Element::Strong),
            start(Element::Span),
            open(),
            text(words),
            end(Element::Span),
            end(Element::Division),
        ],
    )
}

/// Appends a tile with a number, and what it counts. It fails only where memory runs out.
pub fn push_tile(out: &mut Vec<u8>, number: usize, words: &str) -> Result<(), AllocError>
    ensures { OnOk result (out.new.items ≡ out.old.items ++ markup_text (parts.tile number words.now)) }
{
    push_tile_of(out, "tile", number, words)
}

/// Appends a tile with a number that is to be 0. It fails only where memory runs out.
pub fn push_fault_tile(out: &mut Vec<u8>, number: usize, words: &str) -> Result<(), AllocError>
    ensures { OnOk result (out.new.items ≡ out.old.items ++ markup_text (parts.fault_tile number words.now)) }
{
    push_tile_of(out, tile_class(number == 0), number, words)
}
