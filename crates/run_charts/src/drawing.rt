//! What is drawn of a row: lines, arrows, dots. All numbers are pixels.
ghost use Rattle.std.specs.Prelude.{◌≡◌, ◌<◌, ◌^◌, ◌++◌, IfOk, OnOk, string_bytes};
ghost use Rattle.markup.specs.Markups.{markup_text};
ghost use Rattle.sentence_parts.specs.Parts.{parts_text};
ghost use Rattle.run_charts.specs.Drawings as drawings;

use crate::outcome::{Outcome, fill_class, line_class};
use markup::{
    Attribute, Element, count, end, given, given_number, leaf, open, push_pieces, start, text,
};
use sentence_parts::{Part, number, push_parts, words};
use std::alloc::{AllocError, Global};

/// Where the column of a place is, from 0. A run has at most 1,000 nodes.
#[tactic(auto, unfolding(crate::specs::Drawings::column_x))]
pub fn column_x(place: usize) -> usize
    ensures value { result ≡ drawings.column_x place }
    ensures bound { result < 2 ^ 17 }
{
    106 + 92 * place.min(1000)
}

/// Where the row of a line is, from 0. A run has at most 50,000 events, each with a row and what the script says before it.
#[tactic(auto, unfolding(crate::specs::Drawings::line_y))]
pub fn line_y(line: usize) -> usize
    ensures value { result ≡ drawings.line_y line }
    ensures bound { result < 2 ^ 22 }
{
    51 + 26 * line.min(100_000)
}

// An outline has at most about this many octets.
const OUTLINE_OCTETS: usize = 32;

// An outline of these parts, in a text that seldom moves while it grows.
fn outline_text(alloc: Global, parts: &[Part<'_>]) -> Result<String, AllocError>
    ensures { IfOk result (λ text. string_bytes text ≡ parts_text parts.now) }
{
    let mut text = String::with_capacity(alloc, OUTLINE_OCTETS)?;
    push_parts(&mut text, alloc, parts)?;
    Ok(text)
}

// From a height down to another one.
#[tactic(auto, unfolding(crate::specs::Drawings::fall))]
fn fall(alloc: Global, x: usize, top: usize, bottom: usize) -> Result<String, AllocError>
    ensures { IfOk result (λ text. string_bytes text ≡ drawings.fall x top bottom) }
{
    outline_text(
        alloc,
        &[
            words("M"),
            number(x),
            words(" "),
            number(top),
            words("V"),
            number(bottom),
        ],
    )
}

// From a place to another one of the same height.
#[tactic(auto, unfolding(crate::specs::Drawings::level))]
fn level(alloc: Global, from: usize, to: usize, y: usize) -> Result<String, AllocError>
    ensures { IfOk result (λ text. string_bytes text ≡ drawings.level from to y) }
{
    outline_text(
        alloc,
        &[
            words("M"),
            number(from),
            words(" "),
            number(y),
            words("H"),
            number(to),
        ],
    )
}

// The head of an arrow, from its neck on.
#[tactic(auto, unfolding(crate::specs::Drawings::tip))]
fn tip(alloc: Global, neck: usize, to: usize, y: usize) -> Result<String, AllocError>
    requires { y < 2 ^ 48 }
    ensures { IfOk result (λ text. string_bytes text ≡ drawings.tip neck to y) }
{
    outline_text(
        alloc,
        &[
            words("M"),
            number(to),
            words(" "),
            number(y),
            words("L"),
            number(neck),
            words(" "),
            number(y.saturating_sub(4)),
            words("V"),
            number(y + 4),
            words("z"),
        ],
    )
}

// A line from a place to another one.
#[tactic(auto, unfolding(crate::specs::Drawings::stroke))]
fn stroke(
    alloc: Global,
    from: usize,
    top: usize,
    to: usize,
    bottom: usize,
) -> Result<String, AllocError>
    ensures { IfOk result (λ text. string_bytes text ≡ drawings.stroke from top to bottom) }
{
    outline_text(
        alloc,
        &[
            words("M"),
            number(from),
            words(" "),
            number(top),
            words("L"),
            number(to),
            words(" "),
            number(bottom),
        ],
    )
}

// From the left border on.
#[tactic(auto, unfolding(crate::specs::Drawings::whole_width))]
fn whole_width(alloc: Global, width: usize, y: usize) -> Result<String, AllocError>
    ensures { IfOk result (λ text. string_bytes text ≡ drawings.whole_width width y) }
{
    outline_text(
        alloc,
        &[words("M54 "), number(y), words("H"), number(width)],
    )
}

/// A path of this class.
#[tactic(auto, unfolding(crate::specs::Drawings::path))]
pub fn push_path(out: &mut Vec<u8>, class: &str, outline: &str) -> Result<(), AllocError>
    ensures { OnOk result (out.new.items ≡ out.old.items ++ markup_text (drawings.path class.now outline.now)) }
{
    push_pieces(
        out,
        &[
            start(Element::Path),
            given(Attribute::Class, class),
            given(Attribute::Outline, outline),
            leaf(),
        ],
    )
}

/// A line from a height down to another one.
#[tactic(auto, unfolding(crate::specs::Drawings::lifeline))]
pub fn push_lifeline(
    out: &mut Vec<u8>,
    alloc: Global,
    class: &str,
    x: usize,
    top: usize,
    bottom: usize,
) -> Result<(), AllocError>
    ensures { OnOk result (out.new.items ≡ out.old.items ++ markup_text (drawings.lifeline class.now x top bottom)) }
{
    let outline = fall(alloc, x, top, bottom)?;
    push_path(out, class, outline.as_str())
}

fn push_level(
    out: &mut Vec<u8>,
    alloc: Global,
    class: &str,
    from: usize,
    to: usize,
    y: usize,
) -> Result<(), AllocError>
    ensures { OnOk result
        (out.new.items ≡ out.old.items ++ markup_text (drawings.path class.now (drawings.level from to y))) }
{
    let outline = level(alloc, from, to, y)?;
    push_path(out, class, outline.as_str())
}

fn push_tip(
    out: &mut Vec<u8>,
    alloc: Global,
    class: &str,
    neck: usize,
    to: usize,
    y: usize,
) -> Result<(), AllocError>
    requires { y < 2 ^ 48 }
    ensures { OnOk result
        (out.new.items ≡ out.old.items ++ markup_text (drawings.path class.now (drawings.tip neck to y))) }
{
    let outline = tip(alloc, neck, to, y)?;
    push_path(out, class, outline.as_str())
}

fn push_stroke(
    out: &mut Vec<u8>,
    alloc: Global,
    class: &str,
    from: usize,
    top: usize,
    to: usize,
    bottom: usize,
) -> Result<(), AllocError>
    ensures { OnOk result
        (out.new.items ≡ out.old.items ++ markup_text (drawings.path class.now (drawings.stroke from top to bottom))) }
{
    let outline = stroke(alloc, from, top, to, bottom)?;
    push_path(out, class, outline.as_str())
}

// An arrow whose head begins at its neck.
#[tactic(auto, unfolding(crate::specs::Drawings::arrow_to))]
fn push_arrow_to(
    out: &mut Vec<u8>,
    alloc: Global,
    outcome: Outcome,
    from: usize,
    neck: usize,
    to: usize,
    y: usize,
) -> Result<(), AllocError>
    requires { y < 2 ^ 48 }
    ensures { OnOk result (out.new.items ≡ out.old.items ++ markup_text (drawings.arrow_to outcome from neck to y)) }
{
    push_level(out, alloc, line_class(outcome), from, neck, y)?;
    push_tip(out, alloc, fill_class(outcome), neck, to, y)
}

/// An arrow from a column to another one.
#[tactic(auto, unfolding(crate::specs::Drawings::arrow))]
pub fn push_arrow(
    out: &mut Vec<u8>,
    alloc: Global,
    outcome: Outcome,
    from: usize,
    to: usize,
    y: usize,
) -> Result<(), AllocError>
    requires { (y < 2 ^ 48) × (to < 2 ^ 48) }
    ensures { OnOk result (out.new.items ≡ out.old.items ++ markup_text (drawings.arrow outcome from to y)) }
{
    if from < to {
        return push_arrow_to(out, alloc, outcome, from, to.saturating_sub(9), to, y);
    }
    push_arrow_to(out, alloc, outcome, from, to + 9, to, y)
}

/// A cross: something ends there.
#[tactic(auto, unfolding(crate::specs::Drawings::cross))]
pub fn push_cross(
    out: &mut Vec<u8>,
    alloc: Global,
    outcome: Outcome,
    x: usize,
    y: usize,
) -> Result<(), AllocError>
    requires { (y < 2 ^ 48) × (x < 2 ^ 49) }
    ensures { OnOk result (out.new.items ≡ out.old.items ++ markup_text (drawings.cross outcome x y)) }
{
    let left = x.saturating_sub(4);
    let top = y.saturating_sub(4);
    let class = line_class(outcome);
    push_stroke(out, alloc, class, left, top, x + 4, y + 4)?;
    push_stroke(out, alloc, class, x + 4, top, left, y + 4)
}

#[tactic(auto, unfolding(crate::specs::Drawings::half_to))]
fn push_half_to(
    out: &mut Vec<u8>,
    alloc: Global,
    from: usize,
    to: usize,
    y: usize,
) -> Result<(), AllocError>
    requires { (y < 2 ^ 48) × (to < 2 ^ 49) }
    ensures { OnOk result (out.new.items ≡ out.old.items ++ markup_text (drawings.half_to from to y)) }
{
    push_level(out, alloc, "A half", from, to, y)?;
    push_cross(out, alloc, Outcome::Refused, to, y)
}

/// A line that ends half way, with a cross: the frame never came.
#[tactic(auto, unfolding(crate::specs::Drawings::half))]
pub fn push_half(
    out: &mut Vec<u8>,
    alloc: Global,
    from: usize,
    to: usize,
    y: usize,
) -> Result<(), AllocError>
    requires { (y < 2 ^ 48) × (from < 2 ^ 48) }
    ensures { OnOk result (out.new.items ≡ out.old.items ++ markup_text (drawings.half from to y)) }
{
    if from < to {
        return push_half_to(out, alloc, from, from + 56, y);
    }
    push_half_to(out, alloc, from, from.saturating_sub(56), y)
}

/// A dot.
#[tactic(auto, unfolding(crate::specs::Drawings::dot))]
pub fn push_dot(out: &mut Vec<u8>, outcome: Outcome, x: usize, y: usize) -> Result<(), AllocError>
    ensures { OnOk result (out.new.items ≡ out.old.items ++ markup_text (drawings.dot outcome x y)) }
{
    push_pieces(
        out,
        &[
            start(Element::Circle),
            given(Attribute::Class, fill_class(outcome)),
            given_number(Attribute::CentreX, x),
            given_number(Attribute::CentreY, y),
            given_number(Attribute::Radius, 3),
            leaf(),
        ],
    )
}

/// A rectangle, by its left upper corner.
#[tactic(auto, unfolding(crate::specs::Drawings::bar))]
pub fn push_bar(
    out: &mut Vec<u8>,
    class: &str,
    x: usize,
    y: usize,
    width: usize,
    height: usize,
) -> Result<(), AllocError>
    ensures { OnOk result (out.new.items ≡ out.old.items ++ markup_text (drawings.bar class.now x y width height)) }
{
    push_pieces(
        out,
        &[
            start(Element::Rectangle),
            given(Attribute::Class, class),
            given_number(Attribute::X, x),
            given_number(Attribute::Y, y),
            given_number(Attribute::Width, width),
            given_number(Attribute::Height, height),
            leaf(),
        ],
    )
}

/// A square: what a node does by itself, or is asked.
#[tactic(auto, unfolding(crate::specs::Drawings::square))]
pub fn push_square(
    out: &mut Vec<u8>,
    outcome: Outcome,
    x: usize,
    y: usize,
) -> Result<(), AllocError>
    ensures { OnOk result (out.new.items ≡ out.old.items ++ markup_text (drawings.square outcome x y)) }
{
    let class = fill_class(outcome);
    push_bar(out, class, x.saturating_sub(5), y.saturating_sub(5), 10, 10)
}

/// Which frame an arrow is.
#[tactic(auto, unfolding(crate::specs::Drawings::label))]
pub fn push_label(
    out: &mut Vec<u8>,
    x: usize,
    y: usize,
    flight: usize,
    kind: &str,
) -> Result<(), AllocError>
    ensures { OnOk result (out.new.items ≡ out.old.items ++ markup_text (drawings.label x y flight kind.now)) }
{
    push_pieces(
        out,
        &[
            start(Element::Text),
            given(Attribute::Class, "l"),
            given_number(Attribute::X, x),
            given_number(Attribute::Y, y.saturating_sub(4)),
            given(Attribute::Anchor, "middle"),
            open(),
            count(flight),
            text(" "),
            text(kind),
            end(Element::Text),
        ],
    )
}

#[tactic(auto, unfolding(crate::specs::Drawings::two_numbers))]
fn push_two_numbers(
    out: &mut Vec<u8>,
    first: usize,
    last: usize,
    y: usize,
) -> Result<(), AllocError>
    ensures { OnOk result (out.new.items ≡ out.old.items ++ markup_text (drawings.two_numbers first last y)) }
{
    push_pieces(
        out,
        &[
            start(Element::Text),
            given(Attribute::Class, "c"),
            given_number(Attribute::X, 2),
            given_number(Attribute::Y, y),
            open(),
            count(first),
            text("–"),
            count(last),
            end(Element::Text),
        ],
    )
}

#[tactic(auto, unfolding(crate::specs::Drawings::one_number))]
fn push_one_number(out: &mut Vec<u8>, event: usize, y: usize) -> Result<(), AllocError>
    ensures { OnOk result (out.new.items ≡ out.old.items ++ markup_text (drawings.one_number event y)) }
{
    push_pieces(
        out,
        &[
            start(Element::Text),
            given(Attribute::Class, "c"),
            given_number(Attribute::X, 2),
            given_number(Attribute::Y, y),
            open(),
            count(event),
            end(Element::Text),
        ],
    )
}

/// The numbers of the events of a row.
#[tactic(auto, unfolding(crate::specs::Drawings::numbers))]
pub fn push_numbers(
    out: &mut Vec<u8>,
    first: usize,
    last: usize,
    y: usize,
) -> Result<(), AllocError>
    ensures { OnOk result (out.new.items ≡ out.old.items ++ markup_text (drawings.numbers first last y)) }
{
    if first == last {
        return push_one_number(out, first, y);
    }
    push_two_numbers(out, first, last, y)
}

/// A line over the whole width: time passes.
#[tactic(auto, unfolding(crate::specs::Drawings::passing))]
pub fn push_passing(
    out: &mut Vec<u8>,
    alloc: Global,
    width: usize,
    y: usize,
) -> Result<(), AllocError>
    ensures { OnOk result (out.new.items ≡ out.old.items ++ markup_text (drawings.passing width y)) }
{
    let outline = whole_width(alloc, width, y)?;
    push_path(out, "T", outline.as_str())
}
