//! Pieces of markup.
ghost use Rattle.std.specs.Prelude.{◌≡◌, ◌++◌, OnOk};
ghost use Rattle.markup.specs.Pieces.{piece_text, pieces_text};

use crate::{
    Attribute, Element, close_element, close_tag, end_leaf, open_tag, push_attribute, push_text,
};
use itoa::Buffer;
use plc_base::OctetRef;
use std::alloc::AllocError;

/// A piece of markup.
#[derive(Drop)]
pub enum Piece<'a> {
    /// The start tag of an element, up to its attributes.
    Start {
        element: Element,
    },
    /// An attribute of the element whose start tag was begun, with a text in UTF-8.
    Given {
        attribute: Attribute,
        value: OctetRef<'a>,
    },
    /// The same with a number in decimal.
    GivenNumber {
        attribute: Attribute,
        value: usize,
    },
    /// The end of a start tag: the content of the element follows.
    Open,
    /// The end of a start tag of an element that has no content.
    Leaf,
    /// A text in UTF-8.
    Text {
        text: OctetRef<'a>,
    },
    /// A number in decimal.
    Number {
        number: usize,
    },
    /// The end tag of an element.
    End {
        element: Element,
    },
}

/// The start tag of an element, up to its attributes.
pub fn start<'a>(element: Element) -> Piece<'a>
    ensures { result ≡ Piece.Start element }
{
    Piece::Start { element }
}

/// An attribute with a text.
pub fn given<'a>(attribute: Attribute, value: &'a str) -> Piece<'a>
    ensures { result ≡ Piece.Given attribute value.now }
{
    Piece::Given {
        attribute,
        value: OctetRef::new(value.as_bytes()),
    }
}

/// An attribute with a number in decimal.
pub fn given_number<'a>(attribute: Attribute, value: usize) -> Piece<'a>
    ensures { result ≡ Piece.GivenNumber attribute value }
{
    Piece::GivenNumber { attribute, value }
}

/// The end of a start tag, after which content follows.
pub fn open<'a>() -> Piece<'a>
    ensures { result ≡ Piece.Open }
{
    Piece::Open
}

/// The end of an element that has no content.
pub fn leaf<'a>() -> Piece<'a>
    ensures { result ≡ Piece.Leaf }
{
    Piece::Leaf
}

/// A text.
pub fn text<'a>(text: &'a str) -> Piece<'a>
    ensures { result ≡ Piece.Text text.now }
{
    Piece::Text {
        text: OctetRef::new(text.as_bytes()),
    }
}

/// A number in decimal.
pub fn count<'a>(number: usize) -> Piece<'a>
    ensures { result ≡ Piece.Number number }
{
    Piece::Number { number }
}

/// The end tag of an element.
pub fn end<'a>(element: Element) -> Piece<'a>
    ensures { result ≡ Piece.End element }
{
    Piece::End { element }
}

fn push_decimal(out: &mut Vec<u8>, number: usize) -> Result<(), AllocError>
    ensures { OnOk result (out.new.items ≡ out.old.items ++ piece_text (Piece.Number number)) }
{
    let mut digits = Buffer::new();
    push_text(out, digits.format(number).as_bytes())
}

fn push_given_number(
    out: &mut Vec<u8>,
    attribute: Attribute,
    value: usize,
) -> Result<(), AllocError>
    ensures { OnOk result (out.new.items ≡ out.old.items ++ piece_text (Piece.GivenNumber attribute value)) }
{
    let mut digits = Buffer::new();
    push_attribute(out, attribute, digits.format(value).as_bytes())
}

fn push_piece(out: &mut Vec<u8>, piece: &Piece<'_>) -> Result<(), AllocError>
    ensures { OnOk result (out.new.items ≡ out.old.items ++ piece_text piece.now) }
{
    match piece {
        Piece::Start { element } => open_tag(out, *element),
        Piece::Given { attribute, value } => push_attribute(out, *attribute, value.octets()),
        Piece::GivenNumber { attribute, value } => push_given_number(out, *attribute, *value),
        Piece::Open => close_tag(out),
        Piece::Leaf => end_leaf(out),
        Piece::Text { text } => push_text(out, text.octets()),
        Piece::Number { number } => push_decimal(out, *number),
        Piece::End { element } => close_element(out, *element),
    }
}

/// Appends pieces, one after the other. After an error `out` may end anywhere within them.
pub fn push_pieces(out: &mut Vec<u8>, pieces: &[Piece<'_>]) -> Result<(), AllocError>
    ensures { OnOk result (out.new.items ≡ out.old.items ++ pieces_text pieces.now) }
{
    for piece in pieces {
        push_piece(out, piece)?;
    }
    Ok(())
}
