//! Tags.
ghost use Rattle.std.specs.Prelude.{◌≡◌, ◌++◌, ◌∷◌, [], OnOk};
ghost use Rattle.markup.specs.ElementTexts.{attribute_start, attribute_text, end_tag, number_text, tag_start};

use crate::escape::{push_number, push_text};
use crate::names::{Attribute, Element, attribute_word, element_word};
use std::alloc::AllocError;

/// Begins the start tag of an element. Attributes may follow, and then [`close_tag`] or, of an element without content,
/// [`end_leaf`].
#[tactic(auto, unfolding(crate::specs::ElementTexts::tag_start))]
pub fn open_tag(out: &mut Vec<u8>, element: Element) -> Result<(), AllocError>
    ensures { OnOk result (out.new.items ≡ out.old.items ++ tag_start element) }
{
    out.extend_from_slice(b"<")?;
    out.extend_from_slice(element_word(element).as_bytes())
}

// Begins an attribute: all before its value.
#[tactic(auto, unfolding(crate::specs::ElementTexts::attribute_start))]
fn start_attribute(out: &mut Vec<u8>, attribute: Attribute) -> Result<(), AllocError>
    ensures { OnOk result (out.new.items ≡ out.old.items ++ attribute_start attribute) }
{
    out.extend_from_slice(b" ")?;
    out.extend_from_slice(attribute_word(attribute).as_bytes())?;
    out.extend_from_slice(b"=\"")
}

/// Gives the element whose start tag was begun an attribute, whose value is a text in UTF-8.
pub fn push_attribute(
    out: &mut Vec<u8>,
    attribute: Attribute,
    value: &[u8],
) -> Result<(), AllocError>
    ensures { OnOk result (out.new.items ≡ out.old.items ++ attribute_text attribute value.now) }
{
    start_attribute(out, attribute)?;
    push_text(out, value)?;
    out.extend_from_slice(b"\"")
}

/// Gives the element whose start tag was begun an attribute, whose value is a number in decimal.
pub fn push_number_attribute(
    out: &mut Vec<u8>,
    attribute: Attribute,
    value: u32,
) -> Result<(), AllocError>
    ensures { OnOk result (out.new.items ≡ out.old.items ++ number_text attribute value) }
{
    start_attribute(out, attribute)?;
    push_number(out, value)?;
    out.extend_from_slice(b"\"")
}

/// Ends a start tag: the content of its element follows.
pub fn close_tag(out: &mut Vec<u8>) -> Result<(), AllocError>
    ensures { OnOk result (out.new.items ≡ out.old.items ++ 62 ∷ []) }
{
    out.extend_from_slice(b">")
}

/// Ends the start tag of an element that has no content, and the element.
pub fn end_leaf(out: &mut Vec<u8>) -> Result<(), AllocError>
    ensures { OnOk result (out.new.items ≡ out.old.items ++ 47 ∷ 62 ∷ []) }
{
    out.extend_from_slice(b"/>")
}

/// The end tag of an element.
#[tactic(auto, unfolding(crate::specs::ElementTexts::end_tag))]
pub fn close_element(out: &mut Vec<u8>, element: Element) -> Result<(), AllocError>
    ensures { OnOk result (out.new.items ≡ out.old.items ++ end_tag element) }
{
    out.extend_from_slice(b"</")?;
    out.extend_from_slice(element_word(element).as_bytes())?;
    out.extend_from_slice(b">")
}
