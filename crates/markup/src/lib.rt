//! HTML and SVG, written piece by piece: text and attributes with everything escaped, tags that close what they open; and what the pages of a run
//! are framed by.
//!
//! Markup is put together from pieces, as one list of them: a tag, an attribute, a text, a number.
//!
//! ```text
//! push_pieces(out, &[start(Element::Division), given(Attribute::Class, "tile"), open(), count(3), end(Element::Division)])?;
//! // <div class="tile">3</div>
//! ```
//!
//! `specs/ElementTexts.antt` says which octets each call appends, and `specs/HtmlReader.antt` follows octets through a page, octet by octet: whatever
//! a text holds, it opens nothing and ends nothing. A contract sees what such pieces are together: `specs/Markups.antt` says what markup is, elements in
//! elements with texts between them, and which octets it has. It closes all that it opens, and nothing else (`part_laws`).
//!
//! The frame of a page is its head with the style, and its end ([`push_page_start`], [`push_page_end`]; `specs/Frames.antt`, `specs/FrameLaws.antt`). A page
//! loads nothing and runs nothing: its policy forbids all but the one style that is in it.
//!
//! ```text
//! push_page_start(&mut out, "A run")?;
//! push_pieces(&mut out, &[start(Element::Paragraph), open(), text("It went well."), end(Element::Paragraph)])?;
//! push_page_end(&mut out)?;
//! ```
//!
//! Its parts are headings, bands, tiles with counts, and the line above the chart of a story; `specs/Parts.antt` says which markup each of them is.
//!
//! ```text
//! push_heading(&mut out, "Datagrams")?;
//! push_share(&mut out, 38, 60, "datagrams came")?;
//! // <h2>Datagrams</h2><div class="tile r"><b>38 / 60</b><span>datagrams came</span></div>
//! ```
#![tactic(auto)]

mod escape;
mod frame;
pub mod frame_laws;
pub mod laws;
mod names;
mod part;
pub mod part_laws;
mod piece;
mod style;
mod tags;
mod tile;

pub use escape::{push_number, push_text};
pub use frame::{push_page_end, push_page_start};
pub use names::{Attribute, Element, attribute_word, element_word};
pub use part::{
    push_band, push_event_numbers, push_heading, push_keys, push_map_keys, push_name,
    push_not_drawn, push_span, push_subheading, push_totals,
};
pub use piece::{Piece, count, end, given, given_number, leaf, open, push_pieces, start, text};
pub use tags::{
    close_element, close_tag, end_leaf, open_tag, push_attribute, push_number_attribute,
};
pub use tile::{push_fault_tile, push_share, push_tile};
