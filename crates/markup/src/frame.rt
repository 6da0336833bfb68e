//! What is before the content of a page, and what is after it.
ghost use Rattle.std.specs.Prelude.{◌≡◌, ◌++◌, OnOk};
ghost use Rattle.markup.specs.Frames as frames;

use crate::style::push_style;
use crate::{Attribute, Element, end, given, leaf, open, push_pieces, start, text};
use std::alloc::AllocError;

// Nothing is loaded and nothing runs.
#[tactic(auto, unfolding(crate::specs::Frames::policy))]
fn push_policy(out: &mut Vec<u8>) -> Result<(), AllocError>
    ensures { OnOk result (out.new.items ≡ out.old.items ++ frames.policy) }
{
    push_pieces(
        out,
        &[
            start(Element::Meta),
            given(Attribute::Equivalent, "Content-Security-Policy"),
            given(
                Attribute::Content,
                "default-src 'none'; style-src 'unsafe-inline'",
            ),
            leaf(),
        ],
    )
}

#[tactic(auto, unfolding(crate::specs::Frames::charset))]
fn push_charset(out: &mut Vec<u8>) -> Result<(), AllocError>
    ensures { OnOk result (out.new.items ≡ out.old.items ++ frames.charset) }
{
    push_pieces(
        out,
        &[
            start(Element::Meta),
            given(Attribute::Charset, "utf-8"),
            leaf(),
        ],
    )
}

#[tactic(auto, unfolding(crate::specs::Frames::viewport))]
fn push_viewport(out: &mut Vec<u8>) -> Result<(), AllocError>
    ensures { OnOk result (out.new.items ≡ out.old.items ++ frames.viewport) }
{
    push_pieces(
        out,
        &[
            start(Element::Meta),
            given(Attribute::Name, "viewport"),
            given(Attribute::Content, "width=device-width, initial-scale=1"),
            leaf(),
        ],
    )
}

#[tactic(auto, unfolding(crate::specs::Frames::title_text))]
fn push_title(out: &mut Vec<u8>, title: &str) -> Result<(), AllocError>
    ensures { OnOk result (out.new.items ≡ out.old.items ++ frames.title_text title.now) }
{
    push_pieces(
        out,
        &[
            start(Element::Title),
            open(),
            text(title),
            end(Element::Title),
        ],
    )
}

// The style, as the one element of its kind.
#[tactic(auto, unfolding(crate::specs::Frames::style))]
fn push_style_element(out: &mut Vec<u8>) -> Result<(), AllocError>
    ensures { OnOk result (out.new.items ≡ out.old.items ++ frames.style) }
{
    push_pieces(out, &[start(Element::Style), open()])?;
    push_style(out)?;
    push_pieces(out, &[end(Element::Style)])
}

#[tactic(auto, unfolding(crate::specs::Frames::head_content))]
fn push_head_content(out: &mut Vec<u8>, title: &str) -> Result<(), AllocError>
    ensures { OnOk result (out.new.items ≡ out.old.items ++ frames.head_content title.now) }
{
    push_charset(out)?;
    push_policy(out)?;
    push_viewport(out)?;
    push_title(out, title)?;
    push_style_element(out)
}

#[tactic(auto, unfolding(crate::specs::Frames::head))]
fn push_head(out: &mut Vec<u8>, title: &str) -> Result<(), AllocError>
    ensures { OnOk result (out.new.items ≡ out.old.items ++ frames.head title.now) }
{
    push_pieces(out, &[start(Element::Head), open()])?;
    push_head_content(out, title)?;
    push_pieces(out, &[end(Element::Head)])
}

// The type of the document.
#[tactic(auto, unfolding(crate::specs::Frames::doctype))]
fn push_doctype(out: &mut Vec<u8>) -> Result<(), AllocError>
    ensures { OnOk result (out.new.items ≡ out.old.items ++ frames.doctype) }
{
    out.extend_from_slice(b"<!doctype html>")
}

#[tactic(auto, unfolding(crate::specs::Frames::html_start))]
fn push_html_start(out: &mut Vec<u8>) -> Result<(), AllocError>
    ensures { OnOk result (out.new.items ≡ out.old.items ++ frames.html_start) }
{
    push_pieces(
        out,
        &[
            start(Element::Html),
            given(Attribute::Language, "en"),
            open(),
        ],
    )
}

#[tactic(auto, unfolding(crate::specs::Frames::body_start))]
fn push_body_start(out: &mut Vec<u8>) -> Result<(), AllocError>
    ensures { OnOk result (out.new.items ≡ out.old.items ++ frames.body_start) }
{
    push_pieces(
        out,
        &[start(Element::Body), open(), start(Element::Main), open()],
    )
}

/// Appends all of a page that is before its content, with its title.
///
/// It fails only where memory runs out; `out` may end anywhere within that then.
pub fn push_page_start(out: &mut Vec<u8>, title: &str) -> Result<(), AllocError>
    ensures { OnOk result (out.new.items ≡ out.old.items ++ frames.page_start title.now) }
{
    push_doctype(out)?;
    push_html_start(out)?;
    push_head(out, title)?;
    push_body_start(out)
}

/// Appends all of a page that is after its content.
///
/// It fails only where memory runs out; `out` may end anywhere within that then.
pub fn push_page_end(out: &mut Vec<u8>) -> Result<(), AllocError>
    ensures { OnOk result (out.new.items ≡ out.old.items ++ frames.page_end) }
{
    push_pieces(
        out,
        &[end(Element::Main), end(Element::Body), end(Element::Html)],
    )
}
