//! Text.
ghost use Rattle.std.specs.Prelude.{◌≡◌, ◌++◌, OnOk};
ghost use Rattle.std.specs.Fmt.{decimal};
ghost use Rattle.std.specs.List.{list_all};
ghost use Rattle.markup.specs.ElementTexts.{escaped, escaped_octet, is_plain};

use itoa::Buffer;
use std::alloc::AllocError;

#[tactic(auto, unfolding(crate::specs::ElementTexts::escaped_octet))]
// Appends an octet of a text. What has a meaning in markup is named, and a control character becomes the sign for what can't be
// shown.
fn push_octet(out: &mut Vec<u8>, octet: u8) -> Result<(), AllocError>
    ensures { OnOk result (out.new.items ≡ out.old.items ++ escaped_octet octet) }
{
    match octet {
        b'<' => out.extend_from_slice(b"&lt;"),
        b'>' => out.extend_from_slice(b"&gt;"),
        b'&' => out.extend_from_slice(b"&amp;"),
        b'"' => out.extend_from_slice(b"&quot;"),
        b'\'' => out.extend_from_slice(b"&#39;"),
        127 => out.extend_from_slice(&[0xef, 0xbf, 0xbd]),
        0..=31 => out.extend_from_slice(&[0xef, 0xbf, 0xbd]),
        _ => out.extend_from_slice(&[octet]),
    }
}

// Whether an octet of a text is written as it is.
fn is_plain(octet: u8) -> bool
    ensures { result ≡ is_plain octet }
{
    match octet {
        b'<' => false,
        b'>' => false,
        b'&' => false,
        b'"' => false,
        b'\'' => false,
        127 => false,
        0..=31 => false,
        _ => true,
    }
}

// Whether a text is written as it is, as most are.
fn is_all_plain(text: &[u8]) -> bool
    ensures { result ≡ list_all is_plain text.now }
{
    text.iter().all(|octet| is_plain(*octet))
}

/// Appends a text in UTF-8, between tags or in an attribute. It opens no tag and ends no attribute, whatever it holds.
///
/// After an error `out` may end anywhere within the text.
#[tactic(auto, using(crate::proofs::Plain::plain_text))]
pub fn push_text(out: &mut Vec<u8>, text: &[u8]) -> Result<(), AllocError>
    ensures { OnOk result (out.new.items ≡ out.old.items ++ escaped text.now) }
{
    if is_all_plain(text) {
        return out.extend_from_slice(text);
    }
    for octet in text {
        push_octet(out, *octet)?;
    }
    Ok(())
}

/// Appends a number in decimal.
pub fn push_number(out: &mut Vec<u8>, number: u32) -> Result<(), AllocError>
    ensures { OnOk result (out.new.items ≡ out.old.items ++ decimal number) }
{
    let mut digits = Buffer::new();
    out.extend_from_slice(digits.format(number).as_bytes())
}
