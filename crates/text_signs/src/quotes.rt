//! Octets as messages quote them: one line of printable ASCII, and not long.
ghost use Rattle.std.specs.Prelude.{ℕ, ◌≡◌, ◌<◌, ◌++◌, All, IfOk, List, OnOk, string_bytes};
ghost use Rattle.text_signs.specs.Quotes.{IsPlainAndShort, is_printable, octet_text, octets_text, dots, quoted_text};

use std::alloc::{AllocError, Global};

/// A message quotes at most this many octets of a word.
pub const MOST_QUOTED: usize = 64;

/// Whether an octet is a printable character of ASCII.
pub fn is_printable(octet: u8) -> bool
    ensures { result ≡ is_printable octet }
{
    octet >= 32 && octet < 127
}

fn push_octet(text: &mut String, alloc: Global, octet: u8) -> Result<(), AllocError>
    ensures { OnOk result (string_bytes text.new ≡ string_bytes text.old ++ octet_text octet) }
{
    if is_printable(octet) {
        return text.push(char::from(octet));
    }
    text.push_str("\\x")?;
    let digits = hex::encode(alloc, &[octet])?;
    text.push_str(digits.as_str())
}

// Appends octets, those that are no printable characters of ASCII as `\x` and two digits in hexadecimal.
fn push_octets(text: &mut String, alloc: Global, octets: &[u8]) -> Result<(), AllocError>
    ensures { OnOk result (string_bytes text.new ≡ string_bytes text.old ++ octets_text octets.now) }
{
    for octet in octets {
        push_octet(text, alloc, *octet)?;
    }
    Ok(())
}

fn push_dots(text: &mut String, is_cut: bool) -> Result<(), AllocError>
    ensures { OnOk result (string_bytes text.new ≡ string_bytes text.old ++ dots is_cut) }
{
    if is_cut {
        return text.push_str("..");
    }
    Ok(())
}

/// Appends octets as a message quotes them: the first 64, those that are no printable characters of ASCII as `\x` and two digits in hexadecimal, with two
/// points where there are more. After an error the text may end anywhere among them.
pub fn push_quoted(text: &mut String, alloc: Global, octets: &[u8]) -> Result<(), AllocError>
    ensures { OnOk result (string_bytes text.new ≡ string_bytes text.old ++ quoted_text octets.now) }
{
    let shown = octets.len().min(MOST_QUOTED);
    push_octets(text, alloc, &octets[..shown])?;
    push_dots(text, octets.len() > MOST_QUOTED)
}

/// Octets as a message quotes them, by [`push_quoted`]. It fails only where memory runs out.
pub fn quoted(alloc: Global, octets: &[u8]) -> Result<String, AllocError>
    ensures { IfOk result (λ text. string_bytes text ≡ quoted_text octets.now) }
{
    let mut text = String::new(alloc);
    push_quoted(&mut text, alloc, octets)?;
    Ok(text)
}

/// What [`quoted`] makes of any octets is printable ASCII and has at most 258 octets.
pub fn quotes_are_plain()
    ensures { (octets : List ℕ) → All (λ octet. octet < 256) octets → IsPlainAndShort (quoted_text octets) }
{}
