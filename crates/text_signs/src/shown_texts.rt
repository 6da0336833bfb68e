//! A text as it is shown.
ghost use Rattle.std.specs.Prelude.{◌≡◌, ◌++◌, IfOk, OnOk, chars, flat_map, string_bytes};
ghost use Rattle.text_signs.specs.Signs.{HidesNothing, sign_text, shown_text};

use crate::signs::shown_sign;
use std::alloc::{AllocError, Global};

fn push_shown(text: &mut String, words: &str) -> Result<(), AllocError>
    ensures { OnOk result (string_bytes text.new ≡ string_bytes text.old ++ flat_map sign_text (chars words.now)) }
{
    for sign in words.chars() {
        text.push(shown_sign(sign))?;
    }
    Ok(())
}

/// Octets as a text that can be shown in one line: U+FFFD stands for what is no UTF-8, for each control character, and for each code that Unicode keeps from
/// being a character; a blank for a tab.
///
/// It fails only where memory runs out.
#[tactic(auto, unfolding(crate::specs::Signs::shown_text))]
pub fn shown(alloc: Global, octets: &[u8]) -> Result<String, AllocError>
    ensures shown { IfOk result (λ text. string_bytes text ≡ shown_text octets.now) }
    ensures plain { IfOk result (λ text. HidesNothing (string_bytes text)) }
{
    let words = String::from_utf8_lossy(alloc, octets)?;
    let mut text = String::new(alloc);
    push_shown(&mut text, words.as_str())?;
    Ok(text)
}
