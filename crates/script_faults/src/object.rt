//! What is wrong with a line, as an object of JSON.
ghost use Rattle.std.specs.Prelude.{◌≡◌, ◌<◌, ◌++◌, ◌∷◌, [], OnOk, chars, codes, flat_map, map, string_bytes};
ghost use Rattle.hex.specs.Hex.{encode_lower};
ghost use Rattle.script_faults.specs.Texts as texts;

use crate::finding::{Finding, column};
use sentence_parts::{number, push_parts, words};
use std::alloc::{AllocError, Global};

// A control character by its number.
fn push_control(text: &mut String, alloc: Global, octet: u8) -> Result<(), AllocError>
    ensures { OnOk result (string_bytes text.new ≡ string_bytes text.old ++ (codes "\\u00" ++ encode_lower (octet ∷ []))) }
{
    text.push_str("\\u00")?;
    let digits = hex::encode(alloc, &[octet])?;
    text.push_str(digits.as_str())
}

fn push_backslashed(text: &mut String, sign: char) -> Result<(), AllocError>
    requires { sign < 128 }
    ensures { OnOk result (string_bytes text.new ≡ string_bytes text.old ++ 92 ∷ sign ∷ []) }
{
    text.push_str("\\")?;
    text.push(sign)
}

fn push_escaped(text: &mut String, alloc: Global, sign: char) -> Result<(), AllocError>
    ensures { OnOk result (string_bytes text.new ≡ string_bytes text.old ++ texts.escaped sign) }
{
    if sign == '"' || sign == '\\' {
        return push_backslashed(text, sign);
    }
    if (sign as u32) < 32 {
        return push_control(text, alloc, sign as u32 as u8);
    }
    text.push(sign)
}

fn push_signs(text: &mut String, alloc: Global, words: &str) -> Result<(), AllocError>
    ensures { OnOk result (string_bytes text.new ≡ string_bytes text.old ++ flat_map texts.escaped (chars words.now)) }
{
    for sign in words.chars() {
        push_escaped(text, alloc, sign)?;
    }
    Ok(())
}

fn push_quoted(text: &mut String, alloc: Global, words: &str) -> Result<(), AllocError>
    ensures { OnOk result (string_bytes text.new ≡ string_bytes text.old ++ texts.quoted words.now) }
{
    text.push_str("\"")?;
    push_signs(text, alloc, words)?;
    text.push_str("\"")
}

#[tactic(auto, unfolding(crate::specs::Texts::named))]
fn push_named(text: &mut String, alloc: Global, name: &str, words: &str) -> Result<(), AllocError>
    ensures { OnOk result (string_bytes text.new ≡ string_bytes text.old ++ texts.named name.now words.now) }
{
    text.push_str(name)?;
    push_quoted(text, alloc, words)
}

fn push_rest(text: &mut String, alloc: Global, notes: &[String]) -> Result<(), AllocError>
    ensures { OnOk result (string_bytes text.new ≡ string_bytes text.old ++ flat_map texts.more_quoted (map string_bytes notes.now)) }
{
    for note in notes {
        push_named(text, alloc, ", ", note.as_str())?;
    }
    Ok(())
}

fn push_list(text: &mut String, alloc: Global, notes: &[String]) -> Result<(), AllocError>
    ensures { OnOk result (string_bytes text.new ≡ string_bytes text.old ++ texts.list_text (map string_bytes notes.now)) }
{
    match notes {
        [] => Ok(()),
        [first, rest @ ..] => {
            push_quoted(text, alloc, first.as_str())?;
            push_rest(text, alloc, rest)
        }
    }
}

#[tactic(auto, unfolding(crate::specs::Texts::numbers_text))]
fn push_numbers(
    text: &mut String,
    alloc: Global,
    reason: &str,
    row: u32,
    found: &Finding,
) -> Result<(), AllocError>
    ensures { OnOk result (string_bytes text.new ≡ string_bytes text.old ++ texts.numbers_text reason.now row found.now) }
{
    push_parts(
        text,
        alloc,
        &[
            words("{\"line\": "),
            number(row as usize),
            words(", \"column\": "),
            number(column(found.start)),
            words(", \"end\": "),
            number(column(found.end)),
            words(", \"reason\": \""),
            words(reason),
        ],
    )
}

#[tactic(auto, unfolding(crate::specs::Texts::helps_text))]
fn push_helps(text: &mut String, alloc: Global, notes: &[String]) -> Result<(), AllocError>
    ensures { OnOk result (string_bytes text.new ≡ string_bytes text.old ++ texts.helps_text (map string_bytes notes.now)) }
{
    text.push_str(", \"notes\": [")?;
    push_list(text, alloc, notes)?;
    text.push_str("]}\n")
}

#[tactic(auto, unfolding(crate::specs::Texts::said_text))]
fn push_said(text: &mut String, alloc: Global, found: &Finding) -> Result<(), AllocError>
    ensures { OnOk result (string_bytes text.new ≡ string_bytes text.old ++ texts.said_text found.now) }
{
    push_named(text, alloc, "\", \"message\": ", found.message.as_str())?;
    push_named(text, alloc, ", \"label\": ", found.label.as_str())?;
    push_helps(text, alloc, found.notes.as_slice())
}

/// Appends what is wrong with a line of this number as one object of JSON in a line (RFC 8259). Columns are counted from 1. After an error
/// the text may end anywhere within it.
pub fn push_object(
    text: &mut String,
    alloc: Global,
    reason: &str,
    row: u32,
    found: &Finding,
) -> Result<(), AllocError>
    ensures { OnOk result (string_bytes text.new ≡ string_bytes text.old ++ texts.object_text reason.now row found.now) }
{
    push_numbers(text, alloc, reason, row, found)?;
    push_said(text, alloc, found)
}
