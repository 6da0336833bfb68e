//! Sentences whose words stand once, as one text with a hole for each fact.
ghost use Rattle.std.specs.Prelude.{◌≡◌, ◌++◌, IfOk, OnOk, string_bytes};
ghost use Rattle.sentence_parts.specs.Woven as spec_woven;

use crate::part::{Part, push_part};
use std::alloc::{AllocError, Global};

// What stands before the first hole of some words, and what stands after it; all and nothing where there is none.
fn split_at_hole(words: &str) -> (&str, &str)
    ensures before { result.0.now ≡ spec_woven.before_hole words.now }
    ensures after { result.1.now ≡ spec_woven.after_hole words.now }
{
    match words.split_once('%') {
        Some(parts) => parts,
        None => (words, ""),
    }
}

/// Appends some words, with a fact for each `%`, in their order. Facts for which there is no `%` stand at the end.
///
/// After an error the text may end anywhere within it.
pub fn push_woven(
    text: &mut String,
    alloc: Global,
    words: &str,
    facts: &[Part<'_>],
) -> Result<(), AllocError>
    ensures { OnOk result (string_bytes text.new ≡ string_bytes text.old ++ spec_woven.woven words.now facts.now) }
{
    let mut rest = words;
    for fact in facts {
        let (before, after) = split_at_hole(rest);
        text.push_str(before)?;
        push_part(text, alloc, fact)?;
        rest = after;
    }
    text.push_str(rest)
}

/// The same as a text of its own.
pub fn woven(alloc: Global, words: &str, facts: &[Part<'_>]) -> Result<String, AllocError>
    ensures { IfOk result (λ text. string_bytes text ≡ spec_woven.woven words.now facts.now) }
{
    let mut text = String::new(alloc);
    push_woven(&mut text, alloc, words, facts)?;
    Ok(text)
}
