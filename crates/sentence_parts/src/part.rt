//! Sentences, put together from words, numbers and nodes.
ghost use Rattle.std.specs.Prelude.{◌≡◌, ◌++◌, IfOk, OnOk, codes, decimal, length, string_bytes};
ghost use Rattle.hex.specs.Hex.{encode_lower};
ghost use Rattle.sentence_parts.specs.Parts as spec_parts;

use frame_facts::{push_number, push_short};
use itoa::Buffer;
use plc_base::{Eui, OctetRef};
use std::alloc::{AllocError, Global};
use std::marker::Model;
use text_signs::push_quoted;

/// Whom a frame is for, or from, or which node has an address.
#[derive(Clone, Copy)]
pub enum Who {
    /// All nodes.
    All,
    /// A node of the run, by its number.
    Node { node: u32 },
    /// A short address that no node of the run has.
    Address { address: u16 },
    /// An EUI-64 that no node of the run has.
    Device { eui: Eui },
    /// Nobody: the octets are no frame.
    Nobody,
}

/// Words that stand elsewhere. A contract sees their octets.
#[derive(Drop)]
pub struct WordsRef<'a> {
    words: &'a str,
}

impl<'a> Model for WordsRef<'a> {
    ghost use Rattle.std.specs.Prelude.{List, ℕ};

    ghost Value = { List ℕ };

    ghost view = { λ w. w.words.now };
}

impl<'a> WordsRef<'a> {
    /// These.
    pub fn new(words: &'a str) -> WordsRef<'a>
        ensures { result ≡ words.now }
    {
        WordsRef { words }
    }

    /// The words that it stands for.
    pub fn words(&self) -> &'a str
        ensures { result.now ≡ self.now }
    {
        self.words
    }
}

/// A part of a sentence.
#[derive(Drop)]
pub enum Part<'a> {
    /// Words as they are.
    Words { words: WordsRef<'a> },
    /// A number in decimal.
    Number { number: usize },
    /// A node, by its number: "the coordinator" or "meter 3".
    Node { node: u32 },
    /// The same, or the address where no node has it.
    Place { who: Who },
    /// A short address, as 4 digits in hexadecimal.
    Short { address: u16 },
    /// A number of things, by the noun of one: "1 event" or "2 events".
    Count { number: usize, noun: WordsRef<'a> },
    /// Octets of a script, as a message quotes them: what is no printable character of ASCII as `\x0d`, and 64 of them at most.
    Octets { octets: OctetRef<'a> },
}

/// Words as they are.
pub fn words<'a>(words: &'a str) -> Part<'a>
    ensures { result ≡ Part.Words words.now }
{
    Part::Words {
        words: WordsRef::new(words),
    }
}

/// A number in decimal.
pub fn number<'a>(number: usize) -> Part<'a>
    ensures { result ≡ Part.Number number }
{
    Part::Number { number }
}

/// A node, by its number.
pub fn node<'a>(node: u32) -> Part<'a>
    ensures { result ≡ Part.Node node }
{
    Part::Node { node }
}

/// A node, or the address where no node has it.
pub fn place<'a>(who: Who) -> Part<'a>
    ensures { result ≡ Part.Place who }
{
    Part::Place { who }
}

/// A number of things, by the noun of one.
pub fn count_of<'a>(number: usize, noun: &'a str) -> Part<'a>
    ensures { result ≡ Part.Count number noun.now }
{
    Part::Count {
        number,
        noun: WordsRef::new(noun),
    }
}

/// Octets of a script.
pub fn octets<'a>(octets: &'a [u8]) -> Part<'a>
    ensures { result ≡ Part.Octets octets.now }
{
    Part::Octets {
        octets: OctetRef::new(octets),
    }
}

/// How many digits a number has in decimal.
pub fn decimal_width(number: usize) -> usize
    ensures { result ≡ length (decimal number) }
{
    let mut digits = Buffer::new();
    digits.format(number).len()
}

fn push_node(text: &mut String, node: u32) -> Result<(), AllocError>
    ensures { OnOk result (string_bytes text.new ≡ string_bytes text.old ++ spec_parts.node_text node) }
{
    if node == 0 {
        return text.push_str("the coordinator");
    }
    text.push_str("meter ")?;
    push_number(text, node as usize)
}

fn push_device(text: &mut String, alloc: Global, eui: Eui) -> Result<(), AllocError>
    ensures { OnOk result (string_bytes text.new ≡ string_bytes text.old ++ (codes "EUI " ++ encode_lower eui.0)) }
{
    text.push_str("EUI ")?;
    push_hex(text, alloc, eui.0.as_slice())
}

fn push_hex(text: &mut String, alloc: Global, octets: &[u8]) -> Result<(), AllocError>
    ensures { OnOk result (string_bytes text.new ≡ string_bytes text.old ++ encode_lower octets.now) }
{
    let digits = hex::encode(alloc, octets)?;
    text.push_str(digits.as_str())
}

fn push_place(text: &mut String, alloc: Global, who: Who) -> Result<(), AllocError>
    ensures { OnOk result (string_bytes text.new ≡ string_bytes text.old ++ spec_parts.who_text who) }
{
    match who {
        Who::All => text.push_str("all"),
        Who::Node { node } => push_node(text, node),
        Who::Address { address } => push_short(text, alloc, address),
        Who::Device { eui } => push_device(text, alloc, eui),
        Who::Nobody => text.push_str("?"),
    }
}

fn push_count(text: &mut String, number: usize, noun: &str) -> Result<(), AllocError>
    ensures { OnOk result (string_bytes text.new ≡ string_bytes text.old ++ spec_parts.count_text number noun.now) }
{
    push_number(text, number)?;
    text.push_str(" ")?;
    text.push_str(noun)?;
    if number == 1 {
        return Ok(());
    }
    text.push_str("s")
}

pub(crate) fn push_part(text: &mut String, alloc: Global, part: &Part<'_>) -> Result<(), AllocError>
    ensures { OnOk result (string_bytes text.new ≡ string_bytes text.old ++ spec_parts.part_text part.now) }
{
    match part {
        Part::Words { words } => text.push_str(words.words()),
        Part::Number { number } => push_number(text, *number),
        Part::Node { node } => push_node(text, *node),
        Part::Place { who } => push_place(text, alloc, *who),
        Part::Short { address } => push_short(text, alloc, *address),
        Part::Count { number, noun } => push_count(text, *number, noun.words()),
        Part::Octets { octets } => push_quoted(text, alloc, octets.octets()),
    }
}

/// Appends a sentence. After an error the text may end anywhere within it.
pub fn push_parts(text: &mut String, alloc: Global, parts: &[Part<'_>]) -> Result<(), AllocError>
    ensures { OnOk result (string_bytes text.new ≡ string_bytes text.old ++ spec_parts.parts_text parts.now) }
{
    for part in parts {
        push_part(text, alloc, part)?;
    }
    Ok(())
}

/// A sentence as a text of its own.
pub fn sentence(alloc: Global, parts: &[Part<'_>]) -> Result<String, AllocError>
    ensures { IfOk result (λ text. string_bytes text ≡ spec_parts.parts_text parts.now) }
{
    let mut text = String::new(alloc);
    push_parts(&mut text, alloc, parts)?;
    Ok(text)
}
