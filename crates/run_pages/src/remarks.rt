//! What the comments of a script say.
ghost use Rattle.std.specs.Prelude.{◌≡◌, ◌<◌, IfSome, OnOk, length, map, position, string_bytes};
ghost use Rattle.run_pages.specs.Remarks as remarks;

use std::alloc::{AllocError, Global};
use std::marker::Model;
use text_signs::shown;

/// What the comments before each event say. What is no UTF-8 in them, or no character that is shown, is U+FFFD.
#[derive(Drop)]
pub struct Remarks {
    title: String,
    notes: Vec<String>,
    pending: String,
}

impl Model for Remarks {
    ghost use Rattle.std.specs.Prelude.{map, string_bytes};
    ghost use Rattle.run_pages.specs.Remarks.{Remarked};

    ghost Value = { Remarked };

    ghost view = { λ r. record {
      title = string_bytes r.title;
      notes = map string_bytes r.notes.items;
      pending = string_bytes r.pending;
    } };
}

// Whether an octet is none of the signs and spaces before a comment.
fn is_said(octet: u8) -> bool
    ensures { result ≡ remarks.is_said octet }
{
    octet != b'#' && octet != b' '
}

fn first_said(line: &[u8]) -> Option<usize>
    ensures value { result ≡ position remarks.is_said line.now }
    ensures bound { IfSome result (λ p. p < length line.now) }
{
    line.iter().position(|octet| is_said(*octet))
}

// The octets of a comment after its signs `#` and the spaces after them.
fn comment_in(line: &[u8]) -> &[u8]
    ensures { result.now ≡ remarks.comment_in line.now }
{
    match first_said(line) {
        None => &[],
        Some(place) => line.split_at(place).1,
    }
}

fn first_space(octets: &[u8]) -> Option<usize>
    ensures value { result ≡ position remarks.is_space octets.now }
    ensures bound { IfSome result (λ p. p < length octets.now) }
{
    octets.iter().position(|octet| *octet == b' ')
}

// What comes after the time and the word `title` of a remark.
#[tactic(auto, unfolding(crate::specs::Remarks::title_after))]
fn title_after(octets: &[u8]) -> &[u8]
    ensures { result.now ≡ remarks.title_after octets.now }
{
    match octets.strip_prefix(b" title ") {
        Some(words) => words,
        None => &[],
    }
}

// The title that a remark gives, by what comes after its sign.
fn title_in_remark(octets: &[u8]) -> &[u8]
    ensures { result.now ≡ remarks.title_in_remark octets.now }
{
    match first_space(octets) {
        None => &[],
        Some(place) => title_after(octets.split_at(place).1),
    }
}

// The octets of a line that may be a title: a comment, or the words of the remark `title` of `line_sim`.
#[tactic(auto, unfolding(crate::specs::Remarks::title_in))]
fn title_in(line: &[u8]) -> &[u8]
    ensures { result.now ≡ remarks.title_in line.now }
{
    match line.strip_prefix(b"#@ ") {
        Some(remark) => title_in_remark(remark),
        None => comment_in(line),
    }
}

impl Remarks {
    /// No line so far. It takes no memory.
    pub fn new(alloc: Global) -> Remarks
        ensures { result ≡ remarks.no_remarks }
    {
        Remarks {
            title: String::new(alloc),
            notes: Vec::new(alloc),
            pending: String::new(alloc),
        }
    }

    // Takes the title of a line, where there is none so far.
    fn take_title(&mut self, alloc: Global, line: &[u8]) -> Result<(), AllocError>
        ensures { OnOk result (self.new ≡ remarks.with_title line.now self.old) }
    {
        if self.title.is_empty() {
            self.title = shown(alloc, title_in(line))?;
        }
        Ok(())
    }

    /// A line without an event: a comment, or an empty one.
    ///
    /// It fails only where memory runs out; what is left then is not said.
    pub fn take(&mut self, alloc: Global, line: &[u8]) -> Result<(), AllocError>
        ensures { OnOk result (self.new ≡ remarks.with_line line.now self.old) }
    {
        self.take_title(alloc, line)?;
        let words = shown(alloc, comment_in(line))?;
        if words.is_empty() {
            return Ok(());
        }
        if !self.pending.is_empty() {
            self.pending.push_str(" ")?;
        }
        self.pending.push_str(words.as_str())
    }

    /// An event was taken: what was said so far is said before it.
    ///
    /// It fails only where memory runs out; what is left then is not said.
    pub fn end(&mut self, alloc: Global) -> Result<(), AllocError>
        ensures { OnOk result (self.new ≡ remarks.with_event self.old) }
    {
        let said = String::from_str(alloc, self.pending.as_str())?;
        self.notes.push(said)?;
        self.pending = String::new(alloc);
        Ok(())
    }

    /// What is said before each event, by its number from 1.
    pub fn notes(&self) -> &[String]
        ensures { map string_bytes result.now ≡ self.now.notes }
    {
        self.notes.as_slice()
    }

    /// The first comment that is no remark of `line_sim`, or the words of its remark `title`, no words where there is neither.
    pub fn title(&self) -> &str
        ensures { result.now ≡ self.now.title }
    {
        self.title.as_str()
    }
}
