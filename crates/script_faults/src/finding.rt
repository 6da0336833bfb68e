//! What is wrong with a line, as `check` writes it.
ghost use Rattle.std.specs.Prelude.{◌≡◌, ◌<◌, ◌≤◌, ◌^◌, ◌++◌, IfOk, OnOk, flat_map, length, map, string_bytes};
ghost use Rattle.sentence_parts.specs.Parts.{parts_text};
ghost use Rattle.script_faults.specs.Findings as spec_findings;
ghost use Rattle.script_faults.specs.Texts as texts;

use sentence_parts::{Part, decimal_width, number, push_parts, sentence, words};
use std::alloc::{AllocError, Global};
use std::marker::Model;
use text_signs::is_printable;

/// What is wrong with a line: what is marked of it, what it says, and what helps.
#[derive(Drop)]
pub struct Finding {
    /// The place of the first octet that is marked, from 0.
    pub start: usize,
    /// The place after the last one.
    pub end: usize,
    /// What is wrong.
    pub message: String,
    /// A few words at the mark, or none.
    pub label: String,
    /// What helps, a line each.
    pub notes: Vec<String>,
}

impl Model for Finding {
    ghost use Rattle.std.specs.Prelude.{map, string_bytes};
    ghost use Rattle.script_faults.specs.Findings.{FindingParts};

    ghost Value = { FindingParts };

    ghost view = { λ f. record {
      start = f.start;
      end = f.end;
      message = string_bytes f.message;
      label = string_bytes f.label;
      notes = map string_bytes f.notes.items;
    } };
}

impl Finding {
    /// What is wrong, with nothing that helps.
    pub fn new(
        alloc: Global,
        start: usize,
        end: usize,
        message: &[Part<'_>],
        label: &[Part<'_>],
    ) -> Result<Finding, AllocError>
        ensures { IfOk result (λ f. f ≡ spec_findings.finding_at start end (parts_text message.now) (parts_text label.now)) }
    {
        Ok(Finding {
            start,
            end,
            message: sentence(alloc, message)?,
            label: sentence(alloc, label)?,
            notes: Vec::new(alloc),
        })
    }

    /// Adds what helps.
    pub fn note(&mut self, alloc: Global, parts: &[Part<'_>]) -> Result<(), AllocError>
        ensures { OnOk result (self.new ≡ spec_findings.noted (parts_text parts.now) self.old) }
    {
        self.notes.push(sentence(alloc, parts)?)?;
        Ok(())
    }

    /// The same with a line more that helps.
    pub fn with(mut self, alloc: Global, parts: &[Part<'_>]) -> Result<Finding, AllocError>
        ensures { IfOk result (λ f. f ≡ spec_findings.noted (parts_text parts.now) self) }
    {
        self.note(alloc, parts)?;
        Ok(self)
    }
}

// A line that is longer is cut about its mark.
const WIDEST: usize = 110;

/// Which octets of a line are shown.
#[derive(Clone, Copy)]
pub struct Cut {
    /// The place of the first one.
    pub start: usize,
    /// The place after the last one.
    pub end: usize,
}

fn cut_of(length: usize, start: usize) -> Cut
    requires { length < 2 ^ 63 }
    ensures cut { result ≡ texts.cut_of length start }
    ensures order { result.start ≤ result.end }
    ensures within { result.end ≤ length }
{
    if length <= WIDEST {
        return Cut {
            start: 0,
            end: length,
        };
    }
    let first = start.saturating_sub(50).min(length - 100);
    Cut {
        start: first,
        end: (first + WIDEST).min(length),
    }
}

/// A place counted from 1.
#[tactic(auto, unfolding(crate::specs::Texts::column))]
pub fn column(place: usize) -> usize
    ensures { result ≡ texts.column place }
{
    place.saturating_add(1)
}

fn push_sign(text: &mut String, octet: u8) -> Result<(), AllocError>
    ensures { OnOk result (string_bytes text.new ≡ string_bytes text.old ++ texts.sign_text octet) }
{
    if is_printable(octet) {
        return text.push(char::from(octet));
    }
    text.push_str("\u{b7}")
}

fn push_shown(text: &mut String, octets: &[u8]) -> Result<(), AllocError>
    ensures { OnOk result (string_bytes text.new ≡ string_bytes text.old ++ texts.shown_text octets.now) }
{
    for octet in octets {
        push_sign(text, *octet)?;
    }
    Ok(())
}

fn push_dots(text: &mut String, is_cut: bool) -> Result<(), AllocError>
    ensures { OnOk result (string_bytes text.new ≡ string_bytes text.old ++ texts.dots is_cut) }
{
    if is_cut {
        return text.push_str("\u{2026}");
    }
    Ok(())
}

fn push_excerpt(text: &mut String, line: &[u8], cut: Cut) -> Result<(), AllocError>
    requires order { cut.start ≤ cut.end }
    requires within { cut.end ≤ length line.now }
    ensures { OnOk result (string_bytes text.new ≡ string_bytes text.old ++ texts.excerpt_text line.now cut) }
{
    push_dots(text, 0 < cut.start)?;
    push_shown(text, &line[cut.start..cut.end])?;
    push_dots(text, cut.end < line.len())
}

fn push_repeated(text: &mut String, sign: &str, count: usize) -> Result<(), AllocError>
    ensures { OnOk result (string_bytes text.new ≡ string_bytes text.old ++ texts.repeated sign.now count) }
{
    for i in 0..count {
        text.push_str(sign)?;
    }
    Ok(())
}

// How many columns the dots take.
fn width(is_cut: bool) -> usize
    ensures width { result ≡ texts.width is_cut }
    ensures one { result ≤ 1 }
{
    if is_cut { 1 } else { 0 }
}

// How far the mark is set in.
fn mark_start(cut: Cut, start: usize) -> usize
    ensures { result ≡ texts.mark_start cut start }
{
    if 0 < cut.start {
        return start.saturating_sub(cut.start) + 1;
    }
    start
}

// Where it ends.
fn mark_end(cut: Cut, length: usize, end: usize) -> usize
    requires order { cut.start ≤ cut.end }
    requires within { cut.end ≤ length }
    requires bound { length < 2 ^ 63 }
    ensures { result ≡ texts.mark_end cut length end }
{
    let shown = (cut.end - cut.start) + width(0 < cut.start) + width(cut.end < length);
    mark_start(cut, end).min(shown)
}

fn push_mark(text: &mut String, cut: Cut, length: usize, found: &Finding) -> Result<(), AllocError>
    requires order { cut.start ≤ cut.end }
    requires within { cut.end ≤ length }
    requires bound { length < 2 ^ 63 }
    ensures { OnOk result (string_bytes text.new ≡ string_bytes text.old ++ texts.mark_text cut length found.now) }
{
    let start = mark_start(cut, found.start);
    let end = mark_end(cut, length, found.end);
    push_repeated(text, " ", start)?;
    push_repeated(text, "^", end.saturating_sub(start).max(1))
}

// As many spaces as the number of a line has digits.
#[tactic(auto, unfolding(crate::specs::Texts::gap_text))]
fn push_gap(text: &mut String, row: u32) -> Result<(), AllocError>
    ensures { OnOk result (string_bytes text.new ≡ string_bytes text.old ++ texts.gap_text row) }
{
    push_repeated(text, " ", decimal_width(row as usize))
}

fn push_head(
    text: &mut String,
    alloc: Global,
    reason: &str,
    found: &Finding,
) -> Result<(), AllocError>
    ensures { OnOk result (string_bytes text.new ≡ string_bytes text.old ++ texts.head_text reason.now found.now) }
{
    push_parts(
        text,
        alloc,
        &[
            words("error["),
            words(reason),
            words("]: "),
            words(found.message.as_str()),
            words("\n"),
        ],
    )
}

// Where it is.
#[tactic(auto, unfolding(crate::specs::Texts::spot_text))]
fn push_spot(text: &mut String, alloc: Global, row: u32, found: &Finding) -> Result<(), AllocError>
    ensures { OnOk result (string_bytes text.new ≡ string_bytes text.old ++ texts.spot_text row found.now) }
{
    push_parts(
        text,
        alloc,
        &[
            words("--> script:"),
            number(row as usize),
            words(":"),
            number(column(found.start)),
        ],
    )
}

fn push_place(text: &mut String, alloc: Global, row: u32, found: &Finding) -> Result<(), AllocError>
    ensures { OnOk result (string_bytes text.new ≡ string_bytes text.old ++ texts.place_text row found.now) }
{
    push_gap(text, row)?;
    push_spot(text, alloc, row, found)?;
    text.push_str("\n")
}

fn push_line(
    text: &mut String,
    alloc: Global,
    row: u32,
    line: &[u8],
    cut: Cut,
) -> Result<(), AllocError>
    requires order { cut.start ≤ cut.end }
    requires within { cut.end ≤ length line.now }
    ensures { OnOk result (string_bytes text.new ≡ string_bytes text.old ++ texts.line_text row line.now cut) }
{
    push_gap(text, row)?;
    push_parts(
        text,
        alloc,
        &[words(" |\n"), number(row as usize), words(" | ")],
    )?;
    push_excerpt(text, line, cut)?;
    text.push_str("\n")
}

fn push_marked(
    text: &mut String,
    alloc: Global,
    row: u32,
    length: usize,
    cut: Cut,
    found: &Finding,
) -> Result<(), AllocError>
    requires order { cut.start ≤ cut.end }
    requires within { cut.end ≤ length }
    requires bound { length < 2 ^ 63 }
    ensures { OnOk result (string_bytes text.new ≡ string_bytes text.old ++ texts.mark_line row length cut found.now) }
{
    push_gap(text, row)?;
    text.push_str(" | ")?;
    push_mark(text, cut, length, found)?;
    push_parts(
        text,
        alloc,
        &[words(" "), words(found.label.as_str()), words("\n")],
    )
}

fn push_note(text: &mut String, alloc: Global, row: u32, note: &str) -> Result<(), AllocError>
    ensures { OnOk result (string_bytes text.new ≡ string_bytes text.old ++ texts.note_line row note.now) }
{
    push_gap(text, row)?;
    push_parts(text, alloc, &[words(" = "), words(note), words("\n")])
}

fn push_each(text: &mut String, alloc: Global, row: u32, notes: &[String]) -> Result<(), AllocError>
    ensures { OnOk result
        (string_bytes text.new ≡ string_bytes text.old ++ flat_map (texts.note_line row) (map string_bytes notes.now)) }
{
    for note in notes {
        push_note(text, alloc, row, note.as_str())?;
    }
    Ok(())
}

// The lines that help, and an empty one.
fn push_notes(
    text: &mut String,
    alloc: Global,
    row: u32,
    notes: &[String],
) -> Result<(), AllocError>
    ensures { OnOk result (string_bytes text.new ≡ string_bytes text.old ++ texts.notes_text row (map string_bytes notes.now)) }
{
    push_each(text, alloc, row, notes)?;
    text.push_str("\n")
}

// The line with the mark under what is wrong.
fn push_seen(
    text: &mut String,
    alloc: Global,
    row: u32,
    line: &[u8],
    found: &Finding,
) -> Result<(), AllocError>
    ensures { OnOk result
        (string_bytes text.new
        ≡ string_bytes text.old ++ texts.marked_text row line.now found.now (texts.cut_of (length line.now) found.now.start)) }
{
    let cut = cut_of(line.len(), found.start);
    push_line(text, alloc, row, line, cut)?;
    push_marked(text, alloc, row, line.len(), cut, found)
}

/// Appends what is wrong with a line of this number: its place, the line with the mark, what helps, and an empty line. After an error the
/// text may end anywhere within it.
pub fn push_finding(
    text: &mut String,
    alloc: Global,
    reason: &str,
    row: u32,
    line: &[u8],
    found: &Finding,
) -> Result<(), AllocError>
    ensures { OnOk result (string_bytes text.new ≡ string_bytes text.old ++ texts.finding_text reason.now row line.now found.now) }
{
    push_head(text, alloc, reason, found)?;
    push_place(text, alloc, row, found)?;
    push_seen(text, alloc, row, line, found)?;
    push_notes(text, alloc, row, found.notes.as_slice())
}

fn push_unseen_place(
    text: &mut String,
    alloc: Global,
    row: u32,
    found: &Finding,
) -> Result<(), AllocError>
    ensures { OnOk result (string_bytes text.new ≡ string_bytes text.old ++ texts.unseen_place row found.now) }
{
    push_gap(text, row)?;
    push_spot(text, alloc, row, found)?;
    push_parts(
        text,
        alloc,
        &[words(": "), words(found.label.as_str()), words("\n")],
    )
}

/// Appends what is wrong with a line whose octets are not kept. After an error the text may end anywhere within it.
pub fn push_unseen(
    text: &mut String,
    alloc: Global,
    reason: &str,
    row: u32,
    found: &Finding,
) -> Result<(), AllocError>
    ensures { OnOk result (string_bytes text.new ≡ string_bytes text.old ++ texts.unseen_text reason.now row found.now) }
{
    push_head(text, alloc, reason, found)?;
    push_unseen_place(text, alloc, row, found)?;
    push_notes(text, alloc, row, found.notes.as_slice())
}
