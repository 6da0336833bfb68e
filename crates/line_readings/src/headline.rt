//! The first line of an account: whether all readings came.
ghost use Rattle.std.specs.Prelude.{◌≡◌, ◌++◌, [], IfOk, OnOk, length, string_bytes};
ghost use Rattle.line_readings.specs.Readings.{SaysOf, came_in, headline_by, headline_text};

use crate::counts::counts_of;
use crate::journal::Journal;
use crate::reading::Reading;
use sentence_parts::{number, push_parts, words};
use std::alloc::{AllocError, Global};

/// This many meters are named at most.
pub const MOST_NAMED: usize = 6;

fn push_meter(
    text: &mut String,
    alloc: Global,
    journal: &Journal,
    node: u32,
) -> Result<(), AllocError> {
    match journal.name(node) {
        Some(name) => text.push_str(name),
        None => push_parts(text, alloc, &[words("meter "), number(node as usize)]),
    }
}

// Appends a meter, and how many of its readings are missing, where that is more than one.
fn push_missing(
    text: &mut String,
    alloc: Global,
    journal: &Journal,
    node: u32,
    count: usize,
) -> Result<(), AllocError> {
    push_meter(text, alloc, journal, node)?;
    if count < 2 {
        return Ok(());
    }
    push_parts(text, alloc, &[words(" ("), number(count), words(")")])
}

fn lead(named: usize) -> &'static str {
    if named == 0 {
        return "; missing: ";
    }
    ", "
}

// Appends the meters of which readings are missing, the first ones by name, and answers how many of the others there are.
fn push_first(
    text: &mut String,
    alloc: Global,
    journal: &Journal,
    readings: &[Reading],
    meters: &[u32],
) -> Result<usize, AllocError> {
    let mut named: usize = 0;
    let mut others: usize = 0;
    for node in meters {
        let count = counts_of(readings, *node).missing;
        if count > 0 && named < MOST_NAMED {
            text.push_str(lead(named))?;
            push_missing(text, alloc, journal, *node, count)?;
            named = named.saturating_add(1);
        } else if count > 0 {
            others = others.saturating_add(1);
        }
    }
    Ok(others)
}

fn push_others(text: &mut String, alloc: Global, others: usize) -> Result<(), AllocError> {
    match others {
        0 => Ok(()),
        1 => text.push_str(" and 1 meter more"),
        _ => push_parts(
            text,
            alloc,
            &[words(" and "), number(others), words(" meters more")],
        ),
    }
}

// How many readings came.
fn came_in(readings: &[Reading]) -> usize
    ensures { result ≡ came_in readings.now }
{
    let mut came: usize = 0;
    for reading in readings {
        if reading.came.is_some() {
            came = came.saturating_add(1);
        }
    }
    came
}

// The meters of which readings are missing; no words where all came.
fn missing_words(
    alloc: Global,
    journal: &Journal,
    readings: &[Reading],
    meters: &[u32],
) -> Result<String, AllocError>
    ensures { IfOk result (λ text. came_in readings.now ≡ length readings.now → string_bytes text ≡ []) }
{
    let mut text = String::new(alloc);
    if came_in(readings) == readings.len() {
        return Ok(text);
    }
    let others = push_first(&mut text, alloc, journal, readings, meters)?;
    push_others(&mut text, alloc, others)?;
    Ok(text)
}

fn push_text(
    text: &mut String,
    alloc: Global,
    came: usize,
    due: usize,
    missing: &str,
) -> Result<(), AllocError>
    ensures { OnOk result (string_bytes text.new ≡ string_bytes text.old ++ headline_text came due missing.now) }
{
    push_parts(
        text,
        alloc,
        &[
            number(came),
            words(" of "),
            number(due),
            words(" readings came"),
            words(missing),
            words("\n"),
        ],
    )
}

fn push_by(
    text: &mut String,
    alloc: Global,
    came: usize,
    due: usize,
    missing: &str,
) -> Result<(), AllocError>
    ensures { OnOk result (string_bytes text.new ≡ string_bytes text.old ++ headline_by came due missing.now) }
{
    if due == 0 {
        return Ok(());
    }
    push_text(text, alloc, came, due, missing)
}

/// How many readings came of how many, and the meters of which some are missing. No words where there are no readings.
///
/// It fails only where memory runs out.
pub fn headline_of(
    alloc: Global,
    journal: &Journal,
    readings: &[Reading],
    meters: &[u32],
) -> Result<String, AllocError>
    ensures { IfOk result (λ text. SaysOf readings.now (string_bytes text)) }
{
    let missing = missing_words(alloc, journal, readings, meters)?;
    let mut text = String::new(alloc);
    push_by(
        &mut text,
        alloc,
        came_in(readings),
        readings.len(),
        missing.as_str(),
    )?;
    Ok(text)
}
