//! The table of meters.
ghost use Rattle.std.specs.Prelude.{IfOk, OnOk};
ghost use Rattle.line_readings.specs.Readings.{AddsMeter, HasRows};

use crate::cause::cause_of;
use crate::counts::counts_of;
use crate::csv::{Cell, number, push_row, words};
use crate::journal::Journal;
use crate::reading::Reading;
use crate::run::Run;
use crate::tally::Tally;
use std::alloc::{AllocError, Global};

/// The first line of the table of meters.
pub const METERS_HEAD: &[u8; 81] =
    b"meter,name,due,came,missing,first_try,median_s,worst_s,longest_silence_s,lost_by\n";

// How many readings of a meter came at the first try, in time.
fn first_of(readings: &[Reading], node: u32) -> usize {
    let mut count: usize = 0;
    for reading in readings {
        if reading.node == node && reading.is_first() {
            count = count.saturating_add(1);
        }
    }
    count
}

// What half of the readings of a meter that came took at most, and the longest, if one came.
fn took_of(
    alloc: Global,
    readings: &[Reading],
    node: u32,
) -> Result<Option<(u64, u64)>, AllocError> {
    let mut took: Vec<u64> = Vec::new(alloc);
    for reading in readings {
        if reading.node == node {
            if let Some(came) = reading.came {
                took.push(came.at.saturating_sub(reading.due))?;
            }
        }
    }
    took.as_mut_slice().sort_unstable();
    Ok(middle_and_last(took.as_slice()))
}

fn middle_and_last(took: &[u64]) -> Option<(u64, u64)> {
    let worst = took.last()?;
    let middle = took.get((took.len() - 1) / 2)?;
    Some((*middle, *worst))
}

// When the first reading of a meter was due, if one was.
fn begin_of(readings: &[Reading], node: u32) -> Option<u64> {
    for reading in readings {
        if reading.node == node {
            return Some(reading.due);
        }
    }
    None
}

// When readings of a meter came, in the order of time: a late one may come after those that were due later.
fn arrivals_of(alloc: Global, readings: &[Reading], node: u32) -> Result<Vec<u64>, AllocError> {
    let mut times: Vec<u64> = Vec::new(alloc);
    for reading in readings {
        if reading.node == node {
            if let Some(came) = reading.came {
                times.push(came.at)?;
            }
        }
    }
    times.as_mut_slice().sort_unstable();
    Ok(times)
}

// The longest time between two of these times, which rise, or before the first or after the last of them.
fn longest_gap(times: &[u64], begin: u64, end: u64) -> u64 {
    let mut longest = 0_u64;
    let mut heard = begin;
    for time in times {
        longest = longest.max((*time).saturating_sub(heard));
        heard = *time;
    }
    longest.max(end.saturating_sub(heard))
}

// The longest time without a reading of a meter that came, from when its first was due to the end of the script.
fn silence_of(alloc: Global, readings: &[Reading], node: u32, end: u64) -> Result<u64, AllocError> {
    let Some(begin) = begin_of(readings, node) else {
        return Ok(0);
    };
    let times = arrivals_of(alloc, readings, node)?;
    Ok(longest_gap(times.as_slice(), begin, end))
}

fn lost_of(
    alloc: Global,
    journal: &Journal,
    run: &Run<'_>,
    readings: &[Reading],
    node: u32,
) -> Result<Tally, AllocError> {
    let mut lost = Tally::new(alloc);
    for reading in readings {
        if reading.node == node && reading.came.is_none() {
            lost.count(cause_of(journal, run, reading).reason)?;
        }
    }
    Ok(lost)
}

// Seconds, rounded, of thousandths.
fn seconds<'a>(thousandths: u64) -> Cell<'a> {
    number((thousandths.saturating_add(500) / 1000) as usize)
}

fn seconds_if<'a>(thousandths: Option<u64>) -> Cell<'a> {
    match thousandths {
        None => words(""),
        Some(thousandths) => seconds(thousandths),
    }
}

fn middle_of(took: Option<(u64, u64)>) -> Option<u64> {
    Some(took?.0)
}

fn worst_of(took: Option<(u64, u64)>) -> Option<u64> {
    Some(took?.1)
}

// Appends the row of a meter, with what half of its readings that came took at most and the longest, its longest silence, and why the others did not come.
fn push_meter_row(
    out: &mut Vec<u8>,
    journal: &Journal,
    readings: &[Reading],
    node: u32,
    took: Option<(u64, u64)>,
    silence: u64,
    lost: &str,
) -> Result<(), AllocError>
    ensures { OnOk result (AddsMeter readings.now node out.old.items out.new.items) }
{
    let counts = counts_of(readings, node);
    let name = journal.name(node).unwrap_or("");
    let first = number(first_of(readings, node));
    let middle = seconds_if(middle_of(took));
    let worst = seconds_if(worst_of(took));
    let silence = seconds(silence);
    push_row(
        out,
        node,
        &[
            words(name),
            number(counts.due),
            number(counts.came),
            number(counts.missing),
            first,
            middle,
            worst,
            silence,
            words(lost),
        ],
    )?;
    Ok(())
}

fn push_meter(
    out: &mut Vec<u8>,
    alloc: Global,
    journal: &Journal,
    run: &Run<'_>,
    readings: &[Reading],
    node: u32,
) -> Result<(), AllocError>
    ensures { OnOk result (AddsMeter readings.now node out.old.items out.new.items) }
{
    let took = took_of(alloc, readings, node)?;
    let silence = silence_of(alloc, readings, node, journal.clock)?;
    let lost = lost_of(alloc, journal, run, readings, node)?;
    let lost = lost.text(alloc)?;
    push_meter_row(out, journal, readings, node, took, silence, lost.as_str())
}

/// A line with the heads, and a line for each meter in the order of their numbers: its name, how many readings were due, came, are missing, came at the
/// first try in time, what half of those that came took at most and the longest, the longest silence, and why the missing ones did not come. Times are
/// seconds, rounded.
///
/// It fails only where memory runs out.
pub fn meter_table(
    alloc: Global,
    journal: &Journal,
    run: &Run<'_>,
    readings: &[Reading],
    meters: &[u32],
) -> Result<Vec<u8>, AllocError>
    ensures { IfOk result (λ out. HasRows readings.now meters.now out.items) }
{
    let mut out = Vec::from_slice(alloc, METERS_HEAD)?;
    for node in meters {
        push_meter(&mut out, alloc, journal, run, readings, *node)?;
    }
    Ok(out)
}
