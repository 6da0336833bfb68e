//! How many readings of a meter were due, came and are missing.
ghost use Rattle.std.specs.Prelude.{◌≡◌, ◌+◌, IfOk, OnOk};
ghost use Rattle.line_readings.specs.Readings.{came_of, due_of, has_come, is_missing, is_spare, meters_of, missing_of, with_node};

use crate::reading::Reading;
use std::alloc::{AllocError, Global};

/// How many readings of a meter were due, how many of them came, and how many did not.
#[derive(Clone, Copy, Debug, PartialEq, Eq)]
pub struct Counts {
    /// Those that were due.
    pub due: usize,
    /// Those that came.
    pub came: usize,
    /// Those that did not.
    pub missing: usize,
}

fn due_of(readings: &[Reading], node: u32) -> usize
    ensures { result ≡ due_of node readings.now }
{
    let mut count = 0_usize;
    for reading in readings {
        if reading.node == node {
            count = count.saturating_add(1);
        }
    }
    count
}

fn has_come(reading: &Reading, node: u32) -> bool
    ensures { result ≡ has_come node reading.now }
{
    reading.node == node && reading.came.is_some()
}

fn is_missing(reading: &Reading, node: u32) -> bool
    ensures { result ≡ is_missing node reading.now }
{
    reading.node == node && reading.came.is_none()
}

fn came_of(readings: &[Reading], node: u32) -> usize
    ensures { result ≡ came_of node readings.now }
{
    let mut count = 0_usize;
    for reading in readings {
        if has_come(reading, node) {
            count = count.saturating_add(1);
        }
    }
    count
}

fn missing_of(readings: &[Reading], node: u32) -> usize
    ensures { result ≡ missing_of node readings.now }
{
    let mut count = 0_usize;
    for reading in readings {
        if is_missing(reading, node) {
            count = count.saturating_add(1);
        }
    }
    count
}

/// How many readings of a meter were due, came and are missing: each that was due came, or is missing.
pub fn counts_of(readings: &[Reading], node: u32) -> Counts
    ensures due { result.due ≡ due_of node readings.now }
    ensures came { result.came ≡ came_of node readings.now }
    ensures missing { result.missing ≡ missing_of node readings.now }
    ensures sum { result.came + result.missing ≡ result.due }
{
    Counts {
        due: due_of(readings, node),
        came: came_of(readings, node),
        missing: missing_of(readings, node),
    }
}

/// Whether a node is among those that are nobody's meter.
pub fn is_spare(spares: &[u32], node: u32) -> bool
    ensures { result ≡ is_spare node spares.now }
{
    spares.iter().any(|spare| *spare == node)
}

fn push_node(meters: &mut Vec<u32>, node: u32, is_spare: bool) -> Result<(), AllocError>
    ensures { OnOk result (meters.new.items ≡ with_node is_spare node meters.old.items) }
{
    if is_spare {
        return Ok(());
    }
    meters.push(node)?;
    Ok(())
}

/// The meters of a line of this many nodes: all but the coordinator and those that are nobody's, in the order of their numbers.
///
/// It fails only where memory runs out.
pub fn meters_of(alloc: Global, spares: &[u32], nodes: u32) -> Result<Vec<u32>, AllocError>
    ensures { IfOk result (λ meters. meters.items ≡ meters_of spares.now nodes) }
{
    let mut meters = Vec::new(alloc);
    for i in 0..nodes.saturating_sub(1) {
        push_node(&mut meters, i + 1, is_spare(spares, i + 1))?;
    }
    Ok(meters)
}
