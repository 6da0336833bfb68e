//! The texts of a report that the world gives.
ghost use Rattle.std.specs.Prelude.{◌≡◌, ◌+◌, ◌-◌, ◌++◌, length, OnOk, string_bytes};
ghost use Rattle.script_lines.specs.Clauses.{StopsWith};
ghost use Rattle.line_script.specs.Texts.{bad_text};
ghost use Rattle.line_replay.specs.Texts.{flight_text, flies_text, sent_text, totals};

use line_script::{Reason, Totals, bad_text, push_fly};
use line_world::World;
use plc_base::Sink;
use script_lines::{StopReason, stop};
use std::alloc::{AllocError, Global};

#[tactic(auto, unfolding(crate::specs::Texts::flight_text))]
fn push_flight(text: &mut String, world: &World, number: u32) -> Result<(), AllocError>
    ensures { OnOk result (string_bytes text.new ≡ string_bytes text.old ++ flight_text world.now number) }
{
    let Some(octets) = world.flight(number) else {
        return Ok(());
    };
    let Some(node) = world.flight_sender(number) else {
        return Ok(());
    };
    push_fly(text, number, node, octets)
}

/// Appends the lines of the flights from a number on: none to a quiet report.
#[tactic(auto, unfolding(crate::specs::Texts::sent_text))]
pub fn push_sent(
    text: &mut String,
    quiet: bool,
    world: &World,
    first: u32,
) -> Result<(), AllocError>
    ensures { OnOk result (string_bytes text.new ≡ string_bytes text.old ++ sent_text quiet world.now first) }
{
    if quiet {
        return Ok(());
    }
    push_flies(text, world, first)
}

fn push_flies(text: &mut String, world: &World, first: u32) -> Result<(), AllocError>
    ensures { OnOk result (string_bytes text.new
        ≡ string_bytes text.old ++ flies_text world.now first (length world.now.flights + 1 - first)) }
{
    let last = world.counts().flights;
    for number in u64::from(first)..u64::from(last) + 1 {
        push_flight(text, world, number as u32)?;
    }
    Ok(())
}

/// The totals of a world.
pub fn totals(world: &World) -> Totals
    ensures { result ≡ totals world.now }
{
    let counts = world.counts();
    Totals {
        events: counts.events,
        flights: counts.flights,
        sends: counts.sends,
        ups: counts.ups,
        forged: counts.forged,
    }
}

/// Reports a bad line, at which the run stops.
pub fn refuse<K: Sink>(
    alloc: Global,
    number: u32,
    reason: Reason,
    sink: &mut K,
) -> Result<(), StopReason>
    ensures { StopsWith (K.state sink.old) (K.state sink.new) (bad_text number reason) result }
{
    stop(sink, bad_text(alloc, number, reason))
}
