//! What of a frame comes by chance.
ghost use Rattle.std.specs.Prelude.{◌≡◌, ◌≤◌, OnOk};
ghost use Rattle.line_air.specs.Chances.{come, after_draws, drawn_at, drawn_for_one_of_all, drawn_for_all, drawn_for_one_beside, drawn_beside};

use crate::disturbances::Disturbances;
use crate::nodes::{Heard, Nodes};
use air_draws::Draws;
use line_place::Link;
use std::alloc::AllocError;

/// The frame of a node that ends at a time.
#[derive(Clone, Copy, Debug)]
pub struct End {
    /// When it ends, in microseconds.
    pub at: u64,
    /// The sender.
    pub node: u32,
    /// The number of its flight.
    pub flight: u32,
    /// How many segments it has.
    pub segments: u32,
}

// How many of this many segments come, where each is lost with a chance. Each is a draw.
#[tactic(auto, unfolding(crate::specs::Chances::come, crate::specs::Chances::after_draws))]
pub(crate) fn segments_come(loss: &mut Draws, chance: u32, segments: u32) -> u32
    ensures value { result ≡ come chance segments loss.old }
    ensures after { loss.new ≡ after_draws segments loss.old }
    ensures bound { result ≤ segments }
{
    let mut come = 0;
    for k in 0..segments {
        if !loss.happens(chance) {
            come += 1;
        }
    }
    come
}

// A hearer draws for every segment, and is listed where all came.
#[tactic(auto, unfolding(crate::specs::Chances::drawn_at))]
fn draw_at(
    loss: &mut Draws,
    disturbances: &Disturbances,
    end: &End,
    link: &Link,
    came: &mut Vec<u32>,
) -> Result<(), AllocError>
    ensures { OnOk result (drawn_at disturbances.now end.now link.now (record { came = came.old.items; loss = loss.old })
        ≡ record { came = came.new.items; loss = loss.new }) }
{
    let chance = disturbances.loss_at(end.at, end.node, link.to, link.loss);
    if segments_come(loss, chance, end.segments) == end.segments {
        came.push(link.to)?;
    }
    Ok(())
}

// A hearer of a frame to all.
#[tactic(auto, unfolding(crate::specs::Chances::drawn_for_one_of_all))]
fn draw_for_one_of_all(
    loss: &mut Draws,
    disturbances: &Disturbances,
    nodes: &Nodes,
    end: &End,
    hearer: &Heard,
    came: &mut Vec<u32>,
) -> Result<(), AllocError>
    ensures { OnOk result (drawn_for_one_of_all disturbances.now nodes.now end.now (record { came = came.old.items; loss = loss.old }) hearer.now
        ≡ record { came = came.new.items; loss = loss.new }) }
{
    if !hearer.clear {
        return Ok(());
    }
    if !nodes.may_hear_all(hearer.link.to) {
        return Ok(());
    }
    draw_at(loss, disturbances, end, &hearer.link, came)
}

// The hearers that a frame to all comes to: those that have power, have joined, heard it undisturbed and lost no segment.
#[tactic(auto, unfolding(crate::specs::Chances::drawn_for_all))]
pub(crate) fn draw_for_all(
    loss: &mut Draws,
    disturbances: &Disturbances,
    nodes: &Nodes,
    end: &End,
    heard: &[Heard],
    came: &mut Vec<u32>,
) -> Result<(), AllocError>
    ensures { OnOk result (drawn_for_all disturbances.now nodes.now end.now heard.now (record { came = came.old.items; loss = loss.old })
        ≡ record { came = came.new.items; loss = loss.new }) }
{
    for hearer in heard {
        draw_for_one_of_all(loss, disturbances, nodes, end, hearer, came)?;
    }
    Ok(())
}

// Another hearer of a frame to one node.
#[tactic(auto, unfolding(crate::specs::Chances::drawn_for_one_beside))]
fn draw_for_one_beside(
    loss: &mut Draws,
    disturbances: &Disturbances,
    nodes: &Nodes,
    end: &End,
    to: u32,
    hearer: &Heard,
    came: &mut Vec<u32>,
) -> Result<(), AllocError>
    ensures { OnOk result (drawn_for_one_beside disturbances.now nodes.now end.now to (record { came = came.old.items; loss = loss.old }) hearer.now
        ≡ record { came = came.new.items; loss = loss.new }) }
{
    if hearer.link.to == to {
        return Ok(());
    }
    if !hearer.clear {
        return Ok(());
    }
    if !nodes.is_powered(hearer.link.to) {
        return Ok(());
    }
    draw_at(loss, disturbances, end, &hearer.link, came)
}

// The other hearers of a frame to one node that it comes to: those that have power, heard it undisturbed and lost no segment.
#[tactic(auto, unfolding(crate::specs::Chances::drawn_beside))]
pub(crate) fn draw_beside(
    loss: &mut Draws,
    disturbances: &Disturbances,
    nodes: &Nodes,
    end: &End,
    to: u32,
    heard: &[Heard],
    came: &mut Vec<u32>,
) -> Result<(), AllocError>
    ensures { OnOk result (drawn_beside disturbances.now nodes.now end.now to heard.now (record { came = came.old.items; loss = loss.old })
        ≡ record { came = came.new.items; loss = loss.new }) }
{
    for hearer in heard {
        draw_for_one_beside(loss, disturbances, nodes, end, to, hearer, came)?;
    }
    Ok(())
}
