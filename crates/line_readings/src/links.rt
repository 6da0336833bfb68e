//! The table of links.
ghost use Rattle.std.specs.Prelude.{IfOk, OnOk};
ghost use Rattle.line_readings.specs.Readings.{IsLinkTable};

use crate::cause::{Cause, cause_of, is_lost, loss_of};
use crate::csv::{number, push_row, words};
use crate::journal::Journal;
use crate::reading::Reading;
use crate::run::{Run, numbered};
use crate::tally::Tally;
use std::alloc::{AllocError, Global};
use std::collections::BTreeMap;

/// The first line of the table of links.
pub const LINKS_HEAD: &[u8; 46] = b"a,b,frames,given_up,readings_lost,given_up_by\n";

// What the table says of a link, both ways together.
#[derive(Drop)]
struct Link {
    a: u32,
    b: u32,
    frames: usize,
    given_up: usize,
    readings: usize,
    by: Tally,
}

// The links, by their two nodes, the lower one first.
#[derive(Drop)]
struct Links {
    places: BTreeMap<(u32, u32), usize>,
    links: Vec<Link>,
}

// Two nodes, the lower one first.
fn pair(one: u32, other: u32) -> (u32, u32) {
    if one <= other {
        return (one, other);
    }
    (other, one)
}

// The two nodes of a frame to one node.
fn ends_of_flight(run: &Run<'_>, number: usize) -> Option<(u32, u32)> {
    let flight = numbered(run.flights, number)?;
    let course = numbered(run.courses, number)?;
    let to = course.to?;
    let from = u32::from(flight.from);
    if from == to {
        return None;
    }
    Some(pair(from, to))
}

impl Links {
    fn new(alloc: Global) -> Links {
        Links {
            places: BTreeMap::new(alloc),
            links: Vec::new(alloc),
        }
    }

    // The place of a link, which is added where it is new.
    fn place(&mut self, alloc: Global, nodes: (u32, u32)) -> Result<usize, AllocError> {
        if let Some(place) = self.places.get(&nodes) {
            return Ok(*place);
        }
        let place = self.links.len();
        self.links.push(Link {
            a: nodes.0,
            b: nodes.1,
            frames: 0,
            given_up: 0,
            readings: 0,
            by: Tally::new(alloc),
        })?;
        self.places.insert(nodes, place)?;
        Ok(place)
    }

    fn take_flight(
        &mut self,
        alloc: Global,
        journal: &Journal,
        run: &Run<'_>,
        number: usize,
    ) -> Result<(), AllocError> {
        let Some(nodes) = ends_of_flight(run, number) else {
            return Ok(());
        };
        let Some(course) = numbered(run.courses, number) else {
            return Ok(());
        };
        let place = self.place(alloc, nodes)?;
        let Some(link) = self.links.get_mut(place) else {
            return Ok(());
        };
        link.frames = link.frames.saturating_add(1);
        if is_lost(course) {
            link.given_up = link.given_up.saturating_add(1);
            link.by.count(loss_of(journal, run, number))?;
        }
        Ok(())
    }

    // A reading that did not come.
    fn take_cause(
        &mut self,
        alloc: Global,
        run: &Run<'_>,
        cause: &Cause,
    ) -> Result<(), AllocError> {
        let Some(nodes) = ends_of_flight(run, cause.flight) else {
            return Ok(());
        };
        let place = self.place(alloc, nodes)?;
        let Some(link) = self.links.get_mut(place) else {
            return Ok(());
        };
        link.readings = link.readings.saturating_add(1);
        Ok(())
    }
}

fn links_of(
    alloc: Global,
    journal: &Journal,
    run: &Run<'_>,
    readings: &[Reading],
) -> Result<Links, AllocError> {
    let mut links = Links::new(alloc);
    for i in 0..run.flights.len() {
        links.take_flight(alloc, journal, run, i + 1)?;
    }
    for reading in readings {
        if reading.came.is_none() {
            links.take_cause(alloc, run, &cause_of(journal, run, reading))?;
        }
    }
    Ok(links)
}

fn push_link(out: &mut Vec<u8>, alloc: Global, link: &Link) -> Result<(), AllocError>
    ensures { OnOk result (IsLinkTable out.old.items → IsLinkTable out.new.items) }
{
    let by = link.by.text(alloc)?;
    push_row(
        out,
        link.a,
        &[
            number(link.b as usize),
            number(link.frames),
            number(link.given_up),
            number(link.readings),
            words(by.as_str()),
        ],
    )?;
    Ok(())
}

fn push_link_at(
    out: &mut Vec<u8>,
    alloc: Global,
    links: &[Link],
    place: usize,
) -> Result<(), AllocError>
    ensures { OnOk result (IsLinkTable out.old.items → IsLinkTable out.new.items) }
{
    match links.get(place) {
        None => Ok(()),
        Some(link) => push_link(out, alloc, link),
    }
}

/// A line with the heads, and a line for each link that carried a frame to one node, in the order of its nodes: how many such frames flew both ways,
/// how many of them never came, how many readings ended there, and why frames never came.
///
/// It fails only where memory runs out.
pub fn link_table(
    alloc: Global,
    journal: &Journal,
    run: &Run<'_>,
    readings: &[Reading],
) -> Result<Vec<u8>, AllocError>
    ensures { IfOk result (λ out. IsLinkTable out.items) }
{
    let links = links_of(alloc, journal, run, readings)?;
    let mut out = Vec::from_slice(alloc, LINKS_HEAD)?;
    for place in links.places.values() {
        push_link_at(&mut out, alloc, links.links.as_slice(), *place)?;
    }
    Ok(out)
}
