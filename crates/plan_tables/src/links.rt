//! Measured links, as rows of numbers.
ghost use Rattle.std.specs.Prelude.{◌≡◌, IfOk, [], map};
ghost use Rattle.toml.specs.View.{view};
ghost use Rattle.plan_tables.specs.Members.{table_of};
ghost use Rattle.plan_tables.specs.Links.{node_in, cost_part, measured_in, follows, links_from, farthest, has_link, with_meters, rows_in, matrix_at};

use crate::{Fields, Key, Wanted, WrongValue, chance_in, number_from_one_to, number_up_to};
use line_place::{Costs, Link, MeasuredLink};
use std::alloc::{AllocError, Global};
use std::marker::Model;
use toml::Value;

/// Measured links, in ascending order of sender and hearer. A contract sees the list of them.
#[derive(Drop)]
pub struct MeasuredLinks {
    links: Vec<MeasuredLink>,
}

impl Model for MeasuredLinks {
    ghost use Rattle.std.specs.Prelude.{List};
    ghost use Rattle.line_place.specs.declared.matrix.MeasuredLink.{MeasuredLink};

    ghost Value = { List MeasuredLink };

    ghost view = { λ m. m.links.items };
}

impl MeasuredLinks {
    /// The links.
    pub fn links(&self) -> &[MeasuredLink]
        ensures { result.now ≡ self.now }
    {
        self.links.as_slice()
    }

    /// The highest number of a node.
    pub fn meters(&self) -> u32
        ensures { result ≡ farthest self.now }
    {
        farthest(self.links.as_slice())
    }

    /// Whether there is a link from a node to another.
    pub fn has(&self, from: u32, to: u32) -> bool
        ensures { result ≡ has_link from to self.now }
    {
        has_link(self.links.as_slice(), from, to)
    }
}

fn has_link(links: &[MeasuredLink], from: u32, to: u32) -> bool
    ensures { result ≡ has_link from to links.now }
{
    for link in links {
        if link.from == from && link.link.to == to {
            return true;
        }
    }
    false
}

// The highest number of a node in links.
fn farthest(links: &[MeasuredLink]) -> u32
    ensures { result ≡ farthest links.now }
{
    let mut most = 0;
    for link in links {
        most = link.from.max(link.link.to).max(most);
    }
    most
}

// The number of a node at a place of a row.
#[tactic(auto, unfolding(crate::specs::Links::node_in))]
fn node_in(row: &Value, place: usize) -> Option<u32>
    ensures { result ≡ node_in place (view row.now) }
{
    let node = number_up_to(998, row.get(place)?)?;
    Some(node as u32)
}

// The cost that a row has, or that follows from the loss.
#[tactic(auto, unfolding(crate::specs::Links::cost_part))]
fn cost_part(row: &Value, costs: &Costs, loss: u16) -> Option<u8>
    ensures { result ≡ cost_part costs.now loss (view row.now) }
{
    match row.get(3) {
        None => Some(costs.of(u32::from(loss))),
        Some(cost) => Some(number_from_one_to(255, cost)? as u8),
    }
}

// A row of measured links.
#[tactic(auto, unfolding(crate::specs::Links::measured_in))]
fn measured_in(row: &Value, costs: &Costs) -> Option<MeasuredLink>
    ensures { result ≡ measured_in costs.now (view row.now) }
{
    let from = node_in(row, 0)?;
    let to = node_in(row, 1)?;
    let loss = chance_in(row.get(2)?)?;
    let cost = cost_part(row, costs, loss)?;
    if from == to {
        return None;
    }
    if row.get(4).is_some() {
        return None;
    }
    let loss = u32::from(loss);
    Some(MeasuredLink {
        from,
        link: Link { to, loss, cost },
    })
}

// Whether a link comes after the last one.
fn follows(links: &[MeasuredLink], link: &MeasuredLink) -> bool
    ensures { result ≡ follows links.now link.now }
{
    match links.last() {
        None => true,
        Some(last) => {
            last.from < link.from || (last.from == link.from && last.link.to < link.link.to)
        }
    }
}

// The links of rows.
fn links_in(
    alloc: Global,
    rows: &[Value],
    costs: &Costs,
) -> Result<Option<MeasuredLinks>, AllocError>
    ensures { IfOk result (λ links. links ≡ links_from costs.now [] (map view rows.now)) }
{
    let mut links: Vec<MeasuredLink> = Vec::new(alloc);
    for row in rows {
        let Some(link) = measured_in(row, costs) else {
            return Ok(None);
        };
        if !follows(links.as_slice(), &link) {
            return Ok(None);
        }
        links.push(link)?;
    }
    Ok(Some(MeasuredLinks { links }))
}

// Links with a meter.
fn with_meters(links: MeasuredLinks) -> Option<MeasuredLinks>
    ensures { result ≡ with_meters links }
{
    if links.meters() == 0 {
        return None;
    }
    Some(links)
}

// The links of a value, which has to be an array of rows.
#[tactic(auto, unfolding(crate::specs::Links::rows_in), using(crate::proofs::ArrayItems::listed_view))]
fn rows_in(alloc: Global, value: &Value, costs: &Costs) -> Result<Option<MeasuredLinks>, AllocError>
    ensures { IfOk result (λ links. links ≡ rows_in costs.now (view value.now)) }
{
    let Some(rows) = value.as_array() else {
        return Ok(None);
    };
    match links_in(alloc, rows.as_slice(), costs)? {
        Some(links) => Ok(with_meters(links)),
        None => Ok(None),
    }
}

/// The links of a measured place.
#[tactic(auto, unfolding(crate::specs::Links::matrix_at))]
pub fn matrix_at(
    alloc: Global,
    fields: &Fields<'_>,
    costs: &Costs,
) -> Result<Result<MeasuredLinks, WrongValue>, AllocError>
    ensures { IfOk result (λ read. read ≡ matrix_at costs.now (table_of fields.now)) }
{
    match fields.get(Key::Links) {
        None => Ok(Err(fields.wrong(Key::Links, Wanted::Links))),
        Some(value) => {
            let read = rows_in(alloc, value, costs)?;
            Ok(fields.checked(Key::Links, Wanted::Links, read))
        }
    }
}
