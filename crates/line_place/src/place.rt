//! Who hears whom.
ghost use Rattle.std.specs.Prelude.{◌≡◌, ◌++◌, [], length, map, IfOk, OnOk};
ghost use Rattle.std.specs.Prelude.{eqb};
ghost use Rattle.std.specs.Option.{option_copied};
ghost use Rattle.std.specs.List.{find};
ghost use Rattle.line_place.specs.Rows.{link_at, row_to, rows_to, measured_row, measured_rows, hearers, loss_in, listed};

use crate::link::link_over;
use crate::{Costs, Layout, Link, Losses, MeasuredLink};
use std::alloc::{AllocError, Global};
use std::marker::Model;

/// The links of a place.
///
/// A contract sees, for each node, the links that its frames take, in ascending order of the hearer.
#[derive(Drop)]
pub struct Place {
    pub(crate) rows: Vec<Vec<Link>>,
}

impl Model for Place {
    ghost use Rattle.std.specs.Prelude.{List, map};
    ghost use Rattle.line_place.specs.declared.link.Link.{Link};

    ghost Value = { List (List Link) };

    ghost view = { λ p. map (λ row. row.items) p.rows.items };
}

impl Place {
    /// The place of this many nodes whose links follow from how far they are apart.
    #[tactic(auto, unfolding(crate::specs::Rows::rows_to))]
    pub fn on(
        alloc: Global,
        nodes: u32,
        layout: &Layout,
        losses: &Losses,
        costs: &Costs,
    ) -> Result<Place, AllocError>
        ensures { IfOk result (λ place. place ≡ rows_to layout.now losses.now costs.now nodes nodes) }
    {
        let mut rows = Vec::new(alloc);
        for a in 0..nodes {
            rows.push(row_on(alloc, nodes, layout, losses, costs, a)?)?;
        }
        Ok(Place { rows })
    }

    /// The place of this many nodes with the links that were measured, those of each sender in the order in which they are given.
    /// Links of other senders are left out.
    #[tactic(auto, unfolding(crate::specs::Rows::measured_rows))]
    pub fn measured(alloc: Global, nodes: u32, links: &[MeasuredLink]) -> Result<Place, AllocError>
        ensures { IfOk result (λ place. place ≡ measured_rows links.now nodes) }
    {
        let mut rows = Vec::new(alloc);
        for a in 0..nodes {
            rows.push(measured_row(alloc, links, a)?)?;
        }
        Ok(Place { rows })
    }

    /// How many nodes there are, the coordinator among them.
    pub fn nodes(&self) -> usize
        ensures { result ≡ length self.now }
    {
        self.rows.len()
    }

    /// The links that the frames of a node take, none where the node is not on the line.
    #[tactic(auto, unfolding(crate::specs::Rows::hearers))]
    pub fn hearers(&self, node: u32) -> &[Link]
        ensures { result.now ≡ hearers self.now node }
    {
        match self.rows.get(node as usize) {
            Some(row) => row.as_slice(),
            None => &[],
        }
    }

    /// The chance that a frame of `from` is lost at `to`: 10,000 where it is not heard there.
    pub fn loss(&self, from: u32, to: u32) -> u32
        ensures { result ≡ loss_in (hearers self.now from) to }
    {
        loss_in(self.hearers(from), to)
    }
}

// The link to a node.
fn link_to(links: &[Link], to: u32) -> Option<&Link>
    ensures { option_copied result ≡ find (λ (l : Link). eqb l.to to) links.now }
{
    links.iter().find(|link| link.to == to)
}

// The loss of the link to a node.
#[tactic(auto, unfolding(crate::specs::Rows::loss_in))]
fn loss_in(links: &[Link], to: u32) -> u32
    ensures { result ≡ loss_in links.now to }
{
    match link_to(links, to) {
        Some(link) => link.loss,
        None => 10_000,
    }
}

// The link from a node to another, if a frame of the first reaches it.
#[tactic(auto, unfolding(crate::specs::Rows::link_at))]
fn link_at(layout: &Layout, losses: &Losses, costs: &Costs, a: u32, b: u32) -> Option<Link>
    ensures { result ≡ link_at layout.now losses.now costs.now a b }
{
    if a == b {
        return None;
    }
    match layout.far(a, b) {
        Some(steps) => Some(link_over(losses, costs, b, steps)),
        None => None,
    }
}

// The links of a node.
#[tactic(auto, unfolding(crate::specs::Rows::row_to))]
fn row_on(
    alloc: Global,
    nodes: u32,
    layout: &Layout,
    losses: &Losses,
    costs: &Costs,
    a: u32,
) -> Result<Vec<Link>, AllocError>
    ensures { IfOk result (λ row. row.items ≡ row_to layout.now losses.now costs.now a nodes) }
{
    let mut row = Vec::new(alloc);
    for b in 0..nodes {
        push_listed(&mut row, link_at(layout, losses, costs, a, b))?;
    }
    Ok(row)
}

// Puts a link at the end of a row, where there is one.
fn push_listed(row: &mut Vec<Link>, link: Option<Link>) -> Result<(), AllocError>
    ensures { OnOk result (row.new.items ≡ row.old.items ++ listed link) }
{
    match link {
        Some(link) => {
            row.push(link)?;
            Ok(())
        }
        None => Ok(()),
    }
}

// The measured links of a node.
#[tactic(auto, unfolding(crate::specs::Rows::measured_row))]
fn measured_row(alloc: Global, links: &[MeasuredLink], a: u32) -> Result<Vec<Link>, AllocError>
    ensures { IfOk result (λ row. row.items ≡ measured_row links.now a) }
{
    links
        .iter()
        .filter(|measured| measured.from == a)
        .map(|measured| measured.link)
        .collect(alloc)
}
