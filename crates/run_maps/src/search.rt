//! How many hops each node is from the coordinator.
ghost use Rattle.std.specs.Prelude.{◌≡◌, IfOk, OnOk};
ghost use Rattle.run_maps.specs.Searches as spec_searches;

use crate::links::Heard;
use std::alloc::{AllocError, Global};
use std::marker::Model;

/// How a node was found.
#[derive(Clone, Copy, Debug, PartialEq, Eq)]
pub struct Found {
    /// How many hops it is from the coordinator.
    pub hops: usize,
    /// The node before it on the way. The coordinator has itself.
    pub parent: u32,
}

/// A search from the coordinator over links either way, breadth first.
#[derive(Drop)]
pub struct Search {
    /// For each node how it was found, once it was.
    pub found: Vec<Option<Found>>,
    /// The nodes that were found, in their order.
    pub order: Vec<u32>,
    /// The hops of the last one.
    pub most: usize,
}

impl Model for Search {
    ghost use Rattle.run_maps.specs.Searches as spec_searches;

    ghost Value = { spec_searches.Search };

    ghost view = { λ s. record { found = s.found.items; order = s.order.items; most = s.most } };
}

// Whether there is such a node, and it was not found.
fn is_unknown(found: Option<Option<Found>>) -> bool
    ensures { result ≡ spec_searches.is_unknown found }
{
    match found {
        None => false,
        Some(found) => found.is_none(),
    }
}

fn has_hops(found: Option<Found>, hops: usize) -> bool
    ensures { result ≡ spec_searches.has_hops found hops }
{
    match found {
        None => false,
        Some(found) => found.hops == hops,
    }
}

// Whether a node was found, this many hops away.
fn is_so_far(found: Option<Option<Found>>, hops: usize) -> bool
    ensures { result ≡ spec_searches.is_so_far found hops }
{
    match found {
        None => false,
        Some(found) => has_hops(found, hops),
    }
}

impl Search {
    // No node of this many was found.
    #[tactic(auto, unfolding(crate::specs::Searches::nobody))]
    fn new(alloc: Global, nodes: usize) -> Result<Search, AllocError>
        ensures { IfOk result (λ search. search ≡ spec_searches.nobody nodes) }
    {
        let mut found = Vec::new(alloc);
        found.resize(nodes, None)?;
        Ok(Search {
            found,
            order: Vec::new(alloc),
            most: 0,
        })
    }

    // A node that was not found before is this many hops away.
    #[tactic(auto, unfolding(crate::specs::Searches::find))]
    fn find(&mut self, node: u32, hops: usize, parent: u32) -> Result<(), AllocError>
        ensures { OnOk result (self.new ≡ spec_searches.find node hops parent self.old) }
    {
        let at = node as usize;
        if !is_unknown(self.found.get(at).copied()) {
            return Ok(());
        }
        self.order.push(node)?;
        self.found[at] = Some(Found { hops, parent });
        self.most = hops;
        Ok(())
    }

    // A node is one hop further than a node beside it that is this many hops away. A run has at most 1,000 nodes.
    #[tactic(auto, unfolding(crate::specs::Searches::reach))]
    fn reach(&mut self, hops: usize, from: u32, to: u32) -> Result<(), AllocError>
        ensures { OnOk result (self.new ≡ spec_searches.reach hops from to self.old) }
    {
        if !is_so_far(self.found.get(from as usize).copied(), hops) {
            return Ok(());
        }
        self.find(to, hops.min(1000) + 1, from)
    }

    // Over a link either way.
    #[tactic(auto, unfolding(crate::specs::Searches::reach_both))]
    fn reach_both(&mut self, hops: usize, heard: &Heard) -> Result<(), AllocError>
        ensures { OnOk result (self.new ≡ spec_searches.reach_both hops heard.now self.old) }
    {
        self.reach(hops, heard.from, heard.to)?;
        self.reach(hops, heard.to, heard.from)
    }

    // Over each link, from the nodes that are this many hops away.
    fn spread(&mut self, hops: usize, heards: &[Heard]) -> Result<(), AllocError>
        ensures { OnOk result (self.new ≡ spec_searches.spread hops heards.now self.old) }
    {
        for heard in heards {
            self.reach_both(hops, heard)?;
        }
        Ok(())
    }

    // Where no node is so far, no other one is further.
    #[tactic(auto, unfolding(crate::specs::Searches::round))]
    fn round(&mut self, heards: &[Heard], hops: usize) -> Result<(), AllocError>
        ensures { OnOk result (self.new ≡ spec_searches.round heards.now hops self.old) }
    {
        if self.most != hops {
            return Ok(());
        }
        self.spread(hops, heards)
    }

    fn rounds(&mut self, heards: &[Heard], nodes: usize) -> Result<(), AllocError>
        ensures { OnOk result (self.new ≡ spec_searches.rounds heards.now nodes self.old) }
    {
        for hops in 0..nodes {
            self.round(heards, hops)?;
        }
        Ok(())
    }

    // Of this many nodes those that no link leads to.
    fn add_strays(&mut self, hops: usize, nodes: u32) -> Result<(), AllocError>
        ensures { OnOk result (self.new ≡ spec_searches.strays hops nodes self.old) }
    {
        for node in 0..nodes {
            self.find(node, hops, 0)?;
        }
        Ok(())
    }

    #[tactic(auto, unfolding(crate::specs::Searches::with_strays))]
    fn end(&mut self, nodes: u32) -> Result<(), AllocError>
        ensures { OnOk result (self.new ≡ spec_searches.with_strays nodes self.old) }
    {
        let hops = self.most.min(1000) + 1;
        self.add_strays(hops, nodes)
    }
}

#[tactic(auto, unfolding(crate::specs::Searches::linked))]
fn linked(alloc: Global, nodes: u32, heards: &[Heard]) -> Result<Search, AllocError>
    ensures { IfOk result (λ search. search ≡ spec_searches.linked nodes heards.now) }
{
    let mut search = Search::new(alloc, nodes as usize)?;
    search.find(0, 0, 0)?;
    search.rounds(heards, nodes as usize)?;
    Ok(search)
}

/// The search over this many nodes. Those that no link leads to are one hop further than all others.
///
/// It fails only where memory runs out.
#[tactic(auto, unfolding(crate::specs::Searches::search_of))]
pub fn search_of(alloc: Global, nodes: u32, heards: &[Heard]) -> Result<Search, AllocError>
    ensures { IfOk result (λ search. search ≡ spec_searches.search_of nodes heards.now) }
{
    let mut search = linked(alloc, nodes, heards)?;
    search.end(nodes)?;
    Ok(search)
}
