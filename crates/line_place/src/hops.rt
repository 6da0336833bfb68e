//! How many hops each node is from the coordinator.
ghost use Rattle.std.specs.Prelude.{◌≡◌, ◌↔◌, IfOk, OnOk, IsTrue, None, replicate, slice_get, is_some};
ghost use Rattle.std.specs.List.{list_all};
ghost use Rattle.line_place.specs.Hops.{AreHops, AllHavePaths, AreAtMost, IsWider, IsLinkTo, IsReachedBy};

use crate::{Link, Place};
use std::alloc::{AllocError, Global};

impl Place {
    /// The hops of each node from the coordinator, node 0, along links that carry frames away from it; None where no path leads to
    /// the node. Each link is looked at once.
    pub fn hops(&self, alloc: Global) -> Result<Vec<Option<usize>>, AllocError>
        ensures { IfOk result (λ hops. AreHops self.now hops.items) }
    {
        let nodes = self.nodes();
        let mut hops = no_hops(alloc, nodes)?;
        if nodes == 0 {
            return Ok(hops);
        }
        hops[0] = Some(0);
        let mut front = Vec::new(alloc);
        front.push(0)?;
        self.widen_all(alloc, &mut hops, front)?;
        Ok(hops)
    }

    // Gives the nodes their hops, round after round.
    fn widen_all(
        &self,
        alloc: Global,
        hops: &mut Vec<Option<usize>>,
        mut front: Vec<u32>,
    ) -> Result<(), AllocError>
        requires { AreAtMost self.now 0 hops.old.items front.items }
        ensures { OnOk result (AreHops self.now hops.new.items) }
    {
        let mut round = 0;
        'rounds: while !front.is_empty() {
            round += 1;
            let mut next = Vec::new(alloc);
            self.widen(hops, &mut next, front.as_slice(), round)?;
            front = next;
        }
        Ok(())
    }

    // Gives this many hops to the nodes that frames of these nodes reach, where they have none yet, and lists them.
    fn widen(
        &self,
        hops: &mut Vec<Option<usize>>,
        next: &mut Vec<u32>,
        front: &[u32],
        round: usize,
    ) -> Result<(), AllocError>
        ensures { OnOk result (IsWider round (IsReachedBy self.now front.now) hops.old.items next.old.items hops.new.items next.new.items) }
    {
        for a in front {
            reach_all(hops, next, self.hearers(*a), round)?;
        }
        Ok(())
    }

    /// Whether a path leads from the coordinator to every node.
    pub fn is_connected(&self, alloc: Global) -> Result<bool, AllocError>
        ensures { IfOk result (λ connected. IsTrue connected ↔ AllHavePaths self.now) }
    {
        let hops = self.hops(alloc)?;
        Ok(all_reached(&hops))
    }
}

// Whether each node has hops.
fn all_reached(hops: &[Option<usize>]) -> bool
    ensures { result ≡ list_all is_some hops.now }
{
    hops.iter().all(|hops| hops.is_some())
}

// No node has been reached.
fn no_hops(alloc: Global, nodes: usize) -> Result<Vec<Option<usize>>, AllocError>
    ensures { IfOk result (λ hops. hops.items ≡ replicate nodes None) }
{
    let mut hops = Vec::new(alloc);
    hops.resize(nodes, None)?;
    Ok(hops)
}

// Gives this many hops to the hearers that have none yet, and lists them.
fn reach_all(
    hops: &mut Vec<Option<usize>>,
    next: &mut Vec<u32>,
    links: &[Link],
    round: usize,
) -> Result<(), AllocError>
    ensures { OnOk result (IsWider round (IsLinkTo links.now) hops.old.items next.old.items hops.new.items next.new.items) }
{
    for link in links {
        reach(hops, next, link.to, round)?;
    }
    Ok(())
}

// The hops of a node so far.
fn hop_of(hops: &[Option<usize>], node: u32) -> Option<Option<usize>>
    ensures { result ≡ slice_get hops.now node }
{
    hops.get(node as usize).copied()
}

// Gives this many hops to a node that has none yet, and lists it.
fn reach(
    hops: &mut Vec<Option<usize>>,
    next: &mut Vec<u32>,
    node: u32,
    round: usize,
) -> Result<(), AllocError>
    ensures { OnOk result (IsWider round (λ b. b ≡ node) hops.old.items next.old.items hops.new.items next.new.items) }
{
    let Some(so_far) = hop_of(hops, node) else {
        return Ok(());
    };
    if so_far.is_some() {
        return Ok(());
    }
    hops[node as usize] = Some(round);
    next.push(node)?;
    Ok(())
}
