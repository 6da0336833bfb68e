//! What nodes were, event by event, and which way their frames to the coordinator go.
ghost use Rattle.std.specs.Prelude.{◌≡◌, ◌++◌, ◌∷◌, [], OnOk, length};
ghost use Rattle.line_record.specs.Pasts as spec_pasts;

use crate::mode::{Mode, is_same, mode_of};
use node_rules::{Shown, ShownRoute};
use std::alloc::{AllocError, Global};
use std::marker::Model;

/// From this event on, by its number from 1, a node is this.
#[derive(Clone, Copy, Debug, PartialEq, Eq)]
pub struct Change {
    /// The event.
    pub event: usize,
    /// What the node is from it on.
    pub mode: Mode,
}

/// What is known of a node.
#[derive(Drop)]
struct Past {
    changes: Vec<Change>,
    // The address of its next hop to the coordinator, by what it showed last.
    next_hop: Option<u16>,
}

impl Model for Past {
    ghost use Rattle.line_record.specs.Pasts.{NodePast};

    ghost Value = { NodePast };

    ghost view = { λ p. record { changes = p.changes.items; next_hop = p.next_hop } };
}

/// What is known of all nodes, by their numbers from 0. A contract sees the list of that.
#[derive(Drop)]
pub struct Pasts {
    alloc: Global,
    nodes: Vec<Past>,
}

impl Model for Pasts {
    ghost use Rattle.std.specs.Prelude.{List};
    ghost use Rattle.line_record.specs.Pasts.{NodePast};

    ghost Value = { List NodePast };

    ghost view = { λ p. p.nodes.items };
}

// The address of the next hop of the valid route to the coordinator, whose address is 0.
fn next_hop_in(routes: &[ShownRoute]) -> Option<u16>
    ensures { result ≡ spec_pasts.next_hop_in routes.now }
{
    for route in routes {
        if route.dest.number() == 0 {
            return route.next;
        }
    }
    None
}

fn is_mode(change: Option<Change>, mode: Mode) -> bool
    ensures { result ≡ spec_pasts.is_mode change mode }
{
    match change {
        None => false,
        Some(change) => is_same(change.mode, mode),
    }
}

fn push_mode(changes: &mut Vec<Change>, event: usize, mode: Mode) -> Result<(), AllocError>
    ensures { OnOk result (changes.new.items ≡ spec_pasts.changed event mode changes.old.items) }
{
    if is_mode(changes.last().copied(), mode) {
        return Ok(());
    }
    changes.push(Change { event, mode })?;
    Ok(())
}

impl Past {
    fn look(&mut self, event: usize, shown: &Shown) -> Result<(), AllocError>
        ensures { OnOk result (self.new ≡ spec_pasts.past_after event shown.now self.old) }
    {
        push_mode(&mut self.changes, event, mode_of(shown))?;
        self.next_hop = next_hop_in(shown.routes.routes());
        Ok(())
    }
}

impl Pasts {
    /// Those of no node. It takes no memory.
    pub fn new(alloc: Global) -> Pasts
        ensures { result ≡ [] }
    {
        Pasts {
            alloc,
            nodes: Vec::new(alloc),
        }
    }

    /// How many nodes there are.
    pub fn len(&self) -> usize
        ensures { result ≡ length self.now }
    {
        self.nodes.len()
    }

    /// One more node, of which nothing is known so far.
    ///
    /// It fails only where memory runs out, and nothing changes then.
    pub fn push_node(&mut self) -> Result<(), AllocError>
        ensures { OnOk result (self.new ≡ self.old ++ spec_pasts.no_past ∷ []) }
    {
        self.nodes.push(Past {
            changes: Vec::new(self.alloc),
            next_hop: None,
        })?;
        Ok(())
    }

    /// What a node shows after an event, where there is such a node.
    ///
    /// It fails only where memory runs out, and nothing changes then.
    pub fn look(&mut self, node: usize, event: usize, shown: &Shown) -> Result<(), AllocError>
        ensures { OnOk result (self.new ≡ spec_pasts.looked node event shown.now self.old) }
    {
        if node >= self.nodes.len() {
            return Ok(());
        }
        self.nodes[node].look(event, shown)
    }

    /// The changes of a node, none where there is no such node.
    pub fn changes(&self, node: usize) -> &[Change]
        ensures { result.now ≡ spec_pasts.changes_at self.now node }
    {
        match self.nodes.get(node) {
            None => &[],
            Some(past) => past.changes.as_slice(),
        }
    }

    /// The address of the next hop of a node to the coordinator, by the valid route that it showed last. None where it showed none.
    pub fn next_hop(&self, node: usize) -> Option<u16>
        ensures { result ≡ spec_pasts.next_hop_at self.now node }
    {
        match self.nodes.get(node) {
            None => None,
            Some(past) => past.next_hop,
        }
    }
}
