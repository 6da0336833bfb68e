//! The nodes of a line on the air, by their numbers.
ghost use Rattle.std.specs.Prelude.{◌≡◌, length, replicate, OnOk, IfOk};
ghost use Rattle.line_air.specs.Nodes.{NodeState, new_node, is_busy, may_arm, has_power, may_hear_all, is_one, first_of, queue_of, changed};
ghost use Rattle.line_air.specs.Nodes.{with_joined, with_power, without_power, with_sending, with_armed, armed_with, waiting_first, first_gone};
ghost use Rattle.line_air.specs.Nodes.{with_frame, hearing_more, hearing_less, hears_clean, heard_by, silenced_by};
ghost use Rattle.std.specs.Prelude.{slice_get};

use crate::frame::Waiting;
use crate::node::Node;
use line_place::Link;
use std::alloc::{AllocError, Global};
use std::marker::Model;

/// A hearer of a frame that ends.
#[derive(Clone, Copy, Debug)]
pub struct Heard {
    /// The way to the hearer.
    pub link: Link,
    /// Whether nothing disturbed the frame there.
    pub clear: bool,
}

/// The nodes of a line, by their numbers.
///
/// A contract sees the list of them. What is done to a node that is not there changes nothing.
#[derive(Drop)]
pub struct Nodes {
    nodes: Vec<Node>,
}

impl Model for Nodes {
    ghost use Rattle.std.specs.Prelude.{List};
    ghost use Rattle.line_air.specs.Nodes.{NodeState};

    ghost Value = { List NodeState };

    ghost view = { λ n. n.nodes.items };
}

impl Nodes {
    // This many nodes with power that have not joined.
    pub fn new(alloc: Global, count: usize) -> Result<Nodes, AllocError>
        ensures { IfOk result (λ nodes. nodes ≡ replicate count new_node) }
    {
        let mut nodes = Vec::new(alloc);
        for k in 0..count {
            nodes.push(Node::new(alloc))?;
        }
        Ok(Nodes { nodes })
    }

    #[tactic(auto, unfolding(crate::specs::Nodes::is_one))]
    pub fn is_powered(&self, node: u32) -> bool
        ensures { result ≡ is_one has_power node self.now }
    {
        match self.nodes.get(node as usize) {
            Some(node) => node.is_powered(),
            None => false,
        }
    }

    // Whether frames to all come to a node.
    #[tactic(auto, unfolding(crate::specs::Nodes::is_one))]
    pub fn may_hear_all(&self, node: u32) -> bool
        ensures { result ≡ is_one may_hear_all node self.now }
    {
        match self.nodes.get(node as usize) {
            Some(node) => node.may_hear_all(),
            None => false,
        }
    }

    #[tactic(auto, unfolding(crate::specs::Nodes::is_one))]
    pub fn is_busy(&self, node: u32) -> bool
        ensures { result ≡ is_one is_busy node self.now }
    {
        match self.nodes.get(node as usize) {
            Some(node) => node.is_busy(),
            None => false,
        }
    }

    #[tactic(auto, unfolding(crate::specs::Nodes::is_one))]
    pub fn may_arm(&self, node: u32) -> bool
        ensures { result ≡ is_one may_arm node self.now }
    {
        match self.nodes.get(node as usize) {
            Some(node) => node.may_arm(),
            None => false,
        }
    }

    // The frame that waits first at a node.
    #[tactic(auto, unfolding(crate::specs::Nodes::first_of))]
    pub fn first(&self, node: u32) -> Option<Waiting>
        ensures { result ≡ first_of node self.now }
    {
        match self.nodes.get(node as usize) {
            Some(node) => node.first(),
            None => None,
        }
    }

    // How many frames wait at a node.
    pub fn waiting(&self, node: u32) -> usize
        ensures { result ≡ length (queue_of (slice_get self.now node)) }
    {
        match self.nodes.get(node as usize) {
            Some(node) => node.waiting(),
            None => 0,
        }
    }

    #[tactic(auto, using(crate::proofs::ChangedNodes::changes))]
    pub fn set_joined(&mut self, node: u32, joined: bool)
        ensures { self.new ≡ changed node (with_joined joined) self.old }
    {
        if node as usize >= self.nodes.len() {
            return;
        }
        self.nodes[node as usize].set_joined(joined);
    }

    #[tactic(auto, using(crate::proofs::ChangedNodes::changes))]
    pub fn fail(&mut self, node: u32)
        ensures { self.new ≡ changed node without_power self.old }
    {
        if node as usize >= self.nodes.len() {
            return;
        }
        self.nodes[node as usize].fail();
    }

    #[tactic(auto, using(crate::proofs::ChangedNodes::changes))]
    pub fn restore(&mut self, node: u32)
        ensures { self.new ≡ changed node with_power self.old }
    {
        if node as usize >= self.nodes.len() {
            return;
        }
        self.nodes[node as usize].restore();
    }

    #[tactic(auto, using(crate::proofs::ChangedNodes::changes))]
    pub fn set_sending(&mut self, node: u32, sending: bool)
        ensures { self.new ≡ changed node (with_sending sending) self.old }
    {
        if node as usize >= self.nodes.len() {
            return;
        }
        self.nodes[node as usize].set_sending(sending);
    }

    #[tactic(auto, using(crate::proofs::ChangedNodes::changes))]
    pub fn set_armed(&mut self, node: u32, armed: bool)
        ensures { self.new ≡ changed node (with_armed armed) self.old }
    {
        if node as usize >= self.nodes.len() {
            return;
        }
        self.nodes[node as usize].set_armed(armed);
    }

    #[tactic(auto, using(crate::proofs::ChangedNodes::changes))]
    pub fn set_first(&mut self, node: u32, waiting: Waiting)
        ensures { self.new ≡ changed node (waiting_first waiting) self.old }
    {
        if node as usize >= self.nodes.len() {
            return;
        }
        self.nodes[node as usize].set_first(waiting);
    }

    // An attempt of a node is due, and its first frame is held no longer.
    #[tactic(auto, using(crate::proofs::ChangedNodes::changes))]
    pub fn arm_first(&mut self, node: u32, first: Waiting)
        ensures { self.new ≡ changed node (armed_with first) self.old }
    {
        if node as usize >= self.nodes.len() {
            return;
        }
        self.nodes[node as usize].arm_first(first);
    }

    #[tactic(auto, using(crate::proofs::ChangedNodes::changes))]
    pub fn drop_first(&mut self, node: u32)
        ensures { self.new ≡ changed node first_gone self.old }
    {
        if node as usize >= self.nodes.len() {
            return;
        }
        self.nodes[node as usize].drop_first();
    }

    // A frame waits at a node behind the others.
    #[tactic(auto, using(crate::proofs::ChangedNodes::changes))]
    pub fn push(&mut self, node: u32, waiting: Waiting) -> Result<(), AllocError>
        ensures { OnOk result (self.new ≡ changed node (with_frame waiting) self.old) }
    {
        if node as usize >= self.nodes.len() {
            return Ok(());
        }
        self.nodes[node as usize].push(waiting)
    }

    // A frame of a node begins at a hearer.
    #[tactic(auto, using(crate::proofs::ChangedNodes::changes))]
    fn hear(&mut self, node: u32, from: u32, collisions: bool) -> Result<(), AllocError>
        ensures { OnOk result (self.new ≡ changed node (hearing_more collisions from) self.old) }
    {
        if node as usize >= self.nodes.len() {
            return Ok(());
        }
        self.nodes[node as usize].hear(from, collisions)
    }

    // Whether the frame of a node is heard at a hearer, and nothing disturbed it.
    #[tactic(auto, unfolding(crate::specs::Nodes::is_one))]
    fn is_clear(&self, node: u32, from: u32) -> bool
        ensures { result ≡ is_one (hears_clean from) node self.now }
    {
        match self.nodes.get(node as usize) {
            Some(node) => node.is_clear(from),
            None => false,
        }
    }

    // The frame of a node ends at a hearer.
    #[tactic(auto, using(crate::proofs::ChangedNodes::changes))]
    fn hear_no_more(&mut self, node: u32, from: u32)
        ensures { self.new ≡ changed node (hearing_less from) self.old }
    {
        if node as usize >= self.nodes.len() {
            return;
        }
        self.nodes[node as usize].hear_no_more(from);
    }

    // A frame of a node begins at each of its hearers.
    #[tactic(auto, unfolding(crate::specs::Nodes::heard_by))]
    pub fn hear_all(
        &mut self,
        links: &[Link],
        from: u32,
        collisions: bool,
    ) -> Result<(), AllocError>
        ensures { OnOk result (self.new ≡ heard_by collisions from links.now self.old) }
    {
        for link in links {
            self.hear(link.to, from, collisions)?;
        }
        Ok(())
    }

    // The frame of a node ends at each of its hearers. Lists them, with whether it was undisturbed there.
    #[tactic(auto, unfolding(crate::specs::Nodes::silenced_by))]
    pub fn silence(
        &mut self,
        links: &[Link],
        from: u32,
        heard: &mut Vec<Heard>,
    ) -> Result<(), AllocError>
        ensures { OnOk result (silenced_by from links.now (record { nodes = self.old; heard = heard.old.items })
            ≡ record { nodes = self.new; heard = heard.new.items }) }
    {
        for link in links {
            let clear = self.is_clear(link.to, from);
            self.hear_no_more(link.to, from);
            heard.push(Heard { link: *link, clear })?;
        }
        Ok(())
    }
}
