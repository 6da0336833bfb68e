//! What disturbs the line for a time.
ghost use Rattle.std.specs.Prelude.{◌≡◌, ◌≤◌, ◌++◌, ◌∷◌, [], eqb, ◌&&◌, OnOk, OnErr};
ghost use Rattle.line_air.specs.Disturbances.{is_during, is_noisy, louder, loss_after, loss_with, is_cut_between, is_cut, is_withheld_from, is_withheld};
ghost use Rattle.line_air.specs.Disturbances.{loss_at};

use std::alloc::{AllocError, Global};
use std::marker::Model;

/// Noise at one node, or at all.
#[derive(Clone, Copy, Debug)]
pub struct Noise {
    /// From when on, in microseconds.
    pub from: u64,
    /// Until when; then it is over.
    pub until: u64,
    /// The node that hears worse; None stands for all.
    pub at: Option<u32>,
    /// The chance that a frame which would come is lost, in ten-thousandths.
    pub loss: u32,
}

/// Two nodes that do not hear each other for a time.
#[derive(Clone, Copy, Debug)]
pub struct CutLink {
    /// From when on, in microseconds.
    pub from: u64,
    /// Until when; then they hear each other again.
    pub until: u64,
    /// One of the nodes.
    pub one: u32,
    /// The other one.
    pub other: u32,
}

/// A node from which an attacker keeps the frames that are meant for it, for a time.
#[derive(Clone, Copy, Debug)]
pub struct Withheld {
    /// From when on, in microseconds.
    pub from: u64,
    /// Until when.
    pub until: u64,
    /// The node.
    pub node: u32,
}

// Whether a time is within a span, its end left out.
fn is_during(now: u64, from: u64, until: u64) -> bool
    ensures { result ≡ is_during now from until }
{
    if now < from {
        return false;
    }
    now < until
}

impl Noise {
    /// Whether it is heard at a node at a time.
    #[tactic(auto, unfolding(crate::specs::Disturbances::is_noisy))]
    pub fn is_at(&self, now: u64, node: u32) -> bool
        ensures { result ≡ is_noisy self.now now node }
    {
        if !is_during(now, self.from, self.until) {
            return false;
        }
        match self.at {
            None => true,
            Some(at) => at == node,
        }
    }

    // The loss on a link to a node with this noise.
    #[tactic(auto, unfolding(crate::specs::Disturbances::loss_after))]
    fn loss_after(&self, now: u64, node: u32, loss: u32) -> u32
        requires { loss ≤ 10000 }
        ensures value { result ≡ loss_after now node loss self.now }
        ensures bound { result ≤ 10000 }
    {
        if !self.is_at(now, node) {
            return loss;
        }
        louder(loss, self.loss.min(10_000))
    }
}

impl CutLink {
    // Whether it leads from a node to another, as it is written.
    fn joins(&self, a: u32, b: u32) -> bool
        ensures { result ≡ (eqb self.now.one a && eqb self.now.other b) }
    {
        if self.one != a {
            return false;
        }
        self.other == b
    }

    /// Whether the link between two nodes is cut at a time.
    #[tactic(auto, unfolding(crate::specs::Disturbances::is_cut_between))]
    pub fn is_between(&self, now: u64, a: u32, b: u32) -> bool
        ensures { result ≡ is_cut_between now a b self.now }
    {
        if !is_during(now, self.from, self.until) {
            return false;
        }
        if self.joins(a, b) {
            return true;
        }
        self.joins(b, a)
    }
}

impl Withheld {
    /// Whether frames are kept from a node at a time.
    #[tactic(auto, unfolding(crate::specs::Disturbances::is_withheld_from))]
    pub fn is_from(&self, now: u64, node: u32) -> bool
        ensures { result ≡ is_withheld_from now node self.now }
    {
        if !is_during(now, self.from, self.until) {
            return false;
        }
        self.node == node
    }
}

/// All that disturbs the line.
///
/// A contract sees the noises, the links that are cut, and the nodes from which frames are kept, each in the order in which they were
/// added.
#[derive(Drop)]
pub struct Disturbances {
    noises: Vec<Noise>,
    cuts: Vec<CutLink>,
    withheld: Vec<Withheld>,
}

impl Model for Disturbances {
    ghost use Rattle.line_air.specs.Disturbances.{Disturbed};

    ghost Value = { Disturbed };

    ghost view = { λ d. record { noises = d.noises.items; cuts = d.cuts.items; withheld = d.withheld.items } };
}

impl Disturbances {
    /// Nothing disturbs the line.
    pub fn new(alloc: Global) -> Disturbances
        ensures { result ≡ record { noises = []; cuts = []; withheld = [] } }
    {
        Disturbances {
            noises: Vec::new(alloc),
            cuts: Vec::new(alloc),
            withheld: Vec::new(alloc),
        }
    }

    /// Adds a noise.
    pub fn add_noise(&mut self, noise: Noise) -> Result<(), AllocError>
        ensures ok { OnOk result (self.new ≡ record self.old { noises = self.old.noises ++ (noise ∷ []) }) }
        ensures err { OnErr result (self.new ≡ self.old) }
    {
        self.noises.push(noise)?;
        Ok(())
    }

    /// Adds a link that is cut.
    pub fn add_cut(&mut self, cut: CutLink) -> Result<(), AllocError>
        ensures ok { OnOk result (self.new ≡ record self.old { cuts = self.old.cuts ++ (cut ∷ []) }) }
        ensures err { OnErr result (self.new ≡ self.old) }
    {
        self.cuts.push(cut)?;
        Ok(())
    }

    /// Adds a node from which frames are kept.
    pub fn add_withheld(&mut self, withheld: Withheld) -> Result<(), AllocError>
        ensures ok { OnOk result (self.new ≡ record self.old { withheld = self.old.withheld ++ (withheld ∷ []) }) }
        ensures err { OnErr result (self.new ≡ self.old) }
    {
        self.withheld.push(withheld)?;
        Ok(())
    }

    /// The chance that a frame is lost on a link at a time, where it is `loss` without disturbance. Each noise loses its part of what
    /// would come; nothing comes over a link that is cut.
    #[tactic(auto, unfolding(crate::specs::Disturbances::loss_at))]
    pub fn loss_at(&self, now: u64, from: u32, to: u32, loss: u32) -> u32
        ensures { result ≡ loss_at self.now now from to loss }
    {
        if is_cut(&self.cuts, now, from, to) {
            return 10_000;
        }
        loss_with(&self.noises, now, to, loss.min(10_000))
    }

    /// Whether an attacker keeps the frames that are meant for a node at a time.
    pub fn attacker_keeps(&self, now: u64, node: u32) -> bool
        ensures { result ≡ is_withheld self.now.withheld now node }
    {
        is_withheld(&self.withheld, now, node)
    }
}

// Whether the link between two nodes is cut at a time.
#[tactic(auto, unfolding(crate::specs::Disturbances::is_cut))]
fn is_cut(cuts: &[CutLink], now: u64, a: u32, b: u32) -> bool
    ensures { result ≡ is_cut cuts.now now a b }
{
    cuts.iter().any(|cut| cut.is_between(now, a, b))
}

// Whether frames are kept from a node at a time.
#[tactic(auto, unfolding(crate::specs::Disturbances::is_withheld))]
fn is_withheld(withheld: &[Withheld], now: u64, node: u32) -> bool
    ensures { result ≡ is_withheld withheld.now now node }
{
    withheld.iter().any(|kept| kept.is_from(now, node))
}

// The loss on a link to a node with all noises of a time.
#[tactic(auto, unfolding(crate::specs::Disturbances::loss_with))]
fn loss_with(noises: &[Noise], now: u64, node: u32, loss: u32) -> u32
    requires { loss ≤ 10000 }
    ensures value { result ≡ loss_with noises.now now node loss }
    ensures bound { result ≤ 10000 }
{
    let mut lost = loss;
    for noise in noises {
        lost = noise.loss_after(now, node, lost);
    }
    lost
}

// The loss on a link with noise: of what would come, the noise loses its part.
#[tactic(auto, unfolding(crate::specs::Disturbances::louder))]
fn louder(loss: u32, noise: u32) -> u32
    requires link { loss ≤ 10000 }
    requires noise { noise ≤ 10000 }
    ensures value { result ≡ louder loss noise }
    ensures bound { result ≤ 10000 }
{
    10_000 - (10_000 - loss) * (10_000 - noise) / 10_000
}
