//! Which agents a meter heard since it began to scan.
ghost use Rattle.std.specs.Prelude.{◌≡◌, ◌≤◌, ◌+◌, [], true, false, OnErr, MatchResult};
ghost use Rattle.pan_discovery.specs.Agents.{agents_of, kth_of};
ghost use Rattle.pan_discovery.specs.History.{History, Scanned, LeadsOn, Begin, Clear, Beacon, begun, ended, taken_after, agents_since, after_history};

use crate::agents::{Agent, Agents};
use plc_base::{LinkCost, Short};
use std::marker::Model;
use thiserror::Error;

/// The meter does not scan.
#[derive(Clone, Copy, Debug, PartialEq, Eq, Error)]
#[error("the meter does not scan")]
pub struct NotScanning;

/// A meter's search for an agent: whether it scans, and the first 16 of the agents whose beacons it heard since it
/// began, the cheapest first. It takes no memory.
///
/// A contract sees both.
#[derive(Drop, Debug)]
pub struct Scan {
    scanning: bool,
    agents: Agents,
}

impl Model for Scan {
    ghost use Rattle.std.specs.Prelude.{◌≤◌, length};
    ghost use Rattle.pan_discovery.specs.History.{Scanned};

    ghost Value = { Scanned };

    ghost view = { λ s. record { scanning = s.scanning; agents = s.agents } };

    ghost invariant = { λ s. length s.agents ≤ 16 };
}

impl Scan {
    /// A scan that has not begun.
    #[tactic(auto, unfolding(crate::specs::History::after_history))]
    pub fn new() -> Scan
        ensures value { result ≡ ended }
        ensures history { result ≡ after_history [] }
    {
        Scan {
            scanning: false,
            agents: Agents::new(),
        }
    }

    /// Whether the meter scans.
    pub fn scanning(&self) -> bool
        ensures { result ≡ self.now.scanning }
    {
        self.scanning
    }

    /// Begins a scan, with nothing heard yet, also where one was under way.
    #[tactic(auto, unfolding(crate::specs::History::after_history))]
    pub fn begin(&mut self)
        ensures value { self.new ≡ begun }
        ensures history { LeadsOn self.old Begin self.new }
    {
        self.scanning = true;
        self.agents.clear();
    }

    /// Ends a scan and forgets what was heard.
    #[tactic(auto, unfolding(crate::specs::History::after_history))]
    pub fn clear(&mut self)
        ensures value { self.new ≡ ended }
        ensures history { LeadsOn self.old Clear self.new }
    {
        self.scanning = false;
        self.agents.clear();
    }

    /// The beacon of an agent was heard, with the cost that it states, over a link of this cost.
    ///
    /// NotScanning exactly where the meter does not scan. Nothing changes then.
    pub fn take(&mut self, from: Short, cost: u16, link: LinkCost) -> Result<(), NotScanning>
        ensures answer { MatchResult result (λ _. self.old.scanning ≡ true) (λ _. self.old.scanning ≡ false) }
        ensures value { self.new ≡ taken_after self.old from cost link }
        ensures same { OnErr result (self.new ≡ self.old) }
        ensures history { LeadsOn self.old (Beacon from cost link) self.new }
    {
        if !self.scanning {
            return Err(NotScanning);
        }
        self.agents.hear(Agent {
            address: from,
            total: u32::from(cost) + u32::from(link.number()),
        });
        Ok(())
    }

    /// The agent that is the k-th cheapest of those whose beacons were heard since the scan began, k from 1 to 16, with
    /// the least total at which it was heard: the cost in the beacon and that of the link. Of agents with equal totals
    /// the lower address comes first. None exactly where fewer agents were heard.
    pub fn kth(&self, k: u8) -> Option<(Short, u32)>
        requires first { 1 ≤ k }
        requires last { k ≤ 16 }
        ensures value { result ≡ kth_of self.now.agents k }
        // It is the k-th of all agents that were heard, however many they are.
        ensures history { (history : History) → self.now ≡ after_history history
            → result ≡ kth_of (agents_of (agents_since history)) k }
    {
        let agent = self.agents.at(usize::from(k) - 1)?;
        Some((agent.address, agent.total))
    }
}

impl Default for Scan {
    /// A scan that has not begun.
    fn default() -> Scan
        ensures { result ≡ ended }
    {
        Scan::new()
    }
}
