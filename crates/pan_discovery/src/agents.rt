//! The agents that beacons show, cheapest first.
ghost use Rattle.std.specs.Prelude.{◌≡◌, ◌≤◌, [], length, take, position, slice_get, nat_lt};
ghost use Rattle.std.specs.List.{list_any, position_or_len};
ghost use Rattle.plc_base.specs.Orders.{placed_by};
ghost use Rattle.pan_discovery.specs.Agents as agents;

use arrayvec::ArrayVec;
use plc_base::Short;
use std::marker::Model;

/// A node that sent a beacon, and what its network costs by way of it.
#[derive(Clone, Copy, Debug, Default)]
pub struct Agent {
    /// The node.
    pub address: Short,
    /// The cost in its beacon and that of the link to it: 65,790 at most in what a meter hears.
    pub total: u32,
}

impl Agent {
    // The place in the order of totals, and of addresses where totals are equal.
    fn rank(&self) -> u64
        ensures { result ≡ agents.rank self.now }
    {
        u64::from(self.total) * 65_536 + u64::from(self.address.number())
    }

    // Whether a beacon of this agent has nothing new for one who knows this other agent.
    fn is_known_by(&self, other: &Agent) -> bool
        ensures { result ≡ agents.is_known_by self.now other.now }
    {
        self.address.number() == other.address.number() && other.total <= self.total
    }
}

/// At most 16 agents. A contract sees the list of them.
#[derive(Drop, Debug)]
pub(crate) struct Agents {
    items: ArrayVec<Agent, 16>,
}

impl Model for Agents {
    ghost use Rattle.std.specs.Prelude.{List, ◌≤◌, length};
    ghost use Rattle.pan_discovery.specs.declared.agents.Agent.{Agent};

    ghost Value = { List Agent };

    ghost view = { λ a. a.items.items };

    ghost invariant = { λ a. length a.items.items ≤ 16 };
}

impl Agents {
    /// None.
    pub(crate) fn new() -> Agents
        ensures { result ≡ [] }
    {
        Agents {
            items: ArrayVec::new(),
        }
    }

    /// Forgets all.
    pub(crate) fn clear(&mut self)
        ensures { self.new ≡ [] }
    {
        self.items.clear();
    }

    /// The agent at a place, counted from 0. None exactly where there are no more than that.
    pub(crate) fn at(&self, place: usize) -> Option<Agent>
        ensures { result ≡ slice_get self.now place }
    {
        self.items.get(place).copied()
    }

    // Whether a beacon of this agent has nothing new.
    fn knows(&self, heard: &Agent) -> bool
        ensures { result ≡ list_any (agents.is_known_by heard.now) self.now }
    {
        self.items.iter().any(|other| heard.is_known_by(other))
    }

    // Forgets the agent with an address.
    fn forget(&mut self, address: Short)
        ensures { self.new ≡ agents.without address self.old }
    {
        self.items
            .retain(|agent| agent.address.number() != address.number());
    }

    // The place of the first agent that comes after this one. None exactly where all come before it.
    fn first_after(&self, heard: &Agent) -> Option<usize>
        ensures { result ≡ position (λ a. nat_lt (agents.rank heard.now) (agents.rank a)) self.now }
    {
        let rank = heard.rank();
        self.items.iter().position(|agent| rank < agent.rank())
    }

    // How many of the agents, from the first on, come before this one.
    fn place_of(&self, heard: &Agent) -> usize
        ensures value { result ≡ position_or_len (λ a. nat_lt (agents.rank heard.now) (agents.rank a)) self.now }
        ensures within { result ≤ length self.now }
    {
        match self.first_after(heard) {
            Some(place) => place,
            None => self.items.len(),
        }
    }

    // One more, before the first that comes after it; where that makes 17, the last one goes.
    fn place(&mut self, heard: Agent)
        ensures { self.new ≡ take 16 (placed_by agents.rank heard self.old) }
    {
        let place = self.place_of(&heard);
        if place >= 16 {
            return;
        }
        self.items.truncate(15);
        self.items.insert(place, heard);
    }

    /// A beacon of this agent was heard.
    pub(crate) fn hear(&mut self, heard: Agent)
        ensures { self.new ≡ agents.agents_after heard self.old }
    {
        if self.knows(&heard) {
            return;
        }
        self.forget(heard.address);
        self.place(heard);
    }
}
