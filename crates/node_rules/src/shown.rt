//! What is shown of a node.
ghost use Rattle.std.specs.Prelude.{◌≡◌, ◌<◌, ◌++◌, ◌∷◌, [], length};

use arrayvec::ArrayVec;
use plc_base::{Key, KeyIndex, Short};
use std::marker::Model;

/// The rank of an address, and the next hop where the route to it is valid.
#[derive(Clone, Copy, Debug, PartialEq, Eq, Default)]
pub struct ShownRoute {
    /// The address.
    pub dest: Short,
    /// The number of the rank.
    pub number: u16,
    /// The cost of the rank.
    pub cost: u16,
    /// The address of the next hop of the valid route, if there is one.
    pub next: Option<u16>,
}

/// The mark of a sender.
#[derive(Clone, Copy, Debug, PartialEq, Eq, Default)]
pub struct ShownPeer {
    /// The sender.
    pub from: Short,
    /// The greatest counter that was accepted from it, or the stored one after a restart.
    pub mark: u32,
}

/// At most 64 ranks. A contract sees the list of them.
#[derive(Debug, Drop)]
pub struct ShownRoutes {
    items: ArrayVec<ShownRoute, 64>,
}

impl Model for ShownRoutes {
    ghost use Rattle.std.specs.Prelude.{List};
    ghost use Rattle.node_rules.specs.declared.shown.ShownRoute.{ShownRoute};

    ghost Value = { List ShownRoute };

    ghost view = { λ r. r.items.items };
}

impl ShownRoutes {
    /// No rank.
    pub fn new() -> ShownRoutes
        ensures { result ≡ [] }
    {
        ShownRoutes {
            items: ArrayVec::new(),
        }
    }

    /// The ranks, in the order in which they were pushed.
    pub fn routes(&self) -> &[ShownRoute]
        ensures { result.now ≡ self.now }
    {
        self.items.as_slice()
    }

    /// Appends a rank.
    pub fn push(&mut self, route: ShownRoute)
        requires { length self.old < 64 }
        ensures { self.new ≡ self.old ++ route ∷ [] }
    {
        self.items.push(route);
    }

    /// Drops all ranks.
    pub fn clear(&mut self)
        ensures { self.new ≡ [] }
    {
        self.items.clear();
    }
}

/// At most 64 marks. A contract sees the list of them.
#[derive(Debug, Drop)]
pub struct ShownPeers {
    items: ArrayVec<ShownPeer, 64>,
}

impl Model for ShownPeers {
    ghost use Rattle.std.specs.Prelude.{List};
    ghost use Rattle.node_rules.specs.declared.shown.ShownPeer.{ShownPeer};

    ghost Value = { List ShownPeer };

    ghost view = { λ p. p.items.items };
}

impl ShownPeers {
    /// No mark.
    pub fn new() -> ShownPeers
        ensures { result ≡ [] }
    {
        ShownPeers {
            items: ArrayVec::new(),
        }
    }

    /// The marks, in the order in which they were pushed.
    pub fn peers(&self) -> &[ShownPeer]
        ensures { result.now ≡ self.now }
    {
        self.items.as_slice()
    }

    /// Appends a mark.
    pub fn push(&mut self, peer: ShownPeer)
        requires { length self.old < 64 }
        ensures { self.new ≡ self.old ++ peer ∷ [] }
    {
        self.items.push(peer);
    }

    /// Drops all marks.
    pub fn clear(&mut self)
        ensures { self.new ≡ [] }
    {
        self.items.clear();
    }
}

/// What is shown of a node. Of a halted one all but `halted` is None, 0 and empty.
#[derive(Debug, Drop)]
pub struct Shown {
    /// Whether it is halted.
    pub halted: bool,
    /// Its short address, None where it is not joined.
    pub address: Option<Short>,
    /// The index of the key that seals, None where it is not joined.
    pub active: Option<KeyIndex>,
    /// The counter of the next sealed frame.
    pub next_counter: u32,
    /// The own number that was given out last.
    pub last_number: u16,
    /// The group key at index 0.
    pub key0: Option<Key>,
    /// The group key at index 1.
    pub key1: Option<Key>,
    /// The kept ranks, in ascending order of their addresses.
    pub routes: ShownRoutes,
    /// The floors of forgotten ranks, by class from 0.
    pub floors: [u16; 16],
    /// The marks, in ascending order of their senders.
    pub peers: ShownPeers,
}

/// What is shown of a node, where it stands elsewhere, so that nothing is copied with it. A contract sees what is shown.
#[derive(Drop)]
pub struct ShownRef<'a> {
    shown: &'a Shown,
}

impl<'a> Model for ShownRef<'a> {
    ghost use Rattle.node_rules.specs.declared.shown.Shown.{Shown};

    ghost Value = { Shown };

    ghost view = { λ s. s.shown.now };
}

impl<'a> ShownRef<'a> {
    /// This one.
    pub fn new(shown: &'a Shown) -> ShownRef<'a>
        ensures { result ≡ shown.now }
    {
        ShownRef { shown }
    }

    /// The one that it stands for.
    pub fn shown(&self) -> &'a Shown
        ensures { result.now ≡ self.now }
    {
        self.shown
    }
}
