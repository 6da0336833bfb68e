//! Walks: addresses of nodes in their order.
ghost use Rattle.std.specs.Prelude.{◌≡◌, ◌≤◌, ◌<◌, ◌++◌, ◌∷◌, List, [], length, nat_eq, position, slice_index, ◌==◌, IfSome};
ghost use Rattle.std.proofs.Common.{rules};
ghost use Rattle.std.specs.Cmp.Lexicographic.{pointwise};
ghost use Rattle.std.specs.Cmp.Rules.{comparing};
ghost use Rattle.path_requests.specs.Walks as walks;

use arrayvec::ArrayVec;
use plc_base::Short;
use std::marker::Model;

/// At most 16 addresses of nodes, from the node that asked on. A contract sees the list of them.
#[derive(Drop, Debug)]
pub struct Walk {
    items: ArrayVec<Short, 16>,
}

impl Model for Walk {
    ghost use Rattle.std.specs.Prelude.{ℕ, List};

    ghost Value = { List ℕ };

    ghost view = { λ w. w.items.items };
}

impl Walk {
    /// No address.
    pub fn new() -> Walk
        ensures { result ≡ [] }
    {
        Walk {
            items: ArrayVec::new(),
        }
    }

    /// These addresses.
    pub fn from_addresses(addresses: &[Short]) -> Walk
        requires { length addresses.now ≤ 16 }
        ensures { result ≡ addresses.now }
    {
        Walk {
            items: ArrayVec::try_from(addresses).unwrap(),
        }
    }

    /// The addresses as a slice.
    pub fn addresses(&self) -> &[Short]
        ensures value { result.now ≡ self.now }
        ensures fits { length result.now ≤ 16 }
    {
        self.items.as_slice()
    }

    /// How many addresses there are.
    pub fn len(&self) -> usize
        ensures value { result ≡ length self.now }
        ensures fits { result ≤ 16 }
    {
        self.items.len()
    }

    /// Whether an address is in the walk.
    pub fn has(&self, address: Short) -> bool
        ensures { result ≡ walks.has address self.now }
    {
        self.items
            .iter()
            .any(|other| other.number() == address.number())
    }

    /// The place of an address, counted from 0. None exactly where it is not in the walk.
    pub fn place_of(&self, address: Short) -> Option<usize>
        ensures value { result ≡ position (λ a. a == address) self.now }
        ensures within { IfSome result (λ place. place < 16) }
    {
        self.items
            .iter()
            .position(|other| other.number() == address.number())
    }

    /// The address at a place, counted from 0.
    pub fn at(&self, place: usize) -> Short
        requires { place < length self.now }
        ensures { result ≡ slice_index self.now place }
    {
        self.items[place]
    }

    /// Whether an address is at a place, counted from 0.
    pub fn has_at(&self, place: usize, address: Short) -> bool
        ensures { result ≡ walks.has_at place address self.now }
    {
        if place >= self.items.len() {
            return false;
        }
        self.at(place).number() == address.number()
    }

    /// Whether an address is the last of the walk.
    pub fn ends_with(&self, address: Short) -> bool
        ensures { result ≡ walks.ends_with address self.now }
    {
        if self.items.is_empty() {
            return false;
        }
        self.has_at(self.items.len() - 1, address)
    }

    /// Appends an address.
    pub fn push(&mut self, address: Short)
        requires { length self.old < 16 }
        ensures { self.new ≡ self.old ++ address ∷ [] }
    {
        self.items.push(address);
    }

    /// The same walk again.
    pub fn copied(&self) -> Walk
        ensures { result ≡ self.now }
    {
        Walk::from_addresses(self.addresses())
    }

    /// The walk with one more address at its end.
    pub fn with(&self, address: Short) -> Walk
        requires { length self.now < 16 }
        ensures { result ≡ self.now ++ address ∷ [] }
    {
        let mut longer = self.copied();
        longer.push(address);
        longer
    }
}

impl Default for Walk {
    /// No address.
    fn default() -> Walk
        ensures { result ≡ [] }
    {
        Walk::new()
    }
}

impl PartialEq for Walk {
    ghost eq = { pointwise nat_eq };

    ghost laws = { Prim.search (comparing, rules) };

    fn eq(&self, other: &Walk) -> bool {
        self.addresses() == other.addresses()
    }
}

impl Eq for Walk {
    ghost laws = { Prim.search (comparing, rules) };
}
