//! Numbers in chains, so that those of one chain are found without the others.
ghost use Rattle.std.specs.Prelude.{◌≡◌, ◌<◌, ◌≤◌, ◌⊎◌, ◌-◌, ◌++◌, ◌∷◌, [], max, ℕ, IsOk, OnOk, OnErr, length, take, slice_index};
ghost use Rattle.octet_log.specs.Logs.{IsLast};

use std::alloc::{AllocError, Global};
use std::marker::Model;

/// This many chains.
pub const CHAINS: usize = 16_384;

/// A number's chain, and the last number before it that is in that chain, 0 if there is none.
#[derive(Drop)]
pub struct Link {
    chain: u32,
    before: u32,
}

/// Each number from 1 on is in one chain. A contract sees the chains of the numbers, in their order, and how many more fit in.
#[derive(Drop)]
pub struct Chains {
    heads: Vec<u32>,
    links: Vec<Link>,
    places: usize,
}

impl Model for Chains {
    ghost use Rattle.std.specs.Prelude.{vec_capacity};
    ghost use Rattle.octet_log.specs.LogChains.{Chained, chains_of, IsLinked};

    ghost Value = { Chained };

    ghost view = { λ c. record { chains = chains_of c.links.items; places = c.places } };

    ghost invariant = { λ c. IsLinked c.heads.items c.links.items c.places (vec_capacity c.links) };
}

// Makes heads without numbers, where there are none yet.
#[tactic(auto, using(crate::proofs::Links::zeros_at))]
fn make_heads(heads: &mut Vec<u32>, count: usize) -> Result<(), AllocError>
    requires size { (heads.old.items ≡ []) ⊎ (length heads.old.items ≡ count) }
    ensures size { OnOk result (length heads.new.items ≡ count) }
    ensures each { (k : ℕ) → slice_index heads.new.items k ≡ slice_index heads.old.items k }
    ensures err { OnErr result (heads.new.items ≡ heads.old.items) }
    ensures enough { length heads.old.items ≡ count → IsOk result }
{
    heads.resize(count, 0)
}

impl Chains {
    /// No number. It takes no memory.
    pub fn new(alloc: Global) -> Chains
        ensures { result ≡ record { chains = []; places = 0 } }
    {
        Chains {
            heads: Vec::new(alloc),
            links: Vec::new(alloc),
            places: 0,
        }
    }

    /// The last number in a chain, 0 if there is none.
    pub fn last(&self, chain: usize) -> u32
        requires { chain < CHAINS }
        ensures { IsLast self.now.chains chain result }
    {
        match self.heads.get(chain) {
            Some(number) => *number,
            None => 0,
        }
    }

    /// The last number before a number that is in its chain, 0 if there is none.
    pub fn before(&self, number: u32) -> u32
        requires some { 0 < number }
        requires within { number ≤ length self.now.chains }
        ensures { IsLast (take (number - 1) self.now.chains) (slice_index self.now.chains (number - 1)) result }
    {
        self.links[number as usize - 1].before
    }

    /// Makes room for this many more numbers. It fails only where memory runs out, and nothing changes then.
    pub fn reserve(&mut self, places: usize) -> Result<(), AllocError>
        ensures ok { OnOk result (self.new ≡ record self.old { places = max self.old.places places }) }
        ensures err { OnErr result (self.new ≡ self.old) }
        ensures enough { places ≤ self.old.places → IsOk result }
    {
        self.links.reserve(places)?;
        if places > 0 {
            make_heads(&mut self.heads, CHAINS)?;
        }
        self.places = self.places.max(places);
        Ok(())
    }

    /// Puts the next number in a chain.
    pub fn push(&mut self, chain: usize)
        requires chain { chain < CHAINS }
        requires places { 1 ≤ self.old.places }
        requires numbers { length self.old.chains < u32.MAX }
        ensures { self.new ≡ record { chains = self.old.chains ++ chain ∷ []; places = self.old.places - 1 } }
    {
        let link = Link {
            chain: chain as u32,
            before: self.heads[chain],
        };
        // The place was reserved.
        self.links.push(link).unwrap();
        self.heads[chain] = self.links.len() as u32;
        self.places -= 1;
    }
}
