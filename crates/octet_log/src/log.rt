//! The log of octet strings, and the last of those that are the same.
ghost use Rattle.std.specs.Prelude.{◌≡◌, ◌<◌, ◌≤◌, ◌-◌, ◌++◌, ◌∷◌, [], max, Some, IsTrue, ◌↔◌, IsOk, OnOk, OnErr, length, map, take, slice_get};
ghost use Rattle.std.specs.Option.{ForSome, option_copied};
ghost use Rattle.octet_log.specs.LogChains.{chain_by, chain_of, ending};
ghost use Rattle.octet_log.specs.Logs.{IsLast};

use crate::chains::{CHAINS, Chains};
use crate::strings::Strings;
use std::alloc::{AllocError, Global};
use std::marker::Model;

/// This many octets at the end of a string choose its chain. A sealed frame ends with its tag, in which frames differ.
const ENDING: usize = 16;

/// Octet strings in the order in which they came.
///
/// A contract sees the list of the strings, how many more may be pushed (`places`), and how many octets those may have together
/// (`room`). Strings are numbered from 1 on, so that 0 can say that there is none.
#[derive(Drop)]
pub struct OctetLog {
    strings: Strings,
    chains: Chains,
}

impl Model for OctetLog {
    ghost use Rattle.octet_log.specs.LogChains.{IsChained};
    ghost use Rattle.octet_log.specs.Logs.{Log};

    ghost Value = { Log };

    ghost view = { λ l. l.strings };

    ghost invariant = { λ l. IsChained l.strings.strings l.strings.places l.chains };
}

// The last octets of a string, which choose its chain.
fn ending(octets: &[u8]) -> &[u8]
    ensures { result.now ≡ ending octets.now }
{
    &octets[octets.len().saturating_sub(ENDING)..]
}

// The chain to which octets lead.
fn chain_by(octets: &[u8]) -> usize
    ensures value { result ≡ chain_by octets.now }
    ensures range { result < CHAINS }
{
    let mut chain: u32 = 0;
    for octet in octets {
        chain = (31 * chain + u32::from(*octet)) % 16_384;
    }
    chain as usize
}

// The chain of an octet string: strings that are the same are in one chain.
#[tactic(auto, unfolding(crate::specs::LogChains::chain_of))]
fn chain_of(octets: &[u8]) -> usize
    ensures value { result ≡ chain_of octets.now }
    ensures range { result < CHAINS }
{
    chain_by(ending(octets))
}

impl OctetLog {
    /// No string. It takes no memory.
    pub fn new(alloc: Global) -> OctetLog
        ensures { result ≡ record { strings = []; places = 0; room = 0 } }
    {
        OctetLog {
            strings: Strings::new(alloc),
            chains: Chains::new(alloc),
        }
    }

    /// How many strings there are.
    pub fn len(&self) -> usize
        ensures { result ≡ length self.now.strings }
    {
        self.strings.len()
    }

    /// The string at a place from 0 on: that of a number stands at the place before it.
    pub fn get(&self, place: usize) -> Option<&[u8]>
        ensures { option_copied result ≡ slice_get self.now.strings place }
    {
        self.strings.get(place)
    }

    // Whether the string of a number is these octets.
    fn is_at(&self, number: u32, octets: &[u8]) -> bool
        requires { 0 < number }
        ensures { IsTrue result ↔ (slice_get self.now.strings (number - 1) ≡ Some octets.now) }
    {
        match self.strings.get(number as usize - 1) {
            Some(string) => string == octets,
            None => false,
        }
    }

    // The number of the last string that is these octets, up to a number of their chain.
    fn last_from(&self, from: u32, octets: &[u8]) -> u32
        requires within { from ≤ length self.now.strings }
        requires chain { 0 < from → slice_get (map chain_of self.now.strings) (from - 1) ≡ Some (chain_of octets.now) }
        ensures { IsLast (take from self.now.strings) octets.now result }
    {
        let mut number = from;
        while number > 0 {
            if self.is_at(number, octets) {
                return number;
            }
            number = self.chains.before(number);
        }
        0
    }

    /// The number of the last string that is these octets, 0 where none is.
    pub fn last(&self, octets: &[u8]) -> u32
        ensures { IsLast self.now.strings octets.now result }
    {
        let number = self.chains.last(chain_of(octets));
        self.last_from(number, octets)
    }

    /// The number of the last string before string `number` that is the same, 0 where none is. From `last` on, a caller walks all
    /// strings that are the same, newest first.
    pub fn before(&self, number: u32) -> u32
        requires some { 0 < number }
        requires within { number ≤ length self.now.strings }
        ensures { ForSome (slice_get self.now.strings (number - 1))
            (λ octets. IsLast (take (number - 1) self.now.strings) octets result) }
    {
        match self.strings.get(number as usize - 1) {
            Some(octets) => self.last_from(self.chains.before(number), octets),
            None => 0,
        }
    }

    /// Reserves the memory for this many more strings of this many octets together, where less is reserved, and else takes none.
    /// It fails only where memory runs out, and the log is then as before.
    pub fn reserve(&mut self, strings: usize, octets: usize) -> Result<(), AllocError>
        ensures ok { OnOk result (self.new ≡ record self.old {
          places = max self.old.places strings;
          room = max self.old.room octets;
        }) }
        ensures err { OnErr result (self.new ≡ self.old) }
        ensures enough { strings ≤ self.old.places → octets ≤ self.old.room → IsOk result }
    {
        if self.strings.has_room(strings, octets) {
            return Ok(());
        }
        self.chains.reserve(strings)?;
        self.strings.reserve(strings, octets)?;
        Ok(())
    }

    /// Appends a string, for which a place and room were reserved. Its number is the count of strings then.
    pub fn push(&mut self, octets: &[u8])
        requires places { 1 ≤ self.old.places }
        requires room { length octets.now ≤ self.old.room }
        // A number has 32 bits.
        requires numbers { length self.old.strings < u32.MAX }
        ensures { self.new ≡ record {
          strings = self.old.strings ++ octets.now ∷ [];
          places = self.old.places - 1;
          room = self.old.room - length octets.now;
        } }
    {
        self.chains.push(chain_of(octets));
        self.strings.push(octets);
    }
}
