//! Octet strings of bounded length, which take no memory.
ghost use Rattle.std.specs.Prelude.{◌≡◌, ◌≤◌, ◌<◌, ◌+◌, ◌++◌, ◌∷◌, ◌↔◌, List, [], length, IsTrue, IsSome, IfSome, nat_eq};
ghost use Rattle.std.proofs.Common.{rules};
ghost use Rattle.std.specs.Cmp.Lexicographic.{pointwise};
ghost use Rattle.std.specs.Cmp.Rules.{comparing};
ghost use Rattle.byteorder.specs.Endian.{big_bytes};

use crate::{LONGEST_DATAGRAM, LONGEST_FRAME, four_octets, two_octets};
use arrayvec::ArrayVec;
use std::marker::Model;

/// At most `N` octets. A contract sees the list of them.
#[derive(Drop, Debug)]
pub struct Octets<const N: usize> {
    items: ArrayVec<u8, N>,
}

/// A MAC frame, its payload or a part of it: at most 400 octets.
pub type FrameBuf = Octets<LONGEST_FRAME>;

/// A datagram: at most 1,280 octets.
pub type DatagramBuf = Octets<LONGEST_DATAGRAM>;

/// An EAP packet: at most 128 octets.
pub type EapBuf = Octets<128>;

/// A record of a store: at most 64 octets.
pub type Record = Octets<64>;

impl<const N: usize> Model for Octets<N> {
    ghost use Rattle.std.specs.Prelude.{ℕ, List};

    ghost Value = { List ℕ };

    ghost view = { λ o. o.items.items };
}

impl<const N: usize> Octets<N> {
    ghost use Rattle.std.specs.Borrow.{Lends, Array, sem, u8 as byte};
    ghost use Rattle.std.specs.List.{refill};
    ghost use Rattle.plc_base.specs.contracts.octets.Octets.{the_row};

    /// No octets.
    pub fn new() -> Octets<N>
        ensures { result ≡ [] }
    {
        Octets {
            items: ArrayVec::new(),
        }
    }

    /// These octets.
    pub fn from_octets(octets: &[u8]) -> Octets<N>
        requires { length octets.now ≤ N }
        ensures { result ≡ octets.now }
    {
        Octets {
            items: ArrayVec::try_from(octets).unwrap(),
        }
    }

    /// These octets, or None where there are more than `N`.
    pub fn try_from_octets(octets: &[u8]) -> Option<Octets<N>>
        ensures fits { IsSome result ↔ (length octets.now ≤ N) }
        ensures value { IfSome result (λ taken. taken ≡ octets.now) }
    {
        if octets.len() > N {
            return None;
        }
        Some(Octets::from_octets(octets))
    }

    /// The octets as a slice.
    pub fn octets(&self) -> &[u8]
        ensures value { result.now ≡ self.now }
        ensures fits { length result.now ≤ N }
    {
        self.items.as_slice()
    }

    /// The octets as a slice, to be changed in place: there are as many as before.
    pub fn octets_mut(&mut self) -> &mut [u8]
        ensures* lends { sem 𝓛 (Lends (the_row N.row) (Array byte 0) self.entry result
            (refill (length self.entry.now) self.entry.now)) }
        ensures value { result.now ≡ self.old }
        ensures fits { length result.now ≤ N }
    {
        self.items.as_mut_slice()
    }

    /// How many octets there are.
    pub fn len(&self) -> usize
        ensures value { result ≡ length self.now }
        ensures fits { result ≤ N }
    {
        self.items.len()
    }

    /// Whether there is no octet.
    pub fn is_empty(&self) -> bool
        ensures { IsTrue result ↔ (self.now ≡ []) }
    {
        self.items.is_empty()
    }

    /// Drops all octets.
    pub fn clear(&mut self)
        ensures { self.new ≡ [] }
    {
        self.items.clear();
    }

    /// Appends one octet.
    pub fn push(&mut self, octet: u8)
        requires { length self.old < N }
        ensures { self.new ≡ self.old ++ octet ∷ [] }
    {
        self.items.push(octet);
    }

    /// Appends octets.
    pub fn append(&mut self, octets: &[u8])
        requires { length self.old + length octets.now ≤ N }
        ensures { self.new ≡ self.old ++ octets.now }
    {
        self.items.try_extend_from_slice(octets).unwrap();
    }

    /// Appends a number of two octets, the highest first.
    pub fn push_be_u16(&mut self, number: u16)
        requires { length self.old + 2 ≤ N }
        ensures { self.new ≡ self.old ++ big_bytes 2 number }
    {
        self.append(&two_octets(number));
    }

    /// Appends a number of four octets, the highest first.
    pub fn push_be_u32(&mut self, number: u32)
        requires { length self.old + 4 ≤ N }
        ensures { self.new ≡ self.old ++ big_bytes 4 number }
    {
        self.append(&four_octets(number));
    }

    /// The same octets again. Unlike `Clone` it has no answer for lack of memory, since it takes none.
    pub fn copied(&self) -> Octets<N>
        ensures { result ≡ self.now }
    {
        Octets::from_octets(self.octets())
    }
}

impl<const N: usize> Default for Octets<N> {
    /// No octets.
    fn default() -> Octets<N>
        ensures { result ≡ [] }
    {
        Octets::new()
    }
}

impl<const N: usize> PartialEq for Octets<N> {
    ghost eq = { pointwise nat_eq };

    ghost laws = { Prim.search (comparing, rules) };

    fn eq(&self, other: &Octets<N>) -> bool {
        self.octets() == other.octets()
    }
}

impl<const N: usize> Eq for Octets<N> {
    ghost laws = { Prim.search (comparing, rules) };
}
