//! Where a frame goes.
ghost use Rattle.std.specs.Prelude.{◌≡◌, ◌≢◌, ◌==◌, ◌↔◌, IsSome, IfSome};
ghost use Rattle.plc_base.specs.Addresses.{IsAddress};

use crate::Short;
use crate::address::{NO_ADDRESS, TO_ALL};
use std::marker::Model;

/// Where a frame goes: to one neighbour, or to all that hear it (IEEE 802.15.4-2006, 7.2.1.4).
///
/// A contract sees the short address of the target: that of the neighbour, or FFFF.
#[derive(Clone, Copy, Debug, PartialEq, Eq)]
pub struct Destination {
    number: u16,
}

impl Model for Destination {
    ghost use Rattle.std.specs.Prelude.{ℕ, ◌≢◌};

    ghost Value = { ℕ };

    ghost view = { λ d. d.number };

    ghost invariant = { λ d. d.number ≢ 0xFFFE };

    ghost inverse = { λ n. record { number = n } };
}

impl Destination {
    /// The destination that a target's short address names. None exactly for FFFE.
    pub fn new(value: u16) -> Option<Destination>
        ensures valid { IsSome result ↔ value ≢ 0xFFFE }
        ensures value { IfSome result (λ destination. destination ≡ value) }
    {
        if value == NO_ADDRESS {
            return None;
        }
        Some(Destination { number: value })
    }

    /// One neighbour.
    pub fn one(to: Short) -> Destination
        ensures value { result ≡ to }
        ensures valid { IsAddress result }
    {
        Destination {
            number: to.number(),
        }
    }

    /// All that hear the frame.
    pub fn all() -> Destination
        ensures { result ≡ 0xFFFF }
    {
        Destination { number: TO_ALL }
    }

    /// Whether it is all.
    pub fn is_all(self) -> bool
        ensures { result ≡ (self == 0xFFFF) }
    {
        self.number == TO_ALL
    }

    /// The short address of the target.
    pub fn number(self) -> u16
        ensures value { result ≡ self }
        ensures valid { result ≢ 0xFFFE }
    {
        self.number
    }
}
