//! The cost of one hop.
ghost use Rattle.std.specs.Prelude.{◌≡◌, ◌<◌, ◌↔◌, IsSome, IfSome};

use crate::out_of_range::OutOfRange;
use std::marker::Model;

/// The cost of the link between two neighbours: 1 to 255. A contract sees the number.
#[derive(Clone, Copy, Debug, PartialEq, Eq, PartialOrd, Ord)]
pub struct LinkCost {
    cost: u8,
}

impl Model for LinkCost {
    ghost use Rattle.std.specs.Prelude.{ℕ, ◌<◌};

    ghost Value = { ℕ };

    ghost view = { λ c. c.cost };

    ghost invariant = { λ c. 0 < c.cost };

    ghost inverse = { λ n. record { cost = n } };
}

impl LinkCost {
    /// The cost of this number. None exactly for 0.
    pub fn new(value: u8) -> Option<LinkCost>
        ensures valid { IsSome result ↔ (0 < value) }
        ensures value { IfSome result (λ cost. cost ≡ value) }
    {
        if value == 0 {
            return None;
        }
        Some(LinkCost { cost: value })
    }

    /// The cost as a number.
    pub fn number(self) -> u8
        ensures value { result ≡ self }
        ensures valid { 0 < result }
    {
        self.cost
    }
}

impl TryFrom<u8> for LinkCost {
    ghost use Rattle.std.specs.Result.{OkIff};
    ghost use Rattle.std.specs.Prelude.{◌<◌};

    type Error = OutOfRange;

    ghost try_from_gives = { λ number r. OkIff r (0 < number) number };

    /// OutOfRange exactly for 0.
    fn try_from(number: u8) -> Result<LinkCost, OutOfRange> {
        match LinkCost::new(number) {
            Some(cost) => Ok(cost),
            None => Err(OutOfRange),
        }
    }
}
