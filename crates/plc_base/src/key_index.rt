//! The index of a group key.
ghost use Rattle.std.specs.Prelude.{◌≡◌, ◌≤◌, ◌↔◌, IsSome, IfSome};

use crate::out_of_range::OutOfRange;
use std::marker::Model;

/// The index of a group key: 0 or 1 (the key identifier of IEEE 802.15.4-2006, 7.6.2.4.2).
///
/// A contract sees the number.
#[derive(Clone, Copy, Debug, PartialEq, Eq, PartialOrd, Ord, Hash, Default)]
pub struct KeyIndex {
    number: u8,
}

impl Model for KeyIndex {
    ghost use Rattle.std.specs.Prelude.{ℕ, ◌≤◌};

    ghost Value = { ℕ };

    ghost view = { λ i. i.number };

    ghost invariant = { λ i. i.number ≤ 1 };

    ghost inverse = { λ n. record { number = n } };
}

impl KeyIndex {
    /// The index of this number. None exactly above 1.
    pub fn new(value: u8) -> Option<KeyIndex>
        ensures valid { IsSome result ↔ value ≤ 1 }
        ensures value { IfSome result (λ index. index ≡ value) }
    {
        if value > 1 {
            return None;
        }
        Some(KeyIndex { number: value })
    }

    /// The first index, 0.
    pub fn first() -> KeyIndex
        ensures { result ≡ 0 }
    {
        KeyIndex { number: 0 }
    }

    /// The second index, 1.
    pub fn second() -> KeyIndex
        ensures { result ≡ 1 }
    {
        KeyIndex { number: 1 }
    }

    /// The index as a number.
    pub fn number(self) -> u8
        ensures value { result ≡ self }
        ensures valid { result ≤ 1 }
    {
        self.number
    }
}

impl TryFrom<u8> for KeyIndex {
    ghost use Rattle.std.specs.Result.{OkIff};
    ghost use Rattle.std.specs.Prelude.{◌≤◌};

    type Error = OutOfRange;

    ghost try_from_gives = { λ number r. OkIff r (number ≤ 1) number };

    /// OutOfRange exactly above 1.
    fn try_from(number: u8) -> Result<KeyIndex, OutOfRange> {
        match KeyIndex::new(number) {
            Some(index) => Ok(index),
            None => Err(OutOfRange),
        }
    }
}
