//! The addresses of nodes.
ghost use Rattle.std.specs.Prelude.{◌≡◌, ◌↔◌, IsSome, IfSome};
ghost use Rattle.plc_base.specs.Addresses.{IsAddress, eui_number};

use crate::out_of_range::OutOfRange;
use byteorder::{BigEndian, ByteOrder};
use std::fmt;
use std::marker::Model;

/// The identifier of the personal area network that every node of this profile belongs to.
pub const PAN: u16 = 0x781D;

/// The short address of all neighbours, and the identifier of every network (IEEE 802.15.4-2006, 7.2.1.3 and 7.2.1.4).
pub const TO_ALL: u16 = 0xFFFF;

/// The least number that is no address of one node: a device without a short address has it (IEEE 802.15.4-2006, 7.2.1.4).
pub const NO_ADDRESS: u16 = 0xFFFE;

/// An EUI-64: the identity that a device has from its maker, in the order of its text (IEEE 802.15.4-2006, 7.2.1.4).
#[derive(Clone, Copy, Debug, PartialEq, Eq, PartialOrd, Ord, Hash)]
pub struct Eui(pub [u8; 8]);

impl Eui {
    /// The identity as a number, the first octet highest.
    pub fn number(&self) -> u64
        ensures { result ≡ eui_number self.now }
    {
        BigEndian::read_u64(&self.0)
    }
}

/// The short address of one node: any number of 16 bits but FFFE and FFFF, which name no node (IEEE 802.15.4-2006, 7.2.1.4).
///
/// A contract sees the number.
#[derive(Clone, Copy, Debug, PartialEq, Eq, PartialOrd, Ord, Hash, Default)]
pub struct Short {
    number: u16,
}

impl Model for Short {
    ghost use Rattle.std.specs.Prelude.{ℕ};
    ghost use Rattle.plc_base.specs.Addresses.{IsAddress};

    ghost Value = { ℕ };

    ghost view = { λ a. a.number };

    ghost invariant = { λ a. IsAddress a.number };

    ghost inverse = { λ n. record { number = n } };
}

impl Short {
    /// The address of this number. None exactly for FFFE and FFFF.
    pub fn new(value: u16) -> Option<Short>
        ensures valid { IsSome result ↔ IsAddress value }
        ensures value { IfSome result (λ address. address ≡ value) }
    {
        if value >= NO_ADDRESS {
            return None;
        }
        Some(Short { number: value })
    }

    /// The address as a number.
    pub fn number(self) -> u16
        ensures value { result ≡ self }
        ensures valid { IsAddress result }
    {
        self.number
    }

    /// The number as the key of a table's entry.
    pub fn key(self) -> u64
        ensures value { result ≡ self }
        ensures valid { IsAddress result }
    {
        u64::from(self.number)
    }
}

impl TryFrom<u16> for Short {
    ghost use Rattle.std.specs.Result.{OkIff};
    ghost use Rattle.plc_base.specs.Addresses.{IsAddress};

    type Error = OutOfRange;

    ghost try_from_gives = { λ number r. OkIff r (IsAddress number) number };

    /// OutOfRange exactly for FFFE and FFFF.
    fn try_from(number: u16) -> Result<Short, OutOfRange> {
        match Short::new(number) {
            Some(address) => Ok(address),
            None => Err(OutOfRange),
        }
    }
}

impl fmt::Display for Short {
    /// Four digits, as scripts and reports write it.
    fn fmt<W: fmt::Write>(&self, f: &mut fmt::Formatter<W>) -> fmt::Result {
        write!(f, "{:04x}", self.number)
    }
}
