//! Keys and random values of 16 octets.
ghost use Rattle.std.specs.Prelude.{◌≡◌, replicate, codes, Some};
ghost use Rattle.std.specs.Fmt.{WritesStyledOnOk};

use std::fmt;

/// A key of AES-128: 16 octets.
#[derive(Clone, Copy, PartialEq, Eq)]
pub struct Key(pub [u8; 16]);

impl fmt::Debug for Key {
    ghost debug_output = { λ _. Some (codes "Key(..)") };

    /// Shows that it is a key, and not its octets, so that no log has them.
    fn fmt<W: fmt::Write>(&self, f: &mut fmt::Formatter<W>) -> fmt::Result
        ensures styled { WritesStyledOnOk W.write_str_gives f.old result (codes "Key(..)") f.new }
    {
        f.write_str("Key(..)")
    }
}

/// A random value of an EAP-PSK session: 16 octets (RFC 4764, 5.1).
#[derive(Clone, Copy, PartialEq, Eq)]
pub struct RandomOctets(pub [u8; 16]);

impl fmt::Debug for RandomOctets {
    ghost debug_output = { λ _. Some (codes "RandomOctets(..)") };

    /// Shows that it is a random value, and not its octets: they are secret as long as their session is open.
    fn fmt<W: fmt::Write>(&self, f: &mut fmt::Formatter<W>) -> fmt::Result
        ensures styled { WritesStyledOnOk W.write_str_gives f.old result (codes "RandomOctets(..)") f.new }
    {
        f.write_str("RandomOctets(..)")
    }
}

impl Default for RandomOctets {
    /// A blank of zeros, for an unused place.
    fn default() -> RandomOctets
        ensures { result.0 ≡ replicate 16 0 }
    {
        RandomOctets([0; 16])
    }
}
