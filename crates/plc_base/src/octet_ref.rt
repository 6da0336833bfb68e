//! Octets that stand elsewhere.
ghost use Rattle.std.specs.Prelude.{◌≡◌};

use std::marker::Model;

/// Octets that stand elsewhere, so that nothing is copied with them. A contract sees the list of them.
#[derive(Debug, Drop)]
pub struct OctetRef<'a> {
    items: &'a [u8],
}

impl<'a> Model for OctetRef<'a> {
    ghost use Rattle.std.specs.Prelude.{ℕ, List};

    ghost Value = { List ℕ };

    ghost view = { λ o. o.items.now };
}

impl<'a> OctetRef<'a> {
    /// These octets.
    pub fn new(octets: &'a [u8]) -> OctetRef<'a>
        ensures { result ≡ octets.now }
    {
        OctetRef { items: octets }
    }

    /// The octets as a slice.
    pub fn octets(&self) -> &'a [u8]
        ensures { result.now ≡ self.now }
    {
        self.items
    }
}
