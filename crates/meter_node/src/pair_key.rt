//! The pair key of a meter.
ghost use Rattle.std.specs.Prelude.{◌≡◌};
ghost use Rattle.eap_psk.specs.Keys.{keys_of};

use eap_psk::PskKeys;
use plc_base::Key;
use std::marker::Model;

/// A pair key with the keys that it gives, which are made once. A contract sees the pair key.
#[derive(Drop)]
pub struct PairKey {
    psk: Key,
    keys: PskKeys,
}

impl Model for PairKey {
    ghost use Rattle.plc_base.specs.declared.key.Key.{Key};
    ghost use Rattle.std.specs.Prelude.{◌≡◌};
    ghost use Rattle.eap_psk.specs.Keys.{keys_of};
    ghost use Rattle.meter_node.specs.Sessions.{key_code};

    ghost Value = { Key };

    ghost coded = { key_code };

    ghost view = { λ p. p.psk };

    ghost invariant = { λ p. p.keys ≡ keys_of p.psk.0 };
}

impl PairKey {
    /// The keys of a pair key.
    pub fn new(psk: Key) -> PairKey
        ensures { result ≡ psk }
    {
        PairKey {
            psk,
            keys: PskKeys::of(&psk),
        }
    }

    /// The pair key itself.
    pub fn psk(&self) -> Key
        ensures { result ≡ self.now }
    {
        self.psk
    }

    /// The keys that it gives.
    pub fn keys(&self) -> &PskKeys
        ensures { result.now ≡ keys_of self.now.0 }
    {
        &self.keys
    }
}
