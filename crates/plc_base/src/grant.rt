//! What a joining node is given.
ghost use Rattle.std.specs.Prelude.{◌≡◌, true, is_some, Some};
ghost use Rattle.plc_base.specs.Grant.{key_at, keyed};

use crate::{Key, KeyIndex, Short};
use std::marker::Model;

/// The grant of a joining: the node's short address and the group keys (ITU-T G.9903, joining).
///
/// `keys` holds a key at the index `active`. A contract sees the address, the active index and the two keys.
#[derive(Clone, Copy, Debug)]
pub struct Grant {
    /// The short address of the node.
    pub address: Short,
    /// The index of the key that seals.
    pub active: KeyIndex,
    /// The group key at index 0 and the one at index 1.
    pub keys: [Option<Key>; 2],
}

impl Model for Grant {
    ghost use Rattle.std.specs.Prelude.{◌∷◌, []};
    ghost use Rattle.std.proofs.Common.{ap};
    ghost use Rattle.plc_base.specs.Grant.{Granted, IsTwo, granted_of, two_places};

    ghost Value = { Granted };

    ghost view = { λ g. granted_of g.address g.active g.keys };

    ghost invariant = { λ g. IsTwo g.address g.active g.keys };

    ghost inverse = { λ v. record { address = v.address; active = v.active; keys = v.key0 ∷ v.key1 ∷ [] } };

    ghost inverse_ok = { λ a h. ap (λ keys. record { address = a.address; active = a.active; keys = keys })
        (two_places a.keys h.two) };
}

impl Grant {
    /// The key at an index, 0 or 1.
    pub fn key(&self, index: KeyIndex) -> Option<Key>
        ensures { result ≡ key_at self.now index }
    {
        self.keys[usize::from(index.number())]
    }

    /// The key that seals: the one at the active index.
    pub fn sealing_key(&self) -> Key
        ensures { key_at self.now self.now.active ≡ Some result }
    {
        self.key(self.active).unwrap()
    }

    /// The grant with a key at an index, 0 or 1.
    pub fn with_key(&self, index: KeyIndex, key: &Key) -> Grant
        ensures { result ≡ keyed self.now index key.now }
    {
        let keys = if index.number() == 0 {
            [Some(*key), self.keys[1]]
        } else {
            [self.keys[0], Some(*key)]
        };
        Grant {
            address: self.address,
            active: self.active,
            keys,
        }
    }

    /// The grant whose active key is the one at an index, 0 or 1, where a key is held.
    pub fn with_active(&self, index: KeyIndex) -> Grant
        requires held { is_some (key_at self.now index) ≡ true }
        ensures { result ≡ record self.now { active = index } }
    {
        Grant {
            address: self.address,
            active: index,
            keys: self.keys,
        }
    }
}
