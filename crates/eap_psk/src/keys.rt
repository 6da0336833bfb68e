//! The keys of EAP-PSK.
ghost use Rattle.std.specs.Prelude.{◌≡◌};
ghost use Rattle.aes_modes.specs.Cipher.{xor_bytes};
ghost use Rattle.eap_psk.specs.Keys.{numbered_block, derived, keys_of, transient_key};

use aes_modes::Aes;
use plc_base::{Key, RandomOctets};
use std::marker::Model;

/// The keys that a pair key gives: the authentication key AK and the key-derivation key KDK (RFC 4764, 3.1). A contract sees
/// both.
#[derive(Drop)]
pub struct PskKeys {
    ak: Aes,
    kdk: Aes,
}

impl Model for PskKeys {
    ghost use Rattle.eap_psk.specs.Keys.{PairKeys};

    ghost Value = { PairKeys };

    ghost view = { λ k. record { ak = k.ak; kdk = k.kdk } };
}

// A block with a number added to its last octet.
fn with_number(block: &[u8; 16], number: u8) -> [u8; 16]
    ensures { result ≡ xor_bytes block.now (numbered_block number) }
{
    let mut sum = *block;
    sum[15] ^= number;
    sum
}

// A block encrypted, a number added, and encrypted again.
#[tactic(auto, unfolding(crate::specs::Keys::derived))]
fn derive(aes: &Aes, block: &[u8; 16], number: u8) -> Key
    ensures { result.0 ≡ derived aes.now block.now number }
{
    let sum = with_number(&aes.encrypt_block(block), number);
    Key(aes.encrypt_block(&sum))
}

impl PskKeys {
    /// The keys of a pair key.
    #[tactic(auto, unfolding(crate::specs::Keys::numbered_block))]
    pub fn of(psk: &Key) -> PskKeys
        ensures { result ≡ keys_of psk.now.0 }
    {
        let aes = Aes::new(psk);
        let zero = [0; 16];
        PskKeys {
            ak: Aes::new(&derive(&aes, &zero, 1)),
            kdk: Aes::new(&derive(&aes, &zero, 2)),
        }
    }

    // AK.
    pub(crate) fn authentication(&self) -> &Aes
        ensures { result.now ≡ self.now.ak }
    {
        &self.ak
    }

    // TEK, the key of a session's protected channel (RFC 4764, 3.2).
    pub(crate) fn transient(&self, rand_p: &RandomOctets) -> Aes
        ensures { result ≡ transient_key self.now.kdk rand_p.now.0 }
    {
        Aes::new(&derive(&self.kdk, &rand_p.0, 1))
    }
}
