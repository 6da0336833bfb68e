//! The key that C gives.
ghost use Rattle.std.specs.Prelude.{◌≡◌, ◌==◌, length, true, false, MatchOption};

use aes_modes::Aes;
use plc_base::Key;

/// The schedule of a key. None exactly where it does not have 16 octets.
pub fn schedule_of(key: &[u8]) -> Option<Aes>
    ensures { MatchOption result ((length key.now == 16) ≡ false)
        (λ aes. ((length key.now == 16) ≡ true) × (aes ≡ key.now)) }
{
    let key = key.as_array::<16>()?;
    Some(Aes::new(&Key(*key)))
}
