//! The keys of a run, as Wireshark reads them.
ghost use Rattle.std.specs.Prelude.{◌≡◌, ◌++◌, ◌∷◌, [], IfOk, OnErr, OnOk, Some, ℕ, length, slice_get, string_bytes};
ghost use Rattle.std.specs.Option.{option_copied};
ghost use Rattle.line_capture.specs.Profiles as profiles;

use octet_log::OctetLog;
use plc_base::{Key, KeyIndex};
use std::alloc::{AllocError, Global};
use std::marker::Model;

/// The group keys that were drawn for an index, each once, in the order in which they were drawn first. A contract sees the list of them, each as
/// its index and its 16 octets.
#[derive(Drop)]
pub struct DrawnKeys {
    log: OctetLog,
}

impl Model for DrawnKeys {
    ghost use Rattle.std.specs.Prelude.{ℕ, List};

    ghost Value = { List (List ℕ) };

    ghost view = { λ k. k.log.strings };
}

// An index and a key.
fn drawn(index: KeyIndex, key: &Key) -> [u8; 17]
    ensures { result ≡ index ∷ key.now.0 }
{
    let mut octets = [0; 17];
    octets[0] = index.number();
    octets[1..].copy_from_slice(&key.0);
    octets
}

impl DrawnKeys {
    /// None. It takes no memory.
    pub fn new(alloc: Global) -> DrawnKeys
        ensures { result ≡ [] }
    {
        DrawnKeys {
            log: OctetLog::new(alloc),
        }
    }

    /// A key is drawn for an index. It fails only where memory runs out, and nothing changes then.
    pub fn draw(&mut self, index: KeyIndex, key: &Key) -> Result<(), AllocError>
        ensures known { OnOk result ((k : ℕ) → slice_get self.old k ≡ Some (index ∷ key.now.0) → self.new ≡ self.old) }
        ensures added { OnOk result (((k : ℕ) → slice_get self.old k ≡ Some (index ∷ key.now.0) → ⊥)
            → self.new ≡ self.old ++ (index ∷ key.now.0) ∷ []) }
        ensures err { OnErr result (self.new ≡ self.old) }
    {
        let octets = drawn(index, key);
        if self.log.last(&octets) > 0 {
            return Ok(());
        }
        if self.log.len() >= u32::MAX as usize {
            return Err(AllocError);
        }
        self.log.reserve(1, octets.len())?;
        self.log.push(&octets);
        Ok(())
    }

    // How many there are.
    fn len(&self) -> usize
        ensures { result ≡ length self.now }
    {
        self.log.len()
    }

    // The index and the octets of a key, by its place.
    fn get(&self, place: usize) -> Option<&[u8]>
        ensures { option_copied result ≡ slice_get self.now place }
    {
        self.log.get(place)
    }
}

fn index_text(index: u8) -> &'static str
    ensures { result.now ≡ profiles.index_text index }
{
    if index == 0 {
        return "\",\"0\",\"No hash\"\n";
    }
    "\",\"1\",\"No hash\"\n"
}

// The line of a key, by its index and its octets.
fn push_key(text: &mut String, alloc: Global, drawn: &[u8]) -> Result<(), AllocError>
    ensures { OnOk result (string_bytes text.new ≡ string_bytes text.old ++ profiles.key_text drawn.now) }
{
    let [index, key @ ..] = drawn else {
        return Ok(());
    };
    let digits = hex::encode(alloc, key)?;
    text.push_str("\"")?;
    text.push_str(digits.as_str())?;
    text.push_str(index_text(*index))
}

// The line of the key at a place, if there is one.
fn push_key_at(
    text: &mut String,
    alloc: Global,
    keys: &DrawnKeys,
    place: usize,
) -> Result<(), AllocError>
    ensures { OnOk result (string_bytes text.new ≡ string_bytes text.old ++ profiles.key_at (slice_get keys.now place)) }
{
    match keys.get(place) {
        None => Ok(()),
        Some(drawn) => push_key(text, alloc, drawn),
    }
}

/// The keys as the file `ieee802154_keys` of a profile of Wireshark: a line for each, with its index.
///
/// It fails only where memory runs out.
pub fn keys_text(alloc: Global, keys: &DrawnKeys) -> Result<String, AllocError>
    ensures { IfOk result (λ text. string_bytes text ≡ profiles.keys_text keys.now) }
{
    let mut text = String::new(alloc);
    for place in 0..keys.len() {
        push_key_at(&mut text, alloc, keys, place)?;
    }
    Ok(text)
}
