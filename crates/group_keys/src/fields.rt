//! The fields that the records of a ring and of a book have in common.
ghost use Rattle.std.specs.Prelude.{◌≡◌, ◌≤◌, ◌+◌, ◌++◌, length};
ghost use Rattle.group_keys.specs.Fields.{held_in, held_octets, flag_in};

use plc_base::{Key, Record};

/// How many octets a key takes that may be held: a flag and the key.
pub const HELD: usize = 17;

/// The key that 16 octets are.
pub fn key_in(octets: &[u8]) -> Key
    requires { length octets.now ≡ 16 }
    ensures { result.0 ≡ octets.now }
{
    let mut key = [0; 16];
    key.copy_from_slice(octets);
    Key(key)
}

/// Whether a key is held, and the key: 17 octets. None where the flag is above 1, or where no key is held and the rest
/// is not zero.
pub fn held_in(octets: &[u8]) -> Option<Option<Key>>
    requires { length octets.now ≡ 17 }
    ensures { result ≡ held_in octets.now }
{
    if octets == [0; HELD].as_slice() {
        return Some(None);
    }
    let (flag, key) = octets.split_at(1);
    if flag[0] != 1 {
        return None;
    }
    Some(Some(key_in(key)))
}

/// Appends whether a key is held, and the key.
pub fn push_held(out: &mut Record, held: &Option<Key>)
    requires { length out.old + 17 ≤ 64 }
    ensures octets { out.new ≡ out.old ++ held_octets held.now }
    ensures len { length out.new ≡ length out.old + 17 }
    ensures held_len { length (held_octets held.now) ≡ 17 }
{
    match held {
        None => out.append(&[0; HELD]),
        Some(key) => {
            out.push(1);
            out.append(&key.0);
        }
    }
}

/// What a flag of one octet says. None where it is above 1.
pub fn flag_in(octet: u8) -> Option<bool>
    ensures { result ≡ flag_in octet }
{
    match octet {
        0 => Some(false),
        1 => Some(true),
        _ => None,
    }
}
