//! The cipher of FIPS 197 with 128-bit keys. A state is one register of 16 octets, and so is a round key.
ghost use Rattle.std.specs.Prelude.{◌≡◌, ℕ, ◌<◌, List, map};
ghost use Rattle.aes_modes.specs.Cipher.{xor_bytes, round, last_round, next_round_key, encrypted};
ghost use Rattle.aes_modes.specs.LookUps.{unturned, unhidden};
ghost use Rattle.aes_modes.specs.Schedule.{first_key, IsSchedule};
ghost use Rattle.aes_modes.specs.Rounds.{mixed};

use crate::compare::is_same;
use crate::look_ups::{add, hide, look, once_and_twice, sub_turned, turn};
use plc_base::Key;
use std::marker::Model;
use std::simd::Simd;

/// AES-128 under one key, with its round keys (FIPS 197, section 5).
///
/// A contract sees the 16 octets of the key. It takes 176 octets, and making one costs about what encrypting a block does.
#[derive(Drop)]
pub struct Aes {
    // The first and the last as they are, the nine between hidden (`hide`).
    keys: [[u8; 16]; 11],
}

impl Model for Aes {
    ghost Value = { List ℕ };

    ghost view = { λ a. first_key a.keys };

    ghost invariant = { λ a. IsSchedule (first_key a.keys) a.keys };
}

impl Aes {
    /// Whether [`Aes::encrypt_two`] makes two blocks at the cost of one.
    pub const MAKES_PAIRS: bool = false;

    /// Expands the key (FIPS 197, section 5.2).
    pub fn new(key: &Key) -> Aes
        ensures { result ≡ key.now.0 }
    {
        let k0 = Simd::from_array(key.0);
        let (k1, _) = step(k0, 0x01);
        let (k2, h1) = step(k1, 0x02);
        let (k3, h2) = step(k2, 0x04);
        let (k4, h3) = step(k3, 0x08);
        let (k5, h4) = step(k4, 0x10);
        let (k6, h5) = step(k5, 0x20);
        let (k7, h6) = step(k6, 0x40);
        let (k8, h7) = step(k7, 0x80);
        let (k9, h8) = step(k8, 0x1b);
        let (k10, h9) = step(k9, 0x36);
        let keys = [
            key.0,
            h1.to_array(),
            h2.to_array(),
            h3.to_array(),
            h4.to_array(),
            h5.to_array(),
            h6.to_array(),
            h7.to_array(),
            h8.to_array(),
            h9.to_array(),
            k10.to_array(),
        ];
        Aes { keys }
    }

    /// Makes it that of `key`, and expands the key only where it is another one than before. How long this takes shows whether it is.
    pub fn renew(&mut self, key: &Key)
        ensures { self.new ≡ key.now.0 }
    {
        if !is_same(&self.keys[0], &key.0) {
            *self = Aes::new(key);
        }
    }

    /// The encrypted block (FIPS 197, section 5.1).
    pub fn encrypt_block(&self, block: &[u8; 16]) -> [u8; 16]
        ensures { result ≡ encrypted self.now block.now }
    {
        let k = &self.keys;
        let s = add_round_key(Simd::from_array(*block), Simd::from_array(k[0]));
        let s = turn(s);
        let s = round(s, Simd::from_array(k[1]));
        let s = round(s, Simd::from_array(k[2]));
        let s = round(s, Simd::from_array(k[3]));
        let s = round(s, Simd::from_array(k[4]));
        let s = round(s, Simd::from_array(k[5]));
        let s = round(s, Simd::from_array(k[6]));
        let s = round(s, Simd::from_array(k[7]));
        let s = round(s, Simd::from_array(k[8]));
        let s = round(s, Simd::from_array(k[9]));
        let s = last_round(s, Simd::from_array(k[10]));
        s.to_array()
    }

    /// Both encrypted blocks, one after the other.
    #[inline(always)]
    pub fn encrypt_two(&self, x: &[u8; 16], y: &[u8; 16]) -> ([u8; 16], [u8; 16])
        ensures first { result.0 ≡ encrypted self.now x.now }
        ensures second { result.1 ≡ encrypted self.now y.now }
    {
        (self.encrypt_block(x), self.encrypt_block(y))
    }
}

/// AddRoundKey (section 5.1.4).
#[inline(always)]
fn add_round_key(s: Simd<u8, 16>, k: Simd<u8, 16>) -> Simd<u8, 16>
    ensures { result ≡ xor_bytes s k }
{
    add(s, k)
}

/// ShiftRows and MixColumns (sections 5.1.2 and 5.1.3) of a state, from its octets and twice those.
///
/// Twice an octet and the one of the row after it are added first: turned by a row, that sum is what the two rows after an octet give to it.
#[inline(always)]
fn mix(once: Simd<u8, 16>, twice: Simd<u8, 16>) -> Simd<u8, 16>
    ensures { result ≡ mixed once twice }
{
    let own = look(twice, Simd::from_array(OWN));
    let next = look(once, Simd::from_array(NEXT));
    let pair = add(own, next);
    let last = look(once, Simd::from_array(LAST));
    let front = add(pair, last);
    let back = look(pair, Simd::from_array(ROW_AFTER));
    add(front, back)
}

/// A round (section 5.1) of a turned state, with a hidden round key.
#[inline(always)]
fn round(s: Simd<u8, 16>, k: Simd<u8, 16>) -> Simd<u8, 16>
    ensures { map unturned result ≡ round (map unhidden k) (map unturned s) }
{
    let (once, twice) = once_and_twice(s);
    add(mix(once, twice), k)
}

/// The last round (section 5.1) of a turned state.
#[inline(always)]
fn last_round(s: Simd<u8, 16>, k: Simd<u8, 16>) -> Simd<u8, 16>
    ensures { result ≡ last_round k (map unturned s) }
{
    let once = sub_turned(s);
    add_round_key(look(once, Simd::from_array(OWN)), k)
}

/// The round key after `k`, from the constant of its round (section 5.2), and `k` hidden.
#[inline(always)]
fn step(k: Simd<u8, 16>, constant: u8) -> (Simd<u8, 16>, Simd<u8, 16>)
    ensures next { result.0 ≡ next_round_key constant k }
    ensures hidden { map unhidden result.1 ≡ k }
{
    let turned = turn(k);
    let boxes = sub_turned(turned);
    let word = look(boxes, Simd::from_array(ROT_WORD));
    let rcon = Simd::from_array([
        constant, 0, 0, 0, constant, 0, 0, 0, constant, 0, 0, 0, constant, 0, 0, 0,
    ]);
    let temp = add(word, rcon);
    let one = look(k, Simd::from_array(BY_ONE));
    let two = look(k, Simd::from_array(BY_TWO));
    let three = look(k, Simd::from_array(BY_THREE));
    (add(k, add(one, add(two, add(three, temp)))), hide(turned))
}

// Where ShiftRows and MixColumns take each octet from: its own row, the row after it, and the one before it.
const OWN: [u8; 16] = [0, 5, 10, 15, 4, 9, 14, 3, 8, 13, 2, 7, 12, 1, 6, 11];

const NEXT: [u8; 16] = [5, 10, 15, 0, 9, 14, 3, 4, 13, 2, 7, 8, 1, 6, 11, 12];

const LAST: [u8; 16] = [15, 0, 5, 10, 3, 4, 9, 14, 7, 8, 13, 2, 11, 12, 1, 6];

// The octets of a state, each from the row after it.
const ROW_AFTER: [u8; 16] = [1, 2, 3, 0, 5, 6, 7, 4, 9, 10, 11, 8, 13, 14, 15, 12];

// RotWord of the last word, four times.
const ROT_WORD: [u8; 16] = [
    13, 14, 15, 12, 13, 14, 15, 12, 13, 14, 15, 12, 13, 14, 15, 12,
];

// For each word the first, the second and the third before it, and zeros where there is none.
const BY_ONE: [u8; 16] = [128, 128, 128, 128, 0, 1, 2, 3, 4, 5, 6, 7, 8, 9, 10, 11];

const BY_TWO: [u8; 16] = [
    128, 128, 128, 128, 128, 128, 128, 128, 0, 1, 2, 3, 4, 5, 6, 7,
];

const BY_THREE: [u8; 16] = [
    128, 128, 128, 128, 128, 128, 128, 128, 128, 128, 128, 128, 0, 1, 2, 3,
];
