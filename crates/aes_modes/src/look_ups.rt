//! SubBytes of 16 octets at once, by look-ups in registers: no address and no branch depends on an octet.
//!
//! The method and its lists are those of M. Hamburg, Accelerating AES with Vector Permute Instructions (2009): an octet is two halves of four
//! bits, elements of a field of 16, in which an inverse is five look-ups. Between the rounds octets are turned: they are kept in the basis of
//! those halves.
ghost use Rattle.std.specs.Prelude.{◌≡◌, ◌/◌, map, bit_and, bit_xor};
ghost use lib.Lanes.{zip2, Each1};
ghost use lib.Dec.{T, leb, ltb};
ghost use mathlib.Core.Bool.{◌||◌};
ghost use Rattle.aes_modes.specs.LookUps.{entry, unturned, unhidden, half_g, half_h, once, twice};
ghost use Rattle.aes_modes.specs.Cipher.{sub_bytes};

use std::simd::Simd;

/// The sums of the octets at each place.
#[inline(always)]
pub(crate) fn add(a: Simd<u8, 16>, b: Simd<u8, 16>) -> Simd<u8, 16>
    ensures { result ≡ zip2 bit_xor a b }
{
    a ^ b
}

/// The low four bits of each octet.
#[inline(always)]
fn low(x: Simd<u8, 16>) -> Simd<u8, 16>
    ensures { result ≡ map (λ b. bit_and b 15) x }
{
    x & Simd::splat(15)
}

/// The high four bits of each octet.
#[inline(always)]
fn high(x: Simd<u8, 16>) -> Simd<u8, 16>
    ensures { result ≡ map (λ b. b / 16) x }
{
    x >> Simd::splat(4)
}

/// The entries of `table` at the places `at`; 0 at a place that is not below 128.
#[inline(always)]
pub(crate) fn look(table: Simd<u8, 16>, at: Simd<u8, 16>) -> Simd<u8, 16>
    requires { Each1 (λ j. T (leb 128 j || ltb j 16)) at }
    ensures { result ≡ map (entry table) at }
{
    table.swizzle_dyn(at)
}

/// The octets, turned.
#[inline(always)]
pub(crate) fn turn(x: Simd<u8, 16>) -> Simd<u8, 16>
    ensures { map unturned result ≡ x }
{
    let a = low(x);
    let b = look(Simd::from_array(TURNED_LOW), a);
    let d = high(x);
    let e = look(Simd::from_array(TURNED_HIGH), d);
    add(b, e)
}

/// A turned round key with the constant of the S-box added, which the rounds leave out. 91 is that constant, 99, turned.
#[inline(always)]
pub(crate) fn hide(k: Simd<u8, 16>) -> Simd<u8, 16>
    ensures { map unhidden result ≡ map unturned k }
{
    add(k, Simd::splat(91))
}

/// The two halves of the inverse of each turned octet. A half that is not below 128 stands for the inverse of 0.
#[inline(always)]
fn halves(x: Simd<u8, 16>) -> (Simd<u8, 16>, Simd<u8, 16>)
    ensures first { result.0 ≡ map half_g x }
    ensures second { result.1 ≡ map half_h x }
    ensures first_fits { Each1 (λ j. T (leb 128 j || ltb j 16)) result.0 }
    ensures second_fits { Each1 (λ j. T (leb 128 j || ltb j 16)) result.1 }
{
    let i = high(x);
    let k = low(x);
    let f = look(Simd::from_array(SCALED_INVERSES), k);
    let j = add(i, k);
    let p = look(Simd::from_array(INVERSES), i);
    let m = add(p, f);
    let q = look(Simd::from_array(INVERSES), j);
    let n = add(q, f);
    let r = look(Simd::from_array(INVERSES), m);
    let g = add(r, j);
    let s = look(Simd::from_array(INVERSES), n);
    let h = add(s, i);
    (g, h)
}

/// SubBytes (FIPS 197, section 5.1.1) of turned octets; the result is not turned.
#[inline(always)]
pub(crate) fn sub_turned(x: Simd<u8, 16>) -> Simd<u8, 16>
    ensures { result ≡ sub_bytes (map unturned x) }
{
    let (g, h) = halves(x);
    let u = look(Simd::from_array(PLAIN_FIRST), g);
    let v = look(Simd::from_array(PLAIN_SECOND), h);
    let w = add(u, v);
    add(w, Simd::splat(99))
}

/// SubBytes of turned octets without its constant, and twice that; both are turned.
#[inline(always)]
pub(crate) fn once_and_twice(x: Simd<u8, 16>) -> (Simd<u8, 16>, Simd<u8, 16>)
    ensures once { result.0 ≡ map once x }
    ensures twice { result.1 ≡ map twice x }
{
    let (g, h) = halves(x);
    let u = look(Simd::from_array(ONCE_FIRST), g);
    let v = look(Simd::from_array(ONCE_SECOND), h);
    let y = look(Simd::from_array(TWICE_FIRST), g);
    let z = look(Simd::from_array(TWICE_SECOND), h);
    (add(u, v), add(y, z))
}

// A turned octet, from the low and from the high four bits of the octet.
const TURNED_LOW: [u8; 16] = [
    0, 112, 42, 90, 152, 232, 178, 194, 8, 120, 34, 82, 144, 224, 186, 202,
];

const TURNED_HIGH: [u8; 16] = [
    0, 77, 124, 49, 125, 48, 1, 76, 129, 204, 253, 176, 252, 177, 128, 205,
];

// Inverses of four bits, and the same times a constant; 128 stands for the inverse of 0, and a look-up there gives 0.
const INVERSES: [u8; 16] = [128, 1, 8, 13, 15, 6, 5, 14, 2, 12, 11, 10, 9, 3, 7, 4];

const SCALED_INVERSES: [u8; 16] = [128, 7, 11, 15, 6, 10, 4, 1, 9, 8, 5, 2, 12, 14, 13, 3];

// SubBytes without its constant, from the first and from the second half of an inverse.
const PLAIN_FIRST: [u8; 16] = [
    0, 199, 189, 111, 23, 109, 210, 208, 120, 168, 2, 197, 122, 191, 170, 21,
];

const PLAIN_SECOND: [u8; 16] = [
    0, 106, 187, 95, 165, 116, 228, 207, 250, 53, 43, 65, 209, 144, 30, 142,
];

// The same turned.
const ONCE_FIRST: [u8; 16] = [
    0, 62, 80, 203, 143, 225, 155, 177, 68, 245, 42, 20, 110, 122, 223, 165,
];

const ONCE_SECOND: [u8; 16] = [
    0, 35, 226, 250, 21, 212, 24, 54, 239, 217, 46, 13, 193, 204, 247, 59,
];

// Twice the same, turned.
const TWICE_FIRST: [u8; 16] = [
    0, 36, 113, 11, 198, 147, 122, 226, 205, 47, 152, 188, 85, 233, 183, 94,
];

const TWICE_SECOND: [u8; 16] = [
    0, 41, 225, 10, 64, 136, 235, 105, 74, 35, 130, 171, 200, 99, 161, 194,
];
