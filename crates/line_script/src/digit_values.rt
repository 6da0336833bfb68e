//! The octets that digits in hexadecimal stand for, 32 digits at a time in registers.
//!
//! Four look-ups give the value of 16 digits: what stands in the column of the low four bits of each, within what the row of the high four bits lets
//! through, of the letters and of the numerals. Where an octet is no digit they give at least 32, so a sum of two values shows it.
ghost use Rattle.std.specs.Prelude.{◌≡◌, ◌++◌, ◌-◌, ◌/◌, ◌<◌, ◌%◌, length, map, replicate, take};
ghost use Rattle.std.specs.Option.{option_map};
ghost use Rattle.std.specs.Result.{result_ok};
ghost use Rattle.hex.specs.Hex.{decode_of};
ghost use Rattle.line_script.specs.Digits.{chosen, digit_value, has_mark, lane_octet, lane_sum};
ghost use lib.Lanes.{zip2};

use crate::digits::{high, look, low};
use plc_base::OctetRef;
use std::simd::prelude::*;

// By the low four bits: 32 and the value of the letter, 96 where there is none.
const LETTERS: [u8; 16] = [
    96, 42, 43, 44, 45, 46, 47, 96, 96, 96, 96, 96, 96, 96, 96, 96,
];

// By the high four bits: all but 32 where letters are, nothing where numerals are, else 32.
const LETTER_ROWS: [u8; 16] = [
    32, 32, 32, 0, 223, 32, 223, 32, 32, 32, 32, 32, 32, 32, 32, 32,
];

// By the low four bits: 32 and the value of the numeral, 96 where there is none.
const NUMERALS: [u8; 16] = [
    32, 33, 34, 35, 36, 37, 38, 39, 40, 41, 96, 96, 96, 96, 96, 96,
];

// By the high four bits: all but 32 where numerals are, nothing where letters are, else 32.
const NUMERAL_ROWS: [u8; 16] = [
    32, 32, 32, 223, 0, 32, 0, 32, 32, 32, 32, 32, 32, 32, 32, 32,
];

// What a column and a row let through of each octet.
#[inline(always)]
fn choose(columns: u8x16, rows: u8x16, x: u8x16) -> u8x16
    ensures { result ≡ map (chosen columns rows) x }
{
    let column = look(columns, low(x));
    let row = look(rows, high(x));
    column & row
}

// The value of each octet as a digit; 32 or more where it is none.
#[inline(always)]
fn digit_values(x: u8x16) -> u8x16
    ensures { result ≡ map digit_value x }
{
    let letters = choose(
        u8x16::from_array(LETTERS),
        u8x16::from_array(LETTER_ROWS),
        x,
    );
    let numerals = choose(
        u8x16::from_array(NUMERALS),
        u8x16::from_array(NUMERAL_ROWS),
        x,
    );
    letters | numerals
}

// Whether a lane has 32 or more.
#[inline(always)]
fn has_mark(x: u8x16) -> bool
    ensures { result ≡ has_mark x }
{
    x.simd_ge(u8x16::splat(32)).to_bitmask() != 0
}

// The sums of two values, lane by lane.
#[inline(always)]
fn sum_lanes(first: u8x16, second: u8x16) -> u8x16
    ensures { result ≡ zip2 lane_sum first second }
{
    first + second
}

// The octets of two values, lane by lane: the first gives the high four bits.
#[inline(always)]
fn octet_lanes(first: u8x16, second: u8x16) -> u8x16
    ensures { result ≡ zip2 lane_octet first second }
{
    (first << u8x16::splat(4)) + second
}

// The octets of 32 digits, None where one is no digit.
#[inline(always)]
fn sixteen_octets(digits: &[u8; 32]) -> Option<[u8; 16]>
    ensures { result ≡ result_ok (decode_of digits.now) }
{
    let x = u8x32::from_array(*digits);
    let first = digit_values(x.swizzle([
        0, 2, 4, 6, 8, 10, 12, 14, 16, 18, 20, 22, 24, 26, 28, 30,
    ]));
    let second = digit_values(x.swizzle([
        1, 3, 5, 7, 9, 11, 13, 15, 17, 19, 21, 23, 25, 27, 29, 31,
    ]));
    if has_mark(sum_lanes(first, second)) {
        return None;
    }
    Some(octet_lanes(first, second).to_array())
}

// Fewer than 32 digits, and zeros after them.
#[inline(always)]
fn filled_up(digits: &[u8]) -> [u8; 32]
    requires { length digits.now < 32 }
    ensures { result ≡ digits.now ++ replicate (32 - length digits.now) 48 }
{
    let mut filled = [b'0'; 32];
    filled[..digits.len()].copy_from_slice(digits);
    filled
}

// The octets that fewer than 32 digits stand for: the first of these, one of two digits.
fn few_octets(digits: &[u8]) -> Option<[u8; 16]>
    requires few { length digits.now < 32 }
    requires even { length digits.now % 2 ≡ 0 }
    ensures { option_map (take (length digits.now / 2)) result ≡ result_ok (decode_of digits.now) }
{
    sixteen_octets(&filled_up(digits))
}

/// The octets that digits in hexadecimal stand for. They are written to `octets`, which has room for one of two digits.
pub(crate) fn decode<'a>(digits: &[u8], octets: &'a mut [u8]) -> Option<OctetRef<'a>>
    requires { length octets.old ≡ length digits.now / 2 }
    ensures { result ≡ result_ok (decode_of digits.now) }
{
    if digits.len() % 2 != 0 {
        return None;
    }
    let (chunks, rest) = digits.as_chunks::<32>();
    for place in 0..chunks.len() {
        let whole = sixteen_octets(&chunks[place])?;
        octets[16 * place..16 * place + 16].copy_from_slice(&whole);
    }
    let last = few_octets(rest)?;
    octets[16 * chunks.len()..].copy_from_slice(&last[..rest.len() / 2]);
    Some(OctetRef::new(octets))
}
