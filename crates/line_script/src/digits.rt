//! Octets in hexadecimal, 16 at a time in registers.
//!
//! Two look-ups make the digits of the high and of the low four bits of 16 octets, and a shuffle puts them in turn. The digits go straight into the text:
//! no text of their own is allocated, zeroed and copied.
ghost use Rattle.std.specs.Prelude.{◌≡◌, ◌++◌, ◌/◌, ◌<◌, OnOk, bit_and, length, map, string_bytes};
ghost use Rattle.hex.specs.Hex.{encode_lower};
ghost use Rattle.line_script.specs.Digits.{all_digits, entry, high_digit, low_digit};
ghost use lib.Lanes.{Each1};
ghost use lib.Dec.{T, leb, ltb};
ghost use mathlib.Core.Bool.{◌||◌};

use std::alloc::AllocError;
use std::simd::prelude::*;

// The digits, in lower case, in ASCII.
const DIGITS: [u8; 16] = [
    48, 49, 50, 51, 52, 53, 54, 55, 56, 57, 97, 98, 99, 100, 101, 102,
];

// The high four bits of each octet.
#[inline(always)]
pub(crate) fn high(x: u8x16) -> u8x16
    ensures { result ≡ map (λ b. b / 16) x }
{
    x >> u8x16::splat(4)
}

// The low four bits of each octet.
#[inline(always)]
pub(crate) fn low(x: u8x16) -> u8x16
    ensures { result ≡ map (λ b. bit_and b 15) x }
{
    x & u8x16::splat(15)
}

// The entries of `table` at the places `at`.
#[inline(always)]
pub(crate) fn look(table: u8x16, at: u8x16) -> u8x16
    requires { Each1 (λ j. T (leb 128 j || ltb j 16)) at }
    ensures { result ≡ map (entry table) at }
{
    table.swizzle_dyn(at)
}

// The digit of the high four bits of each octet.
#[inline(always)]
fn high_digits(x: u8x16) -> u8x16
    ensures { result ≡ map high_digit x }
{
    let at = high(x);
    look(u8x16::from_array(DIGITS), at)
}

// The digit of the low four bits of each octet.
#[inline(always)]
fn low_digits(x: u8x16) -> u8x16
    ensures { result ≡ map low_digit x }
{
    let at = low(x);
    look(u8x16::from_array(DIGITS), at)
}

// The 32 digits of 16 octets.
#[inline(always)]
fn sixteen_digits(octets: &[u8; 16]) -> [u8; 32]
    ensures { result ≡ encode_lower octets.now }
{
    let x = u8x16::from_array(*octets);
    let first = high_digits(x);
    let second = low_digits(x);
    let both: u8x32 = first.shuffle(
        second,
        [
            0, 16, 1, 17, 2, 18, 3, 19, 4, 20, 5, 21, 6, 22, 7, 23, 8, 24, 9, 25, 10, 26, 11, 27,
            12, 28, 13, 29, 14, 30, 15, 31,
        ],
    );
    both.to_array()
}

// Appends the 32 digits of 16 octets. They are ASCII, so nothing has to look for UTF-8.
fn push_sixteen(text: &mut String, octets: &[u8; 16]) -> Result<(), AllocError>
    ensures { OnOk result (string_bytes text.new ≡ string_bytes text.old ++ encode_lower octets.now) }
{
    let digits = sixteen_digits(octets);
    text.push_str(unsafe { std::str::from_utf8_unchecked(&digits) })
}

// Appends the digits of each part of 16 octets, one after the other.
fn push_whole(text: &mut String, chunks: &[[u8; 16]]) -> Result<(), AllocError>
    ensures { OnOk result (string_bytes text.new ≡ string_bytes text.old ++ all_digits chunks.now) }
{
    for octets in chunks {
        push_sixteen(text, octets)?;
    }
    Ok(())
}

// Appends the digits of fewer than 16 octets, which would fill no register.
fn push_few(text: &mut String, octets: &[u8]) -> Result<(), AllocError>
    requires { length octets.now < 16 }
    ensures { OnOk result (string_bytes text.new ≡ string_bytes text.old ++ encode_lower octets.now) }
{
    let mut room = [0u8; 32];
    let digits = &mut room[..2 * octets.len()];
    let Ok(()) = hex::encode_to_slice(octets, digits) else {
        unreachable!()
    };
    text.push_str(unsafe { std::str::from_utf8_unchecked(digits) })
}

/// Appends octets of any count in hexadecimal: two digits an octet, the high four bits first, in lower case. `AllocError` where the text cannot grow; some of
/// the digits may then stand in it.
pub(crate) fn push_digits(text: &mut String, octets: &[u8]) -> Result<(), AllocError>
    ensures { OnOk result (string_bytes text.new ≡ string_bytes text.old ++ encode_lower octets.now) }
{
    let (chunks, rest) = octets.as_chunks::<16>();
    push_whole(text, chunks)?;
    push_few(text, rest)
}
