//! Values as numbers: times and chances.
ghost use Rattle.std.specs.Prelude.{◌≡◌, ◌<◌, ◌≤◌, length, IfSome, position, ◌==◌};
ghost use Rattle.toml.specs.View.{view};
ghost use Rattle.plan_tables.specs.Values.{digit_more, number_from, number_of, clock_time, sixty, unit, timed, seconds_of, longest};
ghost use Rattle.plan_tables.specs.Values.{hundredths_of, decimals, whole_number, number_up_to, number_from_one_to};
ghost use Rattle.plan_tables.specs.Values.{seconds_in, whole_hundredths, float_hundredths, chance_in, hundredths_in};

use std::num::{nearest_u64_to_f64, saturating_f64_to_u64};
use toml::Value;

/// The longest time, in seconds: 400 days.
pub const LONGEST: u64 = 34_560_000;

fn digit_more(value: u64, digit: u8) -> Option<u64>
    ensures value { result ≡ digit_more value digit }
    ensures within { IfSome result (λ n. n < 1000000000) }
{
    if digit < b'0' {
        return None;
    }
    if digit > b'9' {
        return None;
    }
    if value > 99_999_999 {
        return None;
    }
    Some(value * 10 + u64::from(digit - b'0'))
}

fn number_from(digits: &[u8]) -> Option<u64>
    ensures value { result ≡ number_from 0 digits.now }
    ensures within { IfSome result (λ n. n < 1000000000) }
{
    let mut value = 0u64;
    for digit in digits {
        value = digit_more(value, *digit)?;
    }
    Some(value)
}

// A number below 1,000,000,000 in decimal digits.
#[tactic(auto, unfolding(crate::specs::Values::number_of))]
fn number_of(digits: &[u8]) -> Option<u64>
    ensures value { result ≡ number_of digits.now }
    ensures within { IfSome result (λ n. n < 1000000000) }
{
    if digits.is_empty() {
        return None;
    }
    number_from(digits)
}

fn place_of_octet(octets: &[u8], octet: u8) -> Option<usize>
    ensures at { result ≡ position (λ c. c == octet) octets.now }
    ensures within { IfSome result (λ at. at < length octets.now) }
{
    octets.iter().position(|one| *one == octet)
}

// Minutes or seconds of a clock time.
#[tactic(auto, unfolding(crate::specs::Values::sixty))]
fn sixty(digits: &[u8]) -> Option<u64>
    ensures value { result ≡ sixty digits.now }
    ensures within { IfSome result (λ n. n < 60) }
{
    let number = number_of(digits)?;
    if number > 59 {
        return None;
    }
    Some(number)
}

// A clock time from the start on, as 06:30 or 06:30:15. It may pass 24:00.
#[tactic(auto, unfolding(crate::specs::Values::clock_time))]
fn clock_time(hours: &[u8], rest: &[u8]) -> Option<u64>
    ensures { result ≡ clock_time hours.now rest.now }
{
    let hours = number_of(hours)?;
    match place_of_octet(rest, b':') {
        None => Some(hours * 3_600 + sixty(rest)? * 60),
        Some(at) => {
            let minutes = sixty(&rest[..at])?;
            let seconds = sixty(&rest[at + 1..])?;
            Some(hours * 3_600 + minutes * 60 + seconds)
        }
    }
}

// The seconds of a unit.
fn unit(letter: u8) -> Option<u64>
    ensures value { result ≡ unit letter }
    ensures within { IfSome result (λ n. n ≤ 86400) }
{
    match letter {
        b's' => Some(1),
        b'm' => Some(60),
        b'h' => Some(3_600),
        b'd' => Some(86_400),
        _ => None,
    }
}

// A number with a unit.
#[tactic(auto, unfolding(crate::specs::Values::timed))]
fn timed(octets: &[u8]) -> Option<u64>
    ensures { result ≡ timed octets.now }
{
    if octets.is_empty() {
        return None;
    }
    let last = octets.len() - 1;
    let seconds = unit(octets[last])?;
    let number = number_of(&octets[..last])?;
    Some(number * seconds)
}

/// A time in a text: `90s`, `5m`, `2h`, `1d`, or a clock time from the start on, as `06:30`, in seconds.
#[tactic(auto, unfolding(crate::specs::Values::seconds_of))]
pub fn seconds_of(octets: &[u8]) -> Option<u64>
    ensures { result ≡ seconds_of octets.now }
{
    match place_of_octet(octets, b':') {
        Some(at) => clock_time(&octets[..at], &octets[at + 1..]),
        None => timed(octets),
    }
}

// One or two decimals, as hundredths.
#[tactic(auto, unfolding(crate::specs::Values::decimals))]
fn decimals(digits: &[u8]) -> Option<u64>
    ensures value { result ≡ decimals digits.now }
    ensures within { IfSome result (λ n. n < 10000000000) }
{
    if digits.len() == 1 {
        return Some(number_of(digits)? * 10);
    }
    if digits.len() == 2 {
        return number_of(digits);
    }
    None
}

/// A number with at most two decimals, in hundredths, as 2.5 is 250.
#[tactic(auto, unfolding(crate::specs::Values::hundredths_of))]
pub fn hundredths_of(octets: &[u8]) -> Option<u64>
    ensures { result ≡ hundredths_of octets.now }
{
    match place_of_octet(octets, b'.') {
        None => Some(number_of(octets)? * 100),
        Some(at) => {
            let whole = number_of(&octets[..at])?;
            Some(whole * 100 + decimals(&octets[at + 1..])?)
        }
    }
}

/// A value as a number from 0 on.
#[tactic(auto, unfolding(crate::specs::Values::whole_number))]
pub fn whole_number(value: &Value) -> Option<u64>
    ensures { result ≡ whole_number (view value.now) }
{
    let number = value.as_integer()?;
    if number < 0 {
        return None;
    }
    Some(number as u64)
}

/// A value as a number up to another one.
#[tactic(auto, unfolding(crate::specs::Values::number_up_to))]
pub fn number_up_to(most: u64, value: &Value) -> Option<u64>
    ensures value { result ≡ number_up_to most (view value.now) }
    ensures within { IfSome result (λ n. n ≤ most) }
{
    let number = whole_number(value)?;
    if number > most {
        return None;
    }
    Some(number)
}

/// A value as a number from 1 to another one.
#[tactic(auto, unfolding(crate::specs::Values::number_from_one_to))]
pub fn number_from_one_to(most: u64, value: &Value) -> Option<u64>
    ensures value { result ≡ number_from_one_to most (view value.now) }
    ensures within { IfSome result (λ n. (0 < n) × (n ≤ most)) }
{
    let number = number_up_to(most, value)?;
    if number == 0 {
        return None;
    }
    Some(number)
}

/// A value as seconds, at most 400 days.
#[tactic(auto, unfolding(crate::specs::Values::seconds_in))]
pub fn seconds_in(value: &Value) -> Option<u64>
    ensures value { result ≡ seconds_in (view value.now) }
    ensures within { IfSome result (λ n. n ≤ longest) }
{
    let seconds = match value.as_str() {
        Some(text) => seconds_of(text.as_bytes())?,
        None => whole_number(value)?,
    };
    if seconds > LONGEST {
        return None;
    }
    Some(seconds)
}

const HUNDRED: f64 = 100.0;

const HALF: f64 = 0.5;

// The hundredths of a float that is the nearest one to a number of hundredths.
#[tactic(auto, unfolding(crate::specs::Values::float_hundredths))]
fn float_hundredths(number: f64) -> Option<u64>
    ensures { result ≡ float_hundredths number }
{
    let hundredths = saturating_f64_to_u64(number * HUNDRED + HALF);
    if nearest_u64_to_f64(hundredths) / HUNDRED == number {
        return Some(hundredths);
    }
    None
}

// A whole number of per cent, in hundredths.
#[tactic(auto, unfolding(crate::specs::Values::whole_hundredths))]
fn whole_hundredths(value: &Value) -> Option<u64>
    ensures { result ≡ whole_hundredths (view value.now) }
{
    let number = whole_number(value)?;
    if number > 100 {
        return None;
    }
    Some(number * 100)
}

#[tactic(auto, unfolding(crate::specs::Values::hundredths_in))]
fn hundredths_in(value: &Value) -> Option<u64>
    ensures { result ≡ hundredths_in (view value.now) }
{
    if let Some(text) = value.as_str() {
        return hundredths_of(text.as_bytes());
    }
    match value.as_float() {
        Some(number) => float_hundredths(number),
        None => whole_hundredths(value),
    }
}

/// A value of per cent as ten-thousandths, at most 10,000.
#[tactic(auto, unfolding(crate::specs::Values::chance_in))]
pub fn chance_in(value: &Value) -> Option<u16>
    ensures value { result ≡ chance_in (view value.now) }
    ensures within { IfSome result (λ n. n ≤ 10000) }
{
    let chance = hundredths_in(value)?;
    if chance > 10_000 {
        return None;
    }
    Some(chance as u16)
}
