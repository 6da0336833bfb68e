//! How numbers are spread.
use serde::Serialize;
use std::alloc::AllocError;

/// The median, the number that 95 of 100 do not pass, and the greatest; None of no numbers.
#[derive(Drop, Debug, Serialize)]
pub struct Spread {
    pub median: Option<u64>,
    pub most: Option<u64>,
    pub last: Option<u64>,
}

// The number that stands this many hundredths of the way up.
fn at(numbers: &[u64], hundredths: usize) -> Option<u64> {
    let place = numbers.len().saturating_mul(hundredths) / 100;
    numbers
        .get(place.min(numbers.len().saturating_sub(1)))
        .copied()
}

impl Spread {
    /// Of these numbers, which are sorted for it.
    pub(crate) fn of(numbers: &mut Vec<u64>) -> Result<Spread, AllocError> {
        numbers.sort()?;
        Ok(Spread {
            median: at(numbers.as_slice(), 50),
            most: at(numbers.as_slice(), 95),
            last: at(numbers.as_slice(), 100),
        })
    }
}
