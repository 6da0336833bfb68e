//! Numbers and addresses in a text.
ghost use Rattle.std.specs.Prelude.{◌≡◌, ◌++◌, OnOk, decimal, string_bytes};
ghost use Rattle.frame_facts.specs.Words.{short_word};

use itoa::Buffer;
use std::alloc::{AllocError, Global};

/// Appends a number in decimal.
pub fn push_number(text: &mut String, number: usize) -> Result<(), AllocError>
    ensures { OnOk result (string_bytes text.new ≡ string_bytes text.old ++ decimal number) }
{
    let mut digits = Buffer::new();
    text.push_str(digits.format(number))
}

/// Appends a short address, as 4 digits in hexadecimal.
pub fn push_short(text: &mut String, alloc: Global, address: u16) -> Result<(), AllocError>
    ensures { OnOk result (string_bytes text.new ≡ string_bytes text.old ++ short_word address) }
{
    let digits = hex::encode(alloc, address.to_be_bytes().as_slice())?;
    text.push_str(digits.as_str())
}
