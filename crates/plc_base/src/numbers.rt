//! Numbers in octets.
ghost use Rattle.byteorder.specs.Endian.{big_bytes, big_number, little_bytes, little_number};
ghost use Rattle.plc_base.specs.Numbers.{HasOneSpelling};

/// The octets of a number that was read are those that it was read from, for numbers of 2 and of 4 octets in both orders.
///
/// `byteorder` says it the other way round, of a number that was written. Every reader that has one spelling for a value
/// rests on this law.
pub fn a_number_has_the_octets_it_was_read_from()
    ensures big_two { HasOneSpelling big_bytes big_number 2 }
    ensures big_four { HasOneSpelling big_bytes big_number 4 }
    ensures little_two { HasOneSpelling little_bytes little_number 2 }
    ensures little_four { HasOneSpelling little_bytes little_number 4 }
{}
