//! The check of a cell: a residue, which shows each change within one octet.
ghost use Rattle.std.specs.Prelude.{◌≡◌, ◌<◌, ◌^◌};
ghost use Rattle.flash_keeper.specs.Check.{residue_of, check_of};

/// The modulus of a check: a prime. With it each change of up to four bits of a cell's slot, length, octets and check is seen, each change
/// within 31 bits of the octets that follow one another, and of others all but one in 4 * 10^9.
pub const MODULUS: u64 = 4_294_967_197;

// The residue of octets as the digits of a number, after what stands before them.
fn residue_of(before: u32, octets: &[u8]) -> u64
    ensures value { result ≡ residue_of before octets.now }
    ensures range { result < 2 ^ 32 }
{
    let mut residue = u64::from(before);
    for octet in octets {
        residue = (residue * 256 + u64::from(*octet)) % MODULUS;
    }
    residue
}

/// The check of 65 times a slot and a length, and of the octets of a cell.
#[tactic(auto, unfolding(crate::specs::Check::check_of))]
pub fn check_of(low: u32, octets: &[u8]) -> u32
    ensures value { result ≡ check_of low octets.now }
{
    ((residue_of(low, octets) << 32) % MODULUS) as u32
}
