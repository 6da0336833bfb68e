//! How long a frame is on the air.
ghost use Rattle.std.specs.Prelude.{◌≡◌, ◌<◌, ◌≤◌, ◌^◌};
ghost use Rattle.line_air.specs.Airtime.{twice_bits, parity, longest, segment, airtime};

use crate::Rate;

/// One symbol with its guard, in microseconds.
pub const SYMBOL: u64 = 695;

/// What precedes the data of each segment: 6.08 ms of preamble and 13 symbols of control.
pub const HEAD: u64 = 6_080 + 13 * SYMBOL;

/// One slot of the random wait: two symbols.
pub const SLOT: u64 = 2 * SYMBOL;

/// The gap before an acknowledgement: ten symbols.
pub const GAP: u64 = 10 * SYMBOL;

/// How long the line must be quiet before a wait begins: eight symbols.
pub const QUIET: u64 = 8 * SYMBOL;

/// How long a frame is on the air, and in how many segments.
#[derive(Clone, Copy, Debug)]
pub struct Span {
    /// In microseconds, without gaps and acknowledgements.
    pub micros: u64,
    /// At least 1.
    pub segments: u32,
}

impl Rate {
    // Twice the bits of one symbol: 36 carriers, half of the bits are the code's.
    fn twice_bits(self) -> u64
        ensures value { result ≡ twice_bits self }
        ensures low { 9 ≤ result }
        ensures high { result ≤ 108 }
    {
        match self {
            Rate::Robo => 9,
            Rate::Dbpsk => 36,
            Rate::Dqpsk => 72,
            Rate::D8psk => 108,
        }
    }

    // The octets of parity of a segment.
    fn parity(self) -> u64
        ensures value { result ≡ parity self }
        ensures high { result ≤ 16 }
    {
        match self {
            Rate::Robo => 8,
            Rate::Dbpsk => 16,
            Rate::Dqpsk => 16,
            Rate::D8psk => 16,
        }
    }

    // The most octets of a segment.
    fn longest(self) -> u64
        ensures value { result ≡ longest self }
        ensures low { 133 ≤ result }
        ensures high { result ≤ 235 }
    {
        match self {
            Rate::Robo => 133,
            Rate::Dbpsk => 235,
            Rate::Dqpsk => 235,
            Rate::D8psk => 235,
        }
    }

    // How long a segment of this many octets is on the air.
    #[tactic(auto, unfolding(crate::specs::Airtime::segment), using(crate::proofs::Quotients::quotients))]
    fn segment(self, octets: u64) -> u64
        requires { octets ≤ 235 }
        ensures value { result ≡ segment self octets }
        ensures bound { result < 2 ^ 19 }
    {
        let twice_bits = 2 * ((octets + self.parity()) * 8 + 6);
        let symbols = (twice_bits + self.twice_bits() - 1) / self.twice_bits();
        HEAD + symbols * SYMBOL
    }
}

/// How long a frame of this many octets is on the air. Two octets more are its check sum.
#[tactic(auto, unfolding(crate::specs::Airtime::airtime), using(crate::proofs::Quotients::quotients))]
pub fn airtime(octets: u16, rate: Rate) -> Span
    ensures span { result ≡ airtime rate octets }
    ensures some { 0 < result.segments }
    ensures few { result.segments < 2 ^ 10 }
    ensures short { result.micros < 2 ^ 29 }
{
    let all = u64::from(octets) + 2;
    let longest = rate.longest();
    let whole = all / longest;
    let rest = all % longest;
    let micros = whole * rate.segment(longest);
    if rest == 0 {
        return Span {
            micros,
            segments: whole as u32,
        };
    }
    Span {
        micros: micros + rate.segment(rest),
        segments: whole as u32 + 1,
    }
}
