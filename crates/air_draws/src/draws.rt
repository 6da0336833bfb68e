//! The draws of one purpose.
ghost use Rattle.std.specs.Prelude.{◌≡◌, ◌*◌, ◌/◌, ◌^◌, ◌<◌, ◌≤◌, true, false};
ghost use Rattle.air_draws.specs.Draws.{stream_of, first, word, after, below, happens, key_octets, after_key};

use rand_core::utils::NextWord;
use rand_pcg::Pcg32;
use std::marker::Model;

/// What a draw is for. Each purpose has a stream of its own.
#[derive(Clone, Copy, Debug)]
pub enum Purpose {
    /// Where the meters stand.
    Place,
    /// Which frames and acknowledgements are lost.
    Loss,
    /// How long a sender waits before it sends.
    Backoff,
    /// When a meter joins, sends and tries again.
    Times,
    /// The keys of the nodes.
    Keys,
    /// Which nodes a failure meets.
    Failures,
    /// Which frames an attacker takes.
    Attack,
}

impl Purpose {
    // The number of its stream.
    fn stream(self) -> u64
        ensures { result ≡ stream_of self }
    {
        match self {
            Purpose::Place => 1,
            Purpose::Loss => 2,
            Purpose::Backoff => 3,
            Purpose::Times => 4,
            Purpose::Keys => 5,
            Purpose::Failures => 6,
            Purpose::Attack => 7,
        }
    }
}

/// The draws of one purpose.
///
/// A contract sees the state of the generator.
#[derive(Drop)]
pub struct Draws {
    generator: Pcg32,
}

impl Model for Draws {
    ghost use Rattle.rand_pcg.specs.Lcg.{Lcg};

    ghost Value = { Lcg };

    ghost view = { λ a. a.generator };
}

impl Draws {
    /// The stream of a purpose before its first draw.
    pub fn new(seed: u64, purpose: Purpose) -> Draws
        ensures { result ≡ first seed purpose }
    {
        Draws {
            generator: Pcg32::new(seed, purpose.stream()),
        }
    }

    /// The next word of the stream.
    pub fn word(&mut self) -> u32
        ensures value { result ≡ word self.old }
        ensures after { self.new ≡ after self.old }
    {
        self.generator.next_word()
    }

    /// A number below `bound`, and 0 where `bound` is 0. It takes one word, so some numbers come a little more often: by less
    /// than `bound` of 2^32 words.
    pub fn below(&mut self, bound: u32) -> u32
        ensures value { result ≡ below bound self.old }
        ensures after { self.new ≡ after self.old }
        ensures within { 0 < bound → result < bound }
    {
        let word = self.word();
        scaled(word, bound)
    }

    /// Whether something happens whose chance is `chance` ten-thousandths: never at 0, always from 10,000 on.
    pub fn happens(&mut self, chance: u32) -> bool
        ensures value { result ≡ happens chance self.old }
        ensures after { self.new ≡ after self.old }
        ensures never { chance ≡ 0 → result ≡ false }
        ensures always { 10000 ≤ chance → result ≡ true }
    {
        self.below(10_000) < chance
    }

    /// A key of 16 octets, which takes four words.
    pub fn key(&mut self) -> [u8; 16]
        ensures value { result ≡ key_octets self.old }
        ensures after { self.new ≡ after_key self.old }
    {
        let [a, b, c, d] = self.word().to_be_bytes();
        let [e, f, g, h] = self.word().to_be_bytes();
        let [i, j, k, l] = self.word().to_be_bytes();
        let [m, n, o, p] = self.word().to_be_bytes();
        [a, b, c, d, e, f, g, h, i, j, k, l, m, n, o, p]
    }
}

// A word as a number below `bound`.
fn scaled(word: u32, bound: u32) -> u32
    ensures value { result ≡ word * bound / 2 ^ 32 }
    ensures within { 0 < bound → result < bound }
{
    (u64::from(word) * u64::from(bound) >> 32) as u32
}
