//! Times of a run, in microseconds.
ghost use Rattle.std.specs.Prelude.{◌≡◌};
ghost use Rattle.line_owner.specs.Times.{micros, later};

/// Seconds in microseconds, at most 2^64 - 1.
#[tactic(auto, unfolding(crate::specs::Times::micros))]
pub fn micros(seconds: u64) -> u64
    ensures { result ≡ micros seconds }
{
    seconds.saturating_mul(1_000_000)
}

/// A time this many microseconds on, at most 2^64 - 1.
#[tactic(auto, unfolding(crate::specs::Times::later))]
pub fn later(now: u64, more: u64) -> u64
    ensures { result ≡ later now more }
{
    now.saturating_add(more)
}
