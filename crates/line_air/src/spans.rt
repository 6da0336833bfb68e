//! How long the first frame of a queue is on the air.
ghost use Rattle.std.specs.Prelude.{◌≡◌, ◌≤◌};
ghost use Rattle.line_air.specs.Turns.{missing, sending_to_one, sending_of};

use crate::frame::Waiting;
use crate::times::{GAP, HEAD, airtime};
use crate::{Rate, Target};

/// A frame that goes on the air.
#[derive(Clone, Copy, Debug)]
pub struct Sending {
    /// How long it is there, with gaps and acknowledgements, in microseconds.
    pub micros: u64,
    /// How many segments it has.
    pub segments: u32,
    /// How many of them are sent now.
    pub left: u32,
}

// How many segments of a frame are missing: all before it is sent.
fn missing(left: u32, segments: u32) -> u32
    ensures value { result ≡ missing left segments }
    ensures bound { result ≤ segments }
{
    if left == 0 {
        return segments;
    }
    left.min(segments)
}

// A frame to one node: each missing segment is sent and acknowledged on its own.
#[tactic(auto, unfolding(crate::specs::Turns::sending_to_one), using(crate::proofs::Quotients::product_long))]
fn sending_to_one(rate: Rate, first: Waiting) -> Sending
    ensures { result ≡ sending_to_one rate first }
{
    let span = airtime(first.frame.octets, rate);
    let left = missing(first.left, span.segments);
    let one = span.micros / u64::from(span.segments) + GAP + HEAD;
    Sending {
        micros: one * u64::from(left),
        segments: span.segments,
        left,
    }
}

// A frame to all is sent once.
#[tactic(auto, unfolding(crate::specs::Turns::sending_of))]
pub(crate) fn sending_of(rate: Rate, first: Waiting) -> Sending
    ensures { result ≡ sending_of rate first first.frame.target }
{
    match first.frame.target {
        Target::All => {
            let span = airtime(first.frame.octets, Rate::Robo);
            Sending {
                micros: span.micros,
                segments: span.segments,
                left: span.segments,
            }
        }
        Target::Node(_) => sending_to_one(rate, first),
        Target::Nobody => sending_to_one(rate, first),
    }
}
