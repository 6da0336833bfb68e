//! The summary of a run.
use crate::changes::ChangeFigures;
use crate::figures::Figures;
use crate::frames::FrameFigures;
use crate::readings::HopFigures;
use crate::spread::Spread;
use crate::words::WordCount;
use serde::Serialize;
use std::alloc::{AllocError, Global};

/// The line that was simulated.
#[derive(Clone, Copy, Debug)]
pub struct Line<'a> {
    pub title: &'a str,
    pub seed: u64,
    pub meters: u64,
    /// How many links there are, each in one direction.
    pub links: u64,
}

/// How the run ended.
#[derive(Clone, Copy, Debug)]
pub struct Ending {
    /// Whether it went on to the end of its time.
    pub whole: bool,
    /// When it ended, in microseconds.
    pub at: u64,
    pub events: u64,
    pub flights: u64,
    pub forged: u64,
    /// How many meters have a ring.
    pub joined: u64,
}

#[derive(Drop, Debug, Serialize)]
struct Summary<'a> {
    title: &'a str,
    seed: u64,
    meters: u64,
    links: u64,
    whole: bool,
    until_s: u64,
    events: u64,
    flights: u64,
    forged: u64,
    joined: u64,
    join_tries: u64,
    join_ms: Spread,
    readings: u64,
    came: u64,
    known: u64,
    tries: u64,
    came_ms: Spread,
    /// Hundredths of a hop, on average.
    hops_hundredths: Option<u64>,
    most_hops: u32,
    by_hops: &'a [HopFigures],
    restarts: u64,
    air_ms: u64,
    frames_sent: u64,
    /// How often another frame disturbed a frame to one node there.
    collisions: u64,
    frames: &'a FrameFigures,
    changes: &'a [ChangeFigures],
    answers: Vec<WordCount>,
}

// Hundredths of a quotient, None of nothing.
fn hundredths(sum: u64, count: u64) -> Option<u64> {
    if count == 0 {
        return None;
    }
    Some(sum.saturating_mul(100) / count)
}

impl Figures {
    /// The summary as one line of JSON, without a line feed.
    pub fn summary(
        &mut self,
        alloc: Global,
        line: &Line<'_>,
        ending: &Ending,
    ) -> Result<String, AllocError> {
        let by_hops = self.readings.by_hops(alloc)?;
        let summary = Summary {
            title: line.title,
            seed: line.seed,
            meters: line.meters,
            links: line.links,
            whole: ending.whole,
            until_s: ending.at / 1_000_000,
            events: ending.events,
            flights: ending.flights,
            forged: ending.forged,
            joined: ending.joined,
            join_tries: self.joinings.tries,
            join_ms: Spread::of(&mut self.joinings.took)?,
            readings: self.readings.count(),
            came: self.readings.came,
            known: self.readings.known,
            tries: self.readings.tries,
            came_ms: self.readings.came_ms(alloc)?,
            hops_hundredths: hundredths(self.readings.hops, self.readings.came),
            most_hops: self.readings.most_hops,
            by_hops: by_hops.as_slice(),
            restarts: self.restarts,
            air_ms: self.on_air / 1_000,
            frames_sent: self.frames.sent.all(),
            collisions: self.frames.collision.all(),
            frames: &self.frames,
            changes: self.changes.changes.as_slice(),
            answers: self.answers.list(alloc)?,
        };
        match serde_json::to_string(alloc, &summary) {
            Ok(text) => Ok(text),
            Err(_) => Err(AllocError),
        }
    }
}
