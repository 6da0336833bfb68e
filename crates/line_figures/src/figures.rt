//! All that is counted in a run.
use crate::changes::Changes;
use crate::frames::FrameFigures;
use crate::joinings::Joinings;
use crate::readings::Readings;
use crate::words::WordCounts;
use std::alloc::Global;

/// All that is counted in a run.
#[derive(Drop)]
pub struct Figures {
    pub frames: FrameFigures,
    pub joinings: Joinings,
    pub readings: Readings,
    pub changes: Changes,
    pub answers: WordCounts,
    /// How often the power of a node came back.
    pub restarts: u64,
    /// How long frames were on the air, in microseconds.
    pub on_air: u64,
}

impl Figures {
    /// Nothing was counted.
    pub fn new(alloc: Global) -> Figures {
        Figures {
            frames: FrameFigures::new(),
            joinings: Joinings::new(alloc),
            readings: Readings::new(alloc),
            changes: Changes::new(alloc),
            answers: WordCounts::new(alloc),
            restarts: 0,
            on_air: 0,
        }
    }

    /// The power of a node came back.
    pub fn restarted(&mut self) {
        self.restarts = self.restarts.saturating_add(1);
    }

    /// A frame was on the air for this many microseconds.
    pub fn was_on_air(&mut self, micros: u64) {
        self.on_air = self.on_air.saturating_add(micros);
    }
}
