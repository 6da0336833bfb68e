//! A text that is held until it is known how the run of its script ended.
ghost use Rattle.std.specs.Prelude.{◌≡◌, Some, []};
ghost use Rattle.line_view.specs.HeldTexts.{held};

use plc_base::{Failed, Sink};
use std::alloc::Global;

/// What was written so far. A write fails only where memory runs out.
#[derive(Drop)]
pub struct HeldText {
    octets: Vec<u8>,
    faults: u64,
}

impl HeldText {
    /// Nothing so far. It takes no memory.
    pub fn new(alloc: Global) -> HeldText
        ensures { (⟦<HeldText as Sink>⟧.state result).taken ≡ Some [] }
    {
        HeldText {
            octets: Vec::new(alloc),
            faults: 0,
        }
    }

    /// What was written.
    pub fn octets(&self) -> &[u8]
        ensures { (⟦<HeldText as Sink>⟧.state self.now).taken ≡ Some result.now }
    {
        self.octets.as_slice()
    }
}

impl Sink for HeldText {
    ghost state = { λ h. held h.octets.items h.faults };

    fn write(&mut self, piece: &[u8]) -> Result<usize, Failed> {
        let Ok(()) = self.octets.extend_from_slice(piece) else {
            self.faults = self.faults.saturating_add(1);
            return Err(Failed);
        };
        Ok(piece.len())
    }
}
