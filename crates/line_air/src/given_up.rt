//! How many frames in a row from a node to another were given up.
ghost use Rattle.std.specs.Prelude.{◌≡◌, [], IfOk};
ghost use Rattle.line_air.specs.Counts.{breaks, counts_after, counts_without};

use std::alloc::{AllocError, Global};
use std::collections::BTreeMap;
use std::marker::Model;

/// How many frames in a row from a node to another were given up, where some were.
///
/// A contract sees the list of the counts, ordered by the two nodes.
#[derive(Drop)]
pub struct GivenUp {
    counts: BTreeMap<(u32, u32), u16>,
}

impl Model for GivenUp {
    ghost use Rattle.std.specs.Prelude.{List, ℕ};

    ghost Value = { List ((ℕ × ℕ) × ℕ) };

    ghost view = { λ g. g.counts.entries };
}

impl GivenUp {
    // No frame was given up.
    pub fn new(alloc: Global) -> GivenUp
        ensures { result ≡ [] }
    {
        GivenUp {
            counts: BTreeMap::new(alloc),
        }
    }

    // A frame came: those before it count no more.
    #[tactic(auto, unfolding(crate::specs::Counts::counts_without))]
    pub fn forget(&mut self, from: u32, to: u32)
        ensures { self.new ≡ counts_without self.old from to }
    {
        self.counts.remove(&(from, to));
    }

    // One frame more was given up. True where the link counts as broken, and counting begins anew.
    #[tactic(auto, unfolding(crate::specs::Counts::counts_after, crate::specs::Counts::breaks, crate::specs::Counts::count_of))]
    pub fn add(&mut self, from: u32, to: u32, break_after: u16) -> Result<bool, AllocError>
        ensures broke { IfOk result (λ broke. broke ≡ breaks break_after self.old from to) }
        ensures counts { IfOk result (λ broke. self.new ≡ counts_after break_after self.old from to) }
    {
        if break_after == 0 {
            return Ok(false);
        }
        let before = match self.counts.remove(&(from, to)) {
            Some(count) => count,
            None => 0,
        };
        if before.saturating_add(1) >= break_after {
            return Ok(true);
        }
        self.counts.insert((from, to), before + 1)?;
        Ok(false)
    }
}
