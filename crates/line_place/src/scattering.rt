//! Spots that are drawn until every node is reached.
ghost use Rattle.std.specs.Prelude.{◌≡◌, IfOk, OnOk};
ghost use Rattle.line_place.specs.ScatteredSpots.{spots_after, drawn_spots, drawn_rows, IsScattering};

use crate::{Costs, Layout, Losses, Place, Scatter, Spot};
use air_draws::Draws;
use std::alloc::{AllocError, Global};

/// How often spots are drawn at most.
pub const MOST_TRIES: u32 = 1_000;

/// Where meters are scattered: the coordinator stands in the middle.
#[derive(Clone, Copy, Debug)]
pub struct Field {
    /// How many meters there are.
    pub meters: u16,
    /// How many units the field is wide.
    pub wide: u16,
    /// How many units the field is high.
    pub high: u16,
    /// How many units a frame is heard.
    pub reach: u16,
}

/// What came of scattering meters.
#[derive(Drop)]
pub enum Scattering {
    /// A place in which a path leads to every meter.
    Connected(Place),
    /// No such place was drawn in 1,000 tries.
    Apart,
}

impl Field {
    // The spots of all nodes: the coordinator in the middle, then each meter where it is drawn.
    #[tactic(auto, unfolding(crate::specs::ScatteredSpots::spots_after, crate::specs::ScatteredSpots::drawn_spots, crate::specs::ScatteredSpots::drawn_spot))]
    fn spots(&self, alloc: Global, draws: &mut Draws) -> Result<Vec<Spot>, AllocError>
        ensures spots { IfOk result (λ spots. spots.items ≡ drawn_spots self.now draws.old self.now.meters) }
        ensures after { OnOk result (draws.new ≡ spots_after draws.old self.now.meters) }
    {
        let wide = u32::from(self.wide) * 100;
        let high = u32::from(self.high) * 100;
        let mut spots = Vec::new(alloc);
        spots.push(Spot {
            x: wide / 2,
            y: high / 2,
        })?;
        for meter in 0..u32::from(self.meters) {
            let x = draws.below(wide);
            let y = draws.below(high);
            spots.push(Spot { x, y })?;
        }
        Ok(spots)
    }

    /// Scatters the meters over the field until a path leads from the coordinator to each, at most 1,000 times.
    pub fn scatter(
        &self,
        alloc: Global,
        draws: &mut Draws,
        losses: &Losses,
        costs: &Costs,
    ) -> Result<Scattering, AllocError>
        ensures { IfOk result (λ scattered. IsScattering self.now losses.now costs.now draws.old scattered draws.new) }
    {
        for tries in 0..MOST_TRIES {
            let place = self.one_try(alloc, draws, losses, costs)?;
            if place.is_connected(alloc)? {
                return Ok(Scattering::Connected(place));
            }
        }
        Ok(Scattering::Apart)
    }

    // The place of spots that are drawn once.
    #[tactic(auto, unfolding(crate::specs::ScatteredSpots::drawn_rows))]
    fn one_try(
        &self,
        alloc: Global,
        draws: &mut Draws,
        losses: &Losses,
        costs: &Costs,
    ) -> Result<Place, AllocError>
        ensures rows { IfOk result (λ place. place ≡ drawn_rows self.now losses.now costs.now draws.old) }
        ensures after { OnOk result (draws.new ≡ spots_after draws.old self.now.meters) }
    {
        let layout = Layout::Scattered(Scatter::new(self.spots(alloc, draws)?, self.reach));
        Place::on(alloc, u32::from(self.meters) + 1, &layout, losses, costs)
    }
}
