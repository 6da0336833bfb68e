//! The kinds of places.
ghost use Rattle.std.specs.Prelude.{◌≡◌};
ghost use Rattle.line_place.specs.Distances.{far};

use crate::{Grid, Scatter, Street, Tower};

/// How the nodes of a place stand to each other.
#[derive(Drop)]
pub enum Layout {
    /// One row of houses.
    InStreet(Street),
    /// Rows and columns.
    InGrid(Grid),
    /// A building with risers.
    InTower(Tower),
    /// Spots of their own.
    Scattered(Scatter),
}

impl Layout {
    /// How many steps past the nearest two nodes are apart, None where they do not hear each other.
    #[tactic(auto, unfolding(crate::specs::Distances::far))]
    pub fn far(&self, a: u32, b: u32) -> Option<u32>
        ensures { result ≡ far self.now a b }
    {
        match self {
            Layout::InStreet(street) => street.far(a, b),
            Layout::InGrid(grid) => grid.far(a, b),
            Layout::InTower(tower) => tower.far(a, b),
            Layout::Scattered(scatter) => scatter.far(a, b),
        }
    }
}
