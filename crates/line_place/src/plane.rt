//! Nodes on a plane: a grid, or spots that are drawn.
ghost use Rattle.std.specs.Prelude.{◌≡◌, ◌<◌, ◌^◌, ◌*◌, ◌/◌, ◌%◌};
ghost use Rattle.line_place.specs.Distances.{apart, square, units, plane_far, grid_far, spots_far};

use crate::street::apart;
use std::marker::Model;

/// Meters in rows, from the coordinator in the corner on. Neighbours in a row or a column are one unit apart.
#[derive(Clone, Copy, Debug)]
pub struct Grid {
    /// How many nodes a row has.
    pub wide: u16,
    /// How many units a frame is heard.
    pub reach: u16,
}

/// A spot on the plane, in hundredths of a unit.
#[derive(Clone, Copy, Debug)]
pub struct Spot {
    pub x: u32,
    pub y: u32,
}

/// Nodes at spots of their own.
///
/// A contract sees the spots in the order of the nodes, and the reach.
#[derive(Drop)]
pub struct Scatter {
    spots: Vec<Spot>,
    reach: u16,
}

impl Model for Scatter {
    ghost use Rattle.line_place.specs.Spread.{Spread};

    ghost Value = { Spread };

    ghost view = { λ s. record { spots = s.spots.items; reach = s.reach } };
}

// The square of the distance between two spots.
#[tactic(auto, unfolding(crate::specs::Distances::square))]
fn square(a: Spot, b: Spot) -> u128
    ensures value { result ≡ square a.x a.y b.x b.y }
    ensures small { result < 2 ^ 65 }
{
    let across = u128::from(apart(a.x, b.x));
    let along = u128::from(apart(a.y, b.y));
    across * across + along * along
}

// How many whole units, up to the reach, are within the square of a distance.
#[tactic(auto, unfolding(crate::specs::Distances::units))]
fn units(reach: u16, square: u128) -> u32
    ensures { result ≡ units reach square }
{
    let mut units = 0;
    for k in 0..u32::from(reach) {
        let unit = u128::from(k) + 1;
        if unit * unit * 10_000 <= square {
            units += 1;
        }
    }
    units
}

// How many units past two a distance is, None where it is past the reach.
#[tactic(auto, unfolding(crate::specs::Distances::plane_far))]
fn plane_far(reach: u16, square: u128) -> Option<u32>
    ensures { result ≡ plane_far reach square }
{
    let reach_units = u128::from(reach);
    if square > reach_units * reach_units * 10_000 {
        return None;
    }
    Some(units(reach, square).saturating_sub(1))
}

impl Grid {
    // The row and the column of a node, in whole units.
    fn spot(&self, node: u32) -> Spot
        requires { 0 < self.now.wide }
        ensures { result ≡ record { x = node % self.now.wide; y = node / self.now.wide } }
    {
        let wide = u32::from(self.wide);
        Spot {
            x: node % wide,
            y: node / wide,
        }
    }

    /// How many units past two the nodes are apart, None where they do not hear each other.
    #[tactic(auto, unfolding(crate::specs::Distances::grid_far))]
    pub fn far(&self, a: u32, b: u32) -> Option<u32>
        ensures { result ≡ grid_far self.now a b }
    {
        if self.wide == 0 {
            return None;
        }
        plane_far(self.reach, square(self.spot(a), self.spot(b)) * 10_000)
    }
}

impl Scatter {
    /// Nodes at these spots, that of node 0 first, each of which hears `reach` units.
    pub fn new(spots: Vec<Spot>, reach: u16) -> Scatter
        ensures { result ≡ record { spots = spots.items; reach = reach } }
    {
        Scatter { spots, reach }
    }

    /// How many units past two the nodes are apart, None where they do not hear each other or one has no spot.
    #[tactic(auto, unfolding(crate::specs::Distances::spots_far))]
    pub fn far(&self, a: u32, b: u32) -> Option<u32>
        ensures { result ≡ spots_far self.now a b }
    {
        let one = *self.spots.get(a as usize)?;
        let other = *self.spots.get(b as usize)?;
        plane_far(self.reach, square(one, other))
    }
}
