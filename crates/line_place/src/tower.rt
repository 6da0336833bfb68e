//! A tower: risers, each with floors of flats.
ghost use Rattle.std.specs.Prelude.{◌≡◌, ◌<◌, ◌*◌, ltb};
ghost use Rattle.line_place.specs.Distances.{where_true, riser, floor, flats_far, tower_far};

use crate::street::apart;

/// A building whose coordinator feeds its risers from below. The meters are numbered riser after riser, floor after floor.
#[derive(Clone, Copy, Debug)]
pub struct Tower {
    /// How many floors a riser has.
    pub floors: u16,
    /// How many flats a floor of a riser has.
    pub flats: u16,
    /// How many floors on a frame is heard in its riser.
    pub reach: u16,
}

impl Tower {
    // The riser of a meter.
    #[tactic(auto, unfolding(crate::specs::Distances::riser))]
    fn riser(&self, node: u32) -> u32
        requires { 0 < self.now.flats * self.now.floors }
        ensures { result ≡ riser self.now node }
    {
        node.saturating_sub(1) / (u32::from(self.flats) * u32::from(self.floors))
    }

    // The floor of a meter.
    #[tactic(auto, unfolding(crate::specs::Distances::floor))]
    fn floor(&self, node: u32) -> u32
        requires { 0 < self.now.flats * self.now.floors }
        ensures { result ≡ floor self.now node }
    {
        node.saturating_sub(1) / u32::from(self.flats) % u32::from(self.floors)
    }

    // How far the flats of two meters are apart.
    #[tactic(auto, unfolding(crate::specs::Distances::flats_far))]
    fn flats_far(&self, a: u32, b: u32) -> Option<u32>
        requires { 0 < self.now.flats * self.now.floors }
        ensures { result ≡ flats_far self.now a b }
    {
        if self.riser(a) != self.riser(b) {
            return None;
        }
        let floors = apart(self.floor(a), self.floor(b));
        if floors > u32::from(self.reach) {
            return None;
        }
        Some(floors.saturating_sub(1))
    }

    // How far the coordinator is from the floor of a meter.
    fn from_below(&self, meter: u32) -> Option<u32>
        requires { 0 < self.now.flats * self.now.floors }
        ensures { result ≡ where_true (ltb (floor self.now meter) self.now.reach) (floor self.now meter) }
    {
        let floor = self.floor(meter);
        if floor >= u32::from(self.reach) {
            return None;
        }
        Some(floor)
    }

    /// How many floors past the next one two nodes are apart, None where they do not hear each other. Flats of one floor are as
    /// near as those of the next.
    #[tactic(auto, unfolding(crate::specs::Distances::tower_far))]
    pub fn far(&self, a: u32, b: u32) -> Option<u32>
        ensures { result ≡ tower_far self.now a b }
    {
        if u32::from(self.flats) * u32::from(self.floors) == 0 {
            return None;
        }
        if a == 0 {
            return self.from_below(b);
        }
        if b == 0 {
            return self.from_below(a);
        }
        self.flats_far(a, b)
    }
}
