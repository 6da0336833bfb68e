//! A street: one row of houses.
ghost use Rattle.std.specs.Prelude.{◌≡◌};
ghost use Rattle.line_place.specs.Distances.{apart, house, street_far};

/// A row of houses, each of which hears the next `reach` on both sides.
#[derive(Clone, Copy, Debug)]
pub struct Street {
    /// How many meters there are.
    pub meters: u16,
    /// How many houses on a frame is heard.
    pub reach: u16,
    /// Whether the coordinator stands in the middle of the row; it stands at its end otherwise.
    pub middle: bool,
}

// How far two numbers are apart.
pub(crate) fn apart(a: u32, b: u32) -> u32
    ensures { result ≡ apart a b }
{
    if a < b { b - a } else { a - b }
}

impl Street {
    // The house of a node.
    #[tactic(auto, unfolding(crate::specs::Distances::house))]
    fn house(&self, node: u32) -> u32
        ensures { result ≡ house self.now node }
    {
        let half = u32::from(self.meters / 2);
        if !self.middle {
            return node;
        }
        if node == 0 {
            return half;
        }
        if node <= half { node - 1 } else { node }
    }

    /// How many houses past the next one two nodes are apart, None where they do not hear each other.
    #[tactic(auto, unfolding(crate::specs::Distances::street_far))]
    pub fn far(&self, a: u32, b: u32) -> Option<u32>
        ensures { result ≡ street_far self.now a b }
    {
        let houses = apart(self.house(a), self.house(b));
        if houses == 0 {
            return None;
        }
        if houses > u32::from(self.reach) {
            return None;
        }
        Some(houses - 1)
    }
}
