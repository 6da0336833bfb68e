//! What the nodes hold has room in their stores.
ghost use Rattle.line_world.specs.Soundness.{AreBelow, AreShort};

use crate::nodes::Nodes;

impl Nodes {
    /// The marks and ranks of each node have at most as many entries as slots, and its next counter is not past the stored limit.
    ///
    /// This changes nothing: its contract says what the type keeps. It reads a field, so that its proof sees that.
    pub fn short_tables(&self)
        ensures tables { AreShort self.now }
        ensures counters { AreBelow self.now }
    {
        let _count = self.meters.len();
    }
}
