//! What the owner is made with.

use plan_tables::{Care, Joining, Readings, Rotation};

/// What the owner is to do.
#[derive(Clone, Copy, Debug)]
pub struct Settings {
    /// How long the run is, in seconds.
    pub length: u64,
    pub joining: Joining,
    pub readings: Readings,
    pub rotation: Rotation,
    pub care: Care,
}
