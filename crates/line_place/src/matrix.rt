//! Links that were measured.
use crate::Link;

/// A link of a measured place, in one direction.
#[derive(Clone, Copy, Debug)]
pub struct MeasuredLink {
    /// The node that sends.
    pub from: u32,
    /// What its frames meet.
    pub link: Link,
}
