//! A frame on its way to the air.

/// Who a frame is meant for.
#[derive(Clone, Copy, Debug)]
pub enum Target {
    /// Every node that hears it. It is sent once, and not acknowledged.
    All,
    /// One node.
    Node(u32),
    /// A node that is not on the line: nobody acknowledges it.
    Nobody,
}

/// What the air knows of a frame.
#[derive(Clone, Copy, Debug)]
pub struct Frame {
    /// The number of its flight.
    pub flight: u32,
    /// How many octets it has.
    pub octets: u16,
    /// Who it is meant for.
    pub target: Target,
    /// Whether it counts where frames in a row are given up: plain frames of a joining do not.
    pub counts: bool,
}

/// A frame that waits in the queue of its sender.
#[derive(Clone, Copy, Debug)]
pub struct Waiting {
    pub frame: Frame,
    /// How often it was sent in vain.
    pub tries: u16,
    /// The exponent of its random wait.
    pub be: u8,
    /// How often it found the line busy since it was last sent.
    pub busy: u16,
    /// What it waits more before it is first sent, in microseconds.
    pub held: u32,
    /// Whether it came to its target already.
    pub came: bool,
    /// How many segments its target has not yet; 0 before it is sent.
    pub left: u32,
}
