//! What can be set of the air.

/// How bits are sent. Frames to all are always sent in ROBO.
#[derive(Clone, Copy, Debug)]
pub enum Rate {
    /// Differential phases of two, each bit four times.
    Robo,
    /// Differential phases of two.
    Dbpsk,
    /// Differential phases of four.
    Dqpsk,
    /// Differential phases of eight.
    D8psk,
}

/// What can be set of the air.
#[derive(Clone, Copy, Debug)]
pub struct Settings {
    /// How frames to one node are sent.
    pub rate: Rate,
    /// How often a frame to one node is sent again where no acknowledgement comes.
    pub repeats: u16,
    /// After how many frames in a row to one node that were given up the link counts as broken; 0 for never.
    pub break_after: u16,
    /// How often a frame finds the line busy before it is dropped.
    pub backoffs: u16,
    /// The least exponent of the random wait: 2 to that power slots.
    pub min_be: u8,
    /// The largest exponent of the random wait.
    pub max_be: u8,
    /// Up to this many microseconds a frame to all waits more, before it is sent.
    pub jitter: u32,
    /// How much of the loss of the way back an acknowledgement meets, in per cent.
    pub ack_loss: u16,
    /// Whether a frame that is sent again though it came is handed on again.
    pub duplicates: bool,
    /// Whether nodes that a frame is not meant for are handed it too.
    pub overhear: bool,
    /// Whether frames that overlap disturb each other.
    pub collisions: bool,
}
