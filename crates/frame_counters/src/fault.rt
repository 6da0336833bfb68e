//! Why a counter is not given out, or not admitted.
use thiserror::Error;

/// Why no counter was given out.
#[derive(Clone, Copy, Debug, PartialEq, Eq, Error)]
pub enum CounterFault {
    /// The last counter, 4,294,967,295, is never given out, and it is the next.
    #[error("every counter has been given out")]
    Spent,
    /// The put of the new limit failed.
    #[error("the limit was not stored")]
    Store,
}

/// Why a received counter was not admitted.
#[derive(Clone, Copy, Debug, PartialEq, Eq, Error)]
pub enum PeerFault {
    /// The sender is held, and the counter is not above its mark.
    #[error("the counter is not above the sender's mark")]
    Replayed,
    /// The sender is new, and 64 senders are held.
    #[error("there is no room for another sender")]
    PeersFull,
    /// The put of the mark failed.
    #[error("the mark was not stored")]
    Store,
}
