//! Why a ring or a book did not change.
use thiserror::Error;

/// Why the ring did not change.
#[derive(Clone, Copy, Debug, PartialEq, Eq, Error)]
pub enum RingFault {
    /// No key is held at the index.
    #[error("no key is held at this index")]
    NotHeld,
    /// The put of the ring failed.
    #[error("the ring was not stored")]
    Store,
}

/// Why the book did not change.
#[derive(Clone, Copy, Debug, PartialEq, Eq, Error)]
pub enum BookFault {
    /// The EUI is new, and 999 meters stand in the book.
    #[error("there is no room for another meter")]
    MetersFull,
    /// No allowed entry of the EUI stands in the book.
    #[error("the meter is not allowed")]
    NotAllowed,
    /// The put of the entry failed.
    #[error("the entry was not stored")]
    Store,
}
