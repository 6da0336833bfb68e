//! Why a broadcast is not numbered, or not admitted.
use thiserror::Error;

/// Why no number was given out, or why a broadcast was not admitted.
#[derive(Clone, Copy, Debug, PartialEq, Eq, Error)]
pub enum LogFault {
    /// The last number, 4,294,967,295, is never given out, and it is the next.
    #[error("every number has been given out")]
    NumberSpent,
    /// The put of the new limit, or of the mark, failed.
    #[error("the limit or the mark was not stored")]
    Store,
    /// The origin is held, and the number is not above its mark.
    #[error("the number is not above the origin's mark")]
    Old,
    /// The origin is new, and 32 origins are held.
    #[error("there is no room for another origin")]
    OriginsFull,
}
