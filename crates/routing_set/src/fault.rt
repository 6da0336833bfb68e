//! What becomes of an offer, and why no number is given out.
use thiserror::Error;

/// What became of an offer.
#[derive(Clone, Copy, Debug, PartialEq, Eq)]
pub enum Offered {
    /// It beat the rank of its address: it is kept, and the route is valid.
    Better,
    /// It did not beat the rank of its address. Nothing has changed.
    NotBetter,
}

/// Why an offer that is better was not taken.
#[derive(Clone, Copy, Debug, PartialEq, Eq, Error)]
pub enum OfferFault {
    /// No rank is kept for the address, 64 are kept, and each has a fresh route ([`crate::ROUTE_FRESH_TIME`]).
    #[error("there is no room for another rank")]
    RoutesFull,
    /// The put of the floors or of the rank failed.
    #[error("the rank was not stored")]
    Store,
}

/// Why no number was given out.
#[derive(Clone, Copy, Debug, PartialEq, Eq, Error)]
pub enum NumberFault {
    /// The last number was 65,535.
    #[error("every number has been given out")]
    SeqSpent,
    /// The put of the new limit failed.
    #[error("the limit was not stored")]
    Store,
}
