//! Numbers that are no value of a type.
use thiserror::Error;

/// The number is none of the type's: no address of one node, no cost of a link, no index of a key.
#[derive(Clone, Copy, Debug, PartialEq, Eq, Error)]
#[error("the number is out of range")]
pub struct OutOfRange;
