//! The one refusal of an open.
use thiserror::Error;

/// The tag is not the one that the key, the nonce, the header and the text have.
#[derive(Clone, Copy, Debug, PartialEq, Eq, Error)]
#[error("the tag does not match")]
pub struct BadTag;
