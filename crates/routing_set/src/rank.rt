//! How good a way to an address is.
/// How good a way to an address is: the number of the route message, which its origin counted up, and the cost of the way
/// (R_seq_num and R_metric of a Routing Tuple of LOADng).
#[derive(Clone, Copy, Debug, Default, PartialEq, Eq)]
pub struct Rank {
    /// The number of the route message.
    pub number: u16,
    /// The cost of the way, the sum of its links' costs.
    pub cost: u16,
}
