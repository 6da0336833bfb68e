//! What a meter and the coordinator share in a joining: the random values that they were given, the octets of joining messages on
//! their way, and the words for what stands in the way of a packet.
//!
//! - [`RandomValues`] holds at most 8 random values in the order in which they were given: `give`, `oldest`, `drop_oldest`.
//! - [`push_up`] and [`push_down`] write the plain frame of a message, [`write_command`] the command that carries one over the mesh, and
//!   [`read_message`] and [`joining_command`] read them.
//! - [`dropped_packet`] and [`dropped_send`] give the word of the rules for each fault.
//!
//! Each call equals its definition in `node_rules`. No random value is drawn here and none is tested: that they can't be guessed is the
//! caller's. No memory is taken.
#![tactic(auto)]

mod messages;
mod random_values;
mod reasons;

pub use messages::{CommandBuf, command_length, push_down, push_up, read_message, write_command};
pub use random_values::RandomValues;
pub use reasons::{JoiningCommand, dropped_packet, dropped_send, joining_command};
