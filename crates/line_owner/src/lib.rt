//! The owner of a simulated line: what a real owner would do, as a machine over plain values.
//!
//! [`Owner::turn`] carries out a [`Task`], `answered` goes on after a [`Command`] by its outcome, and `noticed` after what frames brought (a [`Notice`]).
//! Each leaves the owner as its definition says and answers [`Acts`]: commands to step, tasks to put on the calendar or to do at once, remarks. Whoever runs
//! the line carries them out in their order, and whatever an act leads to at once before the acts that follow it. The first task is `Task::Make(0)`.
//!
//! The owner knows what a real one knows: how its own commands ended, what came up, which joinings are done; and it knows at once which meters have power
//! and have taken their keys, where it picks agents. [`Members`] are the nodes as it knows them, [`Asked`] the readings that were tried; both answer for a
//! node or a reading that they do not have. A [`Message`] is a datagram between the coordinator and a meter, which is written to octets and read from them.
//! [`micros`] and [`later`] are times in microseconds, which stop at 2^64 - 1.
//!
//! What its calls promise, by the names of their clauses:
//!
//! - `owner`, `acts`: state and acts are those of `specs/Turns.antt`, a function of what the owner was, the time and the task. So a run is a function of its
//!   seed and of what is answered and noticed. The values below it equal their definitions: `specs/Members.antt`, `specs/Asked.antt`, `specs/Agents.antt`,
//!   `specs/Messages.antt`, `specs/Times.antt`.
//! - Readings are sent by meters that have joined and have power, what was asked for by meters with power, and questions and receipts go to meters that have
//!   joined (`only_members_send`).
//! - Where routes are given anew, no round of readings begins with older ones than was said (`rounds_are_fresh`), and they are given anew once in such a
//!   span of time (`spans_have_one`).
//! - The agent that is picked has joined and has power, and it and the meter hear each other (`within_reach`). Agents come in the order of their weights,
//!   and then of their numbers (`agents_come_in_order`).
//! - A message is read as it was written (`written_messages_are_read`), as long as meter and round fit into two octets each.
//! - Where memory runs out, nothing is said of the owner but that it is safe to drop; the readings stay as they were.
#![tactic(auto)]

mod acts;
mod agents;
mod asked;
mod changes;
mod joins;
mod laws;
mod member;
mod messages;
mod owner;
mod reads;
mod settings;
mod setup;
mod times;
mod turns;

pub use acts::{Act, Acts, Command, Notice, Outcome, Saying, Task};
pub use agents::{Agent, agent_of_turn, agents_come_in_order};
pub use asked::{Asked, Reading};
pub use laws::{only_members_send, rounds_are_fresh, spans_have_one};
pub use member::{Choice, Member, Members, Phase, more};
pub use messages::{Kind, Message, written_messages_are_read};
pub use owner::{Change, Owner, Polls};
pub use settings::Settings;
pub use times::{later, micros};
