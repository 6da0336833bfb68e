//! What the owner of a line does, as plain values.

use crate::messages::Message;

/// What the owner does at a time, or at once after something else.
#[derive(Clone, Copy, Debug, PartialEq, Eq)]
pub enum Task {
    /// The meters from this one on are made, and the spare one after them.
    Make(u32),
    /// The meters from this one on are joined in the workshop, or allowed.
    Enter(u32),
    /// The meters from this one on draw when they join.
    DrawJoins(u32),
    /// The rounds of readings from this one on are put.
    PutRounds(u32),
    /// The meters from the second on draw when they send in a round, the first.
    DrawReads(u32, u32),
    /// A node is given random values until it holds this many, the second.
    Give(u32, u32),
    /// A meter tries to join.
    TryJoin(u32),
    /// A meter sends its reading of a round.
    Read(u32, u32),
    /// A reading is tried again later, where it has to be.
    ReadLater(u32, u32),
    /// The coordinator gives every node a route to itself.
    Refresh,
    /// All meters are to be asked for a round.
    BeginPolls(u32),
    /// This many meters more are asked.
    OpenPolls(u64),
    /// The next meter is asked.
    NextPoll,
    /// A meter is asked for a round.
    Poll(u32, u32),
    /// The coordinator answers a reading.
    Answer(u32, u32),
    /// A meter sends what was asked for.
    Reply(u32, u32),
    /// The key at an index is changed.
    BeginChange(u8),
    /// This many meters more are challenged.
    OpenChallenges(u64),
    /// The next meter is challenged.
    NextChallenge,
    /// A meter is challenged.
    Challenge(u32),
    /// The meter with this many before it is ordered to the new key, in so manieth an order.
    Order(u32, u64),
    /// The coordinator seals with the new key.
    EndChange,
    /// The power of a node fails for this many seconds.
    Fail(u32, u64),
    /// The power of a node comes back.
    Restore(u32),
}

/// An event that the owner asks for.
#[derive(Clone, Copy, Debug, PartialEq, Eq)]
pub enum Command {
    /// The coordinator is made, with its group key.
    Coordinator([u8; 16]),
    /// A meter is made, with its pair key.
    Meter(u32, [u8; 16]),
    /// A meter is joined in the workshop.
    Depot(u32),
    /// A meter is allowed.
    Allow(u32),
    /// A node is given a random value; it is to hold this many, the second.
    RandomOctets(u32, u32, [u8; 16]),
    /// A meter asks to join by an agent, the second.
    Join(u32, u32),
    /// A meter leaves.
    Leave(u32),
    /// A message is sent.
    Tell(Message),
    /// The coordinator sends to the spare meter, which is on no line.
    Seek,
    /// A group key is drawn for an index.
    Rekey(u8, [u8; 16]),
    /// A meter is challenged.
    Challenge(u32),
    /// A node seals with the key at an index from now on.
    Activate(u32, u8),
    /// The same, where a refusal becomes a remark.
    Order(u32, u8),
    /// A node restarts.
    Restart(u32),
}

/// What the owner remarks.
#[derive(Clone, Copy, Debug, PartialEq, Eq)]
pub enum Saying {
    /// The last command was refused.
    Refused(Command),
    /// A meter gives up its keys and joins again.
    Leaves(u32),
    /// A meter was not reached in this many challenges.
    Unreached(u32, u64),
    /// A key was drawn for an index, or it was not.
    KeyDrawn(u8),
    /// A meter got the message to leave.
    ToldToLeave(u32),
}

/// What the owner does.
#[derive(Clone, Copy, Debug, PartialEq, Eq)]
pub enum Act {
    /// An event is stepped, and its outcome answered.
    Step(Command),
    /// A task is put on the calendar, at a time in microseconds.
    Put(u64, Task),
    /// A task is done at once, with all that it leads to, before what follows.
    Do(Task),
    /// A remark is written.
    Say(Saying),
    /// A node has no power for this many seconds: its queue is gone.
    Dark(u32, u64),
}

/// What a turn of the owner brings, in its order.
#[derive(Clone, Copy, Debug, PartialEq, Eq)]
pub enum Acts {
    Nothing,
    One(Act),
    Two(Act, Act),
    Three(Act, Act, Act),
    Four(Act, Act, Act, Act),
}

/// How a command ended.
#[derive(Clone, Copy, Debug, PartialEq, Eq)]
pub enum Outcome {
    Taken,
    Refused,
    /// A write of the store failed: the node is halted.
    StoreFailed,
}

/// What the owner notices of what frames bring.
#[derive(Clone, Copy, Debug, PartialEq, Eq)]
pub enum Notice {
    /// The coordinator answered a request to join: it spent a random value.
    Challenged,
    /// A meter answered a challenge: it spent a random value.
    Replied(u32),
    /// A meter got the message to leave.
    ToldToLeave(u32),
    /// A write of a node's store failed.
    StoreFailed(u32),
    /// A message came up at a node.
    Came(u32, Message),
    /// A meter took its grant.
    Took(u32),
    /// The joining of a meter, or the change of its key, is done.
    Done(u32),
    /// The power of a node fails in one of its next writes, for this many seconds.
    Torn(u32, u64),
}
