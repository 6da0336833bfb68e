//! What is to be done before the next moment of the calendar.
use crate::facts::Facts;
use line_owner::{Act, Command, Notice, Outcome, Task};
use plan_tables::Leaves;
use std::alloc::{AllocError, AllocFailed};

/// What is to be done before the next moment of the calendar.
#[derive(Clone, Copy, Debug)]
pub enum PendingWork {
    /// An act of the owner's.
    Act(Act),
    /// A task of the owner's.
    Task(Task),
    /// The owner goes on after a command.
    Answered(Command, Outcome),
    /// The owner notices what a frame brought.
    Notice(Notice),
    /// What an event brought is taken up, where the frame that it took had gone this many hops.
    Facts(Facts, u32),
    /// A flight goes to the queue of its sender, after this many hops.
    Fly(u32, u32),
    /// A message came up at a node, after this many hops.
    Came(crate::facts::Came, u32),
    /// A node loses the route over a neighbour.
    Break(u32, u32),
    /// A node and those around it go on sending.
    GoOn(u32),
    /// The power of a node fails in a write to come.
    Tear(u32, u16, Leaves),
    /// A meter is shut out.
    Kick(u32),
    /// An attacker gives a node this many frames that it heard.
    Replay(u32, u32),
    /// An attacker gives a node what it kept from it.
    Release(u32),
    /// An attacker gives a node a flight that it kept, which costs this much.
    Inject(u32, u8, u32),
    /// An attacker asks to join in the name of a meter.
    FalseJoin(u32),
}

/// What a moment of the calendar is.
#[derive(Clone, Copy, Debug)]
pub enum Job {
    /// A task of the owner's.
    Task(Task),
    /// What the description says at its nth `[[at]]`.
    Incident(usize),
    /// An attacker gives a node what it kept from it.
    Release(u32),
}

/// Why a run ends before its time.
#[derive(Clone, Copy, Debug, PartialEq, Eq)]
pub enum Stop {
    /// The script is full, or nothing comes to an end.
    Limit,
    Memory,
}

impl From<AllocError> for Stop {
    ghost use Rattle.std.specs.Prelude.{◌≡◌};
    ghost use Rattle.line_simulation.specs.declared.work.Stop.TheVariants.{Memory};

    ghost from_gives = { λ _ stop. stop ≡ Memory };

    fn from(_: AllocError) -> Stop {
        Stop::Memory
    }
}

impl<T: Drop> From<AllocFailed<T>> for Stop {
    ghost use Rattle.std.specs.Prelude.{◌≡◌};
    ghost use Rattle.line_simulation.specs.declared.work.Stop.TheVariants.{Memory};

    ghost from_gives = { λ _ stop. stop ≡ Memory };

    fn from(_: AllocFailed<T>) -> Stop {
        Stop::Memory
    }
}
