//! A line that is simulated.
use crate::backlog::Backlog;
use crate::book::Book;
use crate::recording::Recording;
use crate::work::Job;
use air_draws::Draws;
use line_air::{Air, Calendar};
use line_figures::{Figures, FrameKind};
use line_owner::{Asked, Owner};
use line_plan::Plan;
use std::alloc::Global;

/// What is known of a flight.
#[derive(Clone, Copy, Debug)]
pub struct Flown {
    pub kind: FrameKind,
    /// Which hop of its datagram it is.
    pub hops: u32,
}

/// A frame that an attacker keeps.
#[derive(Clone, Copy, Debug)]
pub struct Kept {
    /// Whom it was for.
    pub node: u32,
    pub from: u32,
    pub flight: u32,
}

/// A line that is simulated: the nodes with their script, the air, the owner, and what is due.
///
/// All that the script follows from is `state_of` it (`specs/Simulations.antt`). What is counted is no part of that.
#[derive(Drop)]
pub struct Simulation<R: Recording> {
    pub alloc: Global,
    pub recording: R,
    pub air: Air,
    pub owner: Owner,
    pub calendar: Calendar,
    pub jobs: Vec<Job>,
    pub work: Backlog,
    /// The time, in microseconds.
    pub time: u64,
    pub book: Book,
    /// What is known of the flights, in their order.
    pub flown: Vec<Flown>,
    /// The frames that attackers keep.
    pub kept: Vec<Kept>,
    /// How often readings were tried.
    pub tried: Asked,
    /// The description.
    pub plan: Plan,
    pub failures: Draws,
    pub attack: Draws,
    pub figures: Figures,
    /// When each node sent last.
    pub sent_at: Vec<u64>,
}
