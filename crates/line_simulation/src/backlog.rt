//! What is to be done before the next moment of the calendar, as a stack.
ghost use Rattle.std.specs.Prelude.{◌≡◌, ◌∷◌, [], List, None, OnOk, Option, Some};
ghost use Rattle.line_simulation.specs.declared.work.PendingWork.{PendingWork as WorkItem};

use crate::work::PendingWork;
use std::alloc::{AllocError, Global};
use std::marker::Model;

/// What is to be done before the next moment of the calendar. A contract sees the list of it, what comes next first.
#[derive(Drop)]
pub struct Backlog {
    // What comes next stands last.
    work: Vec<PendingWork>,
}

impl Model for Backlog {
    ghost use Rattle.std.specs.Prelude.{List, reverse};
    ghost use Rattle.line_simulation.specs.declared.work.PendingWork.{PendingWork};

    ghost Value = { List PendingWork };

    ghost view = { λ b. reverse b.work.items };
}

impl Backlog {
    /// Nothing is to be done.
    pub fn new(alloc: Global) -> Backlog
        ensures { result ≡ [] }
    {
        Backlog {
            work: Vec::new(alloc),
        }
    }

    /// Something is to be done next, before all else.
    pub fn push(&mut self, work: PendingWork) -> Result<(), AllocError>
        ensures { OnOk result (self.new ≡ work ∷ self.old) }
    {
        self.work.push(work)?;
        Ok(())
    }

    /// Takes out what comes next.
    pub fn pop(&mut self) -> Option<PendingWork>
        ensures first { self.old ≡ elim result as (λ _. List WorkItem) [ None ↦ self.new | Some w ↦ w ∷ self.new ] }
        ensures none { result ≡ None → self.old ≡ [] }
    {
        self.work.pop()
    }
}
