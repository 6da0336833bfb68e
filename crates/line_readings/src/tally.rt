//! How often each cause comes.

use crate::cause::Reason;
use sentence_parts::{number, push_parts, words};
use std::alloc::{AllocError, Global};

// How often a reason comes.
#[derive(Clone, Copy)]
struct Count {
    reason: Reason,
    count: usize,
}

/// How often each reason comes, in the order in which they came first.
#[derive(Drop)]
pub struct Tally {
    counts: Vec<Count>,
}

// Counts a reason where it is among those that came.
fn count_again(counts: &mut [Count], reason: Reason) -> bool {
    for i in 0..counts.len() {
        let old = counts[i];
        if old.reason == reason {
            counts[i] = Count {
                reason,
                count: old.count.saturating_add(1),
            };
            return true;
        }
    }
    false
}

impl Tally {
    /// Of no reason. It takes no memory.
    pub fn new(alloc: Global) -> Tally {
        Tally {
            counts: Vec::new(alloc),
        }
    }

    /// Counts a reason. It fails only where memory runs out, and nothing changes then.
    pub fn count(&mut self, reason: Reason) -> Result<(), AllocError> {
        if count_again(self.counts.as_mut_slice(), reason) {
            return Ok(());
        }
        self.counts.push(Count { reason, count: 1 })?;
        Ok(())
    }

    /// `WORD:COUNT` of each, with spaces between. It fails only where memory runs out.
    pub fn text(&self, alloc: Global) -> Result<String, AllocError> {
        let mut text = String::new(alloc);
        for it in &self.counts {
            push_count(&mut text, alloc, it)?;
        }
        Ok(text)
    }
}

// Appends a reason with its count, after a space where it is not the first.
fn push_count(text: &mut String, alloc: Global, it: &Count) -> Result<(), AllocError> {
    if !text.is_empty() {
        text.push_str(" ")?;
    }
    push_parts(
        text,
        alloc,
        &[words(it.reason.word()), words(":"), number(it.count)],
    )
}
