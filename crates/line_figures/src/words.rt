//! How often events ended with each answer.
use serde::Serialize;
use std::alloc::{AllocError, Global};
use std::collections::BTreeMap;

/// How often events of a kind ended with an answer.
#[derive(Drop, Debug, Serialize)]
pub struct WordCount {
    pub event: &'static str,
    pub answer: &'static str,
    pub count: u64,
}

/// How often events ended with each answer, by the words of both.
#[derive(Drop)]
pub struct WordCounts {
    counts: BTreeMap<(&'static str, &'static str), u64>,
}

impl WordCounts {
    pub(crate) fn new(alloc: Global) -> WordCounts {
        WordCounts {
            counts: BTreeMap::new(alloc),
        }
    }

    /// An event ended with an answer.
    pub fn count(&mut self, event: &'static str, answer: &'static str) -> Result<(), AllocError> {
        let before = match self.counts.remove(&(event, answer)) {
            Some(count) => count,
            None => 0,
        };
        self.counts
            .insert((event, answer), before.saturating_add(1))?;
        Ok(())
    }

    pub(crate) fn list(&self, alloc: Global) -> Result<Vec<WordCount>, AllocError> {
        let mut list = Vec::new(alloc);
        for (words, count) in self.counts.iter() {
            list.push(WordCount {
                event: words.0,
                answer: words.1,
                count: *count,
            })?;
        }
        Ok(list)
    }
}
