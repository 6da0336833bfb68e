//! Numbers of events and flights, in lists by story and by flight.
ghost use Rattle.std.specs.Prelude.{◌≡◌, ◌-◌, [], IfOk, OnOk, length, slice_get};
ghost use Rattle.line_record.specs.Lists.{changed_at};
ghost use Rattle.line_record.specs.RunRecords.{numbered};
ghost use Rattle.story_accounts.specs.Indexes as indexes;

use std::alloc::{AllocError, Global};
use std::marker::Model;

/// Numbers of events or flights, each from 1.
#[derive(Drop)]
pub struct Numbers {
    numbers: Vec<usize>,
}

impl Model for Numbers {
    ghost use Rattle.std.specs.Prelude.{List, ℕ};

    ghost Value = { List ℕ };

    ghost view = { λ n. n.numbers.items };
}

impl Numbers {
    /// None. It takes no memory.
    pub fn new(alloc: Global) -> Numbers
        ensures { result ≡ [] }
    {
        Numbers {
            numbers: Vec::new(alloc),
        }
    }

    /// The numbers, in the order in which they were added.
    pub fn as_slice(&self) -> &[usize]
        ensures { result.now ≡ self.now }
    {
        self.numbers.as_slice()
    }

    /// Adds a number.
    pub fn push(&mut self, number: usize) -> Result<(), AllocError>
        ensures { OnOk result (self.new ≡ indexes.with_number number self.old) }
    {
        self.numbers.push(number)?;
        Ok(())
    }

    fn is_last(&self, number: usize) -> bool
        ensures { result ≡ indexes.is_last number (slice_get self.now (length self.now - 1)) }
    {
        match self.numbers.last() {
            None => false,
            Some(last) => *last == number,
        }
    }

    /// Adds a number, unless it is the last one.
    pub fn push_new(&mut self, number: usize) -> Result<(), AllocError>
        ensures { OnOk result (self.new ≡ indexes.with_new_number number self.old) }
    {
        if self.is_last(number) {
            return Ok(());
        }
        self.push(number)
    }
}

/// This many lists without a number.
pub fn no_numbers(alloc: Global, count: usize) -> Result<Vec<Numbers>, AllocError>
    ensures { IfOk result (λ lists. lists.items ≡ indexes.nothing_by count) }
{
    let mut lists = Vec::new(alloc);
    for _ in 0..count {
        lists.push(Numbers::new(alloc))?;
    }
    Ok(lists)
}

/// Adds a number to the list of a story or a flight, where there is such a one.
pub fn push_at(lists: &mut Vec<Numbers>, at: usize, number: usize) -> Result<(), AllocError>
    ensures { OnOk result (lists.new.items ≡ changed_at at (indexes.with_number number) lists.old.items) }
{
    if at == 0 || at > lists.len() {
        return Ok(());
    }
    lists[at - 1].push(number)
}

/// Adds a number to the list of a story, where there is such a one and the number is not its last one.
pub fn push_new_at(lists: &mut Vec<Numbers>, at: usize, number: usize) -> Result<(), AllocError>
    ensures { OnOk result (lists.new.items ≡ changed_at at (indexes.with_new_number number) lists.old.items) }
{
    if at == 0 || at > lists.len() {
        return Ok(());
    }
    lists[at - 1].push_new(number)
}

/// What stands in a list under a number from 1. None if there is none.
pub fn numbered<T: Copy>(items: &[T], number: usize) -> Option<T>
    ensures { result ≡ numbered items.now number }
{
    if number == 0 {
        return None;
    }
    items.get(number - 1).copied()
}
