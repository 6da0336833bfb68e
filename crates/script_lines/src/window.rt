//! The octets of a source that were read ahead, and the line that was found last.
ghost use Rattle.std.specs.Prelude.{◌≡◌, ◌+◌, ◌-◌, ◌<◌, ◌≤◌, [], length, take, slice_range, IfOk};
ghost use Rattle.script_lines.specs.Windows.{window_after};
ghost use Rattle.script_lines.specs.Next.{Fills, count_read};

use plc_base::{Failed, Source};
use std::alloc::{AllocError, Global};
use std::marker::Model;

/// At most this many octets are read ahead.
pub const WINDOW: usize = 8192;

/// A line has at most this many octets.
pub const MAX_LINE: usize = 4096;

/// The octets that were read and are not used yet, at most 8,192, and the line that was found last.
///
/// Both stand where they were read, in a buffer for twice as many octets. Before a read, what is ahead moves to the front where it begins in the second
/// half, so never onto itself; the line is gone after a read. A contract sees the line and the octets ahead.
#[derive(Drop)]
pub struct Window {
    octets: Vec<u8>,
    // Where the line begins and ends.
    line: usize,
    line_end: usize,
    // Where what is ahead begins and ends.
    first: usize,
    end: usize,
}

impl Model for Window {
    ghost use Rattle.script_lines.specs.Windows.{Window, IsHeld, window_of};

    ghost Value = { Window };

    ghost view = { λ w. window_of w.octets.items w.line w.line_end w.first w.end };

    ghost invariant = { λ w. IsHeld w.octets.items w.line w.line_end w.first w.end };
}

// Moves the octets of a range to the front, onto none of themselves.
fn move_to_front(octets: &mut [u8], first: usize, end: usize)
    requires order { first ≤ end }
    requires apart { end ≤ first + first }
    requires within { end ≤ length octets.old }
    ensures front { take (end - first) octets.new ≡ slice_range octets.old first end }
    ensures length { length octets.new ≡ length octets.old }
{
    let count = end - first;
    let (front, back) = octets.split_at_mut(first);
    front[..count].copy_from_slice(&back[..count]);
}

// Reads once, after the octets of a range that is not full.
fn read_behind<S: Source>(
    octets: &mut [u8],
    first: usize,
    end: usize,
    source: &mut S,
) -> Result<usize, Failed>
    requires order { first ≤ end }
    requires room { end < first + WINDOW }
    requires within { first + WINDOW ≤ length octets.old }
    ensures fills { Fills (S.state source.old) (S.state source.new) (slice_range octets.old first end)
        (slice_range octets.new first (end + count_read result)) result }
    ensures bound { end + count_read result ≤ first + WINDOW }
    ensures length { length octets.new ≡ length octets.old }
{
    source.read(&mut octets[end..first + WINDOW])
}

impl Window {
    /// No octet. It takes the memory of the buffer.
    pub fn new(alloc: Global) -> Result<Window, AllocError>
        ensures { IfOk result (λ window. window ≡ record { line = []; ahead = [] }) }
    {
        Ok(Window {
            octets: Vec::from_elem(alloc, 0u8, 2 * WINDOW)?,
            line: 0,
            line_end: 0,
            first: 0,
            end: 0,
        })
    }

    /// The line that was found last.
    pub fn line(&self) -> &[u8]
        ensures { result.now ≡ self.now.line }
    {
        &self.octets[self.line..self.line_end]
    }

    /// How many octets are not used yet.
    pub fn len(&self) -> usize
        ensures len { result ≡ length self.now.ahead }
        ensures fits { length self.now.ahead ≤ WINDOW }
    {
        self.end - self.first
    }

    /// The octets that are not used yet.
    pub fn ahead(&self) -> &[u8]
        ensures { result.now ≡ self.now.ahead }
    {
        &self.octets[self.first..self.end]
    }

    /// Makes the first octets the line, but not more than 4,096 of them, and uses these and maybe more.
    pub fn pass(&mut self, line: usize, used: usize)
        requires line { line ≤ used }
        requires used { used ≤ length self.old.ahead }
        ensures { self.new ≡ window_after self.old line used }
    {
        self.line = self.first;
        self.line_end = self.first + line.min(MAX_LINE);
        self.first += used;
    }

    /// Reads once, after the octets ahead, of which there are fewer than 8,192. Answers how many octets came: none at the end of
    /// input. The line is gone.
    pub fn fill<S: Source>(&mut self, source: &mut S) -> Result<usize, Failed>
        requires room { length self.old.ahead < WINDOW }
        ensures fills { Fills (S.state source.old) (S.state source.new) self.old.ahead self.new.ahead result }
        ensures bound { length self.new.ahead ≤ WINDOW }
        ensures line { self.new.line ≡ [] }
    {
        self.line_end = self.line;
        if self.first >= WINDOW {
            move_to_front(&mut self.octets, self.first, self.end);
            self.end -= self.first;
            self.first = 0;
        }
        let count = read_behind(&mut self.octets, self.first, self.end, source)?;
        self.end += count;
        Ok(count)
    }
}
