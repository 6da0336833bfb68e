//! The lines of a source, through a window.
ghost use Rattle.std.specs.Prelude.{◌≡◌, ◌+◌, ◌<◌, ◌≤◌, [], length, take, IfOk, false};
ghost use Rattle.plc_base.specs.Streams.{ReadFaults};
ghost use Rattle.script_lines.specs.Lines.{NoFeed};
ghost use Rattle.script_lines.specs.Windows.{window_after};
ghost use Rattle.script_lines.specs.Next.{NextLine, StaysOver, Refills, Shed, FeedIs, FoundIs, kind_by, last_kind, last_count};

use crate::window::{MAX_LINE, Window};
use memchr::memchr;
use plc_base::{Failed, Source};
use std::alloc::{AllocError, Global};

/// A script has at most this many octets.
pub const MAX_INPUT: u32 = 67_108_864;

/// What was found: a line, one that is too long, or the octet that is too much.
#[derive(Clone, Copy, Debug, PartialEq, Eq)]
pub enum LineKind {
    /// A line of at most 4,096 octets, which stand in the window.
    Text,
    /// A line of more octets. They were counted and not kept.
    Long,
    /// The octet after the last that a script may have. No line follows.
    TooMuch,
}

/// What stands first among the octets ahead.
#[derive(Clone, Copy)]
pub enum Found {
    /// A line feed after this many other octets.
    Feed(usize),
    /// No line feed among those that may be used, and more octets.
    PastRoom,
    /// No line feed.
    Neither,
}

/// Looks for a line feed among the octets from `clear` up to `end`, where those before them are none.
fn find_feed(octets: &[u8], clear: usize, end: usize) -> Option<usize>
    requires order { clear ≤ end }
    requires within { end ≤ length octets.now }
    requires none { NoFeed (take clear octets.now) }
    ensures { FeedIs octets.now end result }
{
    match memchr(b'\n', &octets[clear..end]) {
        Some(at) => Some(clear + at),
        None => None,
    }
}

/// Looks for what stands first, where `clear` octets are known to be no line feeds and `room` octets may be used.
fn look(window: &Window, clear: usize, room: usize) -> Found
    requires clear { clear ≤ length window.now.ahead }
    requires within { clear ≤ room }
    requires none { NoFeed (take clear window.now.ahead) }
    ensures { FoundIs window.now.ahead room result }
{
    let octets = window.ahead();
    let end = octets.len().min(room);
    match find_feed(octets, clear, end) {
        Some(at) => Found::Feed(at),
        None if end < octets.len() => Found::PastRoom,
        None => Found::Neither,
    }
}

/// The kind of a line of which this many octets stand in the window, and more before them where it is `long`.
fn kind_by(long: bool, count: usize) -> LineKind
    ensures { result ≡ kind_by long count }
{
    if long || count > MAX_LINE {
        LineKind::Long
    } else {
        LineKind::Text
    }
}

/// How far a source was read.
#[derive(Drop)]
pub struct Input {
    /// The line that was found last, and the octets that were read and are not used yet, at most 8,192.
    pub window: Window,
    /// How many octets were used.
    pub seen: u32,
    /// How many lines were taken: the number of the last one.
    pub count: u32,
    /// Whether a read has answered the end of input.
    pub ended: bool,
    ghost bounded: { length window.ahead ≤ 8192 },
    ghost counted: { count ≤ seen },
    ghost within: { seen ≤ 67108865 },
}

impl Input {
    /// Nothing read yet. It takes the memory of the window.
    pub fn new(alloc: Global) -> Result<Input, AllocError>
        ensures window { IfOk result (λ input. input.window.ahead ≡ []) }
        ensures seen { IfOk result (λ input. input.seen ≡ 0) }
        ensures count { IfOk result (λ input. input.count ≡ 0) }
        ensures ended { IfOk result (λ input. input.ended ≡ false) }
    {
        Ok(Input {
            window: Window::new(alloc)?,
            seen: 0,
            count: 0,
            ended: false,
        })
    }

    /// Finds the next line. After an `Err` the input is not used again.
    pub fn next_line<S: Source>(&mut self, source: &mut S) -> Result<Option<LineKind>, Failed>
        requires { self.old.seen ≤ 67108864 }
        ensures next { NextLine (S.state source.old) (S.state source.new)
            self.old.seen self.old.count self.old.window.ahead self.old.ended
            self.new.seen self.new.count self.new.window.ahead self.new.ended self.new.window.line result }
        ensures over { StaysOver self.old.ended self.new.ended (S.state source.old) (S.state source.new) }
        ensures faults { ReadFaults (S.state source.old) (S.state source.new) result }
    {
        let begin = self.seen;
        let mut long = false;
        let mut clear = 0;
        loop {
            let room = (MAX_INPUT - self.seen) as usize;
            match look(&self.window, clear, room) {
                Found::Feed(at) => return Ok(Some(self.take_line(at, long))),
                Found::PastRoom => return Ok(Some(self.take_too_much(room))),
                Found::Neither => {}
            }
            if self.ended {
                return Ok(self.take_last(begin, long));
            }
            long = self.shed(long);
            clear = self.window.len();
            self.refill(source)?;
        }
    }

    /// Takes the line that a line feed after this many octets ends.
    fn take_line(&mut self, at: usize, long: bool) -> LineKind
        requires there { at < length self.old.window.ahead }
        requires room { self.old.seen + at < 67108864 }
        ensures kind { result ≡ kind_by long at }
        ensures window { self.new.window ≡ window_after self.old.window at (at + 1) }
        ensures seen { self.new.seen ≡ self.old.seen + at + 1 }
        ensures count { self.new.count ≡ self.old.count + 1 }
        ensures ended { self.new.ended ≡ self.old.ended }
    {
        self.window.pass(at, at + 1);
        self.seen += at as u32 + 1;
        self.count += 1;
        kind_by(long, at)
    }

    /// Takes the octet that is too much, after this many others.
    fn take_too_much(&mut self, room: usize) -> LineKind
        requires there { room < length self.old.window.ahead }
        requires last { self.old.seen + room ≡ 67108864 }
        ensures kind { result ≡ LineKind.TooMuch }
        ensures window { self.new.window ≡ window_after self.old.window room (room + 1) }
        ensures count { self.new.count ≡ self.old.count + 1 }
        ensures ended { self.new.ended ≡ self.old.ended }
    {
        self.window.pass(room, room + 1);
        self.seen = MAX_INPUT + 1;
        self.count += 1;
        LineKind::TooMuch
    }

    /// Takes the line that the end of input ends, if it has an octet: all that is ahead.
    fn take_last(&mut self, begin: u32, long: bool) -> Option<LineKind>
        requires counted { self.old.count ≤ begin }
        requires begun { begin ≤ self.old.seen }
        requires room { self.old.seen + length self.old.window.ahead ≤ 67108864 }
        ensures kind { result ≡ last_kind begin self.old.seen long (length self.old.window.ahead) }
        ensures window { self.new.window
            ≡ window_after self.old.window (length self.old.window.ahead) (length self.old.window.ahead) }
        ensures seen { self.new.seen ≡ self.old.seen + length self.old.window.ahead }
        ensures count { self.new.count ≡ last_count begin self.old.seen self.old.count (length self.old.window.ahead) }
        ensures ended { self.new.ended ≡ self.old.ended }
    {
        let count = self.window.len();
        self.window.pass(count, count);
        self.seen += count as u32;
        if begin == self.seen {
            return None;
        }
        self.count += 1;
        Some(kind_by(long, count))
    }

    /// Uses all that is ahead where it is more than a line may have. Answers whether the line is too long.
    fn shed(&mut self, long: bool) -> bool
        requires room { self.old.seen + length self.old.window.ahead ≤ 67108864 }
        ensures shed { Shed self.old.seen self.new.seen self.old.window.ahead self.new.window.ahead long result }
        ensures count { self.new.count ≡ self.old.count }
        ensures ended { self.new.ended ≡ self.old.ended }
    {
        let count = self.window.len();
        if count <= MAX_LINE {
            return long;
        }
        self.window.pass(count, count);
        self.seen += count as u32;
        true
    }

    /// Reads once, after the octets ahead.
    fn refill<S: Source>(&mut self, source: &mut S) -> Result<(), Failed>
        requires room { length self.old.window.ahead < 8192 }
        requires going { self.old.ended ≡ false }
        ensures refills { Refills (S.state source.old) (S.state source.new)
            self.old.window.ahead self.new.window.ahead self.new.ended result }
        ensures seen { self.new.seen ≡ self.old.seen }
        ensures count { self.new.count ≡ self.old.count }
    {
        let count = self.window.fill(source)?;
        self.ended = count == 0;
        Ok(())
    }
}
