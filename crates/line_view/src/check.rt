//! `check`: what is wrong with a script, line by line.
ghost use Rattle.std.specs.Prelude.{◌≡◌, IfOk, string_bytes};
ghost use Rattle.script_lines.specs.Clauses.{Turned};
ghost use Rattle.script_lines.specs.Lines.{Text, Long, TooMuch};
ghost use Rattle.line_view.specs.CheckRuns.{checking, end_of, is_bad, stops_at_too_much, turn_of};

use crate::bad_line::bad_line;
use crate::checker::Checker;
use line_script::LINE_OCTETS;
use plc_base::Sink;
use script_lines::{LineKind, LineMachine, StopReason, write_made, write_text};
use std::alloc::{AllocError, Global};
use std::marker::Model;

/// Takes the lines of a script, and writes what is wrong with each before the next one is taken. A contract sees where it stands.
#[derive(Drop)]
pub struct Check {
    alloc: Global,
    checker: Checker,
    // Where the octets are that a line holds in hexadecimal.
    octets: [u8; LINE_OCTETS],
    // What is written of the last line.
    text: String,
}

impl Model for Check {
    ghost use Rattle.std.specs.Coded.{codes};
    ghost use Rattle.line_world.specs.WorldCodes.{world_code};
    ghost use Rattle.line_view.specs.CheckRuns.{CheckRun};

    ghost Value = { CheckRun };

    ghost coded = { Prim.hlevel (codes, world_code) };

    ghost view = { λ c. c.checker };
}

impl Check {
    /// No line so far. It fails only where there is no memory for it.
    pub fn new(alloc: Global, json: bool) -> Result<Check, AllocError>
        ensures { IfOk result (λ check. check ≡ checking json) }
    {
        let checker = Checker::new(alloc, json)?;
        Ok(Check {
            alloc,
            checker,
            octets: [0; LINE_OCTETS],
            text: String::new(alloc),
        })
    }

    /// Whether a line is bad.
    pub fn is_bad(&self) -> bool
        ensures { result ≡ is_bad self.now }
    {
        self.checker.is_bad()
    }

    fn take_text<K: Sink>(
        &mut self,
        number: u32,
        line: &[u8],
        sink: &mut K,
    ) -> Result<(), StopReason>
        ensures { Turned (K.state sink.old) (K.state sink.new) self.old self.new (turn_of self.old number (Text line.now)) result }
    {
        self.text.clear();
        let Ok(()) = self
            .checker
            .look(&mut self.octets, &mut self.text, number, line)
        else {
            return Err(StopReason::Memory);
        };
        write_made(sink, Ok(()), self.text.as_str())
    }

    fn take_long<K: Sink>(&mut self, number: u32, sink: &mut K) -> Result<(), StopReason>
        ensures { Turned (K.state sink.old) (K.state sink.new) self.old self.new (turn_of self.old number Long) result }
    {
        self.text.clear();
        let Ok(()) = self.checker.look_at_long(&mut self.text, number) else {
            return Err(StopReason::Memory);
        };
        write_made(sink, Ok(()), self.text.as_str())
    }

    fn take_too_much<K: Sink>(&mut self, number: u32, sink: &mut K) -> Result<(), StopReason>
        ensures { Turned (K.state sink.old) (K.state sink.new) self.old self.new (turn_of self.old number TooMuch) result }
    {
        self.text.clear();
        let Ok(()) = self.checker.look_at_too_much(&mut self.text, number) else {
            return Err(StopReason::Memory);
        };
        bad_line(write_made(sink, Ok(()), self.text.as_str()))
    }

    fn end_text(&self) -> Result<String, AllocError>
        ensures { IfOk result (λ text. string_bytes text ≡ end_of self.now) }
    {
        let mut text = String::new(self.alloc);
        self.checker.push_end(&mut text)?;
        Ok(text)
    }
}

impl LineMachine for Check {
    ghost turn = { turn_of };

    ghost end_text = { end_of };

    ghost stops = { stops_at_too_much };

    fn take<K: Sink>(
        &mut self,
        number: u32,
        kind: LineKind,
        line: &[u8],
        sink: &mut K,
    ) -> Result<(), StopReason> {
        match kind {
            LineKind::Text => self.take_text(number, line, sink),
            LineKind::Long => self.take_long(number, sink),
            LineKind::TooMuch => self.take_too_much(number, sink),
        }
    }

    fn finish<K: Sink>(&self, sink: &mut K) -> Result<(), StopReason> {
        write_text(sink, self.end_text())
    }
}
