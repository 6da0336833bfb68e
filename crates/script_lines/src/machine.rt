//! The run over a machine.
ghost use Rattle.std.specs.Prelude.{◌≡◌, [], List, ℕ, false};
ghost use Rattle.std.specs.Io.KnownBytes.{IsAtEnd};
ghost use Rattle.script_lines.specs.Lines.{Content, TooMuch};
ghost use Rattle.script_lines.specs.Next.{content_found};
ghost use Rattle.script_lines.specs.Outcomes.{Turn, outcome};
ghost use Rattle.script_lines.specs.Clauses.{IsWritten, Turned, IsStop, Drives};
ghost use Rattle.plc_base.specs.Streams.{SourceState, SinkState};

use crate::input::{Input, LineKind};
use crate::text_output::StopReason;
use crate::window::Window;
use plc_base::{Failed, Sink, Source};
use std::alloc::Global;

/// How a run ended.
#[derive(Clone, Copy, Debug, PartialEq, Eq)]
pub enum Exit {
    /// The input was read to its end, and the text at the end was written.
    Fine,
    /// A line is bad. Its report was written, and no line after it was taken.
    BadScript,
    /// There was not enough memory: before anything was read, or as at `WriteFault`.
    Memory,
    /// The source failed. The text of all whole lines before was written.
    ReadFault,
    /// The sink failed. The text of all lines before one line was written, and a prefix of that line's.
    WriteFault,
}

impl From<StopReason> for Exit {
    ghost use Rattle.script_lines.specs.Clauses.{exit_of};

    ghost from_gives = { λ reason exit. exit ≡ exit_of reason };

    fn from(reason: StopReason) -> Exit {
        match reason {
            StopReason::BadLine => Exit::BadScript,
            StopReason::Memory => Exit::Memory,
            StopReason::WriteFault => Exit::WriteFault,
        }
    }
}

/// What takes the lines of a script one by one.
pub trait LineMachine {
    /// What a line of this number does, from this state on.
    ghost turn: { Self → ℕ → Content → Turn Self };

    /// The text at the end of input.
    ghost end_text: { Self → List ℕ };

    /// Gives the line of this number its turn, whose octets these are where it is a text, and writes its report.
    ///
    /// `BadLine` where the line is bad, `WriteFault` where the sink failed, `Memory` where memory ran out. The machine is not
    /// used again after an error.
    fn take<K: Sink>(
        &mut self,
        number: u32,
        kind: LineKind,
        line: &[u8],
        sink: &mut K,
    ) -> Result<(), StopReason>
        ensures { Turned (K.state sink.old) (K.state sink.new) self.old self.new
            (turn self.old number (content_found line.now kind)) result };

    /// Writes the text at the end of input. `WriteFault` where the sink failed, `Memory` where memory ran out; never `BadLine`.
    fn finish<K: Sink>(&self, sink: &mut K) -> Result<(), StopReason>
        ensures { IsWritten (K.state sink.old) (K.state sink.new) (end_text self.now) result };

    /// The octet that is too much makes its line bad.
    ghost stops: { (m : Self) (number : ℕ) → IsStop (turn m number TooMuch) };
}

/// Goes through the lines.
fn follow<M: LineMachine, S: Source, K: Sink>(
    input: &mut Input,
    machine: &mut M,
    source: &mut S,
    sink: &mut K,
) -> Exit
    requires window { input.old.window.ahead ≡ [] }
    requires seen { input.old.seen ≡ 0 }
    requires count { input.old.count ≡ 0 }
    requires going { input.old.ended ≡ false }
    ensures drives { Drives (outcome M.turn M.end_text machine.old) machine.new
        (S.state source.old) (S.state source.new) (K.state sink.old) (K.state sink.new) result }
    ensures whole { result ≡ Exit.Fine → IsAtEnd ((S.state source.new).left) }
{
    loop {
        match input.next_line(source) {
            Err(Failed) => return Exit::ReadFault,
            Ok(None) => {
                return match machine.finish(sink) {
                    Ok(()) => Exit::Fine,
                    Err(reason) => Exit::from(reason),
                };
            }
            Ok(Some(kind)) => match take_line(machine, input.count, kind, &input.window, sink) {
                Ok(()) => {}
                Err(reason) => return Exit::from(reason),
            },
        }
    }
}

fn take_line<M: LineMachine, K: Sink>(
    machine: &mut M,
    number: u32,
    kind: LineKind,
    window: &Window,
    sink: &mut K,
) -> Result<(), StopReason>
    ensures { Turned (K.state sink.old) (K.state sink.new) machine.old machine.new
        (M.turn machine.old number (content_found window.now.line kind)) result }
{
    machine.take(number, kind, window.line(), sink)
}

/// Reads a script from the source line by line, and writes the report of a machine to the sink.
///
/// The report of a line is written before the next one is taken. Where the run ends at a line, since it is bad, the sink failed or
/// memory ran out, the reports of all lines before it were written whole, and at most 8,192 octets after it were read. At the end
/// of input the machine is left in the state after the last line; in what state it is left otherwise is not said.
///
/// Where no read of the source and no write of the sink is to fail, and the sink has room for the whole report, neither count of
/// faults changes.
pub fn run<M: LineMachine, S: Source, K: Sink>(
    alloc: Global,
    machine: &mut M,
    source: &mut S,
    sink: &mut K,
) -> Exit
    ensures drives { Drives (outcome M.turn M.end_text machine.old) machine.new
        (S.state source.old) (S.state source.new) (K.state sink.old) (K.state sink.new) result }
    ensures whole { result ≡ Exit.Fine → IsAtEnd ((S.state source.new).left) }
{
    let mut input = match Input::new(alloc) {
        Ok(input) => input,
        Err(_) => return Exit::Memory,
    };
    follow(&mut input, machine, source, sink)
}

/// A run may end without memory before anything is read: its text is then the empty prefix. For a caller that has no memory for the machine itself.
pub fn a_run_may_end_without_memory<M: LineMachine>()
    ensures { (machine : M) (source : SourceState) (sink : SinkState)
        → Drives (outcome M.turn M.end_text machine) machine source source sink sink Exit.Memory }
{}
